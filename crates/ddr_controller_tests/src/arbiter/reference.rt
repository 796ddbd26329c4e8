//! The choice of a cycle as its definition reads: a plain program that goes through the list of all pending requests and
//! asks the command bus of each command. It calls nothing of `ddr_arbiter` and knows no banks; `chance` compares `choose`
//! with it.
use ddr_address_map::place::Place;
use ddr_address_map::request::Kind;
use ddr_arbiter::choice::Choice;
use ddr_arbiter::policy::Policy;
use ddr_legality::legality::Legality;
use ddr_trace::command::Command;
use std::alloc::{AllocError, Global};

/// The most ranks, and the most groups and banks of either.
const RANKS: u32 = 2;

const GROUPS: u32 = 4;

const BANKS: u32 = 4;

/// A pending request, as far as a choice looks at it.
#[derive(Clone, Copy, Debug)]
pub struct Waiting {
    pub kind: Kind,
    pub place: Place,
    pub admitted: u64,
}

/// What a choice looks at.
#[derive(Clone, Copy)]
pub struct Situation<'a> {
    /// The pending requests, the oldest first.
    pub waiting: &'a [Waiting],
    pub bus: &'a Legality,
    /// Of each rank, how many REFs it owes.
    pub owed: &'a [u64],
    /// How many REFs may be put off.
    pub postpone: u64,
    pub policy: Policy,
    /// Whether writes are drained.
    pub drain: bool,
    /// Whether one more request may be in flight or done.
    pub room: bool,
}

/// The choice: a refresh, else the column command of a candidate, else what opens or closes a row for one.
pub fn choice_of(alloc: Global, s: &Situation) -> Result<Choice, AllocError> {
    let refresh = refresh_choice(s);
    if refresh != Choice::Nothing {
        return Ok(refresh);
    }
    let candidates = candidates(alloc, s)?;
    match column_place(s, &candidates) {
        Some(place) => Ok(column_choice(s, place)),
        None => Ok(row_choice(s, &candidates)),
    }
}

fn is_legal(s: &Situation, command: Command) -> bool {
    s.bus.may(command).is_ok()
}

/// Whether the rank owes more REFs than may be put off.
fn is_overdue(s: &Situation, rank: u32) -> bool {
    match s.owed.get(rank as usize) {
        Some(owed) => *owed > s.postpone,
        None => false,
    }
}

/// Whether a request is pending for the rank.
fn is_wanted(s: &Situation, rank: u32) -> bool {
    for waiting in s.waiting {
        if waiting.place.rank == rank {
            return true;
        }
    }
    false
}

/// Whether the rank has to be refreshed.
fn is_forced(s: &Situation, rank: u32) -> bool {
    match s.owed.get(rank as usize) {
        Some(owed) => *owed > s.postpone || (*owed >= 1 && !is_wanted(s, rank)),
        None => false,
    }
}

fn is_group_active(s: &Situation, rank: u32, group: u32) -> bool {
    for bank in 0..BANKS {
        if s.bus.open_row(rank, group, bank).is_some() {
            return true;
        }
    }
    false
}

fn is_rank_active(s: &Situation, rank: u32) -> bool {
    for group in 0..GROUPS {
        if is_group_active(s, rank, group) {
            return true;
        }
    }
    false
}

/// REF of an idle rank, PREA of another, where that is legal.
fn refresh_at(s: &Situation, rank: u32) -> Choice {
    let active = is_rank_active(s, rank);
    if !active && is_legal(s, Command::Refresh { rank }) {
        Choice::Refresh { rank }
    } else if active && is_legal(s, Command::PreAll { rank }) {
        Choice::PreAll { rank }
    } else {
        Choice::Nothing
    }
}

/// The step of the first rank that has one, of those that are forced and owe more than may be put off, or no more.
fn refresh_of(s: &Situation, overdue: bool) -> Choice {
    for rank in 0..RANKS {
        if is_forced(s, rank) && is_overdue(s, rank) == overdue {
            let choice = refresh_at(s, rank);
            if choice != Choice::Nothing {
                return choice;
            }
        }
    }
    Choice::Nothing
}

fn refresh_choice(s: &Situation) -> Choice {
    let choice = refresh_of(s, true);
    if choice != Choice::Nothing {
        return choice;
    }
    refresh_of(s, false)
}

fn is_same_line(a: Place, b: Place) -> bool {
    is_same_row(a, b) && a.line == b.line
}

fn is_same_row(a: Place, b: Place) -> bool {
    is_same_bank(a, b) && a.row == b.row
}

fn is_same_bank(a: Place, b: Place) -> bool {
    a.rank == b.rank && a.group == b.group && a.bank == b.bank
}

/// Whether one of the oldest `place` requests has the line.
fn is_blocked(s: &Situation, place: usize, at: Place) -> bool {
    for older in s.waiting.iter().take(place) {
        if is_same_line(older.place, at) {
            return true;
        }
    }
    false
}

/// Whether the age of the oldest request has reached the cap.
fn is_capped(s: &Situation) -> bool {
    match s.waiting.get(0) {
        Some(oldest) => { s.bus.now().saturating_sub(oldest.admitted) >= u64::from(s.policy.cap) }
        None => false,
    }
}

/// The places of the requests that could be served if kinds were all the same.
fn free_places(alloc: Global, s: &Situation) -> Result<Vec<usize>, AllocError> {
    let mut places = Vec::new(alloc);
    for (place, waiting) in s.waiting.iter().enumerate() {
        let at = waiting.place;
        if !is_blocked(s, place, at) && !is_forced(s, at.rank) {
            places.push(place)?;
        }
    }
    Ok(places)
}

/// Those of the places whose requests are of the kind.
fn of_kind(
    alloc: Global,
    s: &Situation,
    places: &[usize],
    kind: Kind,
) -> Result<Vec<usize>, AllocError> {
    let mut chosen = Vec::new(alloc);
    for place in places {
        if let Some(waiting) = s.waiting.get(*place) {
            if waiting.kind == kind {
                chosen.push(*place)?;
            }
        }
    }
    Ok(chosen)
}

/// The oldest alone, which is at the cap, where its rank is not forced.
fn oldest_alone(alloc: Global, s: &Situation) -> Result<Vec<usize>, AllocError> {
    let mut places = Vec::new(alloc);
    if let Some(oldest) = s.waiting.get(0) {
        if !is_forced(s, oldest.place.rank) {
            places.push(0)?;
        }
    }
    Ok(places)
}

/// The places of the candidates, the oldest first.
fn candidates(alloc: Global, s: &Situation) -> Result<Vec<usize>, AllocError> {
    if is_capped(s) {
        return oldest_alone(alloc, s);
    }
    let free = free_places(alloc, s)?;
    let kind = if s.drain { Kind::Write } else { Kind::Read };
    let served = of_kind(alloc, s, &free, kind)?;
    if served.is_empty() {
        Ok(free)
    } else {
        Ok(served)
    }
}

/// The read or write of a request.
pub fn column_of(waiting: Waiting) -> Command {
    let Place {
        channel: _,
        rank,
        group,
        bank,
        row,
        line,
        offset: _,
    } = waiting.place;
    match waiting.kind {
        Kind::Read => Command::Rd {
            rank,
            group,
            bank,
            row,
            line,
        },
        Kind::Write => Command::Wr {
            rank,
            group,
            bank,
            row,
            line,
        },
    }
}

/// The first candidate whose column command is legal, where there is room.
fn column_place(s: &Situation, candidates: &[usize]) -> Option<usize> {
    if !s.room {
        return None;
    }
    for place in candidates {
        if let Some(waiting) = s.waiting.get(*place) {
            if is_legal(s, column_of(*waiting)) {
                return Some(*place);
            }
        }
    }
    None
}

/// Whether a request at another place wants the row.
fn is_row_shared(s: &Situation, place: usize, at: Place) -> bool {
    for (other, waiting) in s.waiting.iter().enumerate() {
        if other != place && is_same_row(waiting.place, at) {
            return true;
        }
    }
    false
}

/// With auto-precharge where rows are closed and no other request wants the row.
fn column_choice(s: &Situation, place: usize) -> Choice {
    match s.waiting.get(place) {
        Some(waiting) if s.policy.closed && !is_row_shared(s, place, waiting.place) => {
            Choice::ColumnAuto { place }
        }
        _ => Choice::Column { place },
    }
}

/// Whether a candidate wants this row of the bank of `at`.
fn is_row_wanted(s: &Situation, candidates: &[usize], at: Place, row: u32) -> bool {
    for place in candidates {
        if let Some(waiting) = s.waiting.get(*place) {
            if is_same_bank(waiting.place, at) && waiting.place.row == row {
                return true;
            }
        }
    }
    false
}

/// ACT for a request of an idle bank; PRE for one of a bank with another row, which no candidate wants.
fn row_choice_at(s: &Situation, candidates: &[usize], place: usize, at: Place) -> Choice {
    let Place {
        channel: _,
        rank,
        group,
        bank,
        row,
        line: _,
        offset: _,
    } = at;
    match s.bus.open_row(rank, group, bank) {
        None => {
            let activate = Command::Act {
                rank,
                group,
                bank,
                row,
            };
            if is_legal(s, activate) {
                Choice::Act { place }
            } else {
                Choice::Nothing
            }
        }
        Some(open) => {
            let wanted = open == row || is_row_wanted(s, candidates, at, open);
            if !wanted && is_legal(s, Command::Pre { rank, group, bank }) {
                Choice::Pre { place }
            } else {
                Choice::Nothing
            }
        }
    }
}

fn row_choice(s: &Situation, candidates: &[usize]) -> Choice {
    for place in candidates {
        if let Some(waiting) = s.waiting.get(*place) {
            let choice = row_choice_at(s, candidates, *place, waiting.place);
            if choice != Choice::Nothing {
                return choice;
            }
        }
    }
    Choice::Nothing
}

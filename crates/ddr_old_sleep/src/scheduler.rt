//! Until when the scheduler chooses nothing, as it was first written.
//!
//! The functions are those that `ddr_arbiter` had before the work on its speed, without their contracts: a difference or a sum
//! that those kept in range saturates here, and a table is asked for a place that it may lack. `still_until` is younger, and
//! says what a channel may pass over while a rank waits for its REF.
use ddr_address_map::place::Place;
use ddr_address_map::request::Kind;
use ddr_arbiter::policy::Policy;
use ddr_hazards::pending::Pending;
use ddr_legality::legality::Legality;
use ddr_refresh::debt::Debt;
use ddr_timing::bank::BankId;
use ddr_timing::units::{GROUP_BANKS, MOST_GROUPS, MOST_RANKS};
use ddr_trace::command::Command;

/// A cycle that no clock reaches.
const NEVER: u64 = u64::MAX;

/// The banks that a channel may have.
const BANKS: usize = (MOST_RANKS * MOST_GROUPS * GROUP_BANKS) as usize;

/// Of each bank that a channel may have, whether it was asked until when nothing can be chosen for its candidates.
type Asked = [bool; BANKS];

/// Of each rank that there may be, whether it is forced.
type Forced = [bool; MOST_RANKS as usize];

/// Which of the pending requests are candidates, told without a list of them: of the `count` oldest those of the kind,
/// with no older one to their line, of ranks that are not forced.
#[derive(Clone, Copy)]
struct CandidateSet {
    kind: Kind,
    count: usize,
    forced: Forced,
}

/// A cycle before which nothing is chosen, in each cycle from the next one of the command bus on, as long as nothing is
/// admitted, served or completed and the drain mode stays. The parameters are those of `choose`.
pub fn quiet_until(
    pending: &Pending,
    legality: &Legality,
    debts: &[Debt],
    policy: &Policy,
    drain: bool,
    room: bool,
) -> u64 {
    let forced = forced_ranks(pending, debts);
    if forced[0] || forced[1] {
        return legality.now();
    }
    rest_until(pending, legality, debts, policy, drain, room)
}

/// A cycle as `quiet_until` tells it, which goes on while a rank has to be refreshed: then no later than the first PREA or REF of
/// each such rank, and else by what the debts and the requests of the other ranks allow.
pub fn still_until(
    pending: &Pending,
    legality: &Legality,
    debts: &[Debt],
    policy: &Policy,
    drain: bool,
    room: bool,
) -> u64 {
    let mut until = rest_until(pending, legality, debts, policy, drain, room);
    let forced = forced_ranks(pending, debts);
    if forced[0] {
        until = until.min(refresh_until(legality, 0));
    }
    if forced[1] {
        until = until.min(refresh_until(legality, 1));
    }
    until
}

/// Whether a rank has to be refreshed.
pub fn must_refresh(pending: &Pending, debts: &[Debt]) -> bool {
    let forced = forced_ranks(pending, debts);
    forced[0] || forced[1]
}

/// What the debts and the requests of the ranks that need not be refreshed allow.
fn rest_until(
    pending: &Pending,
    legality: &Legality,
    debts: &[Debt],
    policy: &Policy,
    drain: bool,
    room: bool,
) -> u64 {
    let now = legality.now();
    let forced = forced_ranks(pending, debts);
    let steady = steady_until(now, debts);
    if pending.len() == 0 {
        return steady;
    }
    let end = steady.min(age_steady_until(pending, now, policy.cap));
    let candidates = candidates(pending, now, policy.cap, drain, &forced);
    stuck_until(pending, legality, &candidates, room, end)
}

/// The first cycle of a REF of the rank, where its banks are idle and a PREA may come already; else that of either.
fn refresh_until(legality: &Legality, rank: u32) -> u64 {
    let refresh = legality.allowed_at(Command::Refresh { rank });
    let precharge = legality.allowed_at(Command::PreAll { rank });
    if is_rank_active(legality, rank) || legality.now() < precharge {
        precharge.min(refresh)
    } else {
        refresh
    }
}

/// Whether a bank of the rank has a row open in the next cycle.
pub fn is_rank_active(legality: &Legality, rank: u32) -> bool {
    for group in 0..MOST_GROUPS {
        if is_group_active(legality, rank, group) {
            return true;
        }
    }
    false
}

fn is_group_active(legality: &Legality, rank: u32, group: u32) -> bool {
    for bank in 0..GROUP_BANKS {
        if legality.open_row(rank, group, bank).is_some() {
            return true;
        }
    }
    false
}

/// Which ranks have to be refreshed.
fn forced_ranks(pending: &Pending, debts: &[Debt]) -> Forced {
    [
        is_rank_forced(pending, debts, 0),
        is_rank_forced(pending, debts, 1),
    ]
}

/// Whether the rank owes more refreshes than may be put off, or owes one with nothing pending for it.
pub fn is_rank_forced(pending: &Pending, debts: &[Debt], rank: u32) -> bool {
    match debts.get(rank as usize) {
        Some(debt) => debt.forced(true) && debt.forced(is_rank_idle(pending, rank)),
        None => false,
    }
}

/// Whether nothing is pending for the rank.
fn is_rank_idle(pending: &Pending, rank: u32) -> bool {
    for place in 0..pending.len() {
        if is_of_rank(pending, rank, place) {
            return false;
        }
    }
    true
}

/// Whether the request at the place is for the rank.
fn is_of_rank(pending: &Pending, rank: u32, place: usize) -> bool {
    match pending.get(place) {
        Some((request, _)) => request.place.rank == rank,
        None => false,
    }
}

/// A cycle before which no further refresh falls due.
fn steady_until(now: u64, debts: &[Debt]) -> u64 {
    let mut end = NEVER;
    for debt in debts {
        end = end.min(now.saturating_add(debt.steady()).saturating_add(1));
    }
    end
}

/// The cycle in which the oldest request reaches the cap, where it hasn't yet.
fn age_steady_until(pending: &Pending, now: u64, cap: u32) -> u64 {
    match pending.oldest() {
        Some((_, admitted)) => {
            let reached = admitted.saturating_add(u64::from(cap));
            if now < reached { reached } else { NEVER }
        }
        None => NEVER,
    }
}

/// The requests that may be served in cycle `now`, none of a rank that is forced: where the oldest has reached the cap,
/// it is alone; otherwise those with no older one to their line, of the kind that the mode serves, if any are.
fn candidates(pending: &Pending, now: u64, cap: u32, drain: bool, forced: &Forced) -> CandidateSet {
    if let Some(kind) = capped_kind(pending, now, cap) {
        return CandidateSet {
            kind,
            count: 1,
            forced: *forced,
        };
    }
    let served = CandidateSet {
        kind: served_kind(drain),
        count: pending.len(),
        forced: *forced,
    };
    if has_any(&served, pending) {
        served
    } else {
        CandidateSet {
            kind: other_kind(served.kind),
            ..served
        }
    }
}

/// The kind of the oldest request where its age, in clocks, has reached the cap.
fn capped_kind(pending: &Pending, now: u64, cap: u32) -> Option<Kind> {
    match pending.oldest() {
        Some((request, admitted)) => {
            if now.saturating_sub(admitted) >= u64::from(cap) {
                Some(request.echo.kind)
            } else {
                None
            }
        }
        None => None,
    }
}

/// The kind of the requests that a mode serves first.
fn served_kind(drain: bool) -> Kind {
    if drain { Kind::Write } else { Kind::Read }
}

/// The other kind.
fn other_kind(kind: Kind) -> Kind {
    match kind {
        Kind::Read => Kind::Write,
        Kind::Write => Kind::Read,
    }
}

/// Whether there is any candidate.
fn has_any(candidates: &CandidateSet, pending: &Pending) -> bool {
    for place in 0..candidates.count {
        if is_candidate(candidates, pending, place) {
            return true;
        }
    }
    false
}

/// Whether the request at the place is a candidate, as far as its place goes.
fn is_candidate(candidates: &CandidateSet, pending: &Pending, place: usize) -> bool {
    match pending.get(place) {
        Some((request, _)) => {
            candidates.kind == request.echo.kind && is_free(&candidates.forced, pending, place)
        }
        None => false,
    }
}

/// Whether no older request has the line of the request at the place, and its rank is not forced.
fn is_free(forced: &Forced, pending: &Pending, place: usize) -> bool {
    place < pending.len() && !pending.blocked(place) && is_of_free_rank(forced, pending, place)
}

/// Whether the rank of the request at the place is not forced.
fn is_of_free_rank(forced: &Forced, pending: &Pending, place: usize) -> bool {
    match pending.get(place) {
        Some((request, _)) => forced.get(request.place.rank as usize) == Some(&false),
        None => false,
    }
}

/// A cycle, no later than `end`, before which nothing can be chosen for any candidate. Where something can be chosen now it
/// may be told without a look at the others.
fn stuck_until(
    pending: &Pending,
    legality: &Legality,
    candidates: &CandidateSet,
    room: bool,
    end: u64,
) -> u64 {
    let now = legality.now();
    let mut asked = [false; BANKS];
    let mut until = end;
    for place in 0..candidates.count {
        if until <= now {
            return until;
        }
        until = place_until(
            pending, legality, candidates, room, &mut asked, until, place,
        );
    }
    until
}

/// A cycle, no later than `until`, before which nothing can be chosen for the request at the place, if it is a candidate.
fn place_until(
    pending: &Pending,
    legality: &Legality,
    candidates: &CandidateSet,
    room: bool,
    asked: &mut Asked,
    until: u64,
    place: usize,
) -> u64 {
    let Some((request, _)) = pending.get(place) else {
        return until;
    };
    let at = request.place;
    if candidates.kind != request.echo.kind {
        return until;
    }
    let number = bank_number(at);
    if asked.get(number) != Some(&false) {
        return until;
    }
    if !is_free(&candidates.forced, pending, place) {
        return until;
    }
    if let Some(mark) = asked.get_mut(number) {
        *mark = true;
    }
    until.min(bank_until(pending, legality, candidates, room, at))
}

/// The number of the place's bank among those of all ranks.
fn bank_number(place: Place) -> usize {
    let Place {
        rank,
        group,
        bank,
        ..
    } = place;
    BankId { rank, group, bank }.widest_number()
}

/// A cycle before which nothing can be chosen for any candidate of the place's bank. A row for reads and writes stays open:
/// if a candidate wants it, the bank waits for the first read or write of the row, else for a PRE. What one line of a row may,
/// each may that the geometry has, so the first is asked for.
fn bank_until(
    pending: &Pending,
    legality: &Legality,
    candidates: &CandidateSet,
    room: bool,
    at: Place,
) -> u64 {
    let Some(row) = legality.ready_row(at.rank, at.group, at.bank) else {
        return idle_until(legality, at);
    };
    if !is_wanted(pending, candidates, at, row) {
        return legality.allowed_at(precharge_at(at));
    }
    if !room {
        return NEVER;
    }
    let first = Place { row, line: 0, ..at };
    legality.allowed_at(column_at(candidates.kind, first))
}

/// A cycle before which nothing can be chosen for any request of the place's bank, which has no row for reads and writes: the
/// first for an ACT. Where a row is still open, an auto-precharge is to close it, and then no PRE is legal that finds it open.
/// What one row may, each may that the geometry has.
fn idle_until(legality: &Legality, at: Place) -> u64 {
    legality.allowed_at(activate_at(Place { row: 0, ..at }))
}

/// Whether a candidate wants this row, which is open in the bank of the place.
fn is_wanted(pending: &Pending, candidates: &CandidateSet, at: Place, row: u32) -> bool {
    for k in 0..pending.len() {
        let Some(place) = in_bank(pending, at, k) else {
            return false;
        };
        if wants(pending, candidates, row, place) {
            return true;
        }
    }
    false
}

/// The place of the `k`-th oldest request of the bank.
fn in_bank(pending: &Pending, at: Place, k: usize) -> Option<usize> {
    if at.rank >= MOST_RANKS || at.group >= MOST_GROUPS || at.bank >= GROUP_BANKS {
        return None;
    }
    pending.in_bank(at.rank, at.group, at.bank, k)
}

/// Whether the request at the place is a candidate that wants the row.
fn wants(pending: &Pending, candidates: &CandidateSet, row: u32, place: usize) -> bool {
    match pending.get(place) {
        Some((request, _)) => {
            request.place.row == row
                && place < candidates.count
                && is_candidate(candidates, pending, place)
        }
        None => false,
    }
}

/// ACT of the place's row.
fn activate_at(place: Place) -> Command {
    Command::Act {
        rank: place.rank,
        group: place.group,
        bank: place.bank,
        row: place.row,
    }
}

/// PRE of the place's bank.
fn precharge_at(place: Place) -> Command {
    Command::Pre {
        rank: place.rank,
        group: place.group,
        bank: place.bank,
    }
}

/// RD or WR of the place's line.
fn column_at(kind: Kind, place: Place) -> Command {
    let Place {
        rank,
        group,
        bank,
        row,
        line,
        ..
    } = place;
    match kind {
        Kind::Read => Command::Rd {
            rank,
            group,
            bank,
            row,
            line,
        },
        Kind::Write => Command::Wr {
            rank,
            group,
            bank,
            row,
            line,
        },
    }
}

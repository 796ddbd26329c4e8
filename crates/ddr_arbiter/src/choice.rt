//! What a channel does in a cycle: the scheduler's choice.
ghost use Rattle.std.specs.Prelude.{◌≡◌, ◌≤◌, All, length};
ghost use Rattle.ddr_timing.specs.declared.units.TheConstants.{MOST_RANKS};
ghost use Rattle.ddr_arbiter.specs.Choice.{choice_of, column_choice, is_row_shared, is_same_row, is_something, share_row};
ghost use Rattle.ddr_arbiter.specs.Laws.{IsLawful};
ghost use Rattle.ddr_arbiter.specs.Situation.{situation};

use crate::candidates::candidates;
use crate::columns::column_place;
use crate::policy::Policy;
use crate::refresh::{forced_ranks, refresh_choice};
use crate::rows::row_choice;
use ddr_address_map::place::Place;
use ddr_hazards::pending::Pending;
use ddr_legality::legality::Legality;
use ddr_refresh::debt::Debt;

/// The command of a cycle. `place` is the position of a request among the pending ones, in the order of
/// their admission.
#[derive(Clone, Copy, Debug, PartialEq, Eq)]
pub enum Choice {
    Nothing,
    /// REF of the rank.
    Refresh { rank: u32 },
    /// PREA of the rank.
    PreAll { rank: u32 },
    /// ACT of the request's row.
    Act { place: usize },
    /// PRE of the request's bank.
    Pre { place: usize },
    /// The request's read or write.
    Column { place: usize },
    /// The request's read or write, with auto-precharge.
    ColumnAuto { place: usize },
}

/// The choice of the cycle that comes next on the command bus: a refresh where a rank has to have one, else the
/// column command of the oldest candidate whose command is legal, where there is room, else the ACT or PRE of the
/// oldest that needs one (first ready, first come, first served: Rixner et al., Memory Access Scheduling, ISCA 2000;
/// the drain of writes and the age cap are this project's choice). Where rows are closed, a column command has an
/// auto-precharge unless another pending request wants its row.
///
/// `debts` has one for each rank, from rank 0 on; `drain` says whether writes are drained, and `room` whether one more
/// request may be in flight or done.
pub fn choose(
    pending: &Pending,
    legality: &Legality,
    debts: &[Debt],
    policy: &Policy,
    drain: bool,
    room: bool,
) -> Choice
    requires admitted { All (λ w. w.admitted ≤ legality.now.bus.now) pending.now.waiting }
    requires ranks { length debts.now ≤ MOST_RANKS }
    ensures exact { result ≡ choice_of (situation pending.now legality.entry.now debts.now policy.now drain room) }
    ensures lawful { IsLawful (situation pending.now legality.entry.now debts.now policy.now drain room) result }
{
    let forced = forced_ranks(pending, debts);
    let refresh = refresh_choice(pending, legality, debts, &forced);
    if is_something(refresh) {
        return refresh;
    }
    if pending.len() == 0 {
        return Choice::Nothing;
    }
    let candidates = candidates(pending, legality.now(), policy.cap, drain, &forced);
    match column_place(pending, legality, &candidates, room) {
        Some(place) => column_choice(policy.closed, pending, place),
        None => row_choice(pending, legality, &candidates),
    }
}

/// The column command of the request at the place, with auto-precharge where rows are closed and no other pending
/// request wants its row.
fn column_choice(closed: bool, pending: &Pending, place: usize) -> Choice
    ensures { result ≡ column_choice closed pending.now.waiting place }
{
    if closed && !is_row_shared(pending, place) {
        Choice::ColumnAuto { place }
    } else {
        Choice::Column { place }
    }
}

/// Whether another pending request wants the bank and the row of the one at the place.
fn is_row_shared(pending: &Pending, place: usize) -> bool
    ensures { result ≡ is_row_shared pending.now.waiting place }
{
    for other in 0..pending.len() {
        if other != place && share_row(pending, place, other) {
            return true;
        }
    }
    false
}

/// Whether the requests at the two places want one bank and row.
fn share_row(pending: &Pending, place: usize, other: usize) -> bool
    ensures { result ≡ share_row pending.now.waiting place other }
{
    match (pending.get(place), pending.get(other)) {
        (Some((request, _)), Some((another, _))) => is_same_row(another.place, request.place),
        _ => false,
    }
}

/// Whether the two places are in one row of one bank.
fn is_same_row(p: Place, q: Place) -> bool
    ensures { result ≡ is_same_row p q }
{
    p.rank == q.rank && p.group == q.group && p.bank == q.bank && p.row == q.row
}

/// Whether a command is chosen.
pub(crate) fn is_something(choice: Choice) -> bool
    ensures { result ≡ is_something choice }
{
    match choice {
        Choice::Nothing => false,
        _ => true,
    }
}

//! For how long the scheduler chooses nothing.
//!
//! Where no command is issued, what it looks at changes by itself in four ways: a refresh falls due, the oldest request
//! reaches the cap, an auto-precharge closes a bank, and a distance to an earlier command is kept. The first two end what is
//! known of the candidates. Of the others the legality tells the first cycle of each command, once for each bank, and for each
//! rank that has to be refreshed.
ghost use Rattle.std.specs.Prelude.{◌≡◌, ℕ, ◌<◌, ◌≤◌, None, Some, Bool, true, false, List, All, length, slice_index_or};
ghost use Rattle.ddr_timing.specs.declared.units.TheConstants.{CLOCK_STOP, MOST_RANKS};
ghost use Rattle.ddr_trace.specs.Banks.{bank_behind, ready_row};
ghost use Rattle.ddr_hazards.specs.declared.waiting.Waiting.{Waiting};
ghost use Rattle.ddr_hazards.specs.PendingList.{IsInRank};
ghost use Rattle.ddr_arbiter.specs.declared.candidates.CandidateSet.{CandidateSet};
ghost use Rattle.ddr_arbiter.specs.Commands as commands;
ghost use Rattle.ddr_arbiter.specs.Forced.{AreForced, must_refresh};
ghost use Rattle.ddr_arbiter.specs.Quiet.{IsQuietUntil};
ghost use Rattle.ddr_arbiter.specs.Situation.{situation};
ghost use Rattle.ddr_legality.specs.Bus.{Bus};
ghost use Rattle.ddr_refresh.specs.Refreshes.{Refreshes};
ghost use Rattle.ddr_arbiter.specs.Choice.{is_open_row_wanted, open_row_at};
ghost use Rattle.ddr_arbiter.specs.CandidateSet.{places_of};
ghost use Rattle.ddr_arbiter.specs.Until.{AreSteadyUntil, AreStuckUntil, HasCandidateAt, IsAgeSteadyUntil, IsBankStuckUntil, IsCandidate, IsRefreshStuckUntil, IsStuckUntil};

use crate::banks::{BANKS, bank_number};
use crate::candidates::{CandidateSet, candidates, is_free, is_same_kind};
use crate::commands::{activate_at, column_at, precharge_at};
use crate::policy::Policy;
use crate::refresh::{Forced, forced_ranks, is_active, is_rank_forced};
use crate::rows::is_wanted;
use ddr_address_map::place::Place;
use ddr_hazards::pending::Pending;
use ddr_legality::legality::Legality;
use ddr_refresh::debt::Debt;
use ddr_trace::command::Command;

/// A cycle that no clock reaches.
const NEVER: u64 = u64::MAX;

/// Of each bank that a channel may have, whether it was asked until when nothing can be chosen for its candidates.
type Asked = [bool; BANKS];

/// For how long the scheduler rests.
#[derive(Clone, Copy, Debug, PartialEq, Eq)]
pub struct Rest {
    /// A cycle before which nothing is chosen, as `still_until` tells it.
    pub until: u64,
    /// Whether a rank has to be refreshed, as `must_refresh` tells it. So it is in each cycle before `until`, where nothing is
    /// admitted and nothing served.
    pub must_refresh: bool,
}

/// A cycle before which nothing is chosen, in each cycle from the next one of the command bus on, as long as nothing is
/// admitted, served or completed and the drain mode stays. It is no promise that something is chosen then: while a rank has
/// to be refreshed it is that next cycle, and `still_until` tells more. The parameters are those of `choose`.
pub fn quiet_until(
    pending: &Pending,
    legality: &Legality,
    debts: &[Debt],
    policy: &Policy,
    drain: bool,
    room: bool,
) -> u64
    requires admitted { All (λ w. w.admitted ≤ legality.now.bus.now) pending.now.waiting }
    requires ranks { length debts.now ≤ MOST_RANKS }
    ensures { IsQuietUntil result (situation pending.now legality.entry.now debts.now policy.now drain room) }
{
    let forced = forced_ranks(pending, debts);
    if is_any(&forced) {
        return legality.now();
    }
    forced_until(pending, legality, debts, &forced, policy, drain, room)
}

/// Whether a rank has to be refreshed: it owes more refreshes than may be put off, or owes one with nothing pending for it.
pub fn must_refresh(pending: &Pending, debts: &[Debt]) -> bool
    ensures { result ≡ must_refresh pending.now.waiting debts.now }
{
    is_rank_forced(pending, debts, 0) || is_rank_forced(pending, debts, 1)
}

/// A cycle as `quiet_until` tells it, also while a rank has to be refreshed: one whose banks are idle waits for the first cycle of
/// its REF. So a channel that goes by this one passes over such a wait too.
pub fn still_until(
    pending: &Pending,
    legality: &Legality,
    debts: &[Debt],
    policy: &Policy,
    drain: bool,
    room: bool,
) -> u64
    requires admitted { All (λ w. w.admitted ≤ legality.now.bus.now) pending.now.waiting }
    requires ranks { length debts.now ≤ MOST_RANKS }
    ensures { IsQuietUntil result (situation pending.now legality.entry.now debts.now policy.now drain room) }
{
    let forced = forced_ranks(pending, debts);
    forced_until(pending, legality, debts, &forced, policy, drain, room)
}

/// The cycle that `still_until` tells, and what `must_refresh` tells, with one look at which ranks have to be refreshed.
pub fn rest_of(
    pending: &Pending,
    legality: &Legality,
    debts: &[Debt],
    policy: &Policy,
    drain: bool,
    room: bool,
) -> Rest
    requires admitted { All (λ w. w.admitted ≤ legality.now.bus.now) pending.now.waiting }
    requires ranks { length debts.now ≤ MOST_RANKS }
    ensures until { IsQuietUntil result.until (situation pending.now legality.entry.now debts.now policy.now drain room) }
    ensures must_refresh { result.must_refresh ≡ must_refresh pending.now.waiting debts.now }
{
    let forced = forced_ranks(pending, debts);
    Rest {
        until: forced_until(pending, legality, debts, &forced, policy, drain, room),
        must_refresh: is_any(&forced),
    }
}

/// Whether a rank has to be refreshed, where these say it of each.
fn is_any(forced: &Forced) -> bool
    ensures { (waiting : List Waiting) (refreshes : List Refreshes) → AreForced waiting refreshes forced.now → result ≡ must_refresh waiting refreshes }
{
    forced[0] || forced[1]
}

/// The cycle that `still_until` tells, where these ranks have to be refreshed.
fn forced_until(
    pending: &Pending,
    legality: &Legality,
    debts: &[Debt],
    forced: &Forced,
    policy: &Policy,
    drain: bool,
    room: bool,
) -> u64
    requires admitted { All (λ w. w.admitted ≤ legality.now.bus.now) pending.now.waiting }
    requires ranks { length debts.now ≤ MOST_RANKS }
    requires forced { AreForced pending.now.waiting debts.now forced.now }
    ensures { IsQuietUntil result (situation pending.now legality.entry.now debts.now policy.now drain room) }
{
    let now = legality.now();
    let steady = steady_until(now, debts)
        .min(rank_until(legality, forced, 0))
        .min(rank_until(legality, forced, 1));
    if pending.len() == 0 {
        return steady;
    }
    if steady <= now {
        return now;
    }
    let end = steady.min(age_steady_until(pending, now, policy.cap));
    let candidates = candidates(pending, now, policy.cap, drain, forced);
    stuck_until(pending, legality, &candidates, room, end)
}

/// A cycle before which neither a REF nor a PREA is chosen for the rank, if it has to be refreshed.
fn rank_until(legality: &Legality, forced: &Forced, rank: u32) -> u64
    requires { rank < MOST_RANKS }
    ensures { slice_index_or forced.now rank false ≡ true → IsRefreshStuckUntil result legality.entry.now.bus rank }
{
    if forced[rank as usize] {
        refresh_until(legality, rank)
    } else {
        NEVER
    }
}

/// A cycle before which neither a REF nor a PREA can be chosen for the rank: before the first cycle of either neither is legal. A
/// rank whose banks are all idle stays so, and waits for the first cycle of its REF alone.
fn refresh_until(legality: &Legality, rank: u32) -> u64
    ensures { IsRefreshStuckUntil result legality.entry.now.bus rank }
{
    let now = legality.now();
    let first = legality.allowed_at(Command::PreAll { rank });
    let allowed = legality.allowed_at(Command::Refresh { rank });
    if now < first {
        return first.min(allowed);
    }
    let may_come = allowed <= now || is_active(legality, rank);
    if may_come { now } else { allowed }
}

/// A cycle before which no further refresh falls due.
fn steady_until(now: u64, debts: &[Debt]) -> u64
    ensures { AreSteadyUntil result now debts.now }
{
    let mut end = NEVER;
    for debt in debts {
        end = end.min(now.saturating_add(debt.steady()).saturating_add(1));
    }
    end
}

/// The cycle in which the oldest request reaches the cap, where it hasn't yet.
fn age_steady_until(pending: &Pending, now: u64, cap: u32) -> u64
    requires admitted { All (λ w. w.admitted ≤ now) pending.now.waiting }
    requires clock { now ≤ CLOCK_STOP }
    ensures { IsAgeSteadyUntil result now cap pending.now.waiting }
{
    match pending.oldest() {
        Some((_, admitted)) => {
            let reached = admitted + u64::from(cap);
            if now < reached { reached } else { NEVER }
        }
        None => NEVER,
    }
}

/// A cycle, no later than `end`, before which nothing can be chosen for any candidate. Where something can be chosen now it
/// may be told without a look at the others.
fn stuck_until(
    pending: &Pending,
    legality: &Legality,
    candidates: &CandidateSet,
    room: bool,
    end: u64,
) -> u64
    requires inside { All (λ w. IsInRank w.request.place) pending.now.waiting }
    requires count { candidates.now.count ≤ length pending.now.waiting }
    ensures end { result ≤ end }
    ensures stuck { (place : ℕ) (w : Waiting) → IsCandidate candidates.now pending.now.waiting place w
        → IsStuckUntil result legality.entry.now.bus candidates.now pending.now.waiting room w.request.place }
{
    let now = legality.now();
    let mut asked = [false; BANKS];
    let mut until = end;
    for place in 0..candidates.count {
        if until <= now {
            return until;
        }
        until = place_until(
            pending, legality, candidates, room, &mut asked, until, place,
        );
    }
    until
}

/// A cycle, no later than `until`, before which nothing can be chosen for the request at the place, if it is a candidate.
fn place_until(
    pending: &Pending,
    legality: &Legality,
    candidates: &CandidateSet,
    room: bool,
    asked: &mut Asked,
    until: u64,
    place: usize,
) -> u64
    requires inside { All (λ w. IsInRank w.request.place) pending.now.waiting }
    requires count { candidates.now.count ≤ length pending.now.waiting }
    requires place { place < candidates.now.count }
    requires asked { AreStuckUntil until legality.now.bus candidates.now pending.now.waiting room asked.old }
    ensures until { result ≤ until }
    ensures stuck { (w : Waiting) → IsCandidate candidates.now pending.now.waiting place w
        → IsStuckUntil result legality.entry.now.bus candidates.now pending.now.waiting room w.request.place }
    ensures asked { AreStuckUntil result legality.entry.now.bus candidates.now pending.now.waiting room asked.new }
{
    let Some((request, _)) = pending.get(place) else {
        return until;
    };
    let at = request.place;
    if !is_same_kind(candidates.kind, request.echo.kind) {
        return until;
    }
    let number = bank_number(at);
    if asked[number] {
        return until;
    }
    if !is_free(&candidates.forced, pending, place) {
        return until;
    }
    asked[number] = true;
    until.min(bank_until(pending, legality, candidates, room, at))
}

/// A cycle before which nothing can be chosen for any candidate of the place's bank. A row for reads and writes stays open:
/// if a candidate wants it, the bank waits for the first read or write of the row, else for a PRE. What one line of a row may,
/// each may that the geometry has, so the first is asked for.
fn bank_until(
    pending: &Pending,
    legality: &Legality,
    candidates: &CandidateSet,
    room: bool,
    at: Place,
) -> u64
    requires inside { All (λ w. IsInRank w.request.place) pending.now.waiting }
    requires count { candidates.now.count ≤ length pending.now.waiting }
    requires at { IsInRank at }
    requires here { HasCandidateAt candidates.now pending.now.waiting at }
    ensures { IsBankStuckUntil result legality.entry.now.bus candidates.now pending.now.waiting room at }
{
    let Some(row) = legality.ready_row(at.rank, at.group, at.bank) else {
        return idle_until(legality, at);
    };
    if !is_row_wanted(pending, candidates, at, row) {
        return legality.allowed_at(precharge_at(at));
    }
    if !room {
        return NEVER;
    }
    let first = Place { row, line: 0, ..at };
    legality.allowed_at(column_at(false, candidates.kind, first))
}

/// Whether a candidate wants this row, which is open in the bank of the place, where some candidate is for this place: it may be
/// that one.
fn is_row_wanted(pending: &Pending, candidates: &CandidateSet, at: Place, row: u32) -> bool
    requires inside { All (λ w. IsInRank w.request.place) pending.now.waiting }
    requires count { candidates.now.count ≤ length pending.now.waiting }
    requires at { IsInRank at }
    requires here { HasCandidateAt candidates.now pending.now.waiting at }
    ensures { (b : Bus) → open_row_at b at ≡ Some row → result ≡ is_open_row_wanted b pending.now.waiting (places_of candidates.now pending.now.waiting) at }
{
    if row == at.row {
        return true;
    }
    is_wanted(pending, candidates, at, row)
}

/// A cycle before which nothing can be chosen for any request of the place's bank, which has no row for reads and writes: the
/// first for an ACT. Where a row is still open, an auto-precharge is to close it, and then no PRE is legal that finds it open.
/// What one row may, each may that the geometry has.
fn idle_until(legality: &Legality, at: Place) -> u64
    requires { ready_row (bank_behind (commands.precharge_at at) legality.now.bus.trace) ≡ None }
    ensures { (candidates : CandidateSet) (waiting : List Waiting) (room : Bool) → IsBankStuckUntil result legality.entry.now.bus candidates waiting room at }
{
    legality.allowed_at(activate_at(Place { row: 0, ..at }))
}

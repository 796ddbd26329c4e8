//! The ACT or PRE of the oldest candidate that needs one.
ghost use Rattle.std.specs.Prelude.{◌≡◌, ℕ, ◌<◌, ◌≤◌, if◌then◌else◌, List, All, length, None, Some};
ghost use Rattle.ddr_legality.specs.Bus.{Bus};
ghost use Rattle.ddr_hazards.specs.declared.waiting.Waiting.{Waiting};
ghost use Rattle.ddr_hazards.specs.PendingList.{IsInRank};
ghost use Rattle.ddr_arbiter.specs.declared.choice.Choice.TheVariants as choice;
ghost use Rattle.ddr_arbiter.specs.Choice.{is_open_row_wanted, open_row_at, row_choice, row_choice_at};
ghost use Rattle.ddr_arbiter.specs.Known.{AreDone, StepTells};
ghost use Rattle.ddr_arbiter.specs.CandidateSet.{is_candidate, places_of, wants};

use crate::banks::{BANKS, bank_number};
use crate::candidates::{CandidateSet, is_candidate, is_free, is_same_kind};
use crate::choice::{Choice, is_something};
use crate::commands::{activate_at, may, precharge_at};
use ddr_address_map::place::Place;
use ddr_hazards::pending::Pending;
use ddr_legality::legality::Legality;

/// Of each bank that a channel may have, whether no candidate of it can have an ACT or a PRE now.
type Done = [bool; BANKS];

/// What can be done now for a request whose bank is idle or has a row open.
#[derive(Clone, Copy)]
pub(crate) enum Step {
    Activate,
    Precharge,
    /// Nothing for this one.
    Wait,
    /// Nothing for any request of the bank.
    Done,
}

/// The ACT or PRE of the oldest candidate that needs one that may be issued now.
pub(crate) fn row_choice(
    pending: &Pending,
    legality: &Legality,
    candidates: &CandidateSet,
) -> Choice
    requires inside { All (λ w. IsInRank w.request.place) pending.now.waiting }
    requires count { candidates.now.count ≤ length pending.now.waiting }
    ensures { result ≡ row_choice legality.entry.now.bus pending.now.waiting (places_of candidates.now pending.now.waiting) }
{
    let mut done = [false; BANKS];
    for place in 0..candidates.count {
        let choice = row_choice_at(pending, legality, candidates, &mut done, place);
        if is_something(choice) {
            return choice;
        }
    }
    Choice::Nothing
}

/// The ACT or PRE that the request at the place needs, if it is a candidate and that may be issued now.
fn row_choice_at(
    pending: &Pending,
    legality: &Legality,
    candidates: &CandidateSet,
    done: &mut Done,
    place: usize,
) -> Choice
    requires inside { All (λ w. IsInRank w.request.place) pending.now.waiting }
    requires count { candidates.now.count ≤ length pending.now.waiting }
    requires place { place < length pending.now.waiting }
    requires done { AreDone legality.now.bus pending.now.waiting (places_of candidates.now pending.now.waiting) done.old }
    ensures choice { result ≡ (if is_candidate candidates.now pending.now.waiting place
        then row_choice_at legality.entry.now.bus pending.now.waiting (places_of candidates.now pending.now.waiting) place
        else choice.Nothing) }
    ensures done { AreDone legality.entry.now.bus pending.now.waiting (places_of candidates.now pending.now.waiting) done.new }
{
    let Some((request, _)) = pending.get(place) else {
        return Choice::Nothing;
    };
    let at = request.place;
    if !is_same_kind(candidates.kind, request.echo.kind) {
        return Choice::Nothing;
    }
    let number = bank_number(at);
    if done[number] {
        return Choice::Nothing;
    }
    if !is_free(&candidates.forced, pending, place) {
        return Choice::Nothing;
    }
    match step_at(pending, legality, candidates, at) {
        Step::Activate => Choice::Act { place },
        Step::Precharge => Choice::Pre { place },
        Step::Wait => Choice::Nothing,
        Step::Done => {
            done[number] = true;
            Choice::Nothing
        }
    }
}

/// What can be done now for a request to the place.
fn step_at(pending: &Pending, legality: &Legality, candidates: &CandidateSet, at: Place) -> Step
    requires inside { All (λ w. IsInRank w.request.place) pending.now.waiting }
    requires count { candidates.now.count ≤ length pending.now.waiting }
    requires at { IsInRank at }
    ensures { StepTells legality.entry.now.bus pending.now.waiting (places_of candidates.now pending.now.waiting) at result }
{
    let Some(row) = legality.open_row(at.rank, at.group, at.bank) else {
        return activate_step(legality, at);
    };
    if row == at.row {
        return Step::Wait;
    }
    if !may(legality, precharge_at(at)) {
        return Step::Done;
    }
    if is_wanted(pending, candidates, at, row) {
        return Step::Done;
    }
    Step::Precharge
}

/// Whether the place's bank, which is idle, may be activated now. What one row may, each may that the geometry has: so
/// the first is asked for, once for the bank where it may not.
fn activate_step(legality: &Legality, at: Place) -> Step
    requires { open_row_at legality.now.bus at ≡ None }
    ensures { (waiting : List Waiting) (places : List ℕ) → StepTells legality.entry.now.bus waiting places at result }
{
    if !may(legality, activate_at(Place { row: 0, ..at })) {
        Step::Done
    } else if may(legality, activate_at(at)) {
        Step::Activate
    } else {
        Step::Wait
    }
}

/// Whether a candidate wants this row, which is open in the bank of the place.
pub(crate) fn is_wanted(pending: &Pending, candidates: &CandidateSet, at: Place, row: u32) -> bool
    requires inside { All (λ w. IsInRank w.request.place) pending.now.waiting }
    requires count { candidates.now.count ≤ length pending.now.waiting }
    requires at { IsInRank at }
    ensures { (b : Bus) → open_row_at b at ≡ Some row → result ≡ is_open_row_wanted b pending.now.waiting (places_of candidates.now pending.now.waiting) at }
{
    for k in 0..pending.len() {
        let Some(place) = pending.in_bank(at.rank, at.group, at.bank, k) else {
            return false;
        };
        if wants(pending, candidates, row, place) {
            return true;
        }
    }
    false
}

/// Whether the request at the place is a candidate that wants the row.
fn wants(pending: &Pending, candidates: &CandidateSet, row: u32, place: usize) -> bool
    requires inside { All (λ w. IsInRank w.request.place) pending.now.waiting }
    requires count { candidates.now.count ≤ length pending.now.waiting }
    ensures { result ≡ wants candidates.now row pending.now.waiting place }
{
    match pending.get(place) {
        Some((request, _)) => {
            request.place.row == row
                && place < candidates.count
                && is_candidate(candidates, pending, place)
        }
        None => false,
    }
}

//! The ranks that have to be refreshed, and the choice while some do.
ghost use Rattle.std.specs.Prelude.{◌≡◌, ◌≤◌, ◌==◌, filter, length, true};
ghost use Rattle.ddr_timing.specs.declared.units.TheConstants.{MOST_RANKS};
ghost use Rattle.ddr_legality.specs.Bus.{is_legal_now};
ghost use Rattle.ddr_arbiter.specs.Choice.{first_choice, is_idly_forced, is_overdue, is_rank_forced, is_rank_idle, passes_at, ranks_of, refresh_choice, refresh_choice_at, some_bank_active};
ghost use Rattle.ddr_arbiter.specs.Commands as commands;
ghost use Rattle.ddr_arbiter.specs.Forced.{AreForced};

use crate::choice::{Choice, is_something};
use ddr_hazards::pending::Pending;
use ddr_legality::legality::Legality;
use ddr_refresh::debt::Debt;
use ddr_timing::units::MOST_RANKS;
use ddr_trace::command::Command;
use ddr_trace::rule::Rule;

/// Of each rank that there may be, whether it is forced.
pub(crate) type Forced = [bool; MOST_RANKS as usize];

/// Which ranks have to be refreshed.
pub(crate) fn forced_ranks(pending: &Pending, debts: &[Debt]) -> Forced
    ensures { AreForced pending.now.waiting debts.now result }
{
    [
        is_rank_forced(pending, debts, 0),
        is_rank_forced(pending, debts, 1),
    ]
}

/// Whether the rank owes more refreshes than may be put off, or owes one with nothing pending for it.
pub(crate) fn is_rank_forced(pending: &Pending, debts: &[Debt], rank: u32) -> bool
    ensures { result ≡ is_rank_forced pending.now.waiting debts.now rank }
{
    match debts.get(rank as usize) {
        Some(debt) => debt.forced(true) && debt.forced(is_rank_idle(pending, rank)),
        None => false,
    }
}

/// Whether nothing is pending for the rank.
fn is_rank_idle(pending: &Pending, rank: u32) -> bool
    ensures { result ≡ is_rank_idle pending.now.waiting rank }
{
    for place in 0..pending.len() {
        if is_of_rank(pending, rank, place) {
            return false;
        }
    }
    true
}

/// Whether the request at the place is for the rank.
fn is_of_rank(pending: &Pending, rank: u32, place: usize) -> bool
    ensures { result ≡ passes_at (λ w. w.request.place.rank == rank) pending.now.waiting place }
{
    match pending.get(place) {
        Some((request, _)) => request.place.rank == rank,
        None => false,
    }
}

/// The REF or PREA of the first forced rank for which one is legal: first those that owe more than may be put off, then
/// the others, each from rank 0 up. `forced` says which ranks are forced.
pub(crate) fn refresh_choice(
    pending: &Pending,
    legality: &Legality,
    debts: &[Debt],
    forced: &Forced,
) -> Choice
    requires ranks { length debts.now ≤ MOST_RANKS }
    requires forced { AreForced pending.now.waiting debts.now forced.now }
    ensures { result ≡ refresh_choice legality.entry.now.bus pending.now.waiting debts.now }
{
    if !forced[0] && !forced[1] {
        return Choice::Nothing;
    }
    let overdue = overdue_choice(legality, debts);
    if is_something(overdue) {
        overdue
    } else {
        idle_choice(pending, legality, debts, forced)
    }
}

/// The choice for the ranks that owe more than may be put off.
fn overdue_choice(legality: &Legality, debts: &[Debt]) -> Choice
    requires { length debts.now ≤ MOST_RANKS }
    ensures { result ≡ first_choice (refresh_choice_at legality.entry.now.bus) (filter (is_overdue debts.now) (ranks_of debts.now)) }
{
    for rank in 0..debts.len() {
        if is_overdue(debts, rank) {
            let choice = refresh_choice_at(legality, rank as u32);
            if is_something(choice) {
                return choice;
            }
        }
    }
    Choice::Nothing
}

/// Whether the rank owes more refreshes than may be put off.
fn is_overdue(debts: &[Debt], rank: usize) -> bool
    ensures { result ≡ is_overdue debts.now rank }
{
    match debts.get(rank) {
        Some(debt) => debt.forced(false),
        None => false,
    }
}

/// The choice for the other ranks that are forced.
fn idle_choice(pending: &Pending, legality: &Legality, debts: &[Debt], forced: &Forced) -> Choice
    requires ranks { length debts.now ≤ MOST_RANKS }
    requires forced { AreForced pending.now.waiting debts.now forced.now }
    ensures { result ≡ first_choice (refresh_choice_at legality.entry.now.bus) (filter (is_idly_forced pending.now.waiting debts.now) (ranks_of debts.now)) }
{
    for rank in 0..debts.len() {
        if forced[rank] && !is_overdue(debts, rank) {
            let choice = refresh_choice_at(legality, rank as u32);
            if is_something(choice) {
                return choice;
            }
        }
    }
    Choice::Nothing
}

/// REF of the rank, or PREA where one of its banks is active, as soon as it is legal. While neither is legal no rule is named: which
/// one holds REF up is asked only where PREA may come and the distances don't tell that a bank is active.
fn refresh_choice_at(legality: &Legality, rank: u32) -> Choice
    ensures { result ≡ refresh_choice_at legality.entry.now.bus rank }
{
    let refresh = Command::Refresh { rank };
    if legality.is_legal(refresh) {
        return Choice::Refresh { rank };
    }
    if !legality.is_legal(Command::PreAll { rank }) {
        return Choice::Nothing;
    }
    if legality.allowed_at(refresh) <= legality.now() || is_active(legality, rank) {
        Choice::PreAll { rank }
    } else {
        Choice::Nothing
    }
}

/// Whether a bank of the rank is active, where its PREA is legal. It names the rule by which REF isn't legal, so it costs
/// more than other questions on the rank.
pub(crate) fn is_active(legality: &Legality, rank: u32) -> bool
    requires { is_legal_now legality.now.bus (commands.precharge_all rank) ≡ true }
    ensures { result ≡ some_bank_active legality.entry.now.bus rank }
{
    match legality.may(Command::Refresh { rank }) {
        Ok(()) => false,
        Err(rule) => matches!(rule, Rule::State),
    }
}

//! Rules on the state of banks: STATE and ROW, and RP and RP_REF behind an auto-precharge.
//!
//! `evidence`, `bank`, `kind` and `ddr_trace` stand below, and `find` above.
ghost use Rattle.std.specs.Prelude.{◌≡◌, ℕ, ◌*◌, ◌<◌, ◌&&◌, ◌||◌, IfSome, MatchOption, false, is_none, is_some};
ghost use Rattle.ddr_timing.specs.declared.units.TheConstants.{GROUP_BANKS};
ghost use Rattle.ddr_trace.specs.Banks.{any_bank, bank_behind, is_active, is_auto_within, open_row, ready_row};
ghost use Rattle.ddr_trace.specs.Commands.{bank_of, group_of, is_activate, is_column, rank_of, row_of};
ghost use Rattle.ddr_trace.specs.Rules.{breaks_row, breaks_state};
ghost use Rattle.ddr_evidence.specs.declared.evidence.Evidence.TheVariants.{Bank};
ghost use Rattle.ddr_evidence.specs.Evidence.{IsActiveBank, IsFirstBank, IsOwnBank, IsStartOf, IsStartOfRank, IsState, bank_test, is_behind_start, is_behind_start_of_rank};
ghost use Rattle.ddr_evidence.specs.Places.{bank_at};

use crate::bank::{BankHistory, bank_of, clocks_since_start, history_of};
use crate::evidence::Evidence;
use ddr_timing::config::Config;
use ddr_timing::timing::Timing;
use ddr_timing::units::GROUP_BANKS;
use ddr_trace::bank::OpenBank;
use ddr_trace::command::{Command, Entry};

/// What a REF wants of no bank of its rank.
#[derive(Clone, Copy)]
pub(crate) enum BankTest {
    /// The bank is active.
    Active,
    /// RP isn't over since the start of the bank's auto-precharge.
    WithinStart,
}

impl BankTest {
    fn holds(self, bank: &Option<OpenBank>, cycle: u64, timing: &Timing) -> bool
        ensures { result ≡ bank_test self timing.now cycle bank.now }
    {
        let Some(bank) = bank else {
            return false;
        };
        match self {
            BankTest::Active => bank.open_row(cycle, timing).is_some(),
            BankTest::WithinStart => bank.is_auto_within(cycle, timing),
        }
    }
}

/// The bank of this number in its rank, as the PRE of it.
pub(crate) fn bank_at(rank: u32, number: u32) -> Command
    ensures { result ≡ bank_at rank number }
{
    Command::Pre {
        rank,
        group: number / GROUP_BANKS,
        bank: number % GROUP_BANKS,
    }
}

/// The first bank of the rank that passes the test, by its number.
fn first_bank(
    history: &[Entry],
    rank: u32,
    cycle: u64,
    config: &Config,
    test: BankTest,
) -> Option<u32>
    ensures { MatchOption result
        ((number : ℕ) → number < config.now.geometry.groups * GROUP_BANKS
        → bank_test test config.now.timing cycle (bank_behind (bank_at rank number) history.now) ≡ false)
        (IsFirstBank config.now (bank_test test config.now.timing cycle) rank history.now) }
{
    for number in 0..config.geometry.groups * GROUP_BANKS {
        let bank = bank_of(history, &bank_at(rank, number));
        if test.holds(&bank, cycle, &config.timing) {
            return Some(number);
        }
    }
    None
}

/// Whether some bank of the entry's rank passes the test.
fn some_bank(history: &[Entry], entry: &Entry, config: &Config, test: BankTest) -> bool
    ensures { result ≡ any_bank config.now.geometry (rank_of entry.now.command)
        (λ bank. bank_test test config.now.timing entry.now.cycle (bank_behind bank history.now)) }
{
    first_bank(history, entry.command.rank(), entry.cycle, config, test).is_some()
}

/// Why the entry breaks STATE, if it does.
pub(crate) fn state(history: &[Entry], entry: &Entry, config: &Config) -> Option<Evidence>
    ensures broken { is_some result ≡ breaks_state config.now history.now entry.now }
    ensures some { IfSome result (IsState config.now history.now entry.now) }
{
    let command = &entry.command;
    if command.is_refresh() {
        return active_bank(history, entry, config);
    }
    if !command.is_activate() && !command.is_column() {
        return None;
    }
    let seen = history_of(history, command);
    if is_at_odds(entry, &seen.bank, &config.timing) {
        Some(own_bank(command, seen))
    } else {
        None
    }
}

/// Whether the entry breaks STATE, as `state` without the evidence. It looks back no further than what its banks are asks for.
pub(crate) fn breaks_state(history: &[Entry], entry: &Entry, config: &Config) -> bool
    ensures { result ≡ breaks_state config.now history.now entry.now }
{
    let command = &entry.command;
    if command.is_refresh() {
        return some_bank(history, entry, config, BankTest::Active);
    }
    if !command.is_activate() && !command.is_column() {
        return false;
    }
    is_at_odds(entry, &bank_of(history, command), &config.timing)
}

/// Whether the entry is an ACT and its bank active, or a read or a write and its bank not ready for one.
fn is_at_odds(entry: &Entry, bank: &Option<OpenBank>, timing: &Timing) -> bool
    ensures { result ≡ ((is_activate entry.now.command && is_active timing.now entry.now.cycle bank.now)
        || (is_column entry.now.command && is_none (ready_row bank.now))) }
{
    let command = &entry.command;
    (command.is_activate() && BankTest::Active.holds(bank, entry.cycle, timing))
        || (command.is_column() && !is_ready(bank))
}

/// The first active bank of the entry's rank, if there is one.
fn active_bank(history: &[Entry], entry: &Entry, config: &Config) -> Option<Evidence>
    ensures broken { is_some result ≡ any_bank config.now.geometry (rank_of entry.now.command)
        (λ bank. is_active config.now.timing entry.now.cycle (bank_behind bank history.now)) }
    ensures some { IfSome result (IsActiveBank config.now history.now entry.now) }
{
    let rank = entry.command.rank();
    let number = first_bank(history, rank, entry.cycle, config, BankTest::Active)?;
    let seen = history_of(history, &bank_at(rank, number));
    Some(Evidence::Bank {
        group: number / GROUP_BANKS,
        bank: number % GROUP_BANKS,
        opened: seen.bank,
        changed: seen.changed,
    })
}

/// Why the entry breaks ROW, if it does.
pub(crate) fn row(history: &[Entry], entry: &Entry, timing: &Timing) -> Option<Evidence>
    ensures broken { is_some result ≡ breaks_row timing.now history.now entry.now }
    ensures some { IfSome result (IsOwnBank history.now entry.now) }
{
    let command = &entry.command;
    if !command.is_column() {
        return None;
    }
    let seen = history_of(history, command);
    if open_row(&seen.bank, entry.cycle, timing) != Some(row_of(command)) {
        Some(own_bank(command, seen))
    } else {
        None
    }
}

/// Whether the entry breaks ROW, as `row` without the evidence.
pub(crate) fn breaks_row(history: &[Entry], entry: &Entry, timing: &Timing) -> bool
    ensures { result ≡ breaks_row timing.now history.now entry.now }
{
    let command = &entry.command;
    if !command.is_column() {
        return false;
    }
    let bank = bank_of(history, command);
    open_row(&bank, entry.cycle, timing) != Some(row_of(command))
}

/// That the ACT stands too close behind the start of an auto-precharge of its bank, if so.
pub(crate) fn rp_start(history: &[Entry], entry: &Entry, timing: &Timing) -> Option<Evidence>
    ensures broken { is_some result ≡ is_behind_start timing.now history.now entry.now }
    ensures some { IfSome result (IsStartOf timing.now entry.now.command history.now entry.now) }
{
    if entry.command.is_activate() {
        start_of(&entry.command, history, entry, timing)
    } else {
        None
    }
}

/// Whether the ACT stands too close behind the start of an auto-precharge of its bank, as `rp_start` without the evidence.
pub(crate) fn is_behind_start(history: &[Entry], entry: &Entry, timing: &Timing) -> bool
    ensures { result ≡ is_behind_start timing.now history.now entry.now }
{
    if !entry.command.is_activate() {
        return false;
    }
    let bank = bank_of(history, &entry.command);
    BankTest::WithinStart.holds(&bank, entry.cycle, timing)
}

/// That the REF stands too close behind the start of an auto-precharge of its rank, if so.
pub(crate) fn rp_ref_start(history: &[Entry], entry: &Entry, config: &Config) -> Option<Evidence>
    ensures broken { is_some result ≡ is_behind_start_of_rank config.now history.now entry.now }
    ensures some { IfSome result (IsStartOfRank config.now history.now entry.now) }
{
    if !entry.command.is_refresh() {
        return None;
    }
    let rank = entry.command.rank();
    let number = first_bank(history, rank, entry.cycle, config, BankTest::WithinStart)?;
    start_of(&bank_at(rank, number), history, entry, &config.timing)
}

/// Whether the REF stands too close behind the start of an auto-precharge of its rank, as `rp_ref_start` without the evidence.
pub(crate) fn is_behind_start_of_rank(history: &[Entry], entry: &Entry, config: &Config) -> bool
    ensures { result ≡ is_behind_start_of_rank config.now history.now entry.now }
{
    entry.command.is_refresh() && some_bank(history, entry, config, BankTest::WithinStart)
}

/// That the entry stands too close behind the start of an auto-precharge of the command's bank, if so.
fn start_of(
    command: &Command,
    history: &[Entry],
    entry: &Entry,
    timing: &Timing,
) -> Option<Evidence>
    ensures broken { is_some result ≡ is_auto_within timing.now timing.now.rp entry.now.cycle (bank_behind command.now history.now) }
    ensures some { IfSome result (IsStartOf timing.now command.now history.now entry.now) }
{
    let seen = history_of(history, command);
    let open = seen.bank?;
    let auto = open.auto?;
    let earlier = seen.changed?;
    if !open.is_auto_within(entry.cycle, timing) {
        return None;
    }
    Some(Evidence::TooCloseToStart {
        earlier,
        distance: clocks_since_start(&open, &auto, entry.cycle, timing),
        least: timing.rp,
    })
}

/// Whether a read or a write finds a row in the bank.
fn is_ready(bank: &Option<OpenBank>) -> bool
    ensures { result ≡ is_some (ready_row bank.now) }
{
    match bank {
        Some(bank) => bank.ready_row().is_some(),
        None => false,
    }
}

/// The open row of the bank in this cycle.
fn open_row(bank: &Option<OpenBank>, cycle: u64, timing: &Timing) -> Option<u32>
    ensures { result ≡ open_row timing.now cycle bank.now }
{
    match bank {
        Some(bank) => bank.open_row(cycle, timing),
        None => None,
    }
}

/// That the command's bank is as its last change left it.
fn own_bank(command: &Command, seen: BankHistory) -> Evidence
    ensures { result ≡ Bank (group_of command.now) (bank_of command.now) seen.bank seen.changed }
{
    let (group, bank) = match *command {
        Command::Act { group, bank, .. }
        | Command::Rd { group, bank, .. }
        | Command::Wr { group, bank, .. }
        | Command::RdAuto { group, bank, .. }
        | Command::WrAuto { group, bank, .. }
        | Command::Pre { group, bank, .. } => (group, bank),
        Command::PreAll { .. } | Command::Refresh { .. } => (0, 0),
    };
    Evidence::Bank {
        group,
        bank,
        opened: seen.bank,
        changed: seen.changed,
    }
}

/// The row, 0 where the command names none.
fn row_of(command: &Command) -> u32
    ensures { result ≡ row_of command.now }
{
    match *command {
        Command::Act { row, .. }
        | Command::Rd { row, .. }
        | Command::Wr { row, .. }
        | Command::RdAuto { row, .. }
        | Command::WrAuto { row, .. } => row,
        _ => 0,
    }
}

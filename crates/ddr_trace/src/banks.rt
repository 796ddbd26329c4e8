//! Rules on the state of banks: whether a bank is active in a cycle, with which row, and how long it has been closed.
ghost use Rattle.std.specs.Prelude.{◌≡◌, ◌/◌, ◌%◌};
ghost use Rattle.std.specs.Option.{is_none};
ghost use Rattle.ddr_timing.specs.declared.units.TheConstants.{GROUP_BANKS};
ghost use Rattle.ddr_trace.specs.declared.command.Command.TheVariants.{Pre};
ghost use Rattle.ddr_trace.specs.Commands.{rank_of};
ghost use Rattle.ddr_trace.specs.Banks.{any_bank, bank_behind, is_active, is_auto_within, open_row, ready_row};
ghost use Rattle.ddr_trace.specs.Rules.{breaks_row, breaks_rp, breaks_rp_ref, breaks_state};

use crate::bank::{OpenBank, bank_after};
use crate::command::{Command, Entry};
use crate::rule::Rule;
use crate::spacing::breaks_spacing;
use ddr_timing::config::Config;
use ddr_timing::timing::Timing;
use ddr_timing::units::GROUP_BANKS;

/// Whether an ACT finds its bank active, a read or a write finds it idle or about to close, or a REF finds some bank active.
pub(crate) fn breaks_state(history: &[Entry], entry: &Entry, config: &Config) -> bool
    ensures { result ≡ breaks_state config.now history.now entry.now }
{
    let command = &entry.command;
    (command.is_activate() && is_active(history, command, entry.cycle, &config.timing))
        || (command.is_column() && is_not_ready(history, command))
        || (command.is_refresh() && is_rank_active(history, entry, config))
}

/// Whether a read or a write is of another row than the open one.
pub(crate) fn breaks_row(history: &[Entry], entry: &Entry, timing: &Timing) -> bool
    ensures { result ≡ breaks_row timing.now history.now entry.now }
{
    let command = &entry.command;
    command.is_column() && open_row(history, command, entry.cycle, timing) != Some(command.row())
}

/// Whether an ACT comes too soon after a precharge of its bank, by PRE, PREA, RDA or WRA.
pub(crate) fn breaks_rp(history: &[Entry], entry: &Entry, timing: &Timing) -> bool
    ensures { result ≡ breaks_rp timing.now history.now entry.now }
{
    breaks_spacing(Rule::Rp, history, entry, timing)
        || (entry.command.is_activate()
            && is_auto_within(history, &entry.command, entry.cycle, timing))
}

/// Whether a REF comes too soon after a precharge of a bank of its rank.
pub(crate) fn breaks_rp_ref(history: &[Entry], entry: &Entry, config: &Config) -> bool
    ensures { result ≡ breaks_rp_ref config.now history.now entry.now }
{
    breaks_spacing(Rule::RpRef, history, entry, &config.timing)
        || (entry.command.is_refresh() && is_some_auto_within(history, entry, config))
}

/// What the history makes of the bank that the command is for.
fn bank_behind(command: &Command, history: &[Entry]) -> Option<OpenBank>
    ensures { result ≡ bank_behind command.now history.now }
{
    let mut bank = None;
    for entry in history {
        bank = bank_after(command, bank, entry);
    }
    bank
}

/// The open row of the command's bank in this cycle.
fn open_row(history: &[Entry], command: &Command, cycle: u64, timing: &Timing) -> Option<u32>
    ensures { result ≡ open_row timing.now cycle (bank_behind command.now history.now) }
{
    match bank_behind(command, history) {
        Some(bank) => bank.open_row(cycle, timing),
        None => None,
    }
}

/// Whether the command's bank is active in this cycle.
fn is_active(history: &[Entry], command: &Command, cycle: u64, timing: &Timing) -> bool
    ensures { result ≡ is_active timing.now cycle (bank_behind command.now history.now) }
{
    open_row(history, command, cycle, timing).is_some()
}

/// Whether a read or a write finds no row in the command's bank.
fn is_not_ready(history: &[Entry], command: &Command) -> bool
    ensures { result ≡ is_none (ready_row (bank_behind command.now history.now)) }
{
    match bank_behind(command, history) {
        Some(bank) => bank.ready_row().is_none(),
        None => true,
    }
}

/// Whether RP isn't over since the start of an auto-precharge of the command's bank.
fn is_auto_within(history: &[Entry], command: &Command, cycle: u64, timing: &Timing) -> bool
    ensures { result ≡ is_auto_within timing.now timing.now.rp cycle (bank_behind command.now history.now) }
{
    match bank_behind(command, history) {
        Some(bank) => bank.is_auto_within(cycle, timing),
        None => false,
    }
}

/// Whether some bank of the entry's rank is active in the entry's cycle.
fn is_rank_active(history: &[Entry], entry: &Entry, config: &Config) -> bool
    ensures { result ≡ any_bank config.now.geometry (rank_of entry.now.command)
        (λ bank. is_active config.now.timing entry.now.cycle (bank_behind bank history.now)) }
{
    let rank = entry.command.rank();
    (0..config.geometry.groups * GROUP_BANKS).any(|number| is_active(
        history,
        &bank_of(rank, number),
        entry.cycle,
        &config.timing,
    ))
}

/// Whether RP isn't over since the start of an auto-precharge of some bank of the entry's rank.
fn is_some_auto_within(history: &[Entry], entry: &Entry, config: &Config) -> bool
    ensures { result ≡ any_bank config.now.geometry (rank_of entry.now.command)
        (λ bank. is_auto_within config.now.timing config.now.timing.rp entry.now.cycle (bank_behind bank history.now)) }
{
    let rank = entry.command.rank();
    (0..config.geometry.groups * GROUP_BANKS).any(|number| is_auto_within(
        history,
        &bank_of(rank, number),
        entry.cycle,
        &config.timing,
    ))
}

/// The bank of this number in its rank, as the PRE of it.
fn bank_of(rank: u32, number: u32) -> Command
    ensures { result ≡ Pre rank (number / GROUP_BANKS) (number % GROUP_BANKS) }
{
    Command::Pre {
        rank,
        group: number / GROUP_BANKS,
        bank: number % GROUP_BANKS,
    }
}

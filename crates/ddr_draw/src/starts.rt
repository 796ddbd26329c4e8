//! What a command waited for from the start of an auto-precharge on (JESD79-4, "Auto-Precharge").
//!
//! `held`, `period` and `ddr_trace` stand below, and `waited` above.
ghost use Rattle.std.specs.Prelude.{◌≡◌, ◌<◌, ◌+◌, ◌^◌, length};
ghost use Rattle.ddr_trace.specs.Banks.{bank_after, bank_behind};
ghost use Rattle.ddr_draw.specs.Held.{auto_place, bank_at, start_of, wait_closing, wait_of_bank, wait_of_rank, wait_of_starts};

use crate::held::{Held, later_of};
use crate::names::after;
use ddr_timing::config::Config;
use ddr_timing::timing::Timing;
use ddr_timing::units::GROUP_BANKS;
use ddr_trace::bank::{OpenBank, changed_by, recovery};
use ddr_trace::command::{Command, Entry};
use ddr_trace::rule::Rule;

/// What allows the command later: what was found so far, or RP of its bank, and of a REF RP_REF of a bank of its rank, by these
/// entries before it, the first of which stands at the place.
pub(crate) fn wait_of_starts(
    config: &Config,
    first: usize,
    recent: &[Entry],
    command: &Command,
    best: Option<Held>,
) -> Option<Held>
    requires { first + length recent.now < 2 ^ 63 }
    ensures { result ≡ wait_of_starts config.now first recent.now command.now best }
{
    match command {
        Command::Act { .. } => {
            wait_of_bank(&config.timing, Rule::Rp, first, recent, command, best)
        }
        Command::Refresh { rank } => wait_of_rank(config, first, recent, *rank, best),
        _ => best,
    }
}

/// The same of all banks of a rank.
#[tactic(auto, unfolding(crate::specs::Held::wait_of_rank))]
fn wait_of_rank(
    config: &Config,
    first: usize,
    recent: &[Entry],
    rank: u32,
    found: Option<Held>,
) -> Option<Held>
    requires { first + length recent.now < 2 ^ 63 }
    ensures { result ≡ wait_of_rank config.now first recent.now rank found }
{
    let mut best = found;
    for number in 0..config.geometry.groups * GROUP_BANKS {
        let bank = bank_at(rank, number);
        best = wait_of_bank(&config.timing, Rule::RpRef, first, recent, &bank, best);
    }
    best
}

/// The same of one bank, that of the command.
#[tactic(auto, unfolding(crate::specs::Held::wait_of_bank))]
fn wait_of_bank(
    timing: &Timing,
    rule: Rule,
    first: usize,
    recent: &[Entry],
    bank: &Command,
    best: Option<Held>,
) -> Option<Held>
    requires { first + length recent.now < 2 ^ 63 }
    ensures { result ≡ wait_of_bank timing.now rule first recent.now bank.now best }
{
    let place = auto_place(bank, first, recent);
    match bank_behind(bank, recent) {
        Some(open) => wait_closing(timing, rule, place, &open, best),
        None => best,
    }
}

/// The same of an open bank, whose last read or write with auto-precharge stands at the place.
fn wait_closing(
    timing: &Timing,
    rule: Rule,
    place: usize,
    bank: &OpenBank,
    best: Option<Held>,
) -> Option<Held>
    ensures { result ≡ wait_closing timing.now rule place bank.now bank.now.auto best }
{
    let Some(auto) = bank.auto else {
        return best;
    };
    let held = Held {
        rule,
        place,
        earlier: auto,
        since: start_of(timing, bank, &auto),
        least: timing.rp,
    };
    later_of(best, held)
}

/// The cycle in which an auto-precharge starts: its own command and its bank's ACT then allow a precharge.
fn start_of(timing: &Timing, bank: &OpenBank, auto: &Entry) -> u64
    ensures { result ≡ start_of timing.now bank.now auto.now }
{
    after(auto.cycle, recovery(&auto.command, timing)).max(after(bank.since, timing.ras))
}

/// The place of the bank's last read or write with auto-precharge; that of the first entry where there is none.
fn auto_place(bank: &Command, first: usize, recent: &[Entry]) -> usize
    requires { first + length recent.now < 2 ^ 63 }
    ensures { result ≡ auto_place bank.now first first recent.now }
{
    let mut found = first;
    let mut place = first;
    let mut rest = recent;
    'entries: while let Some((entry, later)) = rest.split_first() {
        if entry.command.is_auto() && entry.command.is_same_bank(bank) {
            found = place;
        }
        place += 1;
        rest = later;
    }
    found
}

/// What the entries make of the bank that the command is for.
fn bank_behind(command: &Command, entries: &[Entry]) -> Option<OpenBank>
    ensures { result ≡ bank_behind command.now entries.now }
{
    let mut bank = None;
    for entry in entries {
        bank = bank_after(command, bank, entry);
    }
    bank
}

/// What an entry makes of the bank that the command is for.
fn bank_after(command: &Command, bank: Option<OpenBank>, entry: &Entry) -> Option<OpenBank>
    ensures { result ≡ bank_after command.now bank entry.now }
{
    if entry.command.is_same_bank(command) {
        changed_by(entry, bank)
    } else {
        bank
    }
}

/// The bank of this number in its rank, as the PRE of it.
fn bank_at(rank: u32, number: u32) -> Command
    ensures { result ≡ bank_at rank number }
{
    Command::Pre {
        rank,
        group: number / GROUP_BANKS,
        bank: number % GROUP_BANKS,
    }
}

//! Rules on the state of banks: the command that last changed the bank.
//!
//! `evidence`, `kind` and `ddr_trace` stand below, and `state` above.
ghost use Rattle.std.specs.Prelude.{◌≡◌, ◌+◌, ◌-◌, ◌<◌, ◌≤◌, ◌&&◌, if◌then◌else◌, All, IfNone, IfSome, None, Some, drop, false, length, slice_get};
ghost use Rattle.ddr_trace.specs.Banks.{auto_start, bank_after, bank_behind};
ghost use Rattle.ddr_trace.specs.Commands.{is_same_bank};
ghost use Rattle.ddr_evidence.specs.Places.{IsLastChange, IsLastChangeAt, changes};
ghost use Rattle.ddr_evidence.specs.Recent.{StartsAtAct, decides, opens};

use crate::evidence::Placed;
use ddr_timing::timing::Timing;
use ddr_trace::bank::{OpenBank, changed_by, recovery};
use ddr_trace::command::{Command, Entry};

/// What a history makes of a bank.
#[derive(Clone, Copy)]
pub(crate) struct BankHistory {
    pub(crate) bank: Option<OpenBank>,
    /// The entry that last changed the bank.
    pub(crate) changed: Option<Placed>,
}

/// What the history makes of the bank that the command is for. It looks back to the bank's last ACT, and from there forward.
pub(crate) fn history_of(history: &[Entry], command: &Command) -> BankHistory
    ensures bank { result.bank ≡ bank_behind command.now history.now }
    ensures changed { IsLastChange command.now history.now result.changed }
    ensures idle { IfNone result.changed (result.bank ≡ None) }
{
    match last_act(history, command) {
        Some(from) => history_from(from, history, command),
        None => BankHistory {
            bank: None,
            changed: None,
        },
    }
}

/// What the history makes of the bank that the command is for, of which an ACT stands at the place.
fn history_from(from: usize, history: &[Entry], command: &Command) -> BankHistory
    requires within { from ≤ length history.now }
    requires starts { StartsAtAct command.now history.now from }
    ensures bank { result.bank ≡ bank_behind command.now history.now }
    ensures changed { IsLastChange command.now history.now result.changed }
    ensures idle { IfNone result.changed (result.bank ≡ None) }
{
    let seen = walk(&history[from..], command);
    let changed = match seen.changed {
        Some(place) => Some(placed(history, from + place)),
        None => None,
    };
    BankHistory {
        bank: seen.bank,
        changed,
    }
}

/// What the history makes of the bank that the command is for, as `history_of` without the entry that last changed it. It looks
/// back no further than to the last entry that decides it, and forward from there only where that is an ACT.
pub(crate) fn bank_of(history: &[Entry], command: &Command) -> Option<OpenBank>
    ensures { result ≡ bank_behind command.now history.now }
{
    let from = last_opened(history, command)?;
    walk(&history[from..], command).bank
}

/// The place of the last ACT of the bank that the command is for. What stands before it leaves no mark on the bank, and where
/// there is none, nothing does.
fn last_act(history: &[Entry], command: &Command) -> Option<usize>
    ensures within { IfSome result (λ from. from ≤ length history.now) }
    ensures starts { IfSome result (StartsAtAct command.now history.now) }
    ensures last { IfSome result (λ from. All (λ a. opens command.now a ≡ false) (drop (from + 1) history.now)) }
    ensures none { IfNone result (All (λ a. opens command.now a ≡ false) history.now) }
{
    let mut earlier = history;
    while let Some((last, before)) = earlier.split_last() {
        if opens(last, command) {
            return Some(before.len());
        }
        earlier = before;
    }
    None
}

/// The place of the last ACT of the bank that the command is for, where no precharge of it stands behind. What stands before it
/// is nothing to what the bank is, and where there is none, the bank was never opened or a precharge closed it.
fn last_opened(history: &[Entry], command: &Command) -> Option<usize>
    ensures within { IfSome result (λ from. from ≤ length history.now) }
    ensures starts { IfSome result (StartsAtAct command.now history.now) }
    ensures last { IfSome result (λ from. All (λ a. decides command.now a ≡ false) (drop (from + 1) history.now)) }
    ensures same { IfSome result (λ from. bank_behind command.now (drop from history.now) ≡ bank_behind command.now history.now) }
    ensures idle { IfNone result (bank_behind command.now history.now ≡ None) }
{
    let mut earlier = history;
    while let Some((last, before)) = earlier.split_last() {
        if decides(last, command) {
            if last.command.is_activate() {
                return Some(before.len());
            }
            return None;
        }
        earlier = before;
    }
    None
}

/// Whether the entry is an ACT of the bank that the command is for.
fn opens(entry: &Entry, command: &Command) -> bool
    ensures { result ≡ opens command.now entry.now }
{
    entry.command.is_activate() && entry.command.is_same_bank(command)
}

/// Whether the entry decides what the bank that the command is for is, whatever it was.
fn decides(entry: &Entry, command: &Command) -> bool
    ensures { result ≡ decides command.now entry.now }
{
    (entry.command.is_activate() || entry.command.is_precharge())
        && entry.command.is_same_bank(command)
}

/// The entry at the place.
fn placed(history: &[Entry], place: usize) -> Placed
    requires { place < length history.now }
    ensures place { result.place ≡ place }
    ensures entry { slice_get history.now place ≡ Some result.entry }
{
    prove!(place < history.len());
    Placed {
        place,
        entry: history[place],
    }
}

/// What the entries so far make of a bank, and the place of the one that last changed it.
#[derive(Clone, Copy)]
struct SoFar {
    bank: Option<OpenBank>,
    changed: Option<usize>,
}

impl SoFar {
    /// What they and one more entry, at this place, make of the bank that the command is for.
    fn after(self, place: usize, entry: &Entry, command: &Command) -> SoFar
        ensures bank { result.bank ≡ bank_after command.now self.bank entry.now }
        ensures changed { result.changed
            ≡ (if is_same_bank entry.now.command command.now && changes entry.now self.bank then Some place else self.changed) }
    {
        if !entry.command.is_same_bank(command) {
            return self;
        }
        let changed = if changes(entry, &self.bank) {
            Some(place)
        } else {
            self.changed
        };
        SoFar {
            bank: changed_by(entry, self.bank),
            changed,
        }
    }
}

/// What the whole history makes of the bank that the command is for.
fn walk(history: &[Entry], command: &Command) -> SoFar
    ensures bank { result.bank ≡ bank_behind command.now history.now }
    ensures changed { IsLastChangeAt command.now history.now result.changed }
    ensures idle { IfNone result.changed (result.bank ≡ None) }
{
    let mut seen = SoFar {
        bank: None,
        changed: None,
    };
    for (place, entry) in history.iter().enumerate() {
        seen = seen.after(place, entry, command);
    }
    seen
}

/// Whether the entry opens the bank, or closes it or is to close it where it is open.
fn changes(entry: &Entry, bank: &Option<OpenBank>) -> bool
    ensures { result ≡ changes entry.now bank.now }
{
    entry.command.is_activate()
        || (bank.is_some() && (entry.command.is_precharge() || entry.command.is_auto()))
}

/// How many clocks the cycle stands behind the start of the bank's auto-precharge; 0 before it.
pub fn clocks_since_start(bank: &OpenBank, auto: &Entry, cycle: u64, timing: &Timing) -> u64
    ensures { result ≡ cycle - auto_start timing.now bank.now auto.now }
{
    let since_command = cycle.saturating_sub(auto.cycle);
    let since_open = cycle.saturating_sub(bank.since);
    let by_command = since_command.saturating_sub(u64::from(recovery(&auto.command, timing)));
    let by_open = since_open.saturating_sub(u64::from(timing.ras));
    by_command.min(by_open)
}

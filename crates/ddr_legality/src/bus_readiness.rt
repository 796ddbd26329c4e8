//! What is kept of the commands issued so far: as much as the next one is tested against, and no list of them.
ghost use Rattle.std.specs.Prelude.{◌≡◌, ℕ, ◌+◌, ◌<◌, ◌≤◌, ◌&&◌, nat_le, List, [], ◌∷◌, ◌++◌, IsTrue, IfNone, IfOk, true};
ghost use Rattle.std.specs.Option.{is_none};
ghost use Rattle.ddr_trace.specs.declared.command.Command.TheVariants.{Pre};
ghost use Rattle.ddr_trace.specs.declared.command.Entry.{Entry};
ghost use Rattle.ddr_trace.specs.Banks.{bank_behind, open_row, ready_row};
ghost use Rattle.ddr_trace.specs.Commands.{entry, rank_of};
ghost use Rattle.ddr_trace.specs.Rules.{breaks, breaks_rtrs, is_in, is_on_commands};
ghost use Rattle.ddr_trace.specs.Legality.{lowest_broken};
ghost use Rattle.ddr_rank.specs.Distances.{keeps_distances, no_distance};
ghost use Rattle.ddr_rank.specs.Ready.{LAST_CYCLE, after};
ghost use Rattle.ddr_rank.specs.Stands.{IsAfter, lowest_on_rank};
ghost use Rattle.ddr_legality.specs.Columns.{columns_noted, switch_behind};

use crate::columns::{Columns, Switch};
use ddr_rank::rank::Rank;
use ddr_timing::config::Config;
use ddr_trace::command::{Command, Entry};
use ddr_trace::rule::Rule;
use std::alloc::{AllocError, Global};

/// The cycle of the last command, and of each rank its readiness and its last read and write. Contracts speak of every
/// list of commands that was issued so.
#[derive(Drop)]
pub(crate) struct BusReadiness {
    pub config: Config,
    /// The first cycle in which a command may stand.
    pub start: u64,
    last: Option<u64>,
    /// The first cycle behind the last command.
    free: u64,
    /// Rank 0.
    first: Rank,
    /// Rank 1. Where the geometry has one rank no command is of this one.
    second: Rank,
    first_columns: Columns,
    second_columns: Columns,
    /// The first cycles that rank 1 leaves the reads and writes of rank 0.
    first_switch: Switch,
    second_switch: Switch,
    ghost first_config: { first.config ≡ config },
    ghost second_config: { second.config ≡ config },
}

impl BusReadiness {
    ghost use Rattle.ddr_legality.specs.BusReadiness.{HasIssued, behind_other, is_in_order, is_later, other_columns, switch_of};

    /// Nothing was issued.
    pub fn open(alloc: Global, config: &Config, start: u64) -> Result<BusReadiness, AllocError>
        ensures config { IfOk result (λ i. i.config ≡ config.now) }
        ensures start { IfOk result (λ i. i.start ≡ start) }
        ensures issued { IfOk result (λ i. HasIssued i []) }
    {
        Ok(BusReadiness {
            config: *config,
            start,
            last: None,
            free: 0,
            first: Rank::open(alloc, config)?,
            second: Rank::open(alloc, config)?,
            first_columns: Columns::NONE,
            second_columns: Columns::NONE,
            first_switch: Switch::FREE,
            second_switch: Switch::FREE,
        })
    }

    /// The lowest rule on commands that the entry would break, in a trace that ends at `end`.
    pub fn broken_by(&self, entry: &Entry, end: u64) -> Option<Rule>
        ensures lowest { (history : List Entry) → HasIssued self.now history
            → result ≡ lowest_broken self.now.config self.now.start end history entry.now }
        ensures placed { IfNone result (is_in self.now.config.geometry entry.now.command ≡ true) }
        ensures later { IfNone result (is_later self.now.last entry.now.cycle ≡ true) }
    {
        if !self.is_in_order(entry.cycle, end) {
            return Some(Rule::Order);
        }
        if !entry.command.is_in(&self.config.geometry) {
            return Some(Rule::Place);
        }
        if let Some(rule) = self.fault(entry) {
            return Some(rule);
        }
        if self.is_switched_too_soon(entry) {
            return Some(Rule::Rtrs);
        }
        None
    }

    /// Whether the command breaks no rule on commands in this cycle, with which the trace ends.
    #[inline(always)]
    pub fn is_legal(&self, cycle: u64, command: &Command) -> bool
        requires begun { self.now.start ≤ cycle }
        requires below { cycle < LAST_CYCLE }
        ensures { (history : List Entry) → HasIssued self.now history
            → result ≡ is_none (lowest_broken self.now.config self.now.start (cycle + 1) history (entry cycle command.now)) }
    {
        match command {
            Command::Rd { rank, .. } | Command::RdAuto { rank, .. } => {
                self.is_kept(cycle, command, self.switch_of(*rank).read)
            }
            Command::Wr { rank, .. } | Command::WrAuto { rank, .. } => {
                self.is_kept(cycle, command, self.switch_of(*rank).write)
            }
            Command::Act { .. } => self.is_kept(cycle, command, 0),
            Command::Pre { .. } => self.is_kept(cycle, command, 0),
            Command::PreAll { .. } | Command::Refresh { .. } => self.is_kept(cycle, command, 0),
        }
    }

    /// As `is_legal`, where the other rank leaves the command the cycles from `switched` on. It is built into each of its
    /// callers, where the kind of the command is known.
    #[inline(always)]
    fn is_kept(&self, cycle: u64, command: &Command, switched: u64) -> bool
        requires begun { self.now.start ≤ cycle }
        requires below { cycle < LAST_CYCLE }
        ensures { (history : List Entry) → HasIssued self.now history → switched ≡ behind_other self.now command.now
            → result ≡ is_none (lowest_broken self.now.config self.now.start (cycle + 1) history (entry cycle command.now)) }
    {
        if cycle < self.free {
            return false;
        }
        if !command.is_in(&self.config.geometry) {
            return false;
        }
        if !self.is_ready(cycle, command) {
            return false;
        }
        switched <= cycle
    }

    /// The first cycle from this one on in which the command keeps every distance, whatever the state of its banks. For a
    /// command outside the geometry, and where there is none, the last cycle that a `u64` counts.
    #[inline(always)]
    pub fn allowed_at(&self, from: u64, command: &Command) -> u64
        requires { self.now.start ≤ from }
        ensures from { from ≤ result }
        ensures first { (history : List Entry) (cycle : ℕ) → HasIssued self.now history → from ≤ cycle → cycle < LAST_CYCLE
            → no_distance (λ r. is_on_commands r && breaks self.now.config self.now.start (cycle + 1) r history (entry cycle command.now)) ≡ nat_le result cycle }
    {
        match command {
            Command::Rd { rank, .. } | Command::RdAuto { rank, .. } => {
                self.allowed_behind(from, command, self.switch_of(*rank).read)
            }
            Command::Wr { rank, .. } | Command::WrAuto { rank, .. } => {
                self.allowed_behind(from, command, self.switch_of(*rank).write)
            }
            Command::Act { .. } => self.allowed_behind(from, command, 0),
            Command::Pre { .. } => self.allowed_behind(from, command, 0),
            Command::PreAll { .. } | Command::Refresh { .. } => {
                self.allowed_behind(from, command, 0)
            }
        }
    }

    /// As `allowed_at`, where the other rank leaves the command the cycles from `switched` on.
    #[inline(always)]
    fn allowed_behind(&self, from: u64, command: &Command, switched: u64) -> u64
        requires { self.now.start ≤ from }
        ensures from { from ≤ result }
        ensures first { (history : List Entry) (cycle : ℕ) → HasIssued self.now history → switched ≡ behind_other self.now command.now → from ≤ cycle → cycle < LAST_CYCLE
            → no_distance (λ r. is_on_commands r && breaks self.now.config self.now.start (cycle + 1) r history (entry cycle command.now)) ≡ nat_le result cycle }
    {
        if !command.is_in(&self.config.geometry) {
            return u64::MAX;
        }
        let free = from.max(self.free);
        self.allowed_on_rank(free.max(switched), command)
    }

    /// The first cycles that the other rank leaves the reads and writes of this one.
    fn switch_of(&self, rank: u32) -> &Switch
        ensures { result.now ≡ switch_of self.now rank }
    {
        match rank {
            0 => &self.first_switch,
            _ => &self.second_switch,
        }
    }

    /// The first cycle from this one on in which the command keeps every distance on its rank.
    #[inline(always)]
    fn allowed_on_rank(&self, from: u64, command: &Command) -> u64
        requires { IsTrue (is_in self.now.config.geometry command.now) }
        ensures from { from ≤ result }
        ensures first { (history : List Entry) (cycle : ℕ) → HasIssued self.now history → from ≤ cycle → cycle < LAST_CYCLE
            → keeps_distances self.now.config history (entry cycle command.now) ≡ nat_le result cycle }
    {
        match command.rank() {
            0 => self.first.allowed_at(from, *command),
            _ => self.second.allowed_at(from, *command),
        }
    }

    /// Whether the cycle is above that of the last command, not below the start, and below the end.
    fn is_in_order(&self, cycle: u64, end: u64) -> bool
        ensures { result ≡ is_in_order self.now.last self.now.start end cycle }
    {
        self.is_after_last(cycle) && self.start <= cycle && cycle < end
    }

    /// Whether the cycle is above that of the last command, if there was one.
    pub fn is_after_last(&self, cycle: u64) -> bool
        ensures { result ≡ is_later self.now.last cycle }
    {
        match self.last {
            Some(last) => last < cycle,
            None => true,
        }
    }

    /// The lowest rule on its rank that a command would break behind the last one.
    fn fault(&self, entry: &Entry) -> Option<Rule>
        requires { IsTrue (is_in self.now.config.geometry entry.now.command) }
        ensures { (history : List Entry) → HasIssued self.now history → IsAfter history entry.now.cycle
            → result ≡ lowest_on_rank self.now.config history entry.now }
    {
        match entry.command.rank() {
            0 => self.first.fault(entry.cycle, entry.command),
            _ => self.second.fault(entry.cycle, entry.command),
        }
    }

    /// Whether a command would break no rule on its rank behind the last one.
    #[inline(always)]
    fn is_ready(&self, cycle: u64, command: &Command) -> bool
        requires below { cycle < LAST_CYCLE }
        requires placed { IsTrue (is_in self.now.config.geometry command.now) }
        ensures { (history : List Entry) → HasIssued self.now history → IsAfter history cycle
            → result ≡ is_none (lowest_on_rank self.now.config history (entry cycle command.now)) }
    {
        match command.rank() {
            0 => self.first.is_ready(cycle, command),
            _ => self.second.is_ready(cycle, command),
        }
    }

    /// Whether the entry is a read or a write too close behind one of the other rank.
    fn is_switched_too_soon(&self, entry: &Entry) -> bool
        requires { IsTrue (is_in self.now.config.geometry entry.now.command) }
        ensures { (history : List Entry) → HasIssued self.now history
            → result ≡ breaks_rtrs self.now.config.timing history entry.now }
    {
        self.other_columns(&entry.command)
            .are_left_too_soon(entry, &self.config.timing)
    }

    /// The last read and write of the rank that the command isn't of.
    fn other_columns(&self, command: &Command) -> &Columns
        ensures { result.now ≡ other_columns self.now (rank_of command.now) }
    {
        match command.rank() {
            0 => &self.second_columns,
            _ => &self.first_columns,
        }
    }

    /// Issues a command behind the last one, whether or not it breaks a rule on ranks.
    pub fn issue(&mut self, entry: &Entry)
        requires { IsTrue (is_in self.old.config.geometry entry.now.command) }
        ensures config { self.new.config ≡ self.old.config }
        ensures start { self.new.start ≡ self.old.start }
        ensures issued { (history : List Entry) → HasIssued self.old history → IsAfter history entry.now.cycle
            → HasIssued self.new (history ++ entry.now ∷ []) }
    {
        self.last = Some(entry.cycle);
        self.free = cycle_behind(entry.cycle);
        match entry.command.rank() {
            0 => {
                note_column(
                    &mut self.first_columns,
                    &mut self.second_switch,
                    entry,
                    &self.config,
                );
                self.first.issue(entry.cycle, entry.command);
            }
            _ => {
                note_column(
                    &mut self.second_columns,
                    &mut self.first_switch,
                    entry,
                    &self.config,
                );
                self.second.issue(entry.cycle, entry.command);
            }
        }
    }

    /// The open row of a bank in this cycle, if it is active then. `None` also outside the geometry.
    #[inline(always)]
    pub fn open_row(&self, cycle: u64, rank: u32, group: u32, bank: u32) -> Option<u32>
        ensures { (history : List Entry) → HasIssued self.now history
            → result ≡ open_row self.now.config.timing cycle (bank_behind (Pre rank group bank) history) }
    {
        match rank {
            0 => self.first.open_row(cycle, group, bank),
            1 => self.second.open_row(cycle, group, bank),
            _ => None,
        }
    }
    /// The row of a bank that reads and writes find. `None` also outside the geometry.
    #[inline(always)]
    pub fn ready_row(&self, rank: u32, group: u32, bank: u32) -> Option<u32>
        ensures { (history : List Entry) → HasIssued self.now history
            → result ≡ ready_row (bank_behind (Pre rank group bank) history) }
    {
        match rank {
            0 => self.first.ready_row(group, bank),
            1 => self.second.ready_row(group, bank),
            _ => None,
        }
    }
}

/// Keeps a command of a rank, where it is a read or a write, and the first cycles that it then leaves the other rank.
fn note_column(columns: &mut Columns, switch: &mut Switch, entry: &Entry, config: &Config)
    ensures columns { columns.new ≡ columns_noted entry.now columns.old }
    ensures switch { switch.old ≡ switch_behind config.now.timing columns.old → switch.new ≡ switch_behind config.now.timing columns.new }
{
    if entry.command.is_column() {
        columns.note(entry);
        *switch = columns.switch(&config.timing);
    }
}

/// The next cycle, as far as a clock counts.
fn cycle_behind(cycle: u64) -> u64
    ensures { result ≡ after cycle 1 }
{
    cycle.saturating_add(1)
}

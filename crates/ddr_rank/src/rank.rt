//! One rank: what was issued to it, as far as a later command can break a rule by it.
ghost use Rattle.std.specs.Prelude.{◌≡◌, ℕ, ◌+◌, ◌*◌, ◌<◌, ◌≤◌, ◌==◌, ◌&&◌, if◌then◌else◌, nat_le, List, [], ◌∷◌, ◌++◌, length, slice_get, None, IsTrue, IsOk, IfOk};
ghost use Rattle.std.specs.Option.{is_none};
ghost use Rattle.ddr_timing.specs.declared.units.TheConstants.{GROUP_BANKS};
ghost use Rattle.ddr_trace.specs.declared.command.Entry.{Entry};
ghost use Rattle.ddr_trace.specs.declared.command.Command.TheVariants.{Pre};
ghost use Rattle.ddr_trace.specs.Banks.{bank_behind, open_row, ready_row};
ghost use Rattle.ddr_trace.specs.Commands.{entry, rank_of};
ghost use Rattle.ddr_trace.specs.Rules.{is_in};
ghost use Rattle.ddr_trace.specs.Legality.{lowest_rule};
ghost use Rattle.ddr_rank.specs.Breaks.{breaks_now};
ghost use Rattle.ddr_rank.specs.Distances.{keeps_distances, state_fits};
ghost use Rattle.ddr_rank.specs.Noted.{IsRaised, activate_noted, all_noted, noted, noted_at};
ghost use Rattle.ddr_rank.specs.Readiness.{bank_at, group_at, ready_at};
ghost use Rattle.ddr_rank.specs.Ready.{LAST_CYCLE};
ghost use Rattle.ddr_rank.specs.Stands.{IsAfter, StandsFor, lowest_on_rank};

use crate::bank::Bank;
use crate::cycles::behind;
use crate::last::Last;
use crate::ready::{FirstCycles, Ready, ReadyAll, ReadyColumns};
use circular_buffer::HeapCircularBuffer;
use ddr_timing::bank::number_in_rank;
use ddr_timing::config::Config;
use ddr_timing::units::{GROUP_BANKS, MOST_GROUPS};
use ddr_trace::command::{Command, Entry};
use ddr_trace::rule::Rule;
use std::alloc::{AllocError, Global};
use std::marker::Model;

mod rules;

/// The activations that the rule on four of them looks back at (JESD79-4, tFAW).
const WINDOW: usize = 4;

/// One rank. It doesn't know its number: contracts speak of every rank number and list of commands that it stands for, in
/// which those of this rank were issued to it, in order.
#[derive(Drop)]
pub struct Rank {
    config: Config,
    // Bank b of group g stands at g * GROUP_BANKS + b.
    banks: Vec<Bank>,
    // Of each group, the cycles of its last commands.
    groups: Vec<Last>,
    // The last REF.
    refresh: Option<u64>,
    // The last four ACTs, the oldest first.
    activates: HeapCircularBuffer<u64>,
    // The first cycle in which the window of four ACTs has room for the next one.
    window: u64,
    // The first cycles of the next commands, as far as the rules on two commands go.
    first_cycles: FirstCycles,
}

impl Model for Rank {
    ghost use Rattle.ddr_rank.specs.Readiness.{Readiness};

    ghost Value = { Readiness };

    ghost use Rattle.ddr_rank.specs.View.{IsSound, readiness_of};

    ghost view = { readiness_of };

    ghost invariant = { IsSound };
}

impl Rank {
    /// A rank to which nothing was issued: all banks idle. It takes all its memory here.
    pub fn open(alloc: Global, config: &Config) -> Result<Rank, AllocError>
        ensures config { IfOk result (λ r. r.config ≡ config.now) }
        ensures stands { IfOk result (λ r. (rank : ℕ) → StandsFor r rank []) }
    {
        let groups = config.geometry.groups as usize;
        Ok(Rank {
            config: *config,
            banks: vec![in alloc; Bank::IDLE; groups * GROUP_BANKS as usize]?,
            groups: vec![in alloc; Last::NEVER; groups]?,
            refresh: None,
            activates: HeapCircularBuffer::with_capacity(alloc, WINDOW)?,
            window: 0,
            first_cycles: FirstCycles {
                banks: vec![in alloc; Ready::FREE; groups * GROUP_BANKS as usize]?,
                columns: [ReadyColumns::FREE; MOST_GROUPS as usize],
                all: ReadyAll::FREE,
            },
        })
    }

    /// The lowest rule, from STATE to RFC, that the command would break in this cycle, after those issued.
    pub fn fault(&self, cycle: u64, command: Command) -> Option<Rule>
        requires { IsTrue (is_in self.now.config.geometry command) }
        ensures { (history : List Entry) → StandsFor self.entry.now (rank_of command) history → IsAfter history cycle
            → result ≡ lowest_on_rank self.entry.now.config history (entry cycle command) }
    {
        if self.may(cycle, command) {
            return None;
        }
        self.lowest(cycle, &command)
    }

    /// Whether the command breaks none of these rules in this cycle.
    #[inline]
    pub fn may(&self, cycle: u64, command: Command) -> bool
        requires { IsTrue (is_in self.now.config.geometry command) }
        ensures { (history : List Entry) → StandsFor self.entry.now (rank_of command) history → IsAfter history cycle
            → result ≡ is_none (lowest_on_rank self.entry.now.config history (entry cycle command)) }
    {
        if cycle == u64::MAX {
            // A first cycle that is kept as the last one may be a later one.
            return self.lowest(cycle, &command).is_none();
        }
        self.is_ready(cycle, &command)
    }

    /// Whether the command breaks none of these rules in this cycle, which is not the last one that a `u64` counts. It
    /// costs less than `may`.
    #[inline(always)]
    pub fn is_ready(&self, cycle: u64, command: &Command) -> bool
        requires below { cycle < LAST_CYCLE }
        requires placed { IsTrue (is_in self.now.config.geometry command.now) }
        ensures { (history : List Entry) → StandsFor self.entry.now (rank_of command.now) history → IsAfter history cycle
            → result ≡ is_none (lowest_on_rank self.entry.now.config history (entry cycle command.now)) }
    {
        self.may_now(cycle, command)
    }

    /// The first cycle from this one on in which the command keeps every distance, whatever the state of its banks. It
    /// stands until the next command of the rank is issued. The last cycle that a `u64` counts where there is none below.
    #[inline(always)]
    pub fn allowed_at(&self, from: u64, command: Command) -> u64
        requires { IsTrue (is_in self.now.config.geometry command) }
        ensures from { from ≤ result }
        ensures first { (history : List Entry) (cycle : ℕ) → StandsFor self.entry.now (rank_of command) history → from ≤ cycle → cycle < LAST_CYCLE
            → keeps_distances self.entry.now.config history (entry cycle command) ≡ nat_le result cycle }
        ensures legal { (history : List Entry) (cycle : ℕ) → StandsFor self.entry.now (rank_of command) history → from ≤ cycle → cycle < LAST_CYCLE
            → is_none (lowest_on_rank self.entry.now.config history (entry cycle command)) ≡ (state_fits self.entry.now.config history (entry cycle command) && nat_le result cycle) }
    {
        self.first_cycle(&command).max(from)
    }

    /// Makes room for one more command, which a rank has at all times: it takes no memory.
    pub fn reserve(&mut self) -> Result<(), AllocError>
        ensures ok { IsOk result }
        ensures unchanged { self.new ≡ self.old }
        ensures config { self.new.config ≡ self.old.config }
        ensures stands { (rank : ℕ) (history : List Entry) → StandsFor self.old rank history → StandsFor self.new rank history }
    {
        Ok(())
    }

    /// Issues the command in this cycle, whether or not it breaks a rule.
    pub fn issue(&mut self, cycle: u64, command: Command)
        requires { IsTrue (is_in self.old.config.geometry command) }
        ensures config { self.new.config ≡ self.old.config }
        ensures stands { (history : List Entry) → StandsFor self.old (rank_of command) history → IsAfter history cycle
            → StandsFor self.new (rank_of command) (history ++ entry cycle command ∷ []) }
    {
        let entry = Entry { cycle, command };
        match command {
            Command::Act { .. } => self.keep(&entry),
            Command::Rd { .. } => self.keep(&entry),
            Command::Wr { .. } => self.keep(&entry),
            Command::Pre { .. } => self.keep(&entry),
            Command::RdAuto { .. }
            | Command::WrAuto { .. }
            | Command::PreAll { .. }
            | Command::Refresh { .. } => self.keep(&entry),
        }
    }

    /// Keeps the command and raises the first cycles of what comes next. It is built into each of its callers, where the kind of
    /// the command is known.
    #[inline(always)]
    fn keep(&mut self, entry: &Entry)
        requires { IsTrue (is_in self.old.config.geometry entry.now.command) }
        ensures config { self.new.config ≡ self.old.config }
        ensures stands { (history : List Entry) → StandsFor self.old (rank_of entry.now.command) history → IsAfter history entry.now.cycle
            → StandsFor self.new (rank_of entry.now.command) (history ++ entry.now ∷ []) }
    {
        self.note(entry);
        self.raise(entry);
    }

    /// The open row of a bank in this cycle, if it is active then. `None` also outside the geometry.
    pub fn open_row(&self, cycle: u64, group: u32, bank: u32) -> Option<u32>
        ensures { (rank : ℕ) (history : List Entry) → StandsFor self.entry.now rank history
            → result ≡ open_row self.entry.now.config.timing cycle (bank_behind (Pre rank group bank) history) }
    {
        if group >= self.config.geometry.groups || bank >= GROUP_BANKS {
            return None;
        }
        self.bank(group, bank).open_row(cycle, &self.config.timing)
    }

    /// The row of a bank that reads and writes find, which stays open until a precharge: `None` from an RDA or WRA on, though
    /// its row is still open until the auto-precharge starts. `None` also outside the geometry.
    pub fn ready_row(&self, group: u32, bank: u32) -> Option<u32>
        ensures { (rank : ℕ) (history : List Entry) → StandsFor self.entry.now rank history
            → result ≡ ready_row (bank_behind (Pre rank group bank) history) }
    {
        if group >= self.config.geometry.groups || bank >= GROUP_BANKS {
            return None;
        }
        self.bank(group, bank).ready_row()
    }

    /// The lowest rule that the command would break, by what is kept.
    #[cold]
    #[inline(never)]
    fn lowest(&self, cycle: u64, command: &Command) -> Option<Rule>
        requires { IsTrue (is_in self.now.config.geometry command.now) }
        ensures { result ≡ lowest_rule (λ r. breaks_now self.now r cycle command.now) }
    {
        for rule in Rule::ALL {
            if self.breaks(rule, cycle, command) {
                return Some(rule);
            }
        }
        None
    }

    /// Keeps what a later command is measured from.
    #[inline(always)]
    fn note(&mut self, entry: &Entry)
        requires { IsTrue (is_in self.old.config.geometry entry.now.command) }
        ensures { self.new ≡ noted self.old entry.now }
    {
        match entry.command {
            Command::Act { group, bank, .. } => self.note_activate(entry, group, bank),
            Command::Rd { group, bank, .. }
            | Command::Wr { group, bank, .. }
            | Command::RdAuto { group, bank, .. }
            | Command::WrAuto { group, bank, .. }
            | Command::Pre { group, bank, .. } => self.note_at(entry, group, bank),
            Command::PreAll { .. } => self.note_all(entry),
            Command::Refresh { .. } => self.refresh = Some(entry.cycle),
        }
    }

    #[inline(always)]
    fn note_activate(&mut self, entry: &Entry, group: u32, bank: u32)
        requires group_in { group < self.old.config.geometry.groups }
        requires bank_in { bank < GROUP_BANKS }
        ensures { self.new ≡ activate_noted self.old entry.now group bank }
    {
        self.note_at(entry, group, bank);
        let _ = self.activates.push_back(entry.cycle);
        self.window = behind(self.config.timing.faw, fourth_of(&self.activates));
    }

    /// Keeps a command of one bank.
    #[inline(always)]
    fn note_at(&mut self, entry: &Entry, group: u32, bank: u32)
        requires group_in { group < self.old.config.geometry.groups }
        requires bank_in { bank < GROUP_BANKS }
        ensures { self.new ≡ noted_at self.old entry.now group bank }
    {
        self.banks[number_in_rank(group, bank)].note(entry);
        self.groups[group as usize].note(entry);
    }

    /// Keeps a command of all banks.
    fn note_all(&mut self, entry: &Entry)
        ensures { self.new ≡ all_noted self.old entry.now }
    {
        for bank in self.banks.iter_mut() {
            bank.note(entry);
        }
    }

    /// Raises the first cycles of what comes next to what a command asks.
    #[inline(always)]
    fn raise(&mut self, entry: &Entry)
        requires { IsTrue (is_in self.old.config.geometry entry.now.command) }
        ensures rest { self.new ≡ record self.old { ready = self.new.ready; ready_all = self.new.ready_all } }
        ensures raised { IsRaised self.old self.new entry.now }
    {
        self.first_cycles.raise(entry, &self.config);
    }

    /// What is kept of a bank.
    fn bank(&self, group: u32, bank: u32) -> &Bank
        requires group_in { group < self.now.config.geometry.groups }
        requires bank_in { bank < GROUP_BANKS }
        ensures { result.now ≡ bank_at self.now group bank }
    {
        &self.banks[number_in_rank(group, bank)]
    }

    /// The first cycle of a bank's next ACT.
    #[inline]
    fn ready_activate(&self, group: u32, bank: u32) -> u64
        requires group_in { group < self.now.config.geometry.groups }
        requires bank_in { bank < GROUP_BANKS }
        ensures { result ≡ (ready_at self.now group bank).activate }
    {
        self.first_cycles.banks[number_in_rank(group, bank)].activate
    }

    /// The first cycle of a bank's next read: what its group keeps of reads and writes may be later than what the bank does.
    #[inline]
    fn ready_read(&self, group: u32, bank: u32) -> u64
        requires group_in { group < self.now.config.geometry.groups }
        requires bank_in { bank < GROUP_BANKS }
        ensures { result ≡ (ready_at self.now group bank).read }
    {
        let first = &self.first_cycles;
        let own = first.banks[number_in_rank(group, bank)].read;
        own.max(first.columns[group as usize].read)
    }

    /// The first cycle of a bank's next write, in the same way.
    #[inline]
    fn ready_write(&self, group: u32, bank: u32) -> u64
        requires group_in { group < self.now.config.geometry.groups }
        requires bank_in { bank < GROUP_BANKS }
        ensures { result ≡ (ready_at self.now group bank).write }
    {
        let first = &self.first_cycles;
        let own = first.banks[number_in_rank(group, bank)].write;
        own.max(first.columns[group as usize].write)
    }

    /// The first cycle of a bank's next precharge.
    #[inline]
    fn ready_precharge(&self, group: u32, bank: u32) -> u64
        requires group_in { group < self.now.config.geometry.groups }
        requires bank_in { bank < GROUP_BANKS }
        ensures { result ≡ (ready_at self.now group bank).precharge }
    {
        self.first_cycles.banks[number_in_rank(group, bank)].precharge
    }

    /// The cycles of a group's last commands.
    fn group(&self, group: u32) -> &Last
        requires { group < self.now.config.geometry.groups }
        ensures { result.now ≡ group_at self.now group }
    {
        &self.groups[group as usize]
    }
}

/// The first one of four, where there are four.
fn fourth_of(activates: &HeapCircularBuffer<u64>) -> Option<u64>
    requires { activates.now.capacity ≡ 4 }
    ensures { result ≡ (if length activates.now.items == 4 then slice_get activates.now.items 0 else None) }
{
    if activates.is_full() {
        activates.front().copied()
    } else {
        None
    }
}

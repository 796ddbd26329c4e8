//! The statistics of a trace, whose commands come one by one.
//!
//! `rank`, `debt`, `background` and `turns` stand below, and `text` above.
ghost use Rattle.std.specs.Prelude.{◌≡◌, ◌+◌, ◌-◌, ◌<◌, ◌∷◌, ◌++◌, [], length, List, IsTrue};
ghost use Rattle.ddr_timing.specs.declared.units.TheConstants.{CLOCK_STOP, GROUP_BANKS};
ghost use Rattle.ddr_trace.specs.declared.command.Entry.{Entry};
ghost use Rattle.ddr_trace.specs.Commands.{rank_of};
ghost use Rattle.ddr_trace.specs.Rules.{is_in};
ghost use Rattle.ddr_statistics.specs.Background.{active_clocks, idle_clocks, refresh_clocks};
ghost use Rattle.ddr_statistics.specs.Counts.{counts_of, is_any, is_of_one, is_of_rank};
ghost use Rattle.ddr_statistics.specs.Debts.{IsInOrder, debt_most, debts_most};
ghost use Rattle.ddr_statistics.specs.Noted.{bank_at, found_in};
ghost use Rattle.ddr_statistics.specs.Stands.{StandsFor, clocked, counted, noted, owed, rank_at};
ghost use Rattle.ddr_statistics.specs.Turns.{rank_switches, turn_rounds};
ghost use Rattle.ddr_statistics.specs.Visits.{finding};

use crate::background::Background;
use crate::counts::{Counts, Finding};
use crate::debt::{Debt, due_in};
use crate::rank::Rank;
use crate::turns::Turns;
use ddr_timing::bank::BankId;
use ddr_timing::config::Config;
use ddr_timing::geometry::Geometry;
use ddr_timing::timing::Timing;
use ddr_timing::units::MOST_RANKS;
use ddr_trace::command::{Command, Entry};
use std::marker::Model;

/// The statistics of a trace. Contracts speak of every history that it stands for: the commands that were noted, in order.
///
/// A history has fewer than 2^62 commands, as a trace has cycles; behind that a number may stop at the last one that it
/// can hold.
#[derive(Drop)]
pub struct Statistics {
    geometry: Geometry,
    timing: Timing,
    start: u64,
    total: Counts,
    ranks: [Rank; MOST_RANKS as usize],
    debts: [Debt; MOST_RANKS as usize],
    backgrounds: [Background; MOST_RANKS as usize],
    turns: Turns,
}

impl Model for Statistics {
    ghost use Rattle.ddr_statistics.specs.Tally.{Tally};

    ghost Value = { Tally };

    ghost use Rattle.ddr_statistics.specs.View.{tally_of};

    ghost view = { tally_of };
}

impl Statistics {
    /// Before the first command of a trace that begins in this cycle.
    pub fn open(config: &Config, start: u64) -> Statistics
        ensures geometry { result.geometry ≡ config.now.geometry }
        ensures timing { result.timing ≡ config.now.timing }
        ensures start { result.start ≡ start }
        ensures stands { StandsFor result [] }
    {
        Statistics {
            geometry: config.geometry,
            timing: config.timing,
            start,
            total: Counts::NONE,
            ranks: [Rank::NEW; MOST_RANKS as usize],
            debts: [Debt::NONE; MOST_RANKS as usize],
            backgrounds: [Background::open(start); MOST_RANKS as usize],
            turns: Turns::NONE,
        }
    }

    /// Counts the next command of the trace.
    pub fn note(&mut self, entry: &Entry)
        requires { IsTrue (is_in self.old.geometry entry.now.command) }
        ensures geometry { self.new.geometry ≡ self.old.geometry }
        ensures timing { self.new.timing ≡ self.old.timing }
        ensures start { self.new.start ≡ self.old.start }
        ensures noted { self.new ≡ noted entry.now self.old }
        ensures stands { (history : List Entry) → StandsFor self.old history → length history + 1 < CLOCK_STOP
            → StandsFor self.new (history ++ entry.now ∷ []) }
    {
        let found = self.finding(&entry.command);
        self.count(&entry.command, found);
        self.owe(entry);
        self.clock(entry);
    }

    /// Counts a command, which found its bank so if it is a read or a write.
    fn count(&mut self, command: &Command, found: Option<Finding>)
        requires { IsTrue (is_in self.old.geometry command.now) }
        ensures { self.new ≡ counted command.now found self.old }
    {
        self.total.note(command, found);
        self.ranks[command.rank() as usize].note(command, found);
        self.turns.note(command);
    }

    /// Follows the refreshes that the command's rank owes.
    fn owe(&mut self, entry: &Entry)
        requires { IsTrue (is_in self.old.geometry entry.now.command) }
        ensures { self.new ≡ owed entry.now self.old }
    {
        self.debts[entry.command.rank() as usize].note(&self.timing, self.start, entry);
    }

    /// Counts the clocks of the command's rank.
    fn clock(&mut self, entry: &Entry)
        requires { IsTrue (is_in self.old.geometry entry.now.command) }
        ensures { self.new ≡ clocked entry.now self.old }
    {
        self.backgrounds[entry.command.rank() as usize].note(&self.timing, &self.geometry, entry);
    }

    /// How the next command of the trace finds its bank; `None` where it is no read or write.
    pub fn finding(&self, command: &Command) -> Option<Finding>
        requires { IsTrue (is_in self.now.geometry command.now) }
        ensures kept { result ≡ found_in (rank_at self.entry.now (rank_of command.now)) command.now }
        ensures counted { (history : List Entry) → StandsFor self.entry.now history → result ≡ finding history command.now }
    {
        self.ranks[command.rank() as usize].finding(command)
    }

    /// The numbers of the whole channel.
    pub fn total(&self) -> Counts
        ensures kept { result ≡ self.now.total }
        ensures counted { (history : List Entry) → StandsFor self.entry.now history → result ≡ counts_of is_any history }
    {
        self.total
    }

    /// The numbers of a rank.
    pub fn rank(&self, rank: u32) -> Counts
        requires { rank < self.now.geometry.ranks }
        ensures kept { result ≡ (rank_at self.now rank).counts }
        ensures counted { (history : List Entry) → StandsFor self.entry.now history → result ≡ counts_of (is_of_rank rank) history }
    {
        self.ranks[rank as usize].counts
    }

    /// The numbers of a bank: of the commands that are of this bank alone.
    pub fn bank(&self, id: &BankId) -> Counts
        requires rank_in { id.now.rank < self.now.geometry.ranks }
        requires group_in { id.now.group < self.now.geometry.groups }
        requires bank_in { id.now.bank < GROUP_BANKS }
        ensures kept { result ≡ (bank_at (rank_at self.now id.now.rank) id.now.group id.now.bank).counts }
        ensures counted { (history : List Entry) → StandsFor self.entry.now history
            → result ≡ counts_of (is_of_one id.now.rank id.now.group id.now.bank) history }
    {
        self.ranks[id.rank as usize].bank(id.group, id.bank).counts
    }

    /// How often the data bus turned round: reads behind a write and writes behind a read, of whatever ranks.
    pub fn turn_rounds(&self) -> u64
        ensures kept { result ≡ self.now.turns.turn_rounds }
        ensures counted { (history : List Entry) → StandsFor self.entry.now history → result ≡ turn_rounds history }
    {
        self.turns.turn_rounds
    }

    /// How often the data bus went to another rank.
    pub fn rank_switches(&self) -> u64
        ensures kept { result ≡ self.now.turns.rank_switches }
        ensures counted { (history : List Entry) → StandsFor self.entry.now history → result ≡ rank_switches history }
    {
        self.turns.rank_switches
    }

    /// The most refreshes that a rank owed in a cycle of the trace, which ends before `end`. One falls due each REFI from the
    /// trace's start on, and each REF of the rank pays for one, from the cycle behind its own on.
    pub fn refresh_debt_most(&self, rank: u32, end: u64) -> u64
        requires { rank < self.now.geometry.ranks }
        ensures counted { (history : List Entry) → StandsFor self.entry.now history → length history < CLOCK_STOP → IsInOrder end history
            → result ≡ debt_most self.entry.now.timing.refi self.entry.now.start end rank history }
    {
        let due = due_in(&self.timing, self.start, end.saturating_sub(1));
        self.debts[rank as usize].most(due)
    }

    /// The most refreshes that one of the ranks owed in a cycle of the trace, which ends before `end`.
    pub fn refresh_debts_most(&self, end: u64) -> u64
        ensures counted { (history : List Entry) → StandsFor self.entry.now history → length history < CLOCK_STOP → IsInOrder end history
            → result ≡ debts_most self.entry.now.timing.refi self.entry.now.start end self.entry.now.geometry.ranks history }
    {
        let mut most = 0;
        for rank in 0..self.geometry.ranks {
            most = most.max(self.refresh_debt_most(rank, end));
        }
        most
    }

    /// In how many cycles of the trace, which ends before `end`, a bank of the rank was active: from the cycle of its ACT on, until
    /// the PRE or PREA that closes it or the start of its auto-precharge.
    pub fn active_clocks(&self, rank: u32, end: u64) -> u64
        requires { rank < self.now.geometry.ranks }
        ensures counted { (history : List Entry) → StandsFor self.entry.now history → IsInOrder end history
            → result ≡ active_clocks self.entry.now.timing self.entry.now.geometry self.entry.now.start end rank history }
    {
        self.backgrounds[rank as usize].active_to(end)
    }

    /// In how many cycles of the trace, which ends before `end`, the rank was being refreshed: from the cycle of a REF on, fewer than
    /// RFC behind it, while no bank was active.
    pub fn refresh_clocks(&self, rank: u32, end: u64) -> u64
        requires { rank < self.now.geometry.ranks }
        ensures counted { (history : List Entry) → StandsFor self.entry.now history → IsInOrder end history
            → result ≡ refresh_clocks self.entry.now.timing self.entry.now.geometry self.entry.now.start end rank history }
    {
        self.backgrounds[rank as usize].refresh_to(end)
    }

    /// In how many cycles of the trace, which ends before `end`, the rank was neither active nor being refreshed: the rest of
    /// `cycles`.
    pub fn idle_clocks(&self, rank: u32, end: u64) -> u64
        requires { rank < self.now.geometry.ranks }
        ensures counted { (history : List Entry) → StandsFor self.entry.now history → IsInOrder end history
            → result ≡ idle_clocks self.entry.now.timing self.entry.now.geometry self.entry.now.start end rank history }
    {
        let busy = self
            .active_clocks(rank, end)
            .saturating_add(self.refresh_clocks(rank, end));
        self.cycles(end).saturating_sub(busy)
    }

    /// The cycles of the trace, where it ends before this one; 0 where that is before its start.
    pub fn cycles(&self, end: u64) -> u64
        ensures { result ≡ end - self.now.start }
    {
        end.saturating_sub(self.start)
    }

    /// The shape of the channel.
    pub fn geometry(&self) -> &Geometry
        ensures { result.now ≡ self.now.geometry }
    {
        &self.geometry
    }
}

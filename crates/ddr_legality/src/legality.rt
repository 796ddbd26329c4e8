//! What was issued on a channel's command bus, and what may be issued next.
ghost use Rattle.std.specs.Prelude.{◌≡◌, ℕ, ◌+◌, ◌-◌, ◌<◌, ◌≤◌, ◌↔◌, ◌&&◌, nat_le, [], ◌∷◌, ◌++◌, true, false, None, Some, IsOk, IfOk, OnErr, OnOk, MatchResult, vec_len, vec_capacity};
ghost use Rattle.ddr_timing.specs.declared.units.TheConstants.{CLOCK_STOP};
ghost use Rattle.ddr_trace.specs.Banks.{bank_behind, ready_row};
ghost use Rattle.ddr_trace.specs.Bus.{KeepsBus};
ghost use Rattle.ddr_trace.specs.declared.command.Command.TheVariants.{Pre};
ghost use Rattle.ddr_trace.specs.Commands.{entry};
ghost use Rattle.ddr_trace.specs.Legality.{IsLegal};
ghost use Rattle.ddr_rank.specs.Ready.{LAST_CYCLE};
ghost use Rattle.ddr_legality.specs.Bus.{broken_now, fits_now, is_legal_now, keeps_distances_now, open_row_now, opened, passed, recorded, ticked};

use crate::bus_readiness::BusReadiness;
use ddr_past::past::Past;
use ddr_timing::config::Config;
use ddr_trace::command::{Command, Entry};
use ddr_trace::rule::Rule;
use std::alloc::{AllocError, Global};
use std::marker::Model;

/// A channel's command bus: the commands issued on it, each with its cycle, and the cycle that comes next.
/// Contracts see that, for how many further entries there is room (`spare`), and whether the entries are kept (`keeps`): of a bus that
/// keeps none, contracts alone know what was issued.
#[derive(Drop)]
pub struct Legality {
    issued: BusReadiness,
    now: u64,
    // What was issued, for contracts alone.
    past: Past<Entry>,
    keeps: bool,
    // What was issued, where it is kept; else none.
    entries: Vec<Entry>,
}

impl Model for Legality {
    ghost use Rattle.ddr_legality.specs.Kept.{Kept};

    ghost Value = { Kept };

    ghost use Rattle.ddr_legality.specs.View.{kept_of, IsWhole};

    ghost view = { kept_of };

    ghost invariant = { IsWhole };
}

// Notes the entry, where entries are kept.
#[inline(always)]
fn note(keeps: bool, entries: &mut Vec<Entry>, entry: Entry)
    requires { keeps ≡ true → vec_len entries.old < vec_capacity entries.old }
    ensures kept { keeps ≡ true → entries.new.items ≡ entries.old.items ++ entry ∷ [] }
    ensures length { keeps ≡ true → vec_len entries.new ≡ vec_len entries.old + 1 }
    ensures capacity { vec_capacity entries.new ≡ vec_capacity entries.old }
    ensures unkept { keeps ≡ false → entries.new ≡ entries.old }
{
    if keeps {
        entries.push_reserved(entry);
    }
}

impl Legality {
    /// A bus on which nothing was issued, and whose first cycle is `first`.
    pub fn open(alloc: Global, config: &Config, first: u64) -> Result<Legality, AllocError>
        requires { first ≤ CLOCK_STOP }
        ensures bus { IfOk result (λ l. l.bus ≡ opened config.now first) }
        ensures keeps { IfOk result (λ l. l.keeps ≡ true) }
    {
        Ok(Legality {
            issued: BusReadiness::open(alloc, config, first)?,
            now: first,
            past: Past::new(),
            keeps: true,
            entries: Vec::new(alloc),
        })
    }

    /// As `open`, but no entry is kept, so that it takes no more memory however much is issued.
    pub fn open_without_entries(
        alloc: Global,
        config: &Config,
        first: u64,
    ) -> Result<Legality, AllocError>
        requires { first ≤ CLOCK_STOP }
        ensures bus { IfOk result (λ l. l.bus ≡ opened config.now first) }
        ensures keeps { IfOk result (λ l. l.keeps ≡ false) }
    {
        Ok(Legality {
            issued: BusReadiness::open(alloc, config, first)?,
            now: first,
            past: Past::new(),
            keeps: false,
            entries: Vec::new(alloc),
        })
    }

    /// Whether the entries are kept: `open` keeps them, and `open_without_entries` doesn't.
    pub fn keeps_entries(&self) -> bool
        ensures { result ≡ self.entry.now.keeps }
    {
        self.keeps
    }

    /// The first cycle.
    pub fn start(&self) -> u64
        ensures { result ≡ self.entry.now.bus.start }
    {
        self.issued.start
    }

    /// The cycle that comes next.
    pub fn now(&self) -> u64
        ensures value { result ≡ self.entry.now.bus.now }
        ensures bound { result ≤ CLOCK_STOP }
    {
        self.now
    }

    /// Whether the command is legal now, or else the lowest rule on commands that it would break.
    #[inline(always)]
    pub fn may(&self, command: Command) -> Result<(), Rule>
        ensures lowest { MatchResult result
            (λ _. broken_now self.entry.now.bus command ≡ None)
            (λ rule. broken_now self.entry.now.bus command ≡ Some rule) }
        ensures longer { let b = self.entry.now.bus in
            IsOk result ↔ IsLegal b.config b.start (b.now + 1) (b.trace ++ entry b.now command ∷ []) }
    {
        if self.issued.is_legal(self.now, &command) {
            return Ok(());
        }
        self.rule(command)
    }

    /// As `may`, by a walk over the rules.
    #[cold]
    #[inline(never)]
    fn rule(&self, command: Command) -> Result<(), Rule>
        ensures lowest { MatchResult result
            (λ _. broken_now self.entry.now.bus command ≡ None)
            (λ rule. broken_now self.entry.now.bus command ≡ Some rule) }
        ensures longer { let b = self.entry.now.bus in
            IsOk result ↔ IsLegal b.config b.start (b.now + 1) (b.trace ++ entry b.now command ∷ []) }
    {
        let entry = Entry {
            cycle: self.now,
            command,
        };
        match self.issued.broken_by(&entry, self.now + 1) {
            None => Ok(()),
            Some(rule) => Err(rule),
        }
    }

    /// Whether the command is legal now. It costs less than `may`, which names the rule.
    #[inline(always)]
    pub fn is_legal(&self, command: Command) -> bool
        ensures { result ≡ is_legal_now self.entry.now.bus command }
    {
        self.issued.is_legal(self.now, &command)
    }

    /// The first cycle from now on in which the command keeps every rule on commands but those on the state of banks: the
    /// bus is free, and every distance is kept. So from it on, as long as nothing is issued, the command is legal exactly in
    /// the cycles in which its bank is in the state that it wants. For a command outside the geometry it is the last cycle
    /// that a `u64` counts, which no bus reaches.
    #[inline(always)]
    pub fn allowed_at(&self, command: Command) -> u64
        ensures from { self.entry.now.bus.now ≤ result }
        ensures first { let b = self.entry.now.bus in (cycle : ℕ) → b.now ≤ cycle → cycle < LAST_CYCLE
            → keeps_distances_now (record b { now = cycle }) command ≡ nat_le result cycle }
        ensures legal { let b = self.entry.now.bus in (cycle : ℕ) → b.now ≤ cycle → cycle < LAST_CYCLE
            → is_legal_now (record b { now = cycle }) command ≡ (fits_now (record b { now = cycle }) command && nat_le result cycle) }
    {
        self.issued.allowed_at(self.now, &command)
    }

    /// Makes room for one more entry. Where there is room, as always where no entry is kept, nothing is asked for and nothing
    /// changes.
    pub fn reserve_entry(&mut self) -> Result<(), AllocError>
        ensures same { self.new.bus ≡ self.old.bus }
        ensures keeps { self.new.keeps ≡ self.old.keeps }
        ensures room { OnOk result (1 ≤ self.new.spare) }
        ensures ready { 1 ≤ self.old.spare → IsOk result × (self.new ≡ self.old) }
        ensures err { OnErr result (self.new ≡ self.old) }
    {
        if !self.keeps {
            return Ok(());
        }
        if self.entries.len() < self.entries.capacity() {
            return Ok(());
        }
        self.entries.reserve(1)
    }

    /// Issues the command now.
    pub fn record(&mut self, command: Command)
        requires legal { broken_now self.old.bus command ≡ None }
        requires room { 1 ≤ self.old.spare }
        ensures bus { self.new.bus ≡ recorded command self.old.bus }
        ensures spare { self.new.spare + 1 ≡ self.old.spare }
        ensures keeps { self.new.keeps ≡ self.old.keeps }
    {
        let entry = Entry {
            cycle: self.now,
            command,
        };
        self.issued.issue(&entry);
        self.past = self.past.and(&entry);
        note(self.keeps, &mut self.entries, entry);
    }

    /// Goes on to the next cycle.
    pub fn tick(&mut self)
        requires { self.old.bus.now < CLOCK_STOP }
        ensures bus { self.new.bus ≡ ticked self.old.bus }
        ensures spare { self.new.spare ≡ self.old.spare }
        ensures keeps { self.new.keeps ≡ self.old.keeps }
    {
        self.now += 1;
    }

    /// Goes on by so many cycles, in none of which a command is issued.
    pub fn pass(&mut self, count: u64)
        requires { self.old.bus.now + count ≤ CLOCK_STOP }
        ensures bus { self.new.bus ≡ passed count self.old.bus }
        ensures spare { self.new.spare ≡ self.old.spare }
        ensures keeps { self.new.keeps ≡ self.old.keeps }
    {
        self.now += count;
    }

    /// The open row of a bank now, if it is active. `None` also outside the geometry.
    #[inline(always)]
    pub fn open_row(&self, rank: u32, group: u32, bank: u32) -> Option<u32>
        ensures { result ≡ open_row_now self.entry.now.bus (Pre rank group bank) }
    {
        self.issued.open_row(self.now, rank, group, bank)
    }

    /// The row of a bank that reads and writes find. It stays open as long as nothing is issued; the open row of a bank
    /// that has none is to be closed by an auto-precharge. `None` also outside the geometry.
    #[inline(always)]
    pub fn ready_row(&self, rank: u32, group: u32, bank: u32) -> Option<u32>
        ensures { result ≡ ready_row (bank_behind (Pre rank group bank) self.entry.now.bus.trace) }
    {
        self.issued.ready_row(rank, group, bank)
    }

    /// The commands so far, where they are kept; else none. They are legal, in a trace that ends behind this cycle, and no two of
    /// their bursts overlap on the data bus.
    pub fn entries(&self) -> &[Entry]
        ensures value { self.entry.now.keeps ≡ true → result.now ≡ self.entry.now.bus.trace }
        ensures legal { let b = self.entry.now.bus in self.entry.now.keeps ≡ true → IsLegal b.config b.start (b.now + 1) result.now }
        ensures bus { self.entry.now.keeps ≡ true → KeepsBus self.entry.now.bus.config.timing result.now }
        ensures nothing { self.entry.now.keeps ≡ false → result.now ≡ [] }
    {
        self.entries.as_slice()
    }

    /// The commands so far, where they are kept, legal as `entries` says; else none. The bus is given up.
    pub fn into_entries(self) -> Vec<Entry>
        ensures value { self.keeps ≡ true → result.items ≡ self.bus.trace }
        ensures legal { self.keeps ≡ true → IsLegal self.bus.config self.bus.start (self.bus.now + 1) result.items }
        ensures nothing { self.keeps ≡ false → result.items ≡ [] }
    {
        let Legality {
            issued: _,
            now: _,
            past: _,
            keeps: _,
            entries,
        } = self;
        entries
    }
}

//! One channel: its pending requests, its rows, its trace, and the cycles that it makes.
ghost use Rattle.std.specs.Prelude.{◌≡◌, ℕ, true, false, if◌then◌else◌, ◌+◌, ◌-◌, ◌<◌, ◌≤◌, ◌↔◌, List, [], ◌∷◌, ◌++◌, map, replicate, IfSome, IsTrue, IsErr, IsOk, IfOk, IfErr, OnOk, OnErr, IsErrOf, option_copied, slice_get};
ghost use Rattle.ddr_arbiter.specs.declared.choice.Choice.TheVariants as choice;
ghost use Rattle.ddr_arbiter.specs.Quiet.{IsQuietUntil};
ghost use Rattle.ddr_channel.specs.declared.channel.CycleError.TheVariants.{ClockSpent, OutOfMemory};
ghost use Rattle.ddr_address_map.specs.declared.request.Kind.TheVariants.{Read, Write};
ghost use Rattle.ddr_timing.specs.declared.units.TheConstants.{CLOCK_STOP, MOST_RANKS};
ghost use Rattle.std.specs.Option.{is_some, option_map};
ghost use Rattle.ddr_trace.specs.Commands.{is_column};
ghost use Rattle.ddr_trace.specs.Legality.{IsLegal, IsRefreshed};
ghost use Rattle.ddr_legality.specs.Bus as bus;
ghost use Rattle.ddr_refresh.specs.Refreshes.{after_tick};
ghost use Rattle.ddr_hazards.specs.PendingList.{pending_count};
ghost use Rattle.ddr_channel.specs.Choice.{choice_of, policy_of, refreshes_of, situation_of};
ghost use Rattle.ddr_channel.specs.Cycle.{at_choice, drained, after_cycle};
ghost use Rattle.ddr_channel.specs.History.{Call, Admit, Cycle, Pop, run};
ghost use Rattle.ddr_channel.specs.Kept.{AgreesWith, state_of};
ghost use Rattle.ddr_channel.specs.Promise.{StandsFor, IsNextAnswer};
ghost use Rattle.ddr_channel.specs.Quiet.{IsQuiet, IsStillUntil, after_cycles, drain_after, must_refresh};
ghost use Rattle.ddr_channel.specs.Refresh.{KeepsRefreshes};
ghost use Rattle.ddr_channel.specs.Room.{KeepsRoom, wants_memory};
ghost use Rattle.ddr_channel.specs.Sound.{IsServed};
ghost use Rattle.ddr_channel.specs.State.{opened, after_admit, after_pop, is_queue_full};
ghost use Rattle.ddr_channel.specs.Told.{ComesAsTold, IsNewest, WasAdmitted, issued_in, with_issued};

use crate::bus::{issue, reserve};
use crate::debts::{Debts, count, pass, tick};
use crate::issued::{Issued, issued_with};
use crate::queue::complete;
use crate::transfer::serve;
use circular_buffer::HeapCircularBuffer;
use ddr_address_map::request::{Done, Kind, Req};
use ddr_arbiter::choice::{Choice, choose};
use ddr_arbiter::commands::command_of;
use ddr_arbiter::policy::Policy;
use ddr_arbiter::quiet::{Rest, must_refresh, rest_of};
use ddr_hazards::pending::Pending;
use ddr_legality::legality::Legality;
use ddr_refresh::debt::Debt;
use ddr_row_array::row_array::RowArray;
use ddr_timing::config::Config;
use ddr_timing::units::{CLOCK_STOP, MOST_RANKS};
use ddr_trace::command::Entry;
use ddr_trace::trace::Trace;
use std::alloc::{AllocError, Global};
use std::marker::Model;

/// Why a cycle was not made.
#[derive(Clone, Copy, Debug, PartialEq, Eq)]
pub enum CycleError {
    /// The clock has come to 2^62.
    ClockSpent,
    /// Memory was refused: for the trace's next entry, or for the bytes of a row.
    OutOfMemory,
}

/// One channel of a memory controller, with its ranks. Contracts see the state that it is in.
#[derive(Drop)]
pub struct Channel {
    config: Config,
    pending: Pending,
    // Whether writes were drained in the cycle before.
    drain: bool,
    // Of each rank that there may be.
    debts: Debts,
    flight: HeapCircularBuffer<Done>,
    done: HeapCircularBuffer<Done>,
    legality: Legality,
    rows: RowArray,
    // In each cycle from the next one on that lies before this one nothing is chosen, as long as nothing is admitted and no
    // completion is taken where there was no room.
    still_until: u64,
    // Whether in each of these cycles a rank has to be refreshed. It serves `quiet` alone.
    owes_refresh: bool,
}

impl Model for Channel {
    ghost use Rattle.ddr_channel.specs.Kept.{Kept};

    ghost Value = { Kept };

    ghost use Rattle.ddr_channel.specs.View.{kept_of, IsWhole};

    ghost view = { kept_of };

    ghost invariant = { IsWhole };
}

impl Channel {
    /// A channel that has made no cycle, and whose first one is `first_cycle`. All that its queues hold has
    /// room from here on.
    pub fn open(alloc: Global, config: &Config, first_cycle: u64) -> Result<Channel, AllocError>
        requires { first_cycle ≤ CLOCK_STOP }
        ensures state { IfOk result (λ c. state_of c ≡ opened config.now first_cycle) }
        ensures config { IfOk result (λ c. c.config ≡ config.now) }
        ensures keeps { IfOk result (λ c. c.keeps ≡ true) }
        ensures stands { IfOk result (λ c. StandsFor c []) }
    {
        Channel::open_as(alloc, config, first_cycle, true)
    }

    /// As `open`, but no trace is kept, so that a run of any length takes no more memory than its rows. Every promise of every call
    /// is as of a channel that keeps one, but for `trace` and `into_trace`, which have no entry to hand out.
    pub fn open_without_trace(
        alloc: Global,
        config: &Config,
        first_cycle: u64,
    ) -> Result<Channel, AllocError>
        requires { first_cycle ≤ CLOCK_STOP }
        ensures state { IfOk result (λ c. state_of c ≡ opened config.now first_cycle) }
        ensures config { IfOk result (λ c. c.config ≡ config.now) }
        ensures keeps { IfOk result (λ c. c.keeps ≡ false) }
        ensures stands { IfOk result (λ c. StandsFor c []) }
    {
        Channel::open_as(alloc, config, first_cycle, false)
    }

    /// A channel that has made no cycle, with or without its trace.
    fn open_as(
        alloc: Global,
        config: &Config,
        first_cycle: u64,
        keeps: bool,
    ) -> Result<Channel, AllocError>
        requires { first_cycle ≤ CLOCK_STOP }
        ensures state { IfOk result (λ c. state_of c ≡ opened config.now first_cycle) }
        ensures config { IfOk result (λ c. c.config ≡ config.now) }
        ensures keeps { IfOk result (λ c. c.keeps ≡ keeps) }
        ensures stands { IfOk result (λ c. StandsFor c []) }
    {
        let limits = config.limits;
        Ok(Channel {
            config: *config,
            pending: Pending::open(limits.reads, limits.writes),
            drain: false,
            debts: [Debt::open(config); MOST_RANKS as usize],
            flight: HeapCircularBuffer::with_capacity(alloc, limits.done as usize)?,
            done: HeapCircularBuffer::with_capacity(alloc, limits.done as usize)?,
            legality: open_bus(alloc, config, first_cycle, keeps)?,
            rows: RowArray::open(alloc, config)?,
            still_until: 0,
            owes_refresh: false,
        })
    }

    /// Takes a request, or hands it back where the queue of its kind is full.
    pub fn admit(&mut self, request: Req) -> Result<(), Req>
        requires { IsServed self.old.config request.place }
        ensures ok { OnOk result (state_of self.new ≡ after_admit request (state_of self.old)) }
        ensures full { IsErr result ↔ IsTrue (is_queue_full (state_of self.old) request.echo.kind) }
        ensures err { IfErr result (λ r. (r ≡ request) × (self.new ≡ self.old)) }
        ensures room { KeepsRoom self.old self.new }
        ensures config { self.new.config ≡ self.old.config }
        ensures stands { (calls : List Call) → StandsFor self.old calls → StandsFor self.new (calls ++ Admit request ∷ []) }
    {
        let now = self.legality.now();
        self.pending.admit(request, now)?;
        self.still_until = now;
        Ok(())
    }

    /// Whether each of the two queues has a free place.
    pub fn room(&self) -> bool
        ensures { IsTrue result ↔ ((is_queue_full (state_of self.entry.now) Read ≡ false) × (is_queue_full (state_of self.entry.now) Write ≡ false)) }
    {
        !self.pending.is_full(Kind::Read) && !self.pending.is_full(Kind::Write)
    }

    /// Whether writes are drained in the next cycle.
    fn next_drain(&self) -> bool
        ensures { result ≡ (drained (state_of self.entry.now)).drain }
    {
        policy(&self.config).next_mode(self.drain, self.pending.writes())
    }

    /// What the next cycle does, where the debts were ticked and the drain mode is that cycle's.
    fn choice(&self, debts: &Debts, drain: bool) -> Choice
        requires debts { debts.now ≡ map after_tick (refreshes_of (state_of self.now) MOST_RANKS) }
        requires mode { drain ≡ (drained (state_of self.now)).drain }
        ensures { result ≡ choice_of (at_choice (state_of self.entry.now)) }
    {
        let room = self.flight.len() + self.done.len() < self.config.limits.done as usize;
        choose(
            &self.pending,
            &self.legality,
            &debts[..self.config.geometry.ranks as usize],
            &policy(&self.config),
            drain,
            room,
        )
    }

    /// A cycle before which the scheduler chooses nothing, and whether a rank has to be refreshed until then, where the debts were
    /// ticked and the drain mode is that of the next cycle.
    fn rest_of_choice(&self, debts: &Debts, drain: bool) -> Rest
        requires debts { debts.now ≡ map after_tick (refreshes_of (state_of self.now) MOST_RANKS) }
        requires mode { drain ≡ (drained (state_of self.now)).drain }
        ensures { IsQuietUntil result.until (situation_of (at_choice (state_of self.entry.now))) }
    {
        let room = self.flight.len() + self.done.len() < self.config.limits.done as usize;
        rest_of(
            &self.pending,
            &self.legality,
            &debts[..self.config.geometry.ranks as usize],
            &policy(&self.config),
            drain,
            room,
        )
    }

    /// A cycle before which nothing is chosen, in each cycle from the next one on, and whether a rank has to be refreshed until then.
    fn rest_now(&self) -> Rest
        ensures { IsStillUntil result.until (state_of self.entry.now) }
    {
        let now = self.legality.now();
        if now == CLOCK_STOP {
            return Rest {
                until: now,
                must_refresh: false,
            };
        }
        let mut debts = self.debts;
        tick(&mut debts);
        let drain = self.next_drain();
        self.rest_of_choice(&debts, drain)
    }

    /// Looks up to which cycle nothing is chosen.
    #[inline(never)]
    fn sleep(&mut self)
        ensures { self.new ≡ self.old }
    {
        let rest = self.rest_now();
        self.still_until = rest.until;
        self.owes_refresh = rest.must_refresh;
    }

    /// Makes the cycle `now`: what is due completes, the refresh debts and the drain mode go on, and the command that
    /// is chosen is issued. A column command moves its data before it closes its row, where it is one with
    /// auto-precharge. A refusal leaves the channel as it was. Memory is asked for only where a command is issued for
    /// whose entry, or for whose row, there is no room.
    pub fn cycle(&mut self) -> Result<(), CycleError>
        ensures ok { OnOk result (state_of self.new ≡ after_cycle (state_of self.old)) }
        ensures spent { IsErrOf result ClockSpent ↔ (self.old.now ≡ CLOCK_STOP) }
        ensures err { OnErr result (state_of self.new ≡ state_of self.old) }
        ensures config { self.new.config ≡ self.old.config }
        ensures clock { OnOk result (self.new.now ≡ self.old.now + 1) }
        ensures idle { choice_of (at_choice (state_of self.old)) ≡ choice.Nothing → IsErrOf result OutOfMemory → ⊥ }
        ensures memory { IsErrOf result OutOfMemory → IsTrue (wants_memory self.old) }
        ensures room { KeepsRoom self.old self.new }
        ensures stands { OnOk result ((calls : List Call) → StandsFor self.old calls → StandsFor self.new (calls ++ Cycle ∷ [])) }
        ensures refreshes { OnOk result ((calls : List Call) → StandsFor self.old calls
            → (rank : ℕ) → rank < self.new.config.geometry.ranks → KeepsRefreshes (state_of self.new) rank) }
    {
        self.cycle_observed()?;
        Ok(())
    }

    /// Makes the cycle `now` as `cycle` does, and tells what it issued: nothing, or the trace's new entry, with the
    /// request that it serves where it is a column command. The completion of that request comes in its turn behind
    /// those of all column commands before, with the `issued` and the `due` that are told here.
    #[inline(always)]
    pub fn cycle_observed(&mut self) -> Result<Option<Issued>, CycleError>
        ensures ok { OnOk result (state_of self.new ≡ after_cycle (state_of self.old)) }
        ensures spent { IsErrOf result ClockSpent ↔ (self.old.now ≡ CLOCK_STOP) }
        ensures err { OnErr result (state_of self.new ≡ state_of self.old) }
        ensures config { self.new.config ≡ self.old.config }
        ensures clock { OnOk result (self.new.now ≡ self.old.now + 1) }
        ensures idle { choice_of (at_choice (state_of self.old)) ≡ choice.Nothing → IsErrOf result OutOfMemory → ⊥ }
        ensures memory { IsErrOf result OutOfMemory → IsTrue (wants_memory self.old) }
        ensures room { KeepsRoom self.old self.new }
        ensures stands { OnOk result ((calls : List Call) → StandsFor self.old calls → StandsFor self.new (calls ++ Cycle ∷ [])) }
        ensures issued { IfOk result (λ o. o ≡ issued_in (state_of self.old)) }
        ensures trace { IfOk result (λ o. self.new.trace ≡ with_issued o self.old.trace) }
        ensures columns { IfOk result (λ o. IfSome o (λ i. is_some i.served ≡ is_column i.entry.command)) }
        ensures flight { IfOk result (λ o. IfSome o (λ i. IfSome i.served (IsNewest self.new.flight i))) }
        ensures told { IfOk result (λ o. IfSome o (λ i. IfSome i.served (λ v. (calls : List Call) → StandsFor self.old calls
            → ComesAsTold self.old.config self.old.start calls i v))) }
        ensures admitted { IfOk result (λ o. IfSome o (λ i. IfSome i.served (λ v. (calls : List Call) → StandsFor self.old calls
            → WasAdmitted self.old.config self.old.start calls v))) }
    {
        let now = self.legality.now();
        if now == CLOCK_STOP {
            return Err(CycleError::ClockSpent);
        }
        if now < self.still_until {
            self.still_cycle();
            return Ok(None);
        }
        match self.make_cycle() {
            Ok(issued) => {
                self.sleep();
                Ok(issued)
            }
            Err(_) => Err(CycleError::OutOfMemory),
        }
    }

    /// Makes a cycle in which nothing is chosen: what is due completes, and the refresh debts, the drain mode and the clock
    /// go on.
    #[inline(always)]
    fn still_cycle(&mut self)
        requires clock { self.old.now < CLOCK_STOP }
        requires chosen { choice_of (at_choice (state_of self.old)) ≡ choice.Nothing }
        ensures state { state_of self.new ≡ after_cycle (state_of self.old) }
        ensures trace { self.new.trace ≡ self.old.trace }
        ensures config { self.new.config ≡ self.old.config }
        ensures room { KeepsRoom self.old self.new }
    {
        let cycle = self.legality.now();
        let drained = self.next_drain();
        complete(&mut self.flight, &mut self.done, cycle);
        tick(&mut self.debts);
        self.drain = drained;
        self.legality.tick();
    }

    /// Makes a cycle, before the clock is spent, and tells what it issued.
    #[inline(never)]
    fn make_cycle(&mut self) -> Result<Option<Issued>, AllocError>
        requires { self.old.now < CLOCK_STOP }
        ensures ok { OnOk result (state_of self.new ≡ after_cycle (state_of self.old)) }
        ensures err { OnErr result (state_of self.new ≡ state_of self.old) }
        ensures config { self.new.config ≡ self.old.config }
        ensures clock { OnOk result (self.new.now ≡ self.old.now + 1) }
        ensures idle { choice_of (at_choice (state_of self.old)) ≡ choice.Nothing → IsOk result }
        ensures memory { OnErr result (IsTrue (wants_memory self.old)) }
        ensures room { KeepsRoom self.old self.new }
        ensures issued { IfOk result (λ o. o ≡ issued_in (state_of self.old)) }
    {
        let now = self.legality.now();
        let mut debts = self.debts;
        tick(&mut debts);
        let drain = self.next_drain();
        let choice = self.choice(&debts, drain);
        let command = command_of(&self.pending, choice);
        reserve(&self.config, &mut self.legality, &mut self.rows, command)?;
        complete(&mut self.flight, &mut self.done, now);
        let served = serve(
            &self.config,
            now,
            choice,
            &mut self.pending,
            &mut self.rows,
            &mut self.flight,
        );
        issue(&self.config, &mut self.legality, &mut self.rows, command);
        count(&mut debts, command);
        self.drain = drain;
        self.debts = debts;
        self.still_until = 0;
        self.legality.tick();
        Ok(issued_with(now, command, served))
    }

    /// How many cycles from now on are known to be quiet: nothing completes and nothing is issued in them, as long as
    /// no other call comes between. There may be more: none is told while a rank has to be refreshed, where `still` tells more.
    pub fn quiet(&self) -> u64
        ensures { IsQuiet result (state_of self.entry.now) }
    {
        if self.owes_refresh {
            return 0;
        }
        self.still()
    }

    /// Whether a rank has to be refreshed in the next cycle: it owes more refreshes than may be put off, or owes one with nothing
    /// pending for it. None has where the clock is spent.
    pub fn must_refresh(&self) -> bool
        ensures { result ≡ must_refresh (state_of self.entry.now) }
    {
        if self.legality.now() == CLOCK_STOP {
            return false;
        }
        let mut debts = self.debts;
        tick(&mut debts);
        let ranks = self.config.geometry.ranks as usize;
        must_refresh(&self.pending, &debts[..ranks])
    }

    /// How many cycles from now on are known to be quiet, as `quiet` tells them, also while a rank whose banks are idle waits for its
    /// REF. There may be more.
    pub fn still(&self) -> u64
        ensures { IsQuiet result (state_of self.entry.now) }
    {
        let now = self.legality.now();
        let still = self.still_until.min(CLOCK_STOP);
        match self.flight.front() {
            Some(first) => still.min(first.due).saturating_sub(now),
            None => still.saturating_sub(now),
        }
    }

    /// Makes so many quiet cycles at once.
    pub fn pass(&mut self, count: u64)
        requires { IsQuiet count (state_of self.old) }
        ensures state { state_of self.new ≡ after_cycles count (state_of self.old) }
        ensures rest { (self.new.trace ≡ self.old.trace) × (self.new.pending ≡ self.old.pending)
            × (self.new.flight ≡ self.old.flight) × (self.new.done ≡ self.old.done) }
        ensures config { self.new.config ≡ self.old.config }
        ensures clock { self.new.now ≡ self.old.now + count }
        ensures room { KeepsRoom self.old self.new }
        ensures stands { (calls : List Call) → StandsFor self.old calls → StandsFor self.new (calls ++ replicate count Cycle) }
    {
        self.drain = self.drain_after(count);
        pass(&mut self.debts, count);
        self.legality.pass(count);
    }

    /// The drain mode after so many quiet cycles.
    fn drain_after(&self, count: u64) -> bool
        ensures { result ≡ drain_after count (state_of self.entry.now) }
    {
        if count == 0 {
            return self.drain;
        }
        self.next_drain()
    }

    /// The completion that was done first.
    pub fn next_done(&self) -> Option<&Done>
        ensures first { option_copied result ≡ slice_get self.entry.now.done 0 }
        ensures right { (calls : List Call) → StandsFor self.entry.now calls
            → IfSome result (λ d. IsNextAnswer (run self.entry.now.config self.entry.now.start calls) d.now) }
    {
        self.done.front()
    }

    /// Takes the completion that was done first.
    pub fn pop_done(&mut self) -> Option<Done>
        ensures first { result ≡ slice_get self.old.done 0 }
        ensures rest { state_of self.new ≡ after_pop (state_of self.old) }
        ensures room { KeepsRoom self.old self.new }
        ensures right { (calls : List Call) → StandsFor self.old calls
            → IfSome result (IsNextAnswer (run self.old.config self.old.start calls)) }
        ensures config { self.new.config ≡ self.old.config }
        ensures stands { (calls : List Call) → StandsFor self.old calls → StandsFor self.new (calls ++ Pop ∷ []) }
    {
        let had_room = self.flight.len() + self.done.len() < self.config.limits.done as usize;
        let taken = self.done.pop_front()?;
        self.still_until = still_with(had_room, self.still_until);
        Some(taken)
    }

    /// Whether nothing is pending, in flight or done.
    pub fn is_empty(&self) -> bool
        ensures { IsTrue result ↔ ((self.entry.now.pending ≡ []) × (self.entry.now.flight ≡ []) × (self.entry.now.done ≡ [])) }
    {
        self.pending.is_empty() && self.flight.is_empty() && self.done.is_empty()
    }

    /// How many requests of this kind are pending: admitted, and their reads or writes not issued yet.
    pub fn pending(&self, kind: Kind) -> u32
        ensures { result ≡ pending_count kind self.entry.now.pending }
    {
        match kind {
            Kind::Read => self.pending.reads(),
            Kind::Write => self.pending.writes(),
        }
    }

    /// The cycle that the channel was at when the oldest pending request was admitted. `None` exactly where nothing is pending.
    pub fn oldest(&self) -> Option<u64>
        ensures { result ≡ option_map (λ w. w.admitted) (slice_get self.entry.now.pending 0) }
    {
        match self.pending.oldest() {
            Some((_, admitted)) => Some(admitted),
            None => None,
        }
    }

    /// The configuration that the channel was opened with.
    pub fn config(&self) -> &Config
        ensures { result.now ≡ self.entry.now.config }
    {
        &self.config
    }

    /// The next cycle to be made.
    pub fn now(&self) -> u64
        ensures value { result ≡ self.entry.now.now }
        ensures bound { result ≤ CLOCK_STOP }
    {
        self.legality.now()
    }

    /// Whether writes were drained in the cycle before.
    pub fn is_draining(&self) -> bool
        ensures { result ≡ self.entry.now.drain }
    {
        self.drain
    }

    /// Whether the trace is kept: `open` keeps it, and `open_without_trace` doesn't.
    pub fn keeps_trace(&self) -> bool
        ensures { result ≡ self.entry.now.keeps }
    {
        self.legality.keeps_entries()
    }

    /// The commands so far, where the trace is kept; else none. The open rows of the row array are those that they leave for reads
    /// and writes.
    pub fn trace(&self) -> &[Entry]
        ensures value { self.entry.now.keeps ≡ true → result.now ≡ self.entry.now.trace }
        ensures rows { self.entry.now.keeps ≡ true → AgreesWith self.entry.now.config result.now self.entry.now.rows }
        ensures legal { self.entry.now.keeps ≡ true → IsLegal self.entry.now.config self.entry.now.start self.entry.now.now result.now }
        ensures refreshed { self.entry.now.keeps ≡ true → (calls : List Call) → StandsFor self.entry.now calls
            → IsRefreshed self.entry.now.config self.entry.now.start self.entry.now.now result.now }
        ensures nothing { self.entry.now.keeps ≡ false → result.now ≡ [] }
    {
        self.legality.entries()
    }

    /// The commands so far are legal, whether or not they are kept. A law: it does nothing.
    pub fn commands_are_legal(&self)
        ensures { IsLegal self.now.config self.now.start self.now.now self.now.trace }
    {
        let _ = &self.legality;
    }

    /// The commands so far, where the trace is kept, from the first cycle to the next one; else none. The channel is given up.
    pub fn into_trace(self) -> Trace
        ensures span { (result.start ≡ self.start) × (result.end ≡ self.now) }
        ensures value { self.keeps ≡ true → result ≡ record { start = self.start; end = self.now; entries = self.trace } }
        ensures legal { self.keeps ≡ true → IsLegal self.config result.start result.end result.entries }
        ensures refreshed { self.keeps ≡ true → (calls : List Call) → StandsFor self calls → IsRefreshed self.config result.start result.end result.entries }
        ensures nothing { self.keeps ≡ false → result.entries ≡ [] }
    {
        let Channel {
            config: _,
            pending: _,
            drain: _,
            debts: _,
            flight: _,
            done: _,
            legality,
            rows: _,
            still_until: _,
            owes_refresh: _,
        } = self;
        let start = legality.start();
        let end = legality.now();
        Trace {
            start,
            end,
            entries: legality.into_entries(),
        }
    }
}

/// A bus on which nothing was issued, with or without its entries.
fn open_bus(
    alloc: Global,
    config: &Config,
    first_cycle: u64,
    keeps: bool,
) -> Result<Legality, AllocError>
    requires { first_cycle ≤ CLOCK_STOP }
    ensures bus { IfOk result (λ l. l.bus ≡ bus.opened config.now first_cycle) }
    ensures keeps { IfOk result (λ l. l.keeps ≡ keeps) }
{
    if keeps {
        Legality::open(alloc, config, first_cycle)
    } else {
        Legality::open_without_entries(alloc, config, first_cycle)
    }
}

/// The cycle before which nothing is chosen once a completion was taken, where there was room for one more request before or
/// was none.
fn still_with(room: bool, until: u64) -> u64
    ensures { result ≡ (if room then until else 0) }
{
    if room { until } else { 0 }
}

/// The marks by which the channel's scheduler goes.
fn policy(config: &Config) -> Policy
    ensures { result ≡ policy_of config.now }
{
    Policy {
        cap: config.limits.cap,
        low: config.limits.low,
        high: config.limits.high,
        closed: config.limits.closed,
    }
}

//! The core, and the requests that are still to be submitted: a replay from its first round to its last.
//!
//! `submitting`, `ddr_stream`, `books`, `ledger`, `activity`, `teller`, `watch`, `ddr_rounds` and `ddr_world` stand below, and `replay`
//! above.
ghost use Rattle.std.specs.Io.KnownBytes.{Appends};
ghost use Rattle.std.specs.Prelude.{◌≡◌, [], ◌≢◌, ◌==◌, ◌⊎◌, ℕ, ◌+◌, ◌-◌, ◌<◌, ◌≤◌, false, true, IfErr, IfOk, IfSome, IsErrOf, IsOk, IsTrue, OnOk, Option, Result, Some, Ok};
ghost use Rattle.ddr_counting.specs.Noting.{AreNoted};
ghost use Rattle.ddr_rounds.specs.Rounds.{channels_served, items_of, outstanding, until_refused};
ghost use Rattle.ddr_rounds.specs.Telling.{channels_told};
ghost use Rattle.ddr_world.specs.Events.{Collect, Release};
ghost use Rattle.ddr_world.specs.Kept.{state_of};
ghost use Rattle.ddr_world.specs.Quiet.{passed};
ghost use Rattle.ddr_stream.specs.Stream.{Queues};
ghost use Rattle.ddr_stream.specs.Waiting.{All, IsAhead, IsSaidFault, IsSized, IsStreamFault, Knows, all_in};
ghost use Rattle.ddr_replay.specs.Ahead.{AreAllSubmitted, AreSubmitted, Carries, HasTold, IsCutShort, IsEnded, IsOver, IsReplayFault, IsStopped, IsTurnFault, Leads, LeadsAlike, is_of_run};
ghost use Rattle.ddr_replay.specs.Books.{all_found};
ghost use Rattle.ddr_ledger.specs.Activities.{all_acted};
ghost use Rattle.ddr_ledger.specs.Activity.{seen_at};
ghost use Rattle.ddr_ledger.specs.Ledgers.{with_activity};
ghost use Rattle.ddr_replay.specs.Runs.{begun, first_port, port_served, port_submitted, ports_served, round_made, unserved};
ghost use Rattle.ddr_replay.specs.Stuck.{CannotGoOn};
ghost use Rattle.ddr_timing.specs.declared.config.Config.{Config};
ghost use Rattle.ddr_text.specs.Sink.{write_fault};
ghost use Rattle.ddr_text.specs.declared.fault.Fault.{Fault};
ghost use Rattle.ddr_replay.specs.Told.{IsKept, comes_at_end, keeps_served, wanted_of};
ghost use Rattle.ddr_replay.specs.View.{IsBeforeSame, IsButBooks, IsButLedger, IsCycleFault, IsFrontReleased, IsSame, IsTold, Replay, Tells, run_of, whole_run};
ghost use Rattle.ddr_replay.specs.Waits.{AreQuiet, IsWaitingIn, all_full, come_of, filled};

use crate::books::Books;
use crate::laws::all_are_legal;
use crate::order::{Asking, Order};
use crate::submitting::submit_from;
use crate::teller::{Tale, Teller, note_release};
use crate::wanted::{Wanted, channel_of, keeps_served};
use crate::watch::Watch;
use ddr_address_map::request::Kind;
use ddr_counting::noting::Noting;
use ddr_latency::clocks::leaves_time;
use ddr_ledger::activity::Seen;
use ddr_ledger::ledger::Ledger;
use ddr_reorder::reply::{Reply, Service};
use ddr_rounds::channels::serve_channels;
use ddr_rounds::ports::{collect, has_front, release};
use ddr_rounds::rounds::pass;
use ddr_stream::requests::Requests;
use ddr_stream::stream::Stream;
use ddr_text::fault::Fault;
use ddr_text::sink::Sink;
use ddr_text::source::Source;
use ddr_timing::config::Config;
use ddr_timing::units::STUCK_INTERVALS;
use ddr_world::event::Refusal;
use ddr_world::world::World;
use std::alloc::{AllocError, Global};
use std::marker::Model;

/// The most rounds of a replay, this project's choice.
pub const MOST_ROUNDS: u32 = u32::MAX;

/// In how many turns a watcher is told once: a turn is a round, or some quiet ones that are made at once.
const TOLD_EVERY: u32 = 4096;

/// A replay. No channel keeps its trace. Contracts see it as `Replay`.
#[derive(Drop)]
pub struct Replaying {
    alloc: Global,
    config: Config,
    /// In which order the ports submit next.
    asking: Asking,
    world: World,
    /// What the ports have still to submit, read as far as of each the next request is known.
    stream: Stream,
    /// What the channels' commands come to, when requests were accepted, and how long they took.
    books: Books,
    /// What is told of it.
    teller: Teller,
    /// How many rounds were made.
    round: u32,
    /// How many replies were released.
    released: u64,
    /// How many rounds were made when it was last looked at and a request had been accepted or served.
    went_on_at: u32,
    /// Whether one was since.
    went_on: bool,
}

impl Model for Replaying {
    ghost use Rattle.ddr_replay.specs.View.{Replay};

    ghost Value = { Replay };

    ghost use Rattle.ddr_replay.specs.View.{replay_of, IsWhole};

    ghost view = { replay_of };

    ghost invariant = { IsWhole };
}

impl Replaying {
    /// A replay before its first round, of which this is to be told, and whose ports submit in this order. Of the stream no request was
    /// taken, and of each port the next is known.
    pub fn open(
        alloc: Global,
        config: &Config,
        wanted: Wanted,
        order: Order,
        stream: Stream,
    ) -> Result<Replaying, AllocError>
        requires config { stream.config ≡ config.now }
        requires sized { IsSized stream }
        requires new { stream.taken ≡ 0 }
        ensures begun { IfOk result (λ replay. run_of replay ≡ begun config.now (keeps_served wanted) order stream.queues) }
        ensures stream { IfOk result (λ replay. replay.stream ≡ stream) }
        ensures config { IfOk result (λ replay. replay.config ≡ config.now) }
        ensures wanted { IfOk result (λ replay. replay.wanted ≡ wanted) }
        ensures told { IfOk result (IsTold []) }
    {
        let ledger = Ledger::open(alloc, config, keeps_served(wanted))?;
        let books = Books {
            noting: Noting::open(alloc, config)?,
            ledger,
            watched: channel_of(wanted),
            newest: None,
        };
        let teller = Teller::open(alloc, wanted)?;
        let world = World::open_without_traces(alloc, config)?;
        Ok(Replaying {
            alloc,
            config: *config,
            asking: Asking { order, first: 0 },
            world,
            stream,
            books,
            teller,
            round: 0,
            released: 0,
            went_on_at: 0,
            went_on: false,
        })
    }

    /// Makes rounds until all requests were submitted and their replies released, and tells the watcher how far it has come. Lines are
    /// read as their requests are asked for, and what is told as it comes is written behind each turn.
    ///
    /// Fails as `first` of `Stream` does at the first line that is at fault; where none is, as `ReplayLimit` where one round too many is
    /// to be made, as `ClockSpent`, and as `ReplayStuck`, where a refresh interval leaves no time to serve a request, once requests waited
    /// for `STUCK_INTERVALS` of them in which none was accepted or served; as `Write`, and as `OutOfMemory`.
    pub fn run<R: Source, W: Sink, V: Watch>(
        &mut self,
        reader: &mut R,
        writer: &mut W,
        watch: &mut V,
    ) -> Result<(), Fault>
        requires ahead { IsAhead self.old.stream }
        requires told { IsTold [] self.old }
        ensures ok { OnOk result (IfSome (all_in self.old.stream (R.remaining reader.old)) (λ said. (all : All) × (said ≡ Ok all) × IsOver self.old.config (MOST_ROUNDS - self.old.round) self.old self.new all)) }
        ensures fault { IfErr result (λ fault. IsEnded self.old.config (MOST_ROUNDS - self.old.round) self.old fault (all_in self.old.stream (R.remaining reader.old))) }
        ensures kind { IfErr result IsReplayFault }
        ensures sure { IsErrOf result Fault.Read → IsTrue R.may_fail }
        ensures config { self.new.config ≡ self.old.config }
        ensures wanted { self.new.wanted ≡ self.old.wanted }
        ensures told { OnOk result (HasTold self.new (W.contents writer.old) (W.contents writer.new)) }
        ensures begun { IfErr result (λ fault. IsCutShort self.old.config self.old fault (W.contents writer.old) (W.contents writer.new) (all_in self.old.stream (R.remaining reader.old))) }
        ensures idle { comes_at_end self.old.wanted ≡ true → (writer.new ≡ writer.old) × ¬ IsErrOf result Fault.Write }
        ensures taken { IsErrOf result Fault.Write → IsTrue W.may_fail }
    {
        match self.make_rounds(reader, writer, watch) {
            Ok(()) => Ok(()),
            Err(fault) => Err(self.first_fault(fault, reader)),
        }
    }

    /// By which fault a replay ends whose rounds ended by this one: where that is one of the run, by that of the first line that is left
    /// and at fault, if there is one.
    fn first_fault<R: Source>(&mut self, fault: Fault, reader: &mut R) -> Fault
        requires { IsReplayFault fault }
        ensures ended { (config : Config) (left : ℕ) (old : Replay) (all : Option (Result All Fault)) → IsStopped config left old fault all (all_in self.old.stream (R.remaining reader.old)) → IsEnded config left old result all }
        ensures kind { IsReplayFault result }
        ensures write { fault ≡ Fault.Write → result ≡ Fault.Write }
        ensures unwritten { result ≡ Fault.Write → fault ≡ Fault.Write }
        ensures sure { result ≡ Fault.Read → (fault ≡ Fault.Read) ⊎ IsTrue R.may_fail }
        ensures config { self.new.config ≡ self.old.config }
        ensures wanted { self.new.wanted ≡ self.old.wanted }
    {
        if !is_of_run(fault) {
            return fault;
        }
        match self.stream.skip_all(reader) {
            Ok(()) => fault,
            Err(first) => first,
        }
    }

    /// Makes rounds as `run` does. Fails as it does, but doesn't look at the lines that are left.
    fn make_rounds<R: Source, W: Sink, V: Watch>(
        &mut self,
        reader: &mut R,
        writer: &mut W,
        watch: &mut V,
    ) -> Result<(), Fault>
        requires ahead { IsAhead self.old.stream }
        requires told { IsTold [] self.old }
        ensures ok { OnOk result (IfSome (all_in self.old.stream (R.remaining reader.old)) (λ said. (all : All) × (said ≡ Ok all) × IsOver self.old.config (MOST_ROUNDS - self.old.round) self.old self.new all)) }
        ensures fault { IfErr result (λ fault. IsStopped self.old.config (MOST_ROUNDS - self.old.round) self.old fault (all_in self.old.stream (R.remaining reader.old)) (all_in self.new.stream (R.remaining reader.new))) }
        ensures kind { IfErr result IsReplayFault }
        ensures sure { IsErrOf result Fault.Read → IsTrue R.may_fail }
        ensures config { self.new.config ≡ self.old.config }
        ensures wanted { self.new.wanted ≡ self.old.wanted }
        ensures told { OnOk result (HasTold self.new (W.contents writer.old) (W.contents writer.new)) }
        ensures begun { IfErr result (λ fault. IsCutShort self.old.config self.old fault (W.contents writer.old) (W.contents writer.new) (all_in self.old.stream (R.remaining reader.old))) }
        ensures idle { comes_at_end self.old.wanted ≡ true → (writer.new ≡ writer.old) × ¬ IsErrOf result Fault.Write }
        ensures taken { IsErrOf result Fault.Write → IsTrue W.may_fail }
    {
        let mut turns: u32 = 0;
        'rounds: while !self.is_over() {
            self.turn(reader)?;
            self.write(writer)?;
            if let Some(cycle) = self.stuck_at() {
                return Err(Fault::ReplayStuck { cycle });
            }
            turns = turns.wrapping_add(1);
            self.tell(turns, watch);
        }
        Ok(())
    }

    /// Writes what was told and not written yet. Fails as `Sink` does.
    pub fn write<W: Sink>(&mut self, writer: &mut W) -> Result<(), Fault>
        ensures same { OnOk result (self.new ≡ record self.old { text = [] }) }
        ensures written { OnOk result (Appends (W.contents writer.old) (W.contents writer.new) self.old.text) }
        ensures idle { self.old.text ≡ [] → (writer.new ≡ writer.old) × IsOk result }
        ensures refused { IfErr result (λ fault. fault ≡ write_fault W.may_fail) }
        ensures spared { IsErrOf result Fault.OutOfMemory → W.contents writer.new ≡ W.contents writer.old }
        ensures config { self.new.config ≡ self.old.config }
        ensures wanted { self.new.wanted ≡ self.old.wanted }
        ensures stream { self.new.stream ≡ self.old.stream }
    {
        self.teller.write(writer)
    }

    /// Tells the watcher how far the replay has come, where so many turns call for it.
    fn tell<V: Watch>(&self, turns: u32, watch: &mut V) {
        if turns % TOLD_EVERY == 0 {
            watch.told(u128::from(self.books.ledger.total().count()), self.round);
        }
    }

    /// The cycle, no later than this one, up to which requests have waited too long with none accepted or served, where that may be so
    /// for ever.
    fn stuck_at(&mut self) -> Option<u64>
        ensures same { self.new ≡ self.old }
        ensures stuck { IfSome result (CannotGoOn self.old.config (run_of self.old)) }
    {
        if self.went_on {
            self.went_on = false;
            self.went_on_at = self.round;
            return None;
        }
        let cycle = u64::from(self.went_on_at)
            + STUCK_INTERVALS * u64::from(self.config.timing.refi);
        if u64::from(self.round) < cycle || !self.has_outstanding() || leaves_time(&self.config) {
            return None;
        }
        Some(cycle)
    }

    /// Whether requests were submitted and their replies not released.
    fn has_outstanding(&self) -> bool
        ensures { result ≡ true → 0 < outstanding (run_of self.now).state }
    {
        self.released < self.stream.taken()
    }

    /// Whether no request that was read is to be submitted, and none waits for its reply to be released.
    fn is_over(&self) -> bool
        ensures over { result ≡ (unserved (run_of self.now) == 0) }
        ensures sized { IsSized self.now.stream }
        ensures config { self.now.stream.config ≡ self.now.config }
    {
        self.released == self.stream.sent()
    }

    /// Lets the ports submit, and makes the next round, or where the next ones are quiet as many of those at once.
    fn turn<R: Source>(&mut self, reader: &mut R) -> Result<(), Fault>
        requires { (unserved (run_of self.old) == 0) ≡ false }
        ensures leads { OnOk result (Carries (λ all next. LeadsAlike self.old.config (MOST_ROUNDS - self.old.round) (MOST_ROUNDS - self.new.round) self.old self.new all next) (all_in self.old.stream (R.remaining reader.old)) (all_in self.new.stream (R.remaining reader.new))) }
        ensures ahead { OnOk result (IsAhead self.new.stream) }
        ensures more { OnOk result (self.old.round < self.new.round) }
        ensures within { self.new.round ≤ MOST_ROUNDS }
        ensures fault { IfErr result (λ fault. IsStopped self.old.config (MOST_ROUNDS - self.old.round) self.old fault (all_in self.old.stream (R.remaining reader.old)) (all_in self.new.stream (R.remaining reader.new))) }
        ensures kind { IfErr result IsTurnFault }
        ensures sure { IsErrOf result Fault.Read → IsTrue R.may_fail }
        ensures config { self.new.config ≡ self.old.config }
        ensures wanted { self.new.wanted ≡ self.old.wanted }
        ensures told { OnOk result (Tells self.old self.new) }
    {
        if self.round == MOST_ROUNDS {
            return Err(Fault::ReplayLimit);
        }
        let until = self.submit_all(reader)?;
        let quiet = self.quiet_rounds(until);
        if quiet > 0 {
            self.pass(quiet);
            return Ok(());
        }
        self.make_round()
    }

    /// Lets each port submit: the one that submits first and those behind it, and then those before it. Tells the cycle until which all of
    /// them surely wait.
    fn submit_all<R: Source>(&mut self, reader: &mut R) -> Result<u64, Fault>
        ensures run { IfOk result (λ until. Carries (λ all next. AreAllSubmitted self.old.config until self.old self.new all next) (all_in self.old.stream (R.remaining reader.old)) (all_in self.new.stream (R.remaining reader.new))) }
        ensures ahead { OnOk result (IsAhead self.new.stream) }
        ensures sized { IsSized self.new.stream }
        ensures stream { self.new.stream.config ≡ self.new.config }
        ensures fault { IfErr result (λ fault. IsSaidFault fault (all_in self.old.stream (R.remaining reader.old))) }
        ensures kind { IfErr result IsStreamFault }
        ensures sure { IsErrOf result Fault.Read → IsTrue R.may_fail }
        ensures same { IsBeforeSame self.old self.new }
        ensures told { OnOk result (Tells self.old self.new) }
    {
        let first = self.first_port();
        let ports = self.config.limits.ports;
        let until = self.submit_from_to(reader, first, ports)?;
        Ok(until.min(self.submit_from_to(reader, 0, first)?))
    }

    /// The port that submits first before the next round.
    fn first_port(&self) -> u32
        ensures first { result ≡ first_port self.now.asking self.now.config.limits.ports }
        ensures within { result ≤ self.now.config.limits.ports }
    {
        self.asking.first_port(self.config.limits.ports)
    }

    /// Lets the ports from this one on submit, in order, before that one. Tells the cycle until which all of these surely wait.
    fn submit_from_to<R: Source>(
        &mut self,
        reader: &mut R,
        from: u32,
        to: u32,
    ) -> Result<u64, Fault>
        requires ordered { from ≤ to }
        requires within { to ≤ self.old.config.limits.ports }
        ensures run { IfOk result (λ until. Carries (λ all next. AreSubmitted from (to - from) until self.old self.new all next) (all_in self.old.stream (R.remaining reader.old)) (all_in self.new.stream (R.remaining reader.new))) }
        ensures knows { OnOk result ((q : ℕ) → from ≤ q → q < to → Knows self.new.stream q) }
        ensures others { OnOk result ((q : ℕ) → (q < from) ⊎ (to ≤ q) → Knows self.old.stream q → Knows self.new.stream q) }
        ensures sized { IsSized self.new.stream }
        ensures stream { self.new.stream.config ≡ self.new.config }
        ensures fault { IfErr result (λ fault. IsSaidFault fault (all_in self.old.stream (R.remaining reader.old))) }
        ensures kind { IfErr result IsStreamFault }
        ensures sure { IsErrOf result Fault.Read → IsTrue R.may_fail }
        ensures same { IsBeforeSame self.old self.new }
        ensures told { OnOk result (Tells self.old self.new) }
    {
        let _ = &self.config;
        let mut until = u64::MAX;
        for port in from..to {
            until = until.min(self.submit(reader, port)?);
        }
        Ok(until)
    }

    /// Lets a port submit, behind which another one is first if one of its requests was accepted. Tells the cycle until which it surely
    /// waits.
    fn submit<R: Source>(&mut self, reader: &mut R, port: u32) -> Result<u64, Fault>
        requires { port < self.old.config.limits.ports }
        ensures run { IfOk result (λ until. Carries (λ all next. Leads (port_submitted port) self.old self.new all next × IsWaitingIn port until (whole_run self.new next.queues)) (all_in self.old.stream (R.remaining reader.old)) (all_in self.new.stream (R.remaining reader.new))) }
        ensures knows { OnOk result (Knows self.new.stream port) }
        ensures others { (q : ℕ) → q ≢ port → Knows self.old.stream q → Knows self.new.stream q }
        ensures sized { IsSized self.new.stream }
        ensures stream { self.new.stream.config ≡ self.new.config }
        ensures fault { IfErr result (λ fault. IsSaidFault fault (all_in self.old.stream (R.remaining reader.old))) }
        ensures kind { IfErr result IsStreamFault }
        ensures sure { IsErrOf result Fault.Read → IsTrue R.may_fail }
        ensures same { IsBeforeSame self.old self.new }
        ensures told { OnOk result (Tells self.old self.new) }
    {
        let taken = self.stream.taken();
        let until = submit_from(
            &mut self.world,
            &mut self.stream,
            &mut self.books.ledger,
            reader,
            port,
            self.round,
        )?;
        if self.stream.taken() != taken {
            self.went_on = true;
            self.asking.note(port);
        }
        Ok(until)
    }

    /// How many of the next rounds, before the cycle until which the ports wait, are known to be quiet: nothing is to be
    /// done in them, and so many may still be made.
    fn quiet_rounds(&self, until: u64) -> u32
        ensures quiet { 0 < result → AreQuiet self.now.config result (state_of self.now.world) }
        ensures waits { 0 < result → self.now.round + result ≤ until }
        ensures within { result ≤ MOST_ROUNDS - self.now.round }
    {
        if has_front(&self.world, self.config.limits.ports) {
            return 0;
        }
        let waits = until.saturating_sub(u64::from(self.round));
        let left = u64::from(MOST_ROUNDS - self.round);
        self.world.still().min(waits).min(left) as u32
    }

    /// Makes so many quiet rounds at once: before the first of them each port has submitted, and before each other one those whose
    /// next request's cycle has come find their windows full again. In all of them the same is seen of each channel.
    fn pass(&mut self, count: u32)
        requires quiet { AreQuiet self.old.config count (state_of self.old.world) }
        requires within { count ≤ MOST_ROUNDS - self.old.round }
        ensures state { state_of self.new.world ≡ passed count (state_of self.old.world) }
        ensures round { self.new.round ≡ self.old.round + count }
        ensures stream { self.new.stream ≡ self.old.stream }
        ensures ledger { self.new.ledger ≡ all_acted self.old.round count (seen_at (state_of self.new.world)) self.old.config.geometry.channels (all_full (count - 1) (come_of self.old.round self.old.stream.queues) self.old.config.limits.ports self.old.ledger) }
        ensures config { self.new.config ≡ self.old.config }
        ensures wanted { self.new.wanted ≡ self.old.wanted }
        ensures asking { self.new.asking ≡ self.old.asking }
        ensures told { Tells self.old self.new }
    {
        self.fill_all(u64::from(count.saturating_sub(1)));
        pass(&mut self.world, u64::from(count), &mut self.books);
        self.act_all(u64::from(count));
        self.round += count;
    }

    /// Lets each port whose next request's cycle has come wait for its window, in so many rounds.
    fn fill_all(&mut self, rounds: u64)
        ensures ledger { self.new.ledger ≡ all_full rounds (come_of self.old.round self.old.stream.queues) self.old.config.limits.ports self.old.ledger }
        ensures rest { IsButLedger self.old self.new }
    {
        for port in 0..self.config.limits.ports {
            self.fill(port, rounds);
        }
    }

    /// Lets a port wait for its window in so many rounds, if its next request's cycle has come.
    fn fill(&mut self, port: u32, rounds: u64)
        requires { port < self.old.config.limits.ports }
        ensures ledger { self.new.ledger ≡ filled rounds (come_of self.old.round self.old.stream.queues) port self.old.ledger }
        ensures rest { IsButLedger self.old self.new }
    {
        if self.has_come(port) {
            self.books.ledger.fill(port, rounds);
        }
    }

    /// Whether the cycle of a port's next request has come.
    fn has_come(&self, port: u32) -> bool
        requires { port < self.now.config.limits.ports }
        ensures { result ≡ come_of self.now.round self.now.stream.queues port }
    {
        match self.stream.known(port) {
            Some(ask) => ask.at <= u64::from(self.round),
            None => false,
        }
    }

    /// Counts so many cycles more of each channel, from the next one on, with what is seen of it.
    fn act_all(&mut self, cycles: u64)
        ensures ledger { self.new.ledger ≡ all_acted self.old.round cycles (seen_at (state_of self.old.world)) self.old.config.geometry.channels self.old.ledger }
        ensures rest { IsButLedger self.old self.new }
    {
        for channel in 0..self.config.geometry.channels {
            self.act(channel, cycles);
        }
    }

    /// Counts so many cycles more of a channel, from the next one on, with what is seen of it.
    fn act(&mut self, channel: u32, cycles: u64)
        ensures ledger { self.new.ledger ≡ with_activity channel self.old.round cycles (seen_at (state_of self.old.world) channel) self.old.ledger }
        ensures rest { IsButLedger self.old self.new }
    {
        let seen = self.seen(channel);
        self.books.ledger.act(channel, self.round, cycles, &seen);
    }

    /// What is seen of the channel of that number.
    fn seen(&self, channel: u32) -> Seen
        ensures { result ≡ seen_at (state_of self.now.world) channel }
    {
        let Some(there) = self.world.channel(channel) else {
            return Seen::NOTHING;
        };
        let Some(waiting) = self.world.waiting(channel) else {
            return Seen::NOTHING;
        };
        Seen {
            draining: there.is_draining(),
            reads: u64::from(there.pending(Kind::Read)),
            writes: u64::from(there.pending(Kind::Write)),
            waiting: waiting as u64,
            oldest: there.oldest(),
        }
    }

    /// Makes a round: each channel's part in order, then each port's.
    fn make_round(&mut self) -> Result<(), Fault>
        requires { self.old.round < MOST_ROUNDS }
        ensures made { OnOk result ((queues : Queues) → round_made self.old.config (whole_run self.old queues) ≡ Some (whole_run self.new queues)) }
        ensures stream { self.new.stream ≡ self.old.stream }
        ensures fault { IfErr result (λ fault. IsCycleFault fault (channels_served self.old.config.geometry.channels (state_of self.old.world))) }
        ensures config { self.new.config ≡ self.old.config }
        ensures wanted { self.new.wanted ≡ self.old.wanted }
        ensures round { OnOk result (self.new.round ≡ self.old.round + 1) }
        ensures within { self.new.round ≤ MOST_ROUNDS }
        ensures told { OnOk result (Tells self.old self.new) }
    {
        self.serve_channels()?;
        self.act_all(1);
        self.serve_ports()?;
        self.round += 1;
        Ok(())
    }

    /// The channels' part of a round.
    fn serve_channels(&mut self) -> Result<(), Fault>
        ensures served { OnOk result (channels_served self.old.config.geometry.channels (state_of self.old.world) ≡ Some (state_of self.new.world)) }
        ensures ledger { OnOk result (self.new.ledger ≡ all_found (state_of self.old.world) (channels_told self.old.config.geometry.channels (state_of self.old.world)) self.old.ledger) }
        ensures fault { IfErr result (λ fault. IsCycleFault fault (channels_served self.old.config.geometry.channels (state_of self.old.world))) }
        ensures rest { IsButBooks self.old self.new }
        ensures told { OnOk result (Tells self.old self.new) }
    {
        let channels = self.config.geometry.channels;
        self.books.newest = None;
        match serve_channels(&mut self.world, channels, &mut self.books) {
            Ok(()) => {}
            Err(Refusal::OutOfMemory) => return Err(Fault::OutOfMemory),
            Err(_) => return Err(Fault::ClockSpent),
        }
        all_are_legal(&self.world, channels);
        if let Some(entry) = self.books.newest {
            self.teller.command(self.alloc, &entry)?;
        }
        Ok(())
    }

    /// The ports' part of a round.
    fn serve_ports(&mut self) -> Result<(), AllocError>
        ensures run { OnOk result (run_of self.new ≡ ports_served self.old.config.limits.ports (run_of self.old)) }
        ensures stream { self.new.stream ≡ self.old.stream }
        ensures config { self.new.config ≡ self.old.config }
        ensures wanted { self.new.wanted ≡ self.old.wanted }
        ensures round { self.new.round ≡ self.old.round }
        ensures told { OnOk result (Tells self.old self.new) }
    {
        for port in 0..self.config.limits.ports {
            self.serve_port(port)?;
        }
        Ok(())
    }

    /// A port's part of a round: it collects what was delivered, and releases its replies.
    fn serve_port(&mut self, port: u32) -> Result<(), AllocError>
        ensures run { OnOk result (run_of self.new ≡ port_served port (run_of self.old)) }
        ensures stream { self.new.stream ≡ self.old.stream }
        ensures config { self.new.config ≡ self.old.config }
        ensures wanted { self.new.wanted ≡ self.old.wanted }
        ensures round { self.new.round ≡ self.old.round }
        ensures told { OnOk result (Tells self.old self.new) }
    {
        self.collect(port);
        'replies: while self.release_front(port)? {}
        Ok(())
    }

    /// Lets a port collect what was delivered: the completions of requests that were served.
    fn collect(&mut self, port: u32)
        ensures state { state_of self.new.world ≡ until_refused (Collect port) (state_of self.old.world) }
        ensures same { IsSame self.old self.new }
        ensures told { Tells self.old self.new }
    {
        self.went_on |= collect(&mut self.world, port);
    }

    /// Releases the reply in front of a port, if there is one, and tells whether there was.
    fn release_front(&mut self, port: u32) -> Result<bool, AllocError>
        ensures released { IfOk result (λ more. IsFrontReleased port (run_of self.old) (run_of self.new) more) }
        ensures fewer { IfOk result (λ more. more ≡ true → items_of (state_of self.old.world) (Release port) ≡ items_of (state_of self.new.world) (Release port) + 1) }
        ensures stream { self.new.stream ≡ self.old.stream }
        ensures config { self.new.config ≡ self.old.config }
        ensures wanted { self.new.wanted ≡ self.old.wanted }
        ensures round { self.new.round ≡ self.old.round }
        ensures told { OnOk result (Tells self.old self.new) }
    {
        let Some(reply) = self.world.front(port) else {
            return Ok(false);
        };
        let Reply { issued, due, .. } = reply;
        note_release(
            self.alloc,
            &mut self.books.ledger,
            &mut self.teller,
            port,
            Service { issued, due },
            self.round,
        )?;
        let _ = release(&mut self.world, port, &mut self.books);
        self.released += 1;
        Ok(true)
    }

    /// How many rounds were made.
    pub fn round(&self) -> u32
        ensures { result ≡ self.now.round }
    {
        self.round
    }

    /// When requests were accepted, and how long they took.
    pub fn ledger(&self) -> &Ledger
        ensures { result.now ≡ self.now.ledger }
    {
        &self.books.ledger
    }

    /// Of each port how many requests were read.
    pub fn requests(&self) -> &[Requests]
        ensures { result.now ≡ self.now.stream.asked }
    {
        self.stream.asked()
    }

    /// What is kept of it to be told at its end.
    pub(crate) fn tale(&self) -> &Tale
        ensures wanted { wanted_of result.now ≡ self.now.wanted }
        ensures kept { IsKept result.now self.now.ledger.served }
    {
        &self.teller.tale
    }

    /// What the channels' commands come to.
    pub fn noting(&self) -> &Noting
        ensures { AreNoted self.entry.now.world.config (state_of self.entry.now.world) result.now }
    {
        &self.books.noting
    }

    /// The core.
    pub fn world(&self) -> &World
        ensures value { result.now ≡ self.now.world }
        ensures config { result.now.config ≡ self.now.config }
    {
        &self.world
    }
}

/// Whether a fault is one of the run, and not of a line, of reading or of memory.
fn is_of_run(fault: Fault) -> bool
    ensures { result ≡ is_of_run fault }
{
    match fault {
        Fault::ReplayLimit | Fault::ClockSpent | Fault::ReplayStuck { .. } => true,
        _ => false,
    }
}

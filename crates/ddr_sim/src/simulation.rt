//! A run of a script over the core: its instructions, its rounds and its Ends.
//!
//! `line`, `refusal`, `trace`, `ddr_text`, `ddr_rounds` and `ddr_world` stand below, and `sim` above.
ghost use Rattle.std.specs.Prelude.{◌≡◌, ◌==◌, ◌+◌, ◌-◌, ◌<◌, ◌≤◌, ◌^◌, ◌⊎◌, true, [], IfErr, IfOk, IsErrOf, IsTrue, OnOk, Ok, Err, Some, map};
ghost use Rattle.std.specs.Io.KnownBytes.{Appends};
ghost use Rattle.ddr_ports.specs.Asked.{asked_of};
ghost use Rattle.ddr_reorder.specs.Replies.{said};
ghost use Rattle.ddr_world.specs.Answer.{IsAnswered};
ghost use Rattle.ddr_world.specs.Events.{Collect, event_of};
ghost use Rattle.ddr_world.specs.History.{front_of};
ghost use Rattle.ddr_world.specs.Kept.{state_of};
ghost use Rattle.ddr_world.specs.Quiet.{passed};
ghost use Rattle.ddr_rounds.specs.Rounds.{added, channels_served, outstanding, until_refused};
ghost use Rattle.ddr_sim.specs.Quiet.{AreQuiet, HasMade};
ghost use Rattle.ddr_text.specs.Replies.{reply_text};
ghost use Rattle.ddr_sim.specs.Rounds.{port_served, ports_served, round, rounds};
ghost use Rattle.ddr_sim.specs.Runs.{all_followed, begun, channel_text, channels_ended, served_out, followed, ports_ended, submitted, whole};
ghost use Rattle.ddr_text.specs.Script.{view};
ghost use Rattle.ddr_sim.specs.Simulated.{IsCycleFault, IsFrontPrinted, IsSameRun, Leads, run_at};

use crate::line::reply_line;
use crate::refusal::refused_text;
use crate::trace::text_of;
use ddr_ports::request::Request;
use ddr_reorder::reply::Reply;
use ddr_rounds::channels::serve_channels;
use ddr_rounds::ports::{collect, has_front};
use ddr_rounds::rounds::pass;
use ddr_text::fault::Fault;
use ddr_text::reply::reply_text;
use ddr_text::script::Instruction;
use ddr_text::sink::Sink;
use ddr_text::writing::{write_bytes, write_text};
use ddr_timing::config::Config;
use ddr_world::event::{Event, Outcome, Refusal};
use ddr_world::world::World;
use std::alloc::{AllocError, Global};
use std::marker::Model;

/// The most rounds that a run makes, this project's choice.
pub const MOST_ROUNDS: u32 = 10_000_000;

/// The core with what a run of a script counts. Contracts see it as `Simulated`.
#[derive(Drop)]
pub struct Simulation {
    config: Config,
    world: World,
    /// How many rounds may still be made.
    left: u32,
    /// How many requests were accepted whose replies were not released.
    waiting: u64,
    /// Neither replies nor refusals are printed, and the channels keep their traces.
    silent: bool,
}

impl Model for Simulation {
    ghost use Rattle.ddr_sim.specs.Simulated.{Simulated};

    ghost Value = { Simulated };

    ghost use Rattle.ddr_sim.specs.Simulated.{simulated, IsWhole};

    ghost view = { simulated };

    ghost invariant = { IsWhole };
}

impl Simulation {
    /// A run before its first instruction. Where it is silent, neither replies nor refusals are printed, and the traces are kept, of
    /// which `write_trace` writes one.
    pub fn open(alloc: Global, config: &Config, silent: bool) -> Result<Simulation, AllocError>
        ensures begun { IfOk result (λ sim. run_at sim [] ≡ begun config.now) }
        ensures config { IfOk result (λ sim. sim.config ≡ config.now) }
        ensures waiting { IfOk result (λ sim. sim.waiting ≡ 0) }
        ensures silent { IfOk result (λ sim. sim.silent ≡ silent) }
    {
        Ok(Simulation {
            config: *config,
            world: World::open_as(alloc, config, 0, 0, silent)?,
            left: MOST_ROUNDS,
            waiting: 0,
            silent,
        })
    }

    /// Follows the instructions of a script in order, then makes rounds until nothing is outstanding, then pushes and
    /// takes the Ends. Replies and refusals are printed as they come.
    ///
    /// Fails as `ScriptLimit` where one round too many is to be made, as `ClockSpent`, as `OutOfMemory`, and as `Write` where the
    /// writer fails. What was printed before stands.
    pub fn run<W: Sink>(
        &mut self,
        alloc: Global,
        instructions: &[Instruction],
        writer: &mut W,
    ) -> Result<(), Fault>
        requires { self.old.waiting ≡ 0 }
        ensures leads { Leads (whole self.old.config (map view instructions.now)) self.old (W.contents writer.old) self.new (W.contents writer.new) result }
        ensures taken { IsErrOf result Fault.Write → IsTrue W.may_fail }
        ensures silent { self.new.silent ≡ self.old.silent }
    {
        self.follow_all(alloc, instructions, writer)?;
        self.serve_out(alloc, writer)?;
        self.end();
        Ok(())
    }

    /// Follows the instructions of a script, in order.
    fn follow_all<W: Sink>(
        &mut self,
        alloc: Global,
        instructions: &[Instruction],
        writer: &mut W,
    ) -> Result<(), Fault>
        requires { self.old.waiting ≡ 0 }
        ensures leads { Leads (all_followed self.old.config (map view instructions.now)) self.old (W.contents writer.old) self.new (W.contents writer.new) result }
        ensures taken { IsErrOf result Fault.Write → IsTrue W.may_fail }
        ensures config { self.new.config ≡ self.old.config }
        ensures silent { self.new.silent ≡ self.old.silent }
    {
        for instruction in instructions {
            self.follow(alloc, instruction, writer)?;
        }
        Ok(())
    }

    /// Asks a port for what a line of the script says, or makes the rounds that it says.
    fn follow<W: Sink>(
        &mut self,
        alloc: Global,
        instruction: &Instruction,
        writer: &mut W,
    ) -> Result<(), Fault>
        requires { self.old.waiting < 2 ^ 64 - 1 }
        ensures leads { Leads (followed self.old.config (view instruction.now)) self.old (W.contents writer.old) self.new (W.contents writer.new) result }
        ensures taken { IsErrOf result Fault.Write → IsTrue W.may_fail }
        ensures same { IsSameRun self.old self.new 1 }
    {
        match instruction {
            Instruction::Read { port, addr, len } => {
                self.ask(alloc, *port, Request::read(*addr, *len), writer)
            }
            Instruction::Write { port, addr, bytes } => {
                self.ask(
                    alloc,
                    *port,
                    Request::write(*addr, bytes.as_slice()),
                    writer,
                )
            }
            Instruction::Masked {
                port,
                addr,
                enable,
                line,
            } => self.ask(alloc, *port, Request::masked(*addr, line, *enable), writer),
            Instruction::Cycle { rounds } => self.rounds(alloc, *rounds, writer),
        }
    }

    /// Asks a port for a request. Where it is refused the cause is printed.
    fn ask<W: Sink>(
        &mut self,
        alloc: Global,
        port: u32,
        request: Request<'_>,
        writer: &mut W,
    ) -> Result<(), Fault>
        requires { self.old.waiting < 2 ^ 64 - 1 }
        ensures leads { Leads (λ run. Ok (submitted port (asked_of request.entry) run)) self.old (W.contents writer.old) self.new (W.contents writer.new) result }
        ensures taken { IsErrOf result Fault.Write → IsTrue W.may_fail }
        ensures same { IsSameRun self.old self.new 1 }
    {
        let Err(cause) = self.make(Event::Submit(port, request)) else {
            return Ok(());
        };
        if self.silent {
            return Ok(());
        }
        let text = refused_text(alloc, port, cause)?;
        write_text(writer, text.as_str())
    }

    /// Makes so many rounds.
    fn rounds<W: Sink>(&mut self, alloc: Global, count: u32, writer: &mut W) -> Result<(), Fault>
        ensures leads { Leads (rounds self.old.config count) self.old (W.contents writer.old) self.new (W.contents writer.new) result }
        ensures taken { IsErrOf result Fault.Write → IsTrue W.may_fail }
        ensures same { IsSameRun self.old self.new 0 }
    {
        let mut to_make = count;
        'rounds: while to_make > 0 {
            let made = self.next_rounds(alloc, to_make, writer)?;
            to_make -= made;
        }
        Ok(())
    }

    /// Makes rounds until nothing is outstanding.
    fn serve_out<W: Sink>(&mut self, alloc: Global, writer: &mut W) -> Result<(), Fault>
        ensures leads { Leads (served_out self.old.config self.old.left) self.old (W.contents writer.old) self.new (W.contents writer.new) result }
        ensures taken { IsErrOf result Fault.Write → IsTrue W.may_fail }
        ensures same { IsSameRun self.old self.new 0 }
    {
        'rounds: while !self.is_idle() {
            self.next_rounds(alloc, u32::MAX, writer)?;
        }
        Ok(())
    }

    /// Makes the next round, or where the next ones are quiet as many of those at once, and tells how many: at most so many.
    fn next_rounds<W: Sink>(
        &mut self,
        alloc: Global,
        most: u32,
        writer: &mut W,
    ) -> Result<u32, Fault>
        requires { 0 < most }
        ensures made { IfOk result (HasMade most self.old (W.contents writer.old) self.new (W.contents writer.new)) }
        ensures fault { IfErr result (λ fault. Leads (round self.old.config) self.old (W.contents writer.old) self.new (W.contents writer.new) (Err fault)) }
        ensures taken { IsErrOf result Fault.Write → IsTrue W.may_fail }
        ensures same { IsSameRun self.old self.new 0 }
    {
        let quiet = self.quiet_rounds(most);
        if quiet > 0 {
            self.pass(quiet);
            return Ok(quiet);
        }
        self.round(alloc, writer)?;
        Ok(1)
    }

    /// How many of the next rounds, at most so many, are known to be quiet: nothing is to be done in them, and so many may
    /// still be made.
    fn quiet_rounds(&self, most: u32) -> u32
        ensures within { result ≤ most }
        ensures quiet { 0 < result → AreQuiet self.now.config result (state_of self.now.world) self.now.left }
    {
        let quiet = self.world.still();
        if quiet == 0 || has_front(&self.world, self.config.limits.ports) {
            return 0;
        }
        let most = most.min(self.left);
        if quiet < u64::from(most) {
            quiet as u32
        } else {
            most
        }
    }

    /// Makes so many quiet rounds at once.
    fn pass(&mut self, count: u32)
        requires { AreQuiet self.old.config count (state_of self.old.world) self.old.left }
        ensures state { state_of self.new.world ≡ passed count (state_of self.old.world) }
        ensures left { self.new.left ≡ self.old.left - count }
        ensures same { IsSameRun self.old self.new 0 }
    {
        pass(&mut self.world, u64::from(count), &mut ());
        self.left -= count;
    }

    /// Whether nothing is outstanding.
    fn is_idle(&self) -> bool
        ensures { result ≡ (outstanding (state_of self.now.world) == 0) }
    {
        self.waiting == 0
    }

    /// Makes a round: each channel's part in order, then each port's. Fails as `ScriptLimit` where no further one may
    /// be made.
    fn round<W: Sink>(&mut self, alloc: Global, writer: &mut W) -> Result<(), Fault>
        ensures leads { Leads (round self.old.config) self.old (W.contents writer.old) self.new (W.contents writer.new) result }
        ensures taken { IsErrOf result Fault.Write → IsTrue W.may_fail }
        ensures same { IsSameRun self.old self.new 0 }
        ensures left { OnOk result (self.old.left ≡ self.new.left + 1) }
    {
        if self.left == 0 {
            return Err(Fault::ScriptLimit);
        }
        self.serve_channels()?;
        self.left -= 1;
        self.serve_ports(alloc, writer)
    }

    /// The channels' part of a round.
    fn serve_channels(&mut self) -> Result<(), Fault>
        ensures served { OnOk result (channels_served self.old.config.geometry.channels (state_of self.old.world) ≡ Some (state_of self.new.world)) }
        ensures fault { IfErr result (λ fault. IsCycleFault fault (channels_served self.old.config.geometry.channels (state_of self.old.world))) }
        ensures left { self.new.left ≡ self.old.left }
        ensures same { IsSameRun self.old self.new 0 }
    {
        match serve_channels(&mut self.world, self.config.geometry.channels, &mut ()) {
            Ok(()) => Ok(()),
            Err(Refusal::OutOfMemory) => Err(Fault::OutOfMemory),
            Err(_) => Err(Fault::ClockSpent),
        }
    }

    /// The ports' part of a round.
    fn serve_ports<W: Sink>(&mut self, alloc: Global, writer: &mut W) -> Result<(), Fault>
        ensures leads { Leads (λ run. Ok (ports_served self.old.config.limits.ports run)) self.old (W.contents writer.old) self.new (W.contents writer.new) result }
        ensures taken { IsErrOf result Fault.Write → IsTrue W.may_fail }
        ensures same { IsSameRun self.old self.new 0 }
        ensures left { self.new.left ≡ self.old.left }
    {
        for port in 0..self.config.limits.ports {
            self.serve_port(alloc, port, writer)?;
        }
        Ok(())
    }

    /// A port's part of a round: it collects what was delivered, and each reply in front is printed and released.
    fn serve_port<W: Sink>(&mut self, alloc: Global, port: u32, writer: &mut W) -> Result<(), Fault>
        ensures leads { Leads (λ run. Ok (port_served port run)) self.old (W.contents writer.old) self.new (W.contents writer.new) result }
        ensures taken { IsErrOf result Fault.Write → IsTrue W.may_fail }
        ensures same { IsSameRun self.old self.new 0 }
        ensures left { self.new.left ≡ self.old.left }
    {
        self.collect(port);
        'replies: while self.print_front(alloc, port, writer)? {
            let _ = self.make(Event::Release(port));
        }
        Ok(())
    }

    /// Lets a port collect what was delivered.
    #[inline(always)]
    fn collect(&mut self, port: u32)
        ensures state { state_of self.new.world ≡ until_refused (Collect port) (state_of self.old.world) }
        ensures left { self.new.left ≡ self.old.left }
        ensures same { IsSameRun self.old self.new 0 }
    {
        let _ = collect(&mut self.world, port);
    }

    /// Prints the reply in front of a port, if there is one, and tells whether there was.
    fn print_front<W: Sink>(&self, alloc: Global, port: u32, writer: &mut W) -> Result<bool, Fault>
        ensures printed { IfOk result (IsFrontPrinted port (front_of (state_of self.now.world) port) self.now.silent (W.contents writer.old) (W.contents writer.new)) }
        ensures taken { IsErrOf result Fault.Write → IsTrue W.may_fail }
        ensures spared { IfErr result (λ fault. fault ≡ Fault.OutOfMemory → W.contents writer.new ≡ W.contents writer.old) }
        ensures fault { IfErr result (λ fault. (fault ≡ Fault.Write) ⊎ (fault ≡ Fault.OutOfMemory)) }
    {
        let Some(reply) = self.world.front(port) else {
            return Ok(false);
        };
        if !self.silent {
            write_reply(alloc, port, &reply, writer)?;
        }
        Ok(true)
    }

    /// Pushes the End of each port to each channel, and takes each behind its push.
    fn end(&mut self)
        ensures state { state_of self.new.world ≡ channels_ended self.old.config.limits.ports self.old.config.geometry.channels (state_of self.old.world) }
        ensures left { self.new.left ≡ self.old.left }
        ensures same { IsSameRun self.old self.new 0 }
    {
        for channel in 0..self.config.geometry.channels {
            self.end_ports(channel);
        }
    }

    /// Pushes the End of each port to a channel, which takes each behind its push.
    fn end_ports(&mut self, channel: u32)
        ensures state { state_of self.new.world ≡ ports_ended channel self.old.config.limits.ports (state_of self.old.world) }
        ensures left { self.new.left ≡ self.old.left }
        ensures same { IsSameRun self.old self.new 0 }
    {
        for port in 0..self.config.limits.ports {
            let _ = self.make(Event::End(port, channel));
            let _ = self.make(Event::Take(channel));
        }
    }

    /// Makes an event, and counts what is outstanding.
    #[inline(always)]
    fn make(&mut self, event: Event<'_>) -> Result<Outcome, Refusal>
        requires { added (event_of event) ≤ 2 ^ 64 - 1 - self.old.waiting }
        ensures answer { IsAnswered self.old.world self.new.world (event_of event.entry) result }
        ensures left { self.new.left ≡ self.old.left }
        ensures same { IsSameRun self.old self.new (added (event_of event.entry)) }
    {
        let outcome = self.world.step(event)?;
        match outcome {
            Outcome::Accepted { .. } => self.waiting += 1,
            Outcome::Released { .. } => self.waiting -= 1,
            _ => {}
        }
        Ok(outcome)
    }

    /// Writes the trace of a channel, and flushes. Where memory runs out nothing is written. The run was a silent one.
    pub fn write_trace<W: Sink>(
        &self,
        alloc: Global,
        channel: u32,
        writer: &mut W,
    ) -> Result<(), Fault>
        requires { self.now.silent ≡ true }
        ensures written { OnOk result (Appends (W.contents writer.old) (W.contents writer.new) (channel_text (state_of self.now.world) channel)) }
        ensures taken { IsErrOf result Fault.Write → IsTrue W.may_fail }
        ensures spared { IfErr result (λ fault. fault ≡ Fault.OutOfMemory → W.contents writer.new ≡ W.contents writer.old) }
        ensures fault { IfErr result (λ fault. (fault ≡ Fault.Write) ⊎ (fault ≡ Fault.OutOfMemory)) }
    {
        let Some(channel) = self.world.channel(channel) else {
            return Ok(());
        };
        let text = text_of(alloc, channel)?;
        write_bytes(writer, text.as_slice())
    }
}

/// Writes a reply as a line, at once. Where memory runs out nothing is written.
fn write_reply<W: Sink>(
    alloc: Global,
    port: u32,
    reply: &Reply<'_>,
    writer: &mut W,
) -> Result<(), Fault>
    ensures written { OnOk result (Appends (W.contents writer.old) (W.contents writer.new) (reply_text port (said reply.now))) }
    ensures taken { IsErrOf result Fault.Write → IsTrue W.may_fail }
    ensures spared { IfErr result (λ fault. fault ≡ Fault.OutOfMemory → W.contents writer.new ≡ W.contents writer.old) }
    ensures fault { IfErr result (λ fault. (fault ≡ Fault.Write) ⊎ (fault ≡ Fault.OutOfMemory)) }
{
    let Some(line) = reply_line(port, reply) else {
        let text = reply_text(alloc, port, reply)?;
        return write_text(writer, text.as_str());
    };
    writer.write_bytes(line.as_slice())
}

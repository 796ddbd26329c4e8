//! One port of a run, in a thread of its own: it asks for what the lines of its port say, keeps the text of the replies,
//! and finishes.
//!
//! `flag`, `ddr_text` and `ddr_workers` stand below; `threads` gives each port a thread.
ghost use Rattle.std.specs.Prelude.{◌≡◌, [], ◌∷◌, if◌then◌else◌, IfOk, OnOk, map, string_bytes};
ghost use Rattle.std.specs.Option.{option_map, option_to_list};
ghost use Rattle.ddr_ports.specs.Asked.{asked_of};
ghost use Rattle.ddr_workers.specs.Port.{IsEndOfPort};
ghost use Rattle.ddr_run.specs.Hosting.{AreAsked, HasAsked, HasFinished, IsNewPort, asked_at, asks_of, replies_text};
ghost use Rattle.ddr_text.specs.Script.{view};

use crate::flag::{Flag, Stop};
use ddr_ports::refusal::PortError;
use ddr_ports::request::Request;
use ddr_text::reply::reply_text;
use ddr_text::script::Instruction;
use ddr_workers::port::{PollAnswer, Port, PortEnd};
use ddr_workers::refusal::{FinishError, SubmitError};
use ddr_workers::rest::Rest;
use std::alloc::{AllocError, Global};
use std::marker::Model;
use std::sync::Wait;

/// A port with the text of the replies that it gave up. Contracts see the port.
#[derive(Drop)]
struct Host {
    number: u32,
    port: Port,
    text: String,
    // Between polls that found nothing.
    rest: Rest,
}

impl Model for Host {
    ghost use Rattle.ddr_workers.specs.Port.{PortState};

    ghost Value = { PortState };

    ghost use Rattle.ddr_run.specs.Hosting.{IsHosting};

    ghost view = { λ a. a.port };

    ghost invariant = { IsHosting };
}

/// A finished port's end, with the text of its replies.
#[derive(Drop)]
pub struct Hosted {
    pub end: PortEnd,
    pub text: String,
}

impl Host {
    /// The port of this number, of which nothing was asked yet.
    fn new(alloc: Global, number: u32, port: Port) -> Host
        requires number { port.core.port ≡ number }
        requires taken { port.taken ≡ 0 }
        requires next { port.core.reorder.next ≡ 0 }
        requires outstanding { port.core.reorder.outstanding ≡ [] }
        ensures { result ≡ port }
    {
        Host {
            number,
            port,
            text: String::new(alloc),
            rest: Rest::new(),
        }
    }

    /// Asks for what the lines of the port say, in order.
    fn ask_all<R: Wait>(
        &mut self,
        rt: &R,
        alloc: Global,
        flag: &Flag,
        instructions: &[Instruction],
    ) -> Result<(), Stop>
        ensures { OnOk result (HasAsked self.old self.new (asks_of self.old.core.port (map view instructions.now))) }
    {
        for instruction in instructions {
            self.follow(rt, alloc, flag, instruction)?;
        }
        Ok(())
    }

    /// Asks for what an instruction says, if it is this port that is asked.
    fn follow<R: Wait>(
        &mut self,
        rt: &R,
        alloc: Global,
        flag: &Flag,
        instruction: &Instruction,
    ) -> Result<(), Stop>
        ensures { OnOk result (HasAsked self.old self.new (option_to_list (asked_at self.old.core.port (view instruction.now)))) }
    {
        match request_for(self.number, instruction) {
            Some(request) => self.ask(rt, alloc, flag, request),
            None => Ok(()),
        }
    }

    /// Asks the port for a request until it is taken.
    fn ask<R: Wait>(
        &mut self,
        rt: &R,
        alloc: Global,
        flag: &Flag,
        request: Request<'_>,
    ) -> Result<(), Stop>
        ensures { OnOk result (HasAsked self.old self.new (asked_of request.entry ∷ [])) }
    {
        for _ in rt.forever() {
            if self.try_ask(rt, request)? {
                return Ok(());
            }
            self.serve(rt, alloc, flag)?;
        }
        unreachable!()
    }

    /// Asks the port for a request, and answers whether it was taken. It is not where the window or the queue of its
    /// channel is full. A request that was checked meets no other refusal of a port that isn't broken.
    fn try_ask<R: Wait>(&mut self, rt: &R, request: Request<'_>) -> Result<bool, Stop>
        ensures { IfOk result (λ taken. HasAsked self.old self.new (if taken then asked_of request.entry ∷ [] else [])) }
    {
        match self.port.submit(rt, request) {
            Ok(_) => Ok(true),
            Err(SubmitError::Busy { .. }) => Ok(false),
            Err(SubmitError::Refused(PortError::WindowFull)) => Ok(false),
            Err(_) => Err(Stop::PortBroken),
        }
    }

    /// Waits for the replies to all that was asked for.
    fn await_all<R: Wait>(&mut self, rt: &R, alloc: Global, flag: &Flag) -> Result<(), Stop>
        ensures { OnOk result (HasAsked self.old self.new []) }
    {
        for _ in rt.forever() {
            if self.port.outstanding() == 0 {
                return Ok(());
            }
            self.serve(rt, alloc, flag)?;
        }
        unreachable!()
    }

    /// Polls once. Where a completion came the replies that are ready are given up, and else the thread rests.
    fn serve<R: Wait>(&mut self, rt: &R, alloc: Global, flag: &Flag) -> Result<(), Stop>
        ensures { HasAsked self.old self.new [] }
    {
        if flag.is_raised() {
            return Err(Stop::Told);
        }
        if self.poll(rt)? {
            self.rest.after(rt, true);
            self.give_up_ready(alloc)?;
        } else {
            self.rest.after(rt, false);
        }
        Ok(())
    }

    /// Polls once, and answers whether a completion came.
    fn poll<R: Wait>(&mut self, rt: &R) -> Result<bool, Stop>
        ensures { HasAsked self.old self.new [] }
    {
        match self.port.poll(rt) {
            Ok(PollAnswer::Filled { .. }) => Ok(true),
            Ok(PollAnswer::Empty) => Ok(false),
            Err(_) => Err(Stop::PortBroken),
        }
    }

    /// Gives up the replies that are ready.
    fn give_up_ready(&mut self, alloc: Global) -> Result<(), AllocError>
        ensures { HasAsked self.old self.new [] }
    {
        for _ in 0..self.port.ready() {
            self.give_up(alloc)?;
        }
        Ok(())
    }

    /// Adds the oldest reply to the text and gives it up, where it is ready.
    fn give_up(&mut self, alloc: Global) -> Result<(), AllocError>
        ensures { HasAsked self.old self.new [] }
    {
        let Some(reply) = self.port.front() else {
            return Ok(());
        };
        let line = reply_text(alloc, self.number, &reply)?;
        self.text.push_str(line.as_str())?;
        let _ = self.port.release();
        Ok(())
    }

    /// Finishes the port, and tries again for as long as a queue is full.
    fn finish<R: Wait>(self, rt: &R, flag: &Flag) -> Result<Hosted, Stop>
        ensures finished { IfOk result (λ hosted. HasFinished self hosted.end) }
        ensures text { IfOk result (λ hosted. string_bytes hosted.text ≡ replies_text self.core.port hosted.end.completions.took hosted.end.taken) }
    {
        let Host {
            number: _,
            mut port,
            text,
            mut rest,
        } = self;
        for _ in rt.forever() {
            match port.finish(rt) {
                Ok(end) => return Ok(Hosted { end, text }),
                Err((back, FinishError::Busy { .. })) => port = back,
                Err(_) => return Err(Stop::PortBroken),
            }
            if flag.is_raised() {
                return Err(Stop::Told);
            }
            rest.after(rt, false);
        }
        unreachable!()
    }
}

/// Asks a new port, which has this number, for what its lines say, in order, waits for all replies, and finishes it. With
/// the port's end comes the text of its replies.
///
/// Stops as told where the flag is raised, as `OutOfMemory` where the text is refused memory, and as `PortBroken`.
pub fn run_port<R: Wait>(
    rt: &R,
    alloc: Global,
    flag: &Flag,
    instructions: &[Instruction],
    number: u32,
    port: Port,
) -> Result<Hosted, Stop>
    requires { IsNewPort number port }
    ensures end { IfOk result (λ hosted. IsEndOfPort port hosted.end) }
    ensures asked { IfOk result (λ hosted. AreAsked port.core.geometry number (asks_of number (map view instructions.now)) hosted.end) }
    ensures text { IfOk result (λ hosted. string_bytes hosted.text ≡ replies_text number hosted.end.completions.took hosted.end.taken) }
{
    let mut host = Host::new(alloc, number, port);
    host.ask_all(rt, alloc, flag, instructions)?;
    host.await_all(rt, alloc, flag)?;
    host.finish(rt, flag)
}

/// What an instruction asks the port of this number for, if it is the port that is asked.
fn request_for(number: u32, instruction: &Instruction) -> Option<Request<'_>>
    ensures { option_map asked_of result ≡ asked_at number (view instruction.now) }
{
    match instruction {
        Instruction::Read { port, addr, len } if *port == number => Some(Request::read(
            *addr, *len,
        )),
        Instruction::Write { port, addr, bytes } if *port == number => {
            Some(Request::write(*addr, bytes.as_slice()))
        }
        Instruction::Masked {
            port,
            addr,
            enable,
            line,
        } if *port == number => Some(Request::masked(*addr, line, *enable)),
        _ => None,
    }
}

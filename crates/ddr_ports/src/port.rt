//! A host port.
ghost use Rattle.std.specs.Prelude.{◌≡◌, ◌+◌, ◌≤◌, ◌==◌, is_ok, IsTrue, IfNone, IfOk, IfSome, OnErr, OnOk, OnSome, Some, length};
ghost use Rattle.std.specs.Option.{option_map};
ghost use Rattle.std.specs.Result.{result_err};
ghost use Rattle.ddr_address_map.specs.Map.{in_range};
ghost use Rattle.ddr_reorder.specs.Replies.{front_number, lent_count, lent_service, nth_answer, nth_service, ready_count, said, served_answer, served_service};
ghost use Rattle.ddr_reorder.specs.Sound.{IsSound};
ghost use Rattle.ddr_reorder.specs.State.{IsRecallable, awaits};
ghost use Rattle.ddr_ports.specs.Asked.{Asked, asked_of};
ghost use Rattle.ddr_ports.specs.State.{PortState, opened, refusal_of, request_at, after_prepare, after_retract, after_fill, after_release, after_finish};

use crate::refusal::{NotEmpty, PortError};
use crate::request::Request;
use ddr_address_map::map::Map;
use ddr_address_map::request::{Done, Echo, Req};
use ddr_reorder::refusal::Stray;
use ddr_reorder::reorder::Reorder;
use ddr_reorder::reply::{Reply, Service};
use ddr_timing::config::Config;
use ddr_timing::units::{CLOCK_STOP, LINE_BYTES};
use std::alloc::{AllocError, Global};
use std::marker::Model;

/// A host port. Contracts see its number, the memory's shape, the outstanding list with the next number
/// and the window, and whether the port is finished. All its memory is taken at `open`.
#[derive(Drop)]
pub struct PortCore {
    port: u32,
    map: Map,
    reorder: Reorder,
    finished: bool,
}

impl Model for PortCore {
    ghost use Rattle.ddr_ports.specs.State.{PortState};

    ghost Value = { PortState };

    ghost use Rattle.ddr_reorder.specs.Sound.{IsSound};

    ghost view = { λ a. record { port = a.port; geometry = a.map.geometry; reorder = a.reorder; finished = a.finished } };

    ghost invariant = { λ a. IsSound a.reorder };
}

impl PortCore {
    /// A port with nothing outstanding, whose first request gets the number `first`. The configuration
    /// gives its window.
    pub fn open(
        alloc: Global,
        config: &Config,
        port: u32,
        first: u64,
    ) -> Result<PortCore, AllocError>
        requires { first ≤ CLOCK_STOP }
        ensures state { IfOk result (λ p. p ≡ opened config.now port first) }
        ensures sound { IfOk result (λ p. IsSound p.reorder) }
    {
        let window = config.limits.window as usize;
        Ok(PortCore {
            port,
            map: Map::new(config),
            reorder: Reorder::open(alloc, window, first)?,
            finished: false,
        })
    }

    /// Makes a request of what the host asks for, with the next number, or says why not.
    pub fn prepare(&mut self, request: Request<'_>) -> Result<Req, PortError>
        ensures refused { result_err result ≡ refusal_of self.old (asked_of request.entry) }
        ensures prepared { IfOk result (λ made. request_at self.old (asked_of request.entry) ≡ Some made) }
        ensures number { IfOk result (λ made. made.number ≡ self.old.reorder.next) }
        ensures placed { IfOk result (λ made. IsTrue (in_range self.old.geometry made.place)) }
        ensures ok { OnOk result (self.new ≡ after_prepare self.old (asked_of request.entry)) }
        ensures newest { IfOk result (λ made. IsRecallable self.new.reorder made.number) }
        ensures err { OnErr result (self.new ≡ self.old) }
        ensures sound { IsSound self.new.reorder }
    {
        if self.finished {
            return Err(PortError::Finished);
        }
        let addr = request.first_address();
        if !self.map.holds(addr) {
            return Err(PortError::OutOfRange);
        }
        let len = request.len();
        if len == 0 {
            return Err(PortError::EmptyLength);
        }
        if (addr % LINE_BYTES as u64) as usize + len > LINE_BYTES {
            return Err(PortError::CrossesLine);
        }
        let echo = Echo {
            kind: request.kind(),
            addr,
            len: len as u32,
        };
        let (number, mut line) = self.reorder.issue(echo)?;
        *line = request.line();
        Ok(Req {
            port: self.port,
            number,
            echo,
            place: self.map.place(addr).unwrap(),
            mask: request.mask(),
            line,
        })
    }

    /// Takes the request back that was prepared last: the next one gets its number.
    pub fn retract(&mut self, request: Req)
        requires { IsRecallable self.old.reorder request.number }
        ensures state { self.new ≡ after_retract self.old }
        ensures undone { (before : PortState) (asked : Asked) → self.old ≡ after_prepare before asked → self.new ≡ before }
        ensures sound { IsSound self.new.reorder }
    {
        let Req {
            port: _,
            number,
            echo: _,
            place: _,
            mask: _,
            line,
        } = request;
        self.reorder.recall(number, line);
    }

    /// Puts the line of a completed request in its place, with the cycles in which it was served. Where no
    /// outstanding number with its echo waits for it, the line is dropped and nothing changes.
    pub fn fill(&mut self, done: Done) -> Result<(), Stray>
        ensures awaited { is_ok result ≡ awaits self.old.reorder done.number done.echo }
        ensures ok { OnOk result (self.new ≡ after_fill done self.old) }
        ensures err { OnErr result (self.new ≡ self.old) }
        ensures sound { IsSound self.new.reorder }
    {
        let Done {
            port: _,
            number,
            echo,
            issued,
            due,
            line,
        } = done;
        let service = Service { issued, due };
        match self.reorder.fill(number, echo, service, line) {
            Ok(()) => Ok(()),
            Err((_, stray)) => Err(stray),
        }
    }

    /// The oldest reply, where it is ready.
    pub fn front(&self) -> Option<Reply<'_>>
        ensures answer { option_map said result ≡ nth_answer self.now.reorder 0 }
        ensures service { option_map lent_service result ≡ nth_service self.now.reorder 0 }
        ensures oldest { IfSome result (λ reply. reply.number + length self.now.reorder.outstanding ≡ self.now.reorder.next) }
        ensures count { IfSome result (λ reply. length reply.bytes.now ≡ lent_count reply.echo) }
        ensures sound { IsSound self.now.reorder }
    {
        self.reorder.front()
    }

    /// The reply with so many older ones. It is there exactly where it and all older ones are ready.
    pub fn nth(&self, k: usize) -> Option<Reply<'_>>
        ensures answer { option_map said result ≡ nth_answer self.now.reorder k }
        ensures service { option_map lent_service result ≡ nth_service self.now.reorder k }
        ensures place { IfSome result (λ reply. reply.number + length self.now.reorder.outstanding ≡ self.now.reorder.next + k) }
        ensures count { IfSome result (λ reply. length reply.bytes.now ≡ lent_count reply.echo) }
        ensures sound { IsSound self.now.reorder }
    {
        self.reorder.nth(k)
    }

    /// The reply of an outstanding number once its line has come back, whether or not older ones are ready. It is `None` also where
    /// the number isn't outstanding.
    pub fn served(&self, number: u64) -> Option<Reply<'_>>
        ensures answer { option_map said result ≡ served_answer self.now.reorder number }
        ensures service { option_map lent_service result ≡ served_service self.now.reorder number }
        ensures number { IfSome result (λ reply. reply.number ≡ number) }
        ensures count { IfSome result (λ reply. length reply.bytes.now ≡ lent_count reply.echo) }
        ensures sound { IsSound self.now.reorder }
    {
        self.reorder.served(number)
    }

    /// How many replies are ready: the oldest numbers, up to the first whose line has not come back.
    pub fn ready(&self) -> usize
        ensures count { result ≡ ready_count self.now.reorder }
        ensures sound { IsSound self.now.reorder }
    {
        self.reorder.ready()
    }

    /// Gives up the oldest reply, where it is ready, and tells its number.
    pub fn release(&mut self) -> Option<u64>
        ensures number { result ≡ front_number self.old.reorder }
        ensures oldest { IfSome result (λ number. number + length self.old.reorder.outstanding ≡ self.old.reorder.next) }
        ensures some { OnSome result (self.new ≡ after_release self.old) }
        ensures none { IfNone result (self.new ≡ self.old) }
        ensures sound { IsSound self.new.reorder }
    {
        self.reorder.release()
    }

    /// How many numbers are outstanding.
    pub fn outstanding(&self) -> usize
        ensures count { result ≡ length self.now.reorder.outstanding }
        ensures sound { IsSound self.now.reorder }
    {
        self.reorder.outstanding()
    }

    /// Finishes the port, where nothing is outstanding: from then on it prepares no request.
    pub fn finish(&mut self) -> Result<(), NotEmpty>
        ensures empty { is_ok result ≡ (length self.old.reorder.outstanding == 0) }
        ensures ok { OnOk result (self.new ≡ after_finish self.old) }
        ensures err { OnErr result (self.new ≡ self.old) }
        ensures sound { IsSound self.new.reorder }
    {
        if self.reorder.outstanding() != 0 {
            return Err(NotEmpty);
        }
        self.finished = true;
        Ok(())
    }
}

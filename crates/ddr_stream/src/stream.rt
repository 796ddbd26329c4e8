//! A stream of requests that is read line by line, as far as its requests are asked for.
//!
//! `placing`, `requests`, `queue` and the feed of `ddr_capture` stand below, and `ddr_replay` above. Of what was read it keeps the requests
//! alone that were not taken.
ghost use Rattle.std.specs.Prelude.{◌≡◌, ◌≢◌, ℕ, ◌+◌, ◌<◌, ◌≤◌, false, true, [], Ok, Some, IfErr, IfOk, IfNone, IfSome, IsErrOf, IsTrue, OnErr, OnOk, length, map, replicate, slice_get, sum_by};
ghost use Rattle.ddr_capture.specs.Feed.{IsWell, waiting};
ghost use Rattle.ddr_capture.specs.Lines.{text_of};
ghost use Rattle.ddr_stream.specs.Next.{IsNext, left_in, line_fault, lines_in, next_of, pushed};
ghost use Rattle.ddr_stream.specs.Requests.{no_requests};
ghost use Rattle.ddr_stream.specs.Stream.{queue_at};
ghost use Rattle.ddr_stream.specs.Waiting.{All, IsAhead, IsReadOn, IsSaidFault, IsSame, IsSized, IsStreamFault, Knows, all_in, begun, popped};

use crate::ask::Ask;
use crate::placing::{Placed, of_line};
use crate::queue::Queue;
use crate::requests::Requests;
use ddr_address_map::map::Map;
use ddr_capture::feed::{Feed, Found, MOST_LINES, Refusal, without_return};
use ddr_text::command::Reading;
use ddr_text::fault::{Fault, LineFault};
use ddr_text::source::Source;
use ddr_timing::config::Config;
use std::alloc::{AllocError, Global};
use std::marker::Model;

/// The requests of a stream. Contracts see it as `Waiting`.
#[derive(Drop)]
pub struct Stream {
    config: Config,
    map: Map,
    reading: Reading,
    feed: Feed,
    /// How many lines were read.
    count: u64,
    /// How many requests those have.
    sent: u64,
    /// How many of them were taken.
    taken: u64,
    /// Whether those are all lines.
    ended: bool,
    /// Of each port the requests that were read and not taken.
    queues: Vec<Queue>,
    /// Of each port how many were read.
    asked: Vec<Requests>,
}

impl Model for Stream {
    ghost use Rattle.ddr_stream.specs.Waiting.{Waiting};

    ghost Value = { Waiting };

    ghost use Rattle.ddr_stream.specs.View.{waiting_of, IsWhole};

    ghost view = { waiting_of };

    ghost invariant = { IsWhole };
}

/// What a line, or the input's end, is.
#[derive(Clone, Copy, Debug, PartialEq, Eq)]
enum Next {
    /// A line that asks for nothing.
    Nothing,
    /// A request.
    Ask(Placed),
    /// The input's end.
    End,
}

impl Stream {
    /// A stream whose lines are read so, which begin in this feed, and of which none was read.
    pub fn open(
        alloc: Global,
        config: &Config,
        reading: Reading,
        feed: Feed,
    ) -> Result<Stream, AllocError>
        requires { IsWell feed }
        ensures { IfOk result (λ s. s ≡ begun config.now reading (waiting feed)) }
    {
        let ports = config.limits.ports;
        Ok(Stream {
            config: *config,
            map: Map::new(config),
            reading,
            feed,
            count: 0,
            sent: 0,
            taken: 0,
            ended: false,
            queues: empty_queues(alloc, ports)?,
            asked: none_asked(alloc, ports)?,
        })
    }

    /// The next request of a port, for which as many lines are read as it takes, or none where no line is left that has one.
    ///
    /// Fails as `ReplayLine`, as `ReplayRange` and as `InputTooLong` at the first line that is at fault, as `Read` where the reader fails,
    /// and as `OutOfMemory`; then no more of it is promised.
    pub fn first<R: Source>(&mut self, reader: &mut R, port: u32) -> Result<Option<Ask>, Fault>
        requires { port < self.old.config.limits.ports }
        ensures same { OnOk result (IsSame (all_in self.old (R.remaining reader.old)) (all_in self.new (R.remaining reader.new))) }
        ensures first { IfOk result (λ ask. ask ≡ slice_get (queue_at self.new.queues port) 0) }
        ensures knows { OnOk result (Knows self.new port) }
        ensures rest { IsReadOn self.old self.new }
        ensures kind { IfErr result IsStreamFault }
        ensures fault { IfErr result (λ fault. IsSaidFault fault (all_in self.old (R.remaining reader.old))) }
        ensures sure { IsErrOf result Fault.Read → IsTrue R.may_fail }
    {
        let mut known = self.known(port);
        'lines: while known.is_none() && !self.ended {
            self.read_line(reader)?;
            known = self.known(port);
        }
        Ok(known)
    }

    /// The next request of a port that was read, if there is one.
    pub fn known(&self, port: u32) -> Option<Ask>
        ensures first { result ≡ slice_get (queue_at self.now.queues port) 0 }
        ensures sized { IsSized self.now }
    {
        match self.queues.get(port as usize) {
            Some(queue) => queue.first(),
            None => None,
        }
    }

    /// Takes the next request of a port, which was read.
    pub fn pop(&mut self, port: u32)
        requires { 0 < length (queue_at self.old.queues port) }
        ensures popped { self.new ≡ popped port self.old }
        ensures sized { IsSized self.new }
    {
        self.queues[port as usize].pop();
        self.taken += 1;
    }

    /// Reads as far as of each port the next request is known, or that there is none. Fails as `first` does.
    pub fn read_ahead<R: Source>(&mut self, reader: &mut R) -> Result<(), Fault>
        ensures same { OnOk result (IsSame (all_in self.old (R.remaining reader.old)) (all_in self.new (R.remaining reader.new))) }
        ensures ahead { OnOk result (IsAhead self.new) }
        ensures rest { IsReadOn self.old self.new }
        ensures kind { IfErr result IsStreamFault }
        ensures fault { IfErr result (λ fault. IsSaidFault fault (all_in self.old (R.remaining reader.old))) }
        ensures sure { IsErrOf result Fault.Read → IsTrue R.may_fail }
    {
        for port in 0..self.config.limits.ports {
            self.first(reader, port)?;
        }
        Ok(())
    }

    /// Reads all lines that are left. Fails as `first` does.
    pub fn read_all<R: Source>(&mut self, reader: &mut R) -> Result<(), Fault>
        ensures same { OnOk result (IsSame (all_in self.old (R.remaining reader.old)) (all_in self.new (R.remaining reader.new))) }
        ensures ended { OnOk result (self.new.ended ≡ true) }
        ensures rest { IsReadOn self.old self.new }
        ensures kind { IfErr result IsStreamFault }
        ensures fault { IfErr result (λ fault. IsSaidFault fault (all_in self.old (R.remaining reader.old))) }
        ensures sure { IsErrOf result Fault.Read → IsTrue R.may_fail }
    {
        let mut ended = self.ended;
        'left: while !ended {
            self.read_line(reader)?;
            ended = self.ended;
        }
        Ok(())
    }

    /// Looks whether any line that is left is at fault, and keeps none of their requests. Fails as `first` does.
    pub fn skip_all<R: Source>(&mut self, reader: &mut R) -> Result<(), Fault>
        ensures sound { OnOk result (IfSome (all_in self.old (R.remaining reader.old)) (λ said. (all : All) × (said ≡ Ok all))) }
        ensures rest { IsReadOn self.old self.new }
        ensures kind { IfErr result IsStreamFault }
        ensures fault { IfErr result (λ fault. IsSaidFault fault (all_in self.old (R.remaining reader.old))) }
        ensures sure { IsErrOf result Fault.Read → IsTrue R.may_fail }
    {
        let mut sent = self.sent;
        'skipped: while !self.ended {
            match self.next(reader, sent)? {
                Next::Ask(_) => sent += 1,
                Next::Nothing => {}
                Next::End => self.ended = true,
            }
        }
        Ok(())
    }

    /// Puts other requests in the place of those that wait, as many for each port.
    pub fn put(&mut self, queues: Vec<Queue>)
        requires { map length queues.items ≡ map length self.old.queues }
        ensures put { self.new ≡ record self.old { queues = queues.items } }
        ensures sized { IsSized self.new }
    {
        self.queues = queues;
    }

    /// Of each port the requests that wait.
    pub fn queues(&self) -> &[Queue]
        ensures { result.now ≡ self.now.queues }
    {
        self.queues.as_slice()
    }

    /// How many requests were read.
    pub fn sent(&self) -> u64
        ensures value { result ≡ self.now.sent }
        ensures sized { IsSized self.now }
    {
        self.sent
    }

    /// How many of them were taken.
    pub fn taken(&self) -> u64
        ensures value { result ≡ self.now.taken }
        ensures sized { IsSized self.now }
    {
        self.taken
    }

    /// Of each port how many requests were read.
    pub fn asked(&self) -> &[Requests]
        ensures { result.now ≡ self.now.asked }
    {
        self.asked.as_slice()
    }

    /// Reads a line, and keeps its request, or notes that there is none left.
    fn read_line<R: Source>(&mut self, reader: &mut R) -> Result<(), Fault>
        requires { self.old.ended ≡ false }
        ensures same { OnOk result (IsSame (all_in self.old (R.remaining reader.old)) (all_in self.new (R.remaining reader.new))) }
        ensures on { OnOk result (self.new.ended ≡ false → self.old.count < self.new.count) }
        ensures few { self.new.count ≤ MOST_LINES }
        ensures rest { IsReadOn self.old self.new }
        ensures kind { IfErr result IsStreamFault }
        ensures fault { IfErr result (λ fault. IsSaidFault fault (all_in self.old (R.remaining reader.old))) }
        ensures sure { IsErrOf result Fault.Read → IsTrue R.may_fail }
    {
        let sent = self.sent;
        let next = self.next(reader, sent)?;
        match next {
            Next::Ask(placed) => self.push(placed),
            Next::Nothing => Ok(()),
            Next::End => {
                self.ended = true;
                Ok(())
            }
        }
    }

    /// What the next line asks for, which is read behind so many requests, or that there is none. Its request isn't kept.
    fn next<R: Source>(&mut self, reader: &mut R, sent: u64) -> Result<Next, Fault>
        ensures next { IfOk result (λ next. IsNext next self.old sent (R.remaining reader.old) self.new (R.remaining reader.new)) }
        ensures count { IfOk result (λ next. self.new.count ≡ self.old.count + lines_in next) }
        ensures few { self.new.count ≤ MOST_LINES }
        ensures kept { self.new ≡ record self.old { bytes = self.new.bytes; count = self.new.count } }
        ensures kind { IfErr result IsStreamFault }
        ensures fault { IfErr result (λ fault. IsSaidFault fault (left_in self.old sent (R.remaining reader.old))) }
        ensures sure { IsErrOf result Fault.Read → IsTrue R.may_fail }
    {
        let found = match self.feed.next(reader) {
            Ok(found) => found,
            Err(refusal) => return Err(line_fault(self.count + 1, refusal)),
        };
        let Some(text) = text_of(found, self.feed.line()) else {
            return Ok(Next::End);
        };
        let line = self.count + 1;
        let ports = self.config.limits.ports;
        let asked = of_line(&self.map, self.reading, ports, line, sent, text)?;
        self.count = line;
        Ok(next_of(asked))
    }

    /// Keeps a request behind the others of its port.
    fn push(&mut self, placed: Placed) -> Result<(), Fault>
        requires there { placed.port < self.old.config.limits.ports }
        requires few { self.old.sent < self.old.count }
        ensures pushed { OnOk result (self.new ≡ pushed placed self.old) }
        ensures sized { IsSized self.new }
        ensures kept { OnErr result (self.new ≡ self.old) }
        ensures refused { IfErr result (λ fault. fault ≡ Fault.OutOfMemory) }
    {
        let Placed { port, ask } = placed;
        self.queues[port as usize].push(ask)?;
        self.asked[port as usize].count(ask.kind);
        self.sent += 1;
        Ok(())
    }
}

/// What a line is that asks for this, or for nothing.
fn next_of(asked: Option<Placed>) -> Next
    ensures { result ≡ next_of asked }
{
    match asked {
        Some(placed) => Next::Ask(placed),
        None => Next::Nothing,
    }
}

/// A line that was found, without its end; none at the input's end.
fn text_of(found: Found, line: &[u8]) -> Option<&[u8]>
    ensures text { IfSome result (λ text. text.now ≡ text_of found line.now) }
    ensures some { IfSome result (λ _. found ≢ Found.End) }
    ensures none { IfNone result (found ≡ Found.End) }
{
    match found {
        Found::Line => Some(without_return(line)),
        Found::Last => Some(line),
        Found::End => None,
    }
}

/// Why the line of this number was not found.
fn line_fault(line: u64, refusal: Refusal) -> Fault
    ensures { result ≡ line_fault line refusal }
{
    match refusal {
        Refusal::Line => Fault::ReplayLine {
            line,
            cause: LineFault::TooLong,
        },
        Refusal::Read => Fault::Read,
        Refusal::OutOfMemory => Fault::OutOfMemory,
    }
}

/// As many queues as there are ports.
fn empty_queues(alloc: Global, ports: u32) -> Result<Vec<Queue>, AllocError>
    ensures { IfOk result (λ v. v.items ≡ replicate ports []) }
{
    let mut queues = Vec::new(alloc);
    for _ in 0..ports {
        queues.push(Queue::new(alloc))?;
    }
    Ok(queues)
}

/// Of each port that no request was read.
fn none_asked(alloc: Global, ports: u32) -> Result<Vec<Requests>, AllocError>
    ensures { IfOk result (λ v. v.items ≡ replicate ports no_requests) }
{
    let mut asked = Vec::new(alloc);
    for _ in 0..ports {
        asked.push(Requests::NONE)?;
    }
    Ok(asked)
}

//! Ports and workers in threads of a test.
//!
//! Here stands what the tests share: a gate, and systems of two ports and two workers that are run to their ends.
//! `closing` has what `close` gives of such a system, `refusals` which ends it gives back, `finishing` how ports finish
//! and workers stop, `gates` that workers run at the same time and that a turn that is held does nothing, and `waiting` that a
//! port that doesn't poll holds no other up.
ghost use Rattle.std.specs.Prelude.{◌≡◌, ◌∷◌, [], IfOk, Ok};
ghost use Rattle.std.specs.Thread.{IsSync};
ghost use Rattle.ddr_workers.specs.Closing.{AreOfOneOpen};
ghost use Rattle.ddr_workers.specs.Open.{IsOpened};
ghost use Rattle.ddr_workers.specs.Port.{IsEndOfPort, IsSamePort};
ghost use Rattle.ddr_workers.specs.Worker.{IsEndOf};

use crate::testing::{both, config_with, is_served, read_echo, write_echo};
use ddr_address_map::request::Echo;
use ddr_ports::request::Request;
use ddr_system_samples::hosts::{TRIES, finish_in_time, is_reply, poll_in_time};
use ddr_system_samples::parts::{AllEnds, Parts, parts_of};
use ddr_timing::config::Config;
use ddr_workers::closing::{CloseError, SystemClosed, ends_of_one_open};
use ddr_workers::gate::{Gate, Turn};
use ddr_workers::port::{PollAnswer, Port, PortEnd};
use ddr_workers::worker::{Stopped, Worker, WorkerEnd};
use ddr_workers::{OpenError, close, open, open_without_traces};
use std::alloc::Global;
use std::sync::Wait;
use std::sync::atomic::{AtomicU64, Ordering};
use std::test::Fail;
use std::thread;
use std::thread::Threads;

mod closing;
mod finishing;
mod gates;
mod refusals;
mod waiting;

/// How many turns each worker of a test may make.
const TURNS: u64 = 10_000_000;

/// How often a port polls for one reply: a port has up to four of them, and polls `TRIES` times at most.
const POLLS: u32 = TRIES / 4;

/// The first address of channel 1: profile S has the channel as its highest digit.
const HALF: u64 = 131_072;

/// How a gate holds a channel up.
#[derive(Clone, Copy, Debug, PartialEq, Eq)]
enum Bar {
    /// It doesn't answer before it is opened.
    Waits,
    /// It answers `Hold` until it is opened.
    Holds,
}

/// Holds one channel up until it is opened, and stops a worker once it has made too many turns.
#[derive(Drop)]
struct Barred {
    channel: u32,
    bar: Bar,
    opened: AtomicU64,
    // How often it answered `Hold`.
    held: AtomicU64,
    // The turns of the worker of channel 0, and those of the other.
    turns: AtomicU64,
    other_turns: AtomicU64,
}

impl Barred {
    fn new(channel: u32, bar: Bar) -> Barred {
        Barred {
            channel,
            bar,
            opened: AtomicU64::new(0),
            held: AtomicU64::new(0),
            turns: AtomicU64::new(0),
            other_turns: AtomicU64::new(0),
        }
    }

    /// A gate that holds no channel of the tests up.
    fn nowhere() -> Barred {
        Barred::new(2, Bar::Waits)
    }

    fn open(&self) {
        self.opened.store(1, Ordering::SeqCst);
    }

    fn is_open(&self) -> bool {
        self.opened.load(Ordering::SeqCst) == 1
    }

    /// Stops each worker at its next turn.
    fn stop(&self) {
        self.turns.store(TURNS, Ordering::SeqCst);
        self.other_turns.store(TURNS, Ordering::SeqCst);
    }

    /// Waits until it is opened.
    fn wait<R: Wait>(&self, rt: &R) {
        for _ in rt.forever() {
            if self.is_open() {
                return;
            }
            thread::yield_now();
        }
    }

    /// How many turns the worker of a channel made before this one.
    fn count(&self, channel: u32) -> u64 {
        if channel == 0 {
            self.turns.fetch_add(1, Ordering::SeqCst)
        } else {
            self.other_turns.fetch_add(1, Ordering::SeqCst)
        }
    }

    /// Whether the next turn of a channel is held. If so it is counted.
    fn holds(&self, channel: u32) -> bool {
        if channel != self.channel || self.is_open() {
            return false;
        }
        self.held.fetch_add(1, Ordering::SeqCst);
        true
    }
}

impl Gate for Barred {
    ghost may_stop = { λ _. Unit {0} };

    ghost may_hold = { λ _. Unit {0} };

    fn turn<R: Wait>(&self, rt: &R, channel: u32) -> Turn {
        if channel == self.channel && self.bar == Bar::Waits {
            self.wait(rt);
        }
        thread::yield_now();
        if self.count(channel) >= TURNS {
            return Turn::Stop;
        }
        if self.holds(channel) {
            Turn::Hold
        } else {
            Turn::Go
        }
    }
}

/// Whether the channels of a system keep their traces.
#[derive(Clone, Copy, Debug, PartialEq, Eq)]
enum Traces {
    Kept,
    Dropped,
}

/// Opens the ports and the workers of a configuration, with the traces of the channels or without.
fn open_parts(
    alloc: Global,
    config: &Config,
    id: u64,
    traces: Traces,
) -> Result<(Vec<Port>, Vec<Worker>), OpenError>
    ensures { IfOk result (λ both. IsOpened config.now id both.0.items both.1.items) }
{
    match traces {
        Traces::Kept => open(alloc, config, id),
        Traces::Dropped => open_without_traces(alloc, config, id),
    }
}

/// Opens the ports and the workers of a configuration with two ports and two channels.
fn open_two(alloc: Global, config: &Config, id: u64, traces: Traces) -> Result<Parts, Fail>
    ensures { IfOk result (λ parts. IsOpened config.now id (parts.0 ∷ parts.1 ∷ []) (parts.2 ∷ parts.3 ∷ [])) }
{
    let (ports, workers) = open_parts(alloc, config, id, traces)?;
    match parts_of(ports, workers) {
        Ok(parts) => Ok(parts),
        Err(what) => Err(what.into()),
    }
}

/// What two workers give back.
type Worked = (Result<WorkerEnd, Stopped>, Result<WorkerEnd, Stopped>);

/// Runs two workers, each in a thread.
fn run_both<R: Threads + Wait + Sync>(
    rt: &R,
    gate: &Barred,
    first: Worker,
    second: Worker,
) -> Worked
    ensures first { IfOk result.0 (IsEndOf first) }
    ensures second { IfOk result.1 (IsEndOf second) }
{
    thread::join(
        rt,
        move || first.run(rt, gate),
        move || second.run(rt, gate),
    )
}

/// What a test does as a port. An `Err` says what did not come as it has to.
trait Host {
    /// What is done before a worker runs, and before the next port does anything.
    fn begin<R: Wait>(&self, rt: &R, port: Port) -> Result<Port, &'static str>
        ensures { IfOk result (IsSamePort port) };

    /// What is done in a thread, beside the workers and the other port, to the port's end.
    fn go_on<R: Wait>(&self, rt: &R, port: Port) -> Result<PortEnd, &'static str>
        ensures { IfOk result (IsEndOfPort port) };
}

/// A port that does nothing.
struct Silent;

impl Host for Silent {
    fn begin<R: Wait>(&self, _rt: &R, port: Port) -> Result<Port, &'static str> {
        Ok(port)
    }

    fn go_on<R: Wait>(&self, rt: &R, port: Port) -> Result<PortEnd, &'static str> {
        finish_in_time(rt, port).ok_or("an end")
    }
}

/// Says what did not come, unless it is there.
fn expect(is_there: bool, what: &'static str) -> Result<(), &'static str> {
    if is_there { Ok(()) } else { Err(what) }
}

/// Submits a request, which has to get this number.
fn submit<R: Wait>(
    rt: &R,
    port: &mut Port,
    request: Request<'_>,
    number: u64,
) -> Result<(), &'static str>
    ensures { IsSamePort port.old port.new }
{
    let submitted = port.submit(rt, request);
    expect(submitted == Ok(number), "the request is submitted")
}

/// Takes a completion in, which has to be that of this number.
fn fill<R: Wait>(rt: &R, port: &mut Port, number: u64) -> Result<(), &'static str>
    ensures { IsSamePort port.old port.new }
{
    let filled = poll_in_time(rt, port, POLLS);
    expect(filled == Some(number), "the number is filled")
}

/// Gives up the reply in front, which has to be this one.
fn take_front(port: &mut Port, number: u64, echo: Echo, bytes: &[u8]) -> Result<(), &'static str>
    ensures { IsSamePort port.old port.new }
{
    let is_there = is_reply(port.front(), number, echo, bytes);
    expect(is_there, "the reply in front")?;
    expect(port.release() == Some(number), "the reply is given up")
}

/// A port, if what was done with it came as it has to.
fn begun(port: Port, came: Result<(), &'static str>) -> Result<Port, &'static str>
    ensures { IfOk result (IsSamePort port) }
{
    match came {
        Ok(()) => Ok(port),
        Err(what) => Err(what),
    }
}

/// Finishes a port, if what was done with it came as it has to.
fn finish_after<R: Wait>(
    rt: &R,
    port: Port,
    came: Result<(), &'static str>,
) -> Result<PortEnd, &'static str>
    ensures { IfOk result (IsEndOfPort port) }
{
    match came {
        Ok(()) => finish_in_time(rt, port).ok_or("an end"),
        Err(what) => Err(what),
    }
}

/// What two ports give back.
type Hosted = (Result<PortEnd, &'static str>, Result<PortEnd, &'static str>);

/// Runs two ports, each in a thread.
fn host_both<A: Host + Sync, B: Host + Sync, R: Threads + Wait + Sync>(
    rt: &R,
    host: &A,
    other_host: &B,
    first: Port,
    second: Port,
) -> Hosted
    ensures first { IfOk result.0 (IsEndOfPort first) }
    ensures second { IfOk result.1 (IsEndOfPort second) }
{
    thread::join(
        rt,
        move || host.go_on(rt, first),
        move || other_host.go_on(rt, second),
    )
}

/// Runs two ports and two workers, each in a thread.
fn run_threads<A: Host + Sync, B: Host + Sync, R: Threads + Wait + Sync>(
    rt: &R,
    gate: &Barred,
    host: &A,
    other_host: &B,
    ports: (Port, Port),
    workers: (Worker, Worker),
) -> (Hosted, Worked)
    ensures first { IfOk result.0.0 (IsEndOfPort ports.0) }
    ensures second { IfOk result.0.1 (IsEndOfPort ports.1) }
    ensures first_work { IfOk result.1.0 (IsEndOf workers.0) }
    ensures second_work { IfOk result.1.1 (IsEndOf workers.1) }
{
    let (first, second) = ports;
    let (first_worker, second_worker) = workers;
    thread::join(
        rt,
        move || -> Hosted
            requires { IsSync R.row }
            ensures first { IfOk result.0 (IsEndOfPort first) }
            ensures second { IfOk result.1 (IsEndOfPort second) }
        { host_both(rt, host, other_host, first, second) },
        move || -> Worked
            requires { IsSync R.row }
            ensures first { IfOk result.0 (IsEndOf first_worker) }
            ensures second { IfOk result.1 (IsEndOf second_worker) }
        { run_both(rt, gate, first_worker, second_worker) },
    )
}

/// The ends of two ports, where both are there.
fn ends_of_ports(hosted: Hosted) -> Result<(PortEnd, PortEnd), &'static str>
    ensures first { IfOk result (λ ends. hosted.entry.0 ≡ Ok ends.0) }
    ensures second { IfOk result (λ ends. hosted.entry.1 ≡ Ok ends.1) }
{
    let (first, second) = hosted;
    both(first, second)
}

/// The ends of two workers, where both are there.
fn ends_of_workers(worked: Worked) -> Result<(WorkerEnd, WorkerEnd), &'static str>
    ensures first { IfOk result (λ ends. worked.0 ≡ Ok ends.0) }
    ensures second { IfOk result (λ ends. worked.1 ≡ Ok ends.1) }
{
    let (first, second) = worked;
    match both(first, second) {
        Ok(ends) => Ok(ends),
        Err(_) => Err("workers at their ends"),
    }
}

/// The four ends, where all of them are there.
fn all_ends(hosted: Hosted, worked: Worked) -> Result<AllEnds, Fail>
    ensures first { IfOk result (λ ends. hosted.entry.0 ≡ Ok ends.0) }
    ensures second { IfOk result (λ ends. hosted.entry.1 ≡ Ok ends.1) }
    ensures first_work { IfOk result (λ ends. worked.0 ≡ Ok ends.2) }
    ensures second_work { IfOk result (λ ends. worked.1 ≡ Ok ends.3) }
{
    match both(ends_of_workers(worked), ends_of_ports(hosted)) {
        Ok(((first_work, second_work), (first, second))) => {
            Ok((first, second, first_work, second_work))
        }
        Err(what) => Err(what.into()),
    }
}

/// Runs two ports and two workers, each in a thread, to their ends.
fn run_parts<A: Host + Sync, B: Host + Sync, R: Threads + Wait + Sync>(
    rt: &R,
    host: &A,
    other_host: &B,
    ports: (Port, Port),
    workers: (Worker, Worker),
) -> Result<AllEnds, Fail>
    ensures first { IfOk result (λ ends. IsEndOfPort ports.0 ends.0) }
    ensures second { IfOk result (λ ends. IsEndOfPort ports.1 ends.1) }
    ensures first_work { IfOk result (λ ends. IsEndOf workers.0 ends.2) }
    ensures second_work { IfOk result (λ ends. IsEndOf workers.1 ends.3) }
{
    let gate = Barred::nowhere();
    let (hosted, worked) = run_threads(rt, &gate, host, other_host, ports, workers);
    all_ends(hosted, worked)
}

/// Opens a system of two ports and two channels, and runs it to its end.
fn run_system<A: Host + Sync, B: Host + Sync, R: Threads + Wait + Sync>(
    rt: &R,
    alloc: Global,
    config: &Config,
    id: u64,
    traces: Traces,
    host: &A,
    other_host: &B,
) -> Result<AllEnds, Fail>
    ensures one { IfOk result (λ ends. AreOfOneOpen id (ends.0 ∷ ends.1 ∷ []) (ends.2 ∷ ends.3 ∷ [])) }
    ensures id { IfOk result (λ ends. (ends.0.id ≡ id) × (ends.1.id ≡ id)) }
    ensures work_id { IfOk result (λ ends. (ends.2.id ≡ id) × (ends.3.id ≡ id)) }
{
    ends_of_one_open();
    let (first, second, first_worker, second_worker) = open_two(alloc, config, id, traces)?;
    match both(host.begin(rt, first), other_host.begin(rt, second)) {
        Ok(ports) => run_parts(rt, host, other_host, ports, (first_worker, second_worker)),
        Err(what) => Err(what.into()),
    }
}

/// What is left of a system, unless it was not closed.
fn expect_closed(closed: Result<SystemClosed, CloseError>) -> Result<SystemClosed, Fail> {
    match closed {
        Ok(closed) => Ok(closed),
        Err(_) => Err("closed".into()),
    }
}

/// Closes a system, whose ends stand in order.
fn close_in_order<R: Wait>(
    rt: &R,
    alloc: Global,
    id: u64,
    ends: AllEnds,
) -> Result<SystemClosed, Fail>
    requires { AreOfOneOpen id (ends.0 ∷ ends.1 ∷ []) (ends.2 ∷ ends.3 ∷ []) }
{
    let (first, second, first_work, second_work) = ends;
    let ports = vec![in alloc; first, second]?;
    let workers = vec![in alloc; first_work, second_work]?;
    expect_closed(close(rt, alloc, id, ports, workers))
}

/// Runs a system of two ports and two channels to its end, and closes it.
fn run_and_close<A: Host + Sync, B: Host + Sync, R: Threads + Wait + Sync>(
    rt: &R,
    alloc: Global,
    config: &Config,
    host: &A,
    other_host: &B,
) -> Result<SystemClosed, Fail> {
    let ends = run_system(rt, alloc, config, 7, Traces::Kept, host, other_host)?;
    close_in_order(rt, alloc, 7, ends)
}

/// Whether of each port so many requests were accepted, and as many replies given up.
fn has_counts(closed: &SystemClosed, counts: &[u64]) -> bool {
    closed.accepted.as_slice() == counts && closed.taken.as_slice() == counts
}

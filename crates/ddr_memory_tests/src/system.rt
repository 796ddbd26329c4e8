//! Ports and workers in threads: a write and a read of each of two ports, each on a channel of its own. A worker to which memory is
//! refused is run again, and so is `close`. Where a thread isn't started, since that is refused memory, nothing is tried.
ghost use Rattle.std.specs.Prelude.{◌≡◌, ◌∷◌, [], IfOk, IfSome, vec_capacity};
ghost use Rattle.std.specs.Thread.{IsSync};
ghost use Rattle.ddr_workers.specs.Closing.{AreOfOneOpen};
ghost use Rattle.ddr_workers.specs.Open.{IsOpened};
ghost use Rattle.ddr_workers.specs.Port.{IsEndOfPort, IsSamePort};
ghost use Rattle.ddr_workers.specs.Worker.{IsEndOf};

use super::{Met, NO_THREAD};
use crate::entries::{act, is_trace, rd, wr};
use ddr_address_map::request::{Echo, Kind};
use ddr_ports::request::Request;
use ddr_samples::sample::sample;
use ddr_system_samples::hosts::{TRIES, finish_in_time, is_reply, poll_in_time};
use ddr_system_samples::parts::{AllEnds, Parts, parts_of};
use ddr_timing::config::Config;
use ddr_trace::command::Entry;
use ddr_trace::trace::Trace;
use ddr_workers::closing::{CloseError, Ends, SystemClosed, ends_of_one_open};
use ddr_workers::gate::{Gate, Turn};
use ddr_workers::port::{Port, PortEnd};
use ddr_workers::worker::{Cause, Stopped, Worker, WorkerEnd};
use ddr_workers::{OpenError, close, open};
use std::alloc::Global;
use std::sync::Wait;
use std::sync::atomic::{AtomicU64, Ordering};
use std::thread;
use std::thread::Threads;

/// By which the ends are told from those of others.
const SYSTEM: u64 = 7;

/// The first address of channel 1.
const HALF: u64 = 131_072;

/// How many turns the workers make together.
const TURNS: u64 = 10_000_000;

/// How many threads there are: one for both ports, and one for each worker.
const THREADS: u64 = 3;

/// How often a thread looks for the others, and after how many looks it lets them go on.
const LOOKS: u32 = 1_000_000_000;

const LOOKS_AT_ONCE: u32 = 100_000;

/// Stops the workers once they made too many turns, or when it is told to. It also lets threads wait for one another.
#[derive(Drop)]
struct Turns {
    made: AtomicU64,
    // How many threads have begun.
    begun: AtomicU64,
    // 1 where a thread has waited for the others in vain.
    alone: AtomicU64,
}

impl Turns {
    fn new() -> Turns {
        Turns {
            made: AtomicU64::new(0),
            begun: AtomicU64::new(0),
            alone: AtomicU64::new(0),
        }
    }

    fn is_alone(&self) -> bool {
        self.alone.load(Ordering::SeqCst) == 1
    }

    /// Waits until all threads have begun, and says whether they have.
    fn has_begun(&self) -> bool {
        self.begun.fetch_add(1, Ordering::SeqCst);
        for looked in 0..LOOKS {
            if self.begun.load(Ordering::SeqCst) == THREADS {
                return !self.is_alone();
            }
            if looked % LOOKS_AT_ONCE == 0 {
                if self.is_alone() {
                    return false;
                }
                thread::yield_now();
            }
        }
        self.alone.store(1, Ordering::SeqCst);
        false
    }

    /// Stops each worker at its next turn.
    fn stop(&self) {
        self.made.store(TURNS, Ordering::SeqCst);
    }
}

impl Gate for Turns {
    ghost may_stop = { λ _. Unit {0} };

    ghost may_hold = { λ _. ⊥ };

    fn turn<R: Wait>(&self, _rt: &R, _channel: u32) -> Turn {
        thread::yield_now();
        if self.made.fetch_add(1, Ordering::SeqCst) < TURNS {
            Turn::Go
        } else {
            Turn::Stop
        }
    }
}

/// Opens ports and workers, once more where memory is refused.
fn open_again(alloc: Global, config: &Config) -> Result<(Vec<Port>, Vec<Worker>), OpenError>
    ensures { IfOk result (λ both. IsOpened config.now SYSTEM both.0.items both.1.items) }
{
    match open(alloc, config, SYSTEM) {
        Ok(both) => Ok(both),
        Err(_) => open(alloc, config, SYSTEM),
    }
}

/// Opens two ports and two workers.
fn open_two(alloc: Global, config: &Config) -> Result<Parts, &'static str>
    ensures { IfOk result (λ parts. IsOpened config.now SYSTEM (parts.0 ∷ parts.1 ∷ []) (parts.2 ∷ parts.3 ∷ [])) }
{
    let Ok((ports, workers)) = open_again(alloc, config) else {
        return Err("a system opened again");
    };
    match parts_of(ports, workers) {
        Ok(parts) => Ok(parts),
        Err(what) => Err(what),
    }
}

/// What a port asks for: it writes a byte and reads it back.
#[derive(Clone, Copy)]
struct Asks {
    addr: u64,
    byte: u8,
}

/// Takes the reply of this number, which has these bytes.
fn take<R: Wait>(rt: &R, port: &mut Port, number: u64, echo: Echo, bytes: &[u8]) -> bool
    ensures { IsSamePort port.old port.new }
{
    if poll_in_time(rt, port, TRIES) != Some(number) {
        return false;
    }
    let is_there = is_reply(port.front(), number, echo, bytes);
    is_there && port.release() == Some(number)
}

/// Asks for both, and takes both replies.
fn exchange<R: Wait>(rt: &R, port: &mut Port, asks: Asks) -> bool
    ensures { IsSamePort port.old port.new }
{
    let Asks { addr, byte } = asks;
    let bytes = [byte];
    let echo = |kind| Echo { kind, addr, len: 1 };
    port.submit(rt, Request::write(addr, &bytes)) == Ok(0)
        && port.submit(rt, Request::read(addr, 1)) == Ok(1)
        && take(rt, port, 0, echo(Kind::Write), &[])
        && take(rt, port, 1, echo(Kind::Read), &bytes)
}

/// Runs a port to its end.
fn host<R: Wait>(rt: &R, mut port: Port, asks: Asks) -> Option<PortEnd>
    ensures { IfSome result (IsEndOfPort port) }
{
    if exchange(rt, &mut port, asks) {
        finish_in_time(rt, port)
    } else {
        None
    }
}

/// The ends of two ports.
type Hosted = (Option<PortEnd>, Option<PortEnd>);

/// Runs two ports to their ends, the second behind the first, and stops the workers where that fails.
fn host_both<R: Wait>(rt: &R, gate: &Turns, first: Port, second: Port) -> Hosted
    ensures first { IfSome result.0 (IsEndOfPort first) }
    ensures second { IfSome result.1 (IsEndOfPort second) }
{
    if !gate.has_begun() {
        return (None, None);
    }
    let first = host(rt, first, Asks { addr: 0, byte: 1 });
    let second = host(
        rt,
        second,
        Asks {
            addr: HALF,
            byte: 2,
        },
    );
    if first.is_none() || second.is_none() {
        gate.stop();
    }
    (first, second)
}

/// Runs a worker again to which memory was refused.
fn run_stopped<R: Wait>(rt: &R, gate: &Turns, stopped: Stopped) -> Option<WorkerEnd>
    ensures { IfSome result (IsEndOf stopped.worker) }
{
    let Stopped { worker, cause } = stopped;
    if cause != Cause::OutOfMemory {
        return None;
    }
    match worker.run(rt, gate) {
        Ok(end) => Some(end),
        Err(_) => None,
    }
}

/// Runs a worker to its end, and says whether memory was refused.
fn run<R: Wait>(rt: &R, gate: &Turns, worker: Worker) -> (Option<WorkerEnd>, bool)
    ensures { IfSome result.0 (IsEndOf worker) }
{
    if !gate.has_begun() {
        return (None, false);
    }
    match worker.run(rt, gate) {
        Ok(end) => (Some(end), false),
        Err(stopped) => (run_stopped(rt, gate, stopped), true),
    }
}

/// What two workers leave, and whether memory was refused to each.
type Worked = ((Option<WorkerEnd>, bool), (Option<WorkerEnd>, bool));

/// Runs two workers, each in a thread.
fn run_both<R: Threads + Wait + Sync>(rt: &R, gate: &Turns, first: Worker, second: Worker) -> Worked
    ensures first { IfSome result.0.0 (IsEndOf first) }
    ensures second { IfSome result.1.0 (IsEndOf second) }
{
    thread::join(
        rt,
        move || -> (Option<WorkerEnd>, bool)
            ensures { IfSome result.0 (IsEndOf first) }
        { run(rt, gate, first) },
        move || -> (Option<WorkerEnd>, bool)
            ensures { IfSome result.0 (IsEndOf second) }
        { run(rt, gate, second) },
    )
}

/// Runs the ports in one thread and each worker in another.
fn run_threads<R: Threads + Wait + Sync>(
    rt: &R,
    gate: &Turns,
    ports: (Port, Port),
    workers: (Worker, Worker),
) -> (Hosted, Worked)
    ensures first { IfSome result.0.0 (IsEndOfPort ports.0) }
    ensures second { IfSome result.0.1 (IsEndOfPort ports.1) }
    ensures first_work { IfSome result.1.0.0 (IsEndOf workers.0) }
    ensures second_work { IfSome result.1.1.0 (IsEndOf workers.1) }
{
    let (first, second) = ports;
    let (first_worker, second_worker) = workers;
    thread::join(
        rt,
        move || -> Hosted
            ensures first { IfSome result.0 (IsEndOfPort first) }
            ensures second { IfSome result.1 (IsEndOfPort second) }
        { host_both(rt, gate, first, second) },
        move || -> Worked
            requires { IsSync R.row }
            ensures first { IfSome result.0.0 (IsEndOf first_worker) }
            ensures second { IfSome result.1.0 (IsEndOf second_worker) }
        { run_both(rt, gate, first_worker, second_worker) },
    )
}

/// The four ends, where all of them are there, and whether memory was refused to a worker.
fn all_ends(hosted: Hosted, worked: Worked) -> Option<(AllEnds, bool)>
    ensures first { IfSome result (λ all. hosted.0 ≡ Some all.0.0) }
    ensures second { IfSome result (λ all. hosted.1 ≡ Some all.0.1) }
    ensures first_work { IfSome result (λ all. worked.0.0 ≡ Some all.0.2) }
    ensures second_work { IfSome result (λ all. worked.1.0 ≡ Some all.0.3) }
{
    let (first, second) = hosted;
    let ((first_work, first_refused), (second_work, second_refused)) = worked;
    match (first, second, first_work, second_work) {
        (Some(first), Some(second), Some(first_work), Some(second_work)) => Some((
            (first, second, first_work, second_work),
            first_refused || second_refused,
        )),
        _ => None,
    }
}

/// Runs ports and workers that were opened together to their ends.
fn run_parts<R: Threads + Wait + Sync>(
    rt: &R,
    ports: (Port, Port),
    workers: (Worker, Worker),
) -> Result<(AllEnds, bool), &'static str>
    ensures first { IfOk result (λ all. IsEndOfPort ports.0 all.0.0) }
    ensures second { IfOk result (λ all. IsEndOfPort ports.1 all.0.1) }
    ensures first_work { IfOk result (λ all. IsEndOf workers.0 all.0.2) }
    ensures second_work { IfOk result (λ all. IsEndOf workers.1 all.0.3) }
{
    let gate = Turns::new();
    let (hosted, worked) = run_threads(rt, &gate, ports, workers);
    match all_ends(hosted, worked) {
        Some(all) => Ok(all),
        None if gate.is_alone() => Err(NO_THREAD),
        None => Err("all ends"),
    }
}

/// Opens a system and runs it to its end.
fn run_system<R: Threads + Wait + Sync>(
    rt: &R,
    alloc: Global,
    config: &Config,
) -> Result<(AllEnds, bool), &'static str>
    ensures { IfOk result (λ all. AreOfOneOpen SYSTEM (all.0.0 ∷ all.0.1 ∷ []) (all.0.2 ∷ all.0.3 ∷ [])) }
{
    ends_of_one_open();
    let (first, second, first_worker, second_worker) = open_two(alloc, config)?;
    match run_parts(rt, (first, second), (first_worker, second_worker)) {
        Ok(all) => Ok(all),
        Err(what) => Err(what),
    }
}

/// A list of two items. Memory is asked for again where it is refused.
fn list_of<T: Drop>(alloc: Global, first: T, second: T) -> Result<Vec<T>, &'static str>
    ensures { IfOk result (λ list. list.items ≡ first ∷ second ∷ []) }
{
    let room = match Vec::with_capacity(alloc, 2) {
        Ok(room) => Ok(room),
        Err(_) => Vec::with_capacity(alloc, 2),
    };
    let Ok(mut list) = room else {
        return Err("room for two");
    };
    list.push_reserved(first);
    list.push_reserved(second);
    Ok(list)
}

/// Closes a system again to which memory was refused.
fn close_back<R: Wait>(rt: &R, alloc: Global, ends: Ends) -> Result<SystemClosed, &'static str>
    requires { AreOfOneOpen SYSTEM ends.ports.items ends.workers.items }
{
    let Ends { ports, workers } = ends;
    match close(rt, alloc, SYSTEM, ports, workers) {
        Ok(closed) => Ok(closed),
        Err(_) => Err("a system closed again"),
    }
}

/// Closes a system, and says whether memory was refused.
fn close_again<R: Wait>(
    rt: &R,
    alloc: Global,
    ports: Vec<PortEnd>,
    workers: Vec<WorkerEnd>,
) -> Result<(SystemClosed, bool), &'static str>
    requires { AreOfOneOpen SYSTEM ports.items workers.items }
{
    match close(rt, alloc, SYSTEM, ports, workers) {
        Ok(closed) => Ok((closed, false)),
        Err(CloseError::OutOfMemory(ends)) => {
            let closed = close_back(rt, alloc, ends)?;
            Ok((closed, true))
        }
        Err(_) => Err("all ends of one system"),
    }
}

/// Closes the ends of a system.
fn close_ends<R: Wait>(
    rt: &R,
    alloc: Global,
    ends: AllEnds,
) -> Result<(SystemClosed, bool), &'static str>
    requires { AreOfOneOpen SYSTEM (ends.0 ∷ ends.1 ∷ []) (ends.2 ∷ ends.3 ∷ []) }
{
    let (first, second, first_work, second_work) = ends;
    let ports = list_of(alloc, first, second)?;
    let workers = list_of(alloc, first_work, second_work)?;
    close_again(rt, alloc, ports, workers)
}

/// The write RCD after ACT, and the read WTR_L after the write's data. However late the read comes, the clock waits for it.
fn entries() -> [Entry; 3] {
    [act(0, 0), wr(4, 0, 0), rd(15, 0, 0)]
}

/// Whether each channel has this trace.
fn has_traces(traces: &[Option<Trace>]) -> bool {
    match traces {
        [Some(first), Some(second)] => {
            is_trace(first, &entries(), 24) && is_trace(second, &entries(), 24)
        }
        _ => false,
    }
}

/// Runs two ports and two channels to their ends, and closes them.
pub fn two_ports<R: Threads + Wait + Sync>(rt: &R, alloc: Global) -> Met {
    let (ends, was_refused) = run_system(rt, alloc, &sample())?;
    let (closed, is_refused) = close_ends(rt, alloc, ends)?;
    let are_counts = closed.accepted.as_slice() == [2, 2].as_slice()
        && closed.taken.as_slice() == [2, 2].as_slice();
    if are_counts && has_traces(closed.traces.as_slice()) {
        Ok(was_refused || is_refused)
    } else {
        Err("what is left of a system")
    }
}

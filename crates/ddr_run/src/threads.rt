//! All ports and workers of a run, each in a thread of its own.
//!
//! `hosting`, `flag` and `ddr_workers` stand below; `run` opens the system, hands it in here and closes it.
ghost use Rattle.std.specs.Prelude.{◌≡◌, ◌++◌, ◌<◌, ◌^◌, ℕ, IfErr, IfOk, OnOk, Some, length, map, slice_get, slice_index_or};
ghost use Rattle.std.specs.List.{filter_map, fold};
ghost use Rattle.std.specs.Option.{option_to_list};
ghost use Rattle.ddr_text.specs.Script.{view};
ghost use Rattle.ddr_run.specs.declared.flag.Stop.TheVariants.{OutOfMemory};
ghost use Rattle.ddr_run.specs.Threads.{AreEnded, AreNewPorts, HasStopped, IsNewSeat, Serves, cause_after, ended_in, first_cause, hosted_in, port_seats, seat_after, seats_of, stop_in, stop_of};

use crate::flag::{Flag, Start, Stop, Watch};
use crate::hosting::{Hosted, run_port};
use ddr_text::script::Instruction;
use ddr_workers::port::Port;
use ddr_workers::worker::{Cause, Stopped, Worker, WorkerEnd};
use std::alloc::{AllocError, Global};
use std::sync::Wait;
use std::thread::Threads;
use std::{mem, thread};

/// What a thread works at, and afterwards what it left.
#[derive(Drop)]
pub enum Seat {
    Port(u32, Port),
    Worker(Worker),
    PortEnd(Hosted),
    WorkerEnd(WorkerEnd),
    Stopped(Stop),
}

/// What the threads of a run left: the ends of the ports, with the texts of their replies, and those of the workers.
#[derive(Drop)]
pub struct Ended {
    pub ports: Vec<Hosted>,
    pub workers: Vec<WorkerEnd>,
}

impl Ended {
    /// Adds the end that a seat holds, if it holds one.
    fn add(&mut self, seat: Seat) -> Result<(), AllocError>
        ensures ports { OnOk result (self.new.ports.items ≡ self.old.ports.items ++ option_to_list (hosted_in seat)) }
        ensures workers { OnOk result (self.new.workers.items ≡ self.old.workers.items ++ option_to_list (ended_in seat)) }
    {
        match seat {
            Seat::PortEnd(hosted) => self.ports.push(hosted)?,
            Seat::WorkerEnd(end) => self.workers.push(end)?,
            other => drop(other),
        }
        Ok(())
    }
}

/// Runs ports and workers to their ends, each in a thread. The ports ask for what the script says.
///
/// None begins before all threads are there; where the system gives too few of them this fails as `ThreadsRefused`. Where one stops before
/// its end the others stop too, by the flag, and it is told why the first one stopped by itself, in the order of channels and then of
/// ports; or that all were told to, where a channel went on no more, as the flag says then. While threads run, memory is asked for by the
/// replies' texts and the channels' cycles alone.
pub fn run_all<R: Threads + Wait + Sync>(
    rt: &R,
    alloc: Global,
    flag: &Flag,
    instructions: &[Instruction],
    ports: Vec<Port>,
    workers: Vec<Worker>,
) -> Result<Ended, Stop>
    requires few { length ports.items < 2 ^ 32 }
    requires numbers { AreNewPorts ports.items }
    ensures ended { IfOk result (AreEnded ports.items workers.items (map view instructions.now)) }
    ensures stopped { IfErr result (λ stop. (stop ≡ OutOfMemory → ⊥) → HasStopped ports.items workers.items (map view instructions.now) stop) }
{
    let mut seats = seated(alloc, ports, workers)?;
    run_seats(rt, alloc, flag, instructions, seats.as_mut_slice());
    match first_stop(seats.as_slice()) {
        Some(stop) => Err(stop),
        None => Ok(ends_of(alloc, seats)?),
    }
}

/// A seat for each worker, in order, and then for each port.
fn seated(alloc: Global, ports: Vec<Port>, workers: Vec<Worker>) -> Result<Vec<Seat>, AllocError>
    requires few { length ports.items < 2 ^ 32 }
    ensures { IfOk result (λ seats. seats.items ≡ seats_of ports.items workers.items) }
{
    let mut seats = Vec::new(alloc);
    seat_workers(&mut seats, workers)?;
    seat_ports(&mut seats, ports)?;
    Ok(seats)
}

/// Adds a seat for each worker.
fn seat_workers(seats: &mut Vec<Seat>, workers: Vec<Worker>) -> Result<(), AllocError>
    ensures { OnOk result (seats.new.items ≡ seats.old.items ++ map Seat.Worker workers.items) }
{
    for worker in workers {
        seats.push(Seat::Worker(worker))?;
    }
    Ok(())
}

/// Adds a seat for each port.
fn seat_ports(seats: &mut Vec<Seat>, ports: Vec<Port>) -> Result<(), AllocError>
    requires { length ports.items < 2 ^ 32 }
    ensures { OnOk result (seats.new.items ≡ seats.old.items ++ port_seats 0 ports.items) }
{
    let mut number = 0;
    for port in ports {
        seats.push(Seat::Port(number, port))?;
        number += 1;
    }
    Ok(())
}

/// Serves each seat in a thread of its own.
fn run_seats<R: Threads + Wait + Sync>(
    rt: &R,
    alloc: Global,
    flag: &Flag,
    instructions: &[Instruction],
    seats: &mut [Seat],
)
    requires { (k : ℕ) (s : Seat) → slice_get seats.old k ≡ Some s → IsNewSeat s }
    ensures same { length seats.new ≡ length seats.old }
    ensures served { (i : ℕ) (d : Seat) → i < length seats.old → Serves (map view instructions.now) (slice_index_or seats.old i d) (slice_index_or seats.new i d) }
{
    if seats.is_empty() {
        return;
    }
    let start = Start::new(seats.len());
    let start = &start;
    thread::for_each_mut(
        rt,
        seats,
        seats.len(),
        &|_, seat: &mut Seat|
            requires { IsNewSeat seat.now }
            ensures { Serves (map view instructions.entry.now) seat.entry.now seat.exit.now }
        {
            let taken = mem::replace(seat, Seat::Stopped(Stop::Told));
            *seat = begun(rt, alloc, flag, start, instructions, taken);
        },
    );
}

/// What the port or the worker of a seat leaves, which is served once all threads of the run have begun.
fn begun<R: Wait>(
    rt: &R,
    alloc: Global,
    flag: &Flag,
    start: &Start,
    instructions: &[Instruction],
    seat: Seat,
) -> Seat
    requires { IsNewSeat seat }
    ensures { Serves (map view instructions.now) seat result }
{
    match start.wait(flag) {
        Ok(()) => served(rt, alloc, flag, instructions, seat),
        Err(stop) => stopped(flag, stop),
    }
}

/// What the port or the worker of a seat leaves. Where it stops before its end the flag is raised.
fn served<R: Wait>(
    rt: &R,
    alloc: Global,
    flag: &Flag,
    instructions: &[Instruction],
    seat: Seat,
) -> Seat
    requires { IsNewSeat seat }
    ensures { Serves (map view instructions.now) seat result }
{
    match seat {
        Seat::Port(number, port) => {
            match run_port(rt, alloc, flag, instructions, number, port) {
                Ok(hosted) => Seat::PortEnd(hosted),
                Err(stop) => stopped(flag, stop),
            }
        }
        Seat::Worker(worker) => left_by(flag, worker.run(rt, &Watch::new(flag))),
        Seat::PortEnd(_) | Seat::WorkerEnd(_) | Seat::Stopped(_) => unreachable!(),
    }
}

/// The seat of a worker's thread: its end, or why it stopped before that. Then the flag is raised.
pub fn left_by(flag: &Flag, worked: Result<WorkerEnd, Stopped>) -> Seat
    ensures { result ≡ seat_after worked }
{
    match worked {
        Ok(end) => Seat::WorkerEnd(end),
        Err(left) => stopped(flag, stop_of(left.cause)),
    }
}

/// The seat of a thread that stopped before its end. The flag is raised.
fn stopped(flag: &Flag, stop: Stop) -> Seat
    ensures { result ≡ Seat.Stopped stop }
{
    flag.raise();
    Seat::Stopped(stop)
}

/// Why a worker's thread stopped.
pub fn stop_of(cause: Cause) -> Stop
    ensures { result ≡ stop_of cause }
{
    match cause {
        Cause::OutOfMemory => Stop::OutOfMemory,
        Cause::ClockSpent => Stop::ClockSpent,
        Cause::Told => Stop::Told,
    }
}

/// Why the first thread stopped that stopped before its end, but for those that were told to, where there are others.
pub fn first_stop(seats: &[Seat]) -> Option<Stop>
    ensures { result ≡ first_cause (filter_map stop_in seats.now) }
{
    let mut cause = None;
    for seat in seats {
        cause = cause_with(cause, seat);
    }
    cause
}

/// Why threads stopped, with that of one more seat.
fn cause_with(cause: Option<Stop>, seat: &Seat) -> Option<Stop>
    ensures { result ≡ fold cause_after cause (option_to_list (stop_in seat.now)) }
{
    match seat {
        Seat::Stopped(stop) => cause_after(cause, *stop),
        _ => cause,
    }
}

/// Why threads stopped, with one more that did.
fn cause_after(cause: Option<Stop>, stop: Stop) -> Option<Stop>
    ensures { result ≡ cause_after cause stop }
{
    match cause {
        None | Some(Stop::Told) => Some(stop),
        first => first,
    }
}

/// The ends of ports and workers, in the order of their seats.
fn ends_of(alloc: Global, seats: Vec<Seat>) -> Result<Ended, AllocError>
    ensures ports { IfOk result (λ ended. ended.ports.items ≡ filter_map hosted_in seats.items) }
    ensures workers { IfOk result (λ ended. ended.workers.items ≡ filter_map ended_in seats.items) }
{
    let mut ended = Ended {
        ports: Vec::new(alloc),
        workers: Vec::new(alloc),
    };
    for seat in seats {
        ended.add(seat)?;
    }
    Ok(ended)
}

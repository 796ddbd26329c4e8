//! The closing of a system: every queue is joined, and what every port got is learnt.
//!
//! Below stand `ends` and `gathered`, the two kinds of queue, and the law `headline`; nothing stands above.
ghost use Rattle.std.specs.Prelude.{◌≡◌, ℕ, ◌<◌, List, Some, IfErr, IfOk, length, map, slice_get};
ghost use Rattle.ddr_timing.specs.declared.config.Config.{Config};
ghost use Rattle.ddr_workers.specs.Closing.{AreAllEnds, AreComplete, AreEndsOf, AreOfOneOpen, IsClosed, IsEmptied, IsNotClosed, is_foreign, is_missing};
ghost use Rattle.ddr_workers.specs.Ended.{IsEnded, IsWorkerEnded};
ghost use Rattle.ddr_workers.specs.Gathered.{with_all};
ghost use Rattle.ddr_workers.specs.Joined.{AreReady, HasRoomFor, IsIntakeJoined, IsRoomFor, IsWindowJoined, OfEach};
ghost use Rattle.ddr_workers.specs.Lanes.{lists};
ghost use Rattle.ddr_workers.specs.Open.{IsOpenedAt};
ghost use Rattle.ddr_workers.specs.Port.{PortEnded, PortState};
ghost use Rattle.ddr_workers.specs.Sides.{AreSides};
ghost use Rattle.ddr_workers.specs.Worker.{WorkerEnded, WorkerState};

use crate::completions::{DonePut, DoneTake};
use crate::ends::{has_other_id, has_twice, misses_some, put_in_order};
use crate::gathered::Gathered;
use crate::headline::headline;
use crate::port::PortEnd;
use crate::requests::{RequestPut, RequestTake};
use crate::worker::WorkerEnd;
use crate::{completions, requests};
use ddr_trace::checker::Fault;
use ddr_trace::trace::Trace;
use std::alloc::{AllocError, Global};
use std::marker::Model;
use std::sync::Wait;

/// The ends of a system, as they were handed to `close`.
#[derive(Drop)]
pub struct Ends {
    pub ports: Vec<PortEnd>,
    pub workers: Vec<WorkerEnd>,
}

/// Why a system was not closed. The first that applies is answered, and all ends come back as they were.
#[derive(Drop)]
pub enum CloseError {
    /// An end carries another id, or two are of the same port or of the same channel.
    Foreign(Ends),
    /// A port or a channel has no end.
    Missing(Ends),
    /// Memory was refused. Nothing was joined.
    OutOfMemory(Ends),
}

/// What is left of a system that was closed. Contracts see three lists, as a `Left` of `specs/`.
#[derive(Drop)]
pub struct SystemClosed {
    /// How many requests of each port were accepted.
    pub accepted: Vec<u64>,
    /// How many replies each port gave up.
    pub taken: Vec<u64>,
    /// The commands of each channel. Each is there where the system was opened with traces, and none where it was opened without.
    pub traces: Vec<Option<Trace>>,
    /// The first fault of each channel's commands, as the judge beside the channel has it, also where they weren't kept.
    pub faults: Vec<Option<Fault>>,
}

impl Model for SystemClosed {
    ghost use Rattle.ddr_workers.specs.Closing.{Left};

    ghost Value = { Left };

    ghost view = { λ c. record { accepted = c.accepted.items; taken = c.taken.items; traces = c.traces.items; faults = c.faults.items } };
}

/// Room for all that closing takes apart.
#[derive(Drop)]
struct Room {
    ports: Gathered<RequestPut, DoneTake>,
    workers: Gathered<DonePut, RequestTake>,
    accepted: Vec<u64>,
    taken: Vec<u64>,
    traces: Vec<Option<Trace>>,
    faults: Vec<Option<Fault>>,
}

impl Room {
    /// Room for the ends of so many ports and workers.
    fn open(alloc: Global, ports: usize, workers: usize) -> Result<Room, AllocError>
        ensures { IfOk result (IsRoomFor ports workers) }
    {
        Ok(Room {
            ports: Gathered::open(alloc, ports, workers)?,
            workers: Gathered::open(alloc, workers, ports)?,
            accepted: Vec::with_capacity(alloc, ports)?,
            taken: Vec::with_capacity(alloc, ports)?,
            traces: Vec::with_capacity(alloc, workers)?,
            faults: Vec::with_capacity(alloc, workers)?,
        })
    }
}

/// What ports leave: their sides, and how many replies each gave up.
fn gather_ports(
    ends: Vec<PortEnd>,
    mut sides: Gathered<RequestPut, DoneTake>,
    mut counts: Vec<u64>,
) -> (Gathered<RequestPut, DoneTake>, Vec<u64>)
    requires sides { sides.spare ≡ length ends.items }
    requires each { (k : ℕ) (e : PortEnded) → slice_get ends.items k ≡ Some e → length e.requests ≡ length sides.puts }
    requires counts { HasRoomFor (length ends.items) counts }
    ensures sides { result.0 ≡ with_all (λ e. e.requests) (λ e. e.completions) sides ends.items }
    ensures counts { result.1.items ≡ map (λ e. e.taken) ends.items }
    ensures ended { (k : ℕ) (e : PortEnded) → slice_get ends.items k ≡ Some e → IsEnded e }
{
    for end in ends {
        let (requests, completions, taken) = end.into_parts();
        sides.add(requests, completions);
        counts.push_reserved(taken);
    }
    (sides, counts)
}

/// What workers leave: their sides, and of their channels the traces that were kept, and the first faults.
fn gather_workers(
    ends: Vec<WorkerEnd>,
    mut sides: Gathered<DonePut, RequestTake>,
    mut traces: Vec<Option<Trace>>,
    mut faults: Vec<Option<Fault>>,
) -> (
    Gathered<DonePut, RequestTake>,
    Vec<Option<Trace>>,
    Vec<Option<Fault>>,
)
    requires sides { sides.spare ≡ length ends.items }
    requires each { (k : ℕ) (w : WorkerEnded) → slice_get ends.items k ≡ Some w → length w.completions ≡ length sides.puts }
    requires traces { HasRoomFor (length ends.items) traces }
    requires faults { HasRoomFor (length ends.items) faults }
    ensures sides { result.0 ≡ with_all (λ w. w.completions) (λ w. w.requests) sides ends.items }
    ensures traces { result.1.items ≡ map (λ w. w.kept) ends.items }
    ensures faults { result.2.items ≡ map (λ w. w.fault) ends.items }
    ensures ended { (k : ℕ) (w : WorkerEnded) → slice_get ends.items k ≡ Some w → IsWorkerEnded w }
{
    for end in ends {
        let (completions, requests, trace, fault) = end.into_parts();
        sides.add(completions, requests);
        traces.push_reserved(trace);
        faults.push_reserved(fault);
    }
    (sides, traces, faults)
}

/// These counts, in the room that was made for them.
fn copied(counts: &[u64], mut room: Vec<u64>) -> Vec<u64>
    requires { HasRoomFor (length counts.now) room }
    ensures { result.items ≡ counts.now }
{
    for place in 0..counts.len() {
        room.push_reserved(counts[place]);
    }
    room
}

/// Joins every request queue.
fn join_requests<R: Wait>(rt: &R, mut puts: Vec<Vec<RequestPut>>, mut takes: Vec<RequestTake>)
    requires count { length puts.items ≡ length takes.items }
    requires sides { OfEach AreSides (lists puts.items) takes.items }
    ensures { OfEach IsIntakeJoined (lists puts.items) takes.items }
{
    for _ in 0..takes.len() {
        requests::join(rt, puts.remove(0), takes.remove(0));
    }
}

/// Joins every completion queue.
fn join_completions<R: Wait>(rt: &R, mut puts: Vec<Vec<DonePut>>, mut takes: Vec<DoneTake>)
    requires count { length puts.items ≡ length takes.items }
    requires sides { OfEach AreSides (lists puts.items) takes.items }
    ensures { OfEach IsWindowJoined (lists puts.items) takes.items }
{
    for _ in 0..takes.len() {
        completions::join(rt, puts.remove(0), takes.remove(0));
    }
}

/// Joins every queue of a system, whose ends stand in order.
fn join_all<R: Wait>(
    rt: &R,
    room: Room,
    ports: Vec<PortEnd>,
    workers: Vec<WorkerEnd>,
) -> SystemClosed
    requires ready { AreReady ports.items workers.items }
    requires room { IsRoomFor (length ports.items) (length workers.items) room }
    ensures { IsEmptied ports.items workers.items result }
{
    headline();
    let Room {
        ports: port_sides,
        workers: worker_sides,
        accepted,
        taken,
        traces,
        faults,
    } = room;
    let (port_sides, taken) = gather_ports(ports, port_sides, taken);
    let (worker_sides, traces, faults) = gather_workers(workers, worker_sides, traces, faults);
    let (request_puts, completion_takes) = port_sides.into_sides();
    let (completion_puts, request_takes) = worker_sides.into_sides();
    join_requests(rt, request_puts, request_takes);
    join_completions(rt, completion_puts, completion_takes);
    SystemClosed {
        accepted: copied(&taken, accepted),
        taken,
        traces,
        faults,
    }
}

/// Whether an end is not one of those that `close` is to close: it carries another id, or its port or channel stands
/// twice.
fn is_foreign(id: u64, ports: &[PortEnd], workers: &[WorkerEnd]) -> bool
    ensures { result ≡ is_foreign id ports.now workers.now }
{
    has_other_id(ports, id) || has_other_id(workers, id) || has_twice(ports) || has_twice(workers)
}

/// Whether a port or a channel has no end.
fn is_missing(ports: &[PortEnd], workers: &[WorkerEnd]) -> bool
    ensures { result ≡ is_missing ports.now workers.now }
{
    ports.is_empty()
        || workers.is_empty()
        || misses_some(ports, workers)
        || misses_some(workers, ports)
}

/// Joins every queue of a system whose ports are finished and whose workers are at their ends, and gives what is left of
/// it. The ends may come in any order, and have to be those of one call of `open`, that with this id. It may wait.
///
/// What each port got, and that every queue is empty, is then known: exactly one completion for each of its requests, the
/// right reply by the requests that its channel accepted before. So is what each channel did: its trace is legal under its
/// configuration, and has one column command for each request that it accepted. `Foreign` comes where an end carries
/// another id or a port or channel stands twice, else `Missing` where a port or channel has no end, no ends at all
/// included, else `OutOfMemory`.
pub fn close<R: Wait>(
    rt: &R,
    alloc: Global,
    id: u64,
    mut ports: Vec<PortEnd>,
    mut workers: Vec<WorkerEnd>,
) -> Result<SystemClosed, CloseError>
    requires { AreOfOneOpen id ports.items workers.items }
    ensures ok { IfOk result (IsClosed id ports.items workers.items) }
    ensures err { IfErr result (IsNotClosed id ports.items workers.items) }
{
    if is_foreign(id, ports.as_slice(), workers.as_slice()) {
        return Err(CloseError::Foreign(Ends { ports, workers }));
    }
    if is_missing(ports.as_slice(), workers.as_slice()) {
        return Err(CloseError::Missing(Ends { ports, workers }));
    }
    let Ok(room) = Room::open(alloc, ports.len(), workers.len()) else {
        return Err(CloseError::OutOfMemory(Ends { ports, workers }));
    };
    put_in_order(&mut ports);
    put_in_order(&mut workers);
    Ok(join_all(rt, room, ports, workers))
}

/// The ends of ports and workers that one call of `open` or `open_at` made may be closed together, whatever each did in
/// between.
///
/// A law: it does nothing. That an end is a port's or a worker's is told by `finish` and by `run`.
pub fn ends_of_one_open()
    ensures { (config : Config) (first id : ℕ) (ports : List PortState) (workers : List WorkerState) (port_ends : List PortEnded) (worker_ends : List WorkerEnded)
        → IsOpenedAt config first id ports workers → AreEndsOf ports workers port_ends worker_ends → AreOfOneOpen id port_ends worker_ends }
{}

/// The ends of all ports and workers that one call of `open` or `open_at` made, in their order, are neither foreign nor
/// missing: `close` closes them, or is refused memory.
///
/// A law: it does nothing.
pub fn all_ends_of_one_open()
    ensures { (config : Config) (first id : ℕ) (ports : List PortState) (workers : List WorkerState) (port_ends : List PortEnded) (worker_ends : List WorkerEnded)
        → IsOpenedAt config first id ports workers → 0 < length ports → 0 < length workers → AreAllEnds ports workers port_ends worker_ends → AreComplete id port_ends worker_ends }
{}

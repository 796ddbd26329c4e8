//! How the threads of a run stop one another, and why the run ends then.
ghost use Rattle.std.specs.Prelude.{◌≤◌};
ghost use Rattle.ddr_timing.specs.declared.units.TheConstants.{CLOCK_STOP};

use ddr_run::flag::{Flag, Start, Stop, Watch};
use ddr_run::run::{run, run_threads};
use ddr_run::threads::{Seat, first_stop, left_by, run_all};
use ddr_text::fault::Fault;
use ddr_text::script::Instruction;
use ddr_timing::config::Config;
use ddr_timing::profile::PROFILE_S;
use ddr_timing::units::CLOCK_STOP;
use ddr_workers::gate::{Gate, Turn};
use ddr_workers::worker::{Cause, Stopped, Worker};
use ddr_workers::{open, open_at};
use std::alloc::{AllocError, Global};
use std::sync::Wait;
use std::test::Fail;
use std::thread;
use std::thread::Threads;

/// Why a worker stopped, why its thread did, and by which fault the run ends if no other thread stopped by itself.
const CAUSES: &[(Cause, Stop, Fault)] = &[
    (Cause::OutOfMemory, Stop::OutOfMemory, Fault::OutOfMemory),
    (Cause::ClockSpent, Stop::ClockSpent, Fault::ClockSpent),
    (Cause::Told, Stop::Told, Fault::PortBroken),
];

/// Why the threads of other seats stopped.
const STOPS: &[(Stop, Fault)] = &[
    (Stop::PortBroken, Fault::PortBroken),
    (Stop::ThreadsRefused, Fault::ThreadsRefused),
];

/// A worker of the sample configuration, before its first turn.
fn new_worker(alloc: Global) -> Result<Worker, Fail> {
    let config = Config::read(alloc, PROFILE_S)?;
    let (_, mut workers) = open(alloc, &config, 0)?;
    Ok(workers.pop().ok_or("a worker")?)
}

/// A worker that stopped raises the flag, and the run ends for the reason that it stopped for.
#[test]
fn a_worker_that_stops_ends_the_run(rt: HostRuntime) -> Result<(), Fail> {
    for (cause, stop, fault) in CAUSES {
        let flag = Flag::new();
        let worker = new_worker(rt.alloc())?;
        let cause = *cause;
        let seat = left_by(&flag, Err(Stopped { worker, cause }));
        assert_eq!(rt; first_stop([seat].as_slice()), Some(*stop));
        assert!(rt; flag.is_raised(), "{cause:?}");
        assert_eq!(rt; Fault::from(*stop), *fault);
    }
    Ok(())
}

#[test]
fn faults_of_other_stops(rt: HostRuntime) {
    for (stop, fault) in STOPS {
        assert_eq!(rt; Fault::from(*stop), *fault);
    }
}

/// Why threads stopped, in the order of their seats, and the reason that is told.
const FIRST: &[(&[Stop], Option<Stop>)] = &[
    (&[], None),
    (&[Stop::Told], Some(Stop::Told)),
    (&[Stop::Told, Stop::Told], Some(Stop::Told)),
    (&[Stop::ClockSpent, Stop::Told], Some(Stop::ClockSpent)),
    (&[Stop::Told, Stop::ClockSpent], Some(Stop::ClockSpent)),
    (
        &[Stop::Told, Stop::OutOfMemory, Stop::ClockSpent],
        Some(Stop::OutOfMemory),
    ),
    (
        &[Stop::ClockSpent, Stop::OutOfMemory, Stop::PortBroken],
        Some(Stop::ClockSpent),
    ),
    (
        &[Stop::Told, Stop::PortBroken, Stop::Told, Stop::OutOfMemory],
        Some(Stop::PortBroken),
    ),
    (
        &[Stop::Told, Stop::ThreadsRefused, Stop::ThreadsRefused],
        Some(Stop::ThreadsRefused),
    ),
];

/// The seats of threads that stopped so.
fn seats_of(alloc: Global, stops: &[Stop]) -> Result<Vec<Seat>, AllocError> {
    let mut seats = Vec::new(alloc);
    for stop in stops {
        seats.push(Seat::Stopped(*stop))?;
    }
    Ok(seats)
}

#[test]
fn the_first_that_was_not_told_is_told(rt: HostRuntime) -> Result<(), Fail> {
    for (stops, first) in FIRST {
        let seats = seats_of(rt.alloc(), stops)?;
        assert_eq!(rt; first_stop(seats.as_slice()), *first, "{stops:?}");
    }
    Ok(())
}

#[test]
fn a_raised_flag_stops_a_worker(rt: HostRuntime) -> Result<(), Fail> {
    let flag = Flag::new();
    let watch = Watch::new(&flag);
    assert_eq!(rt; watch.turn(&rt, 0), Turn::Go);
    flag.raise();
    assert_eq!(rt; watch.turn(&rt, 0), Turn::Stop);
    let seat = left_by(&flag, new_worker(rt.alloc())?.run(&rt, &watch));
    assert_eq!(rt; first_stop([seat].as_slice()), Some(Stop::Told));
    Ok(())
}

/// Whether two threads that are to begin together do.
fn both_begin<R: Threads + Sync>(rt: &R, start: &Start, flag: &Flag) -> bool {
    let (first, second) = thread::join(rt, || start.wait(flag), || start.wait(flag));
    first.is_ok() && second.is_ok()
}

/// Threads begin once all are there. One that finds the flag raised does not wait for the others.
#[test]
fn threads_begin_together(rt: HostRuntime) {
    let flag = Flag::new();
    assert!(rt; both_begin(&rt, &Start::new(2), &flag));
    flag.raise();
    assert_eq!(rt; Start::new(2).wait(&flag), Err(Stop::Told));
}

/// The first address past the memory of the sample: no port takes a request to it.
const PAST: u64 = 262_144;

/// Reads as ports and at addresses, of which the last of a port that stops is past the memory.
type Asks<'a> = &'a [(u32, u64)];

/// Each port gives up, at once and after other requests, alone and beside the other.
const GIVING_UP: &[Asks<'static>] = &[
    &[(0, PAST)],
    &[(1, PAST)],
    &[(0, PAST), (1, PAST)],
    &[
        (0, 0),
        (0, 131_072),
        (1, 64),
        (0, PAST),
        (1, 0),
        (1, 131_136),
    ],
    &[
        (1, 0),
        (1, 64),
        (1, 131_072),
        (1, 8_192),
        (1, 128),
        (1, PAST),
        (0, 0),
        (0, 64),
    ],
];

/// The instructions that ask for these reads, of one byte each.
fn reads(alloc: Global, asks: Asks<'_>) -> Result<Vec<Instruction>, AllocError> {
    let mut instructions = Vec::new(alloc);
    for (port, addr) in asks {
        instructions.push(Instruction::Read {
            port: *port,
            addr: *addr,
            len: 1,
        })?;
    }
    Ok(instructions)
}

/// Why a run of these reads stops. None if it comes to its end.
fn stop_of<R: Threads + Wait + Sync>(
    rt: &R,
    alloc: Global,
    asks: Asks<'_>,
) -> Result<Option<Stop>, Fail> {
    let config = Config::read(alloc, PROFILE_S)?;
    let instructions = reads(alloc, asks)?;
    Ok(run_threads(rt, alloc, &Flag::new(), &config, instructions.as_slice()).err())
}

#[test]
fn a_port_that_gives_up_ends_the_run(rt: HostRuntime) -> Result<(), Fail> {
    for asks in GIVING_UP {
        let stop = stop_of(&rt, rt.alloc(), asks)?;
        assert_eq!(rt; stop, Some(Stop::PortBroken), "{asks:?}");
    }
    assert_eq!(rt; stop_of(&rt, rt.alloc(), &[(0, 0), (1, 131_072)])?, None);
    Ok(())
}

/// The first address of channel 1.
const HALF: u64 = 131_072;

/// Reads, and how many cycles each channel may still make. A read needs 13 cycles: ACT in cycle 0, RD in cycle 4 (RCD), and
/// it is done in cycle 12 (CL, and the 4 clocks of its burst).
struct Spent {
    left: u64,
    asks: Asks<'static>,
    /// By which fault the run ends. None if it comes to its end.
    fault: Option<Fault>,
}

/// A clock is spent on channel 0, on channel 1 beside another that has nothing to do, and on both. One more cycle would
/// have been enough.
const SPENT: &[Spent] = &[
    Spent {
        left: 12,
        asks: &[(0, 0)],
        fault: Some(Fault::ClockSpent),
    },
    Spent {
        left: 13,
        asks: &[(0, 0)],
        fault: None,
    },
    Spent {
        left: 12,
        asks: &[(1, HALF)],
        fault: Some(Fault::ClockSpent),
    },
    Spent {
        left: 13,
        asks: &[(1, HALF)],
        fault: None,
    },
    Spent {
        left: 0,
        asks: &[(0, 0), (1, HALF), (0, 64)],
        fault: Some(Fault::ClockSpent),
    },
];

/// Why a run of these reads stops whose clocks begin with this cycle. None if it comes to its end.
fn stop_from<R: Threads + Wait + Sync>(
    rt: &R,
    alloc: Global,
    first_cycle: u64,
    asks: Asks<'_>,
) -> Result<Option<Stop>, Fail>
    requires { first_cycle ≤ CLOCK_STOP }
{
    let config = Config::read(alloc, PROFILE_S)?;
    let _limits = config.limits;
    let instructions = reads(alloc, asks)?;
    let (ports, workers) = open_at(alloc, &config, 0, first_cycle)?;
    Ok(run_all(
        rt,
        alloc,
        &Flag::new(),
        instructions.as_slice(),
        ports,
        workers,
    )
    .err())
}

#[test]
fn a_clock_that_is_spent_ends_the_run(rt: HostRuntime) -> Result<(), Fail> {
    for Spent { left, asks, fault } in SPENT {
        let first_cycle = CLOCK_STOP.saturating_sub(*left);
        let stop = stop_from(&rt, rt.alloc(), first_cycle, asks)?;
        assert_eq!(rt; stop.map(Fault::from), *fault, "{left} {asks:?}");
    }
    Ok(())
}

/// Reads of which each wants another row of one bank. In profile S with RCD at 176 a refresh takes 21 clocks to come and 20 to end, and
/// with RCD that is 217, above REFI.
const STARVED: &str = "read 0 0 1\nread 0 8192 1\nread 0 16384 1\nread 0 24576 1\n";

/// How often such a run is made.
const RUNS: u32 = 20;

/// A channel that goes on no more ends the run, each time, and nothing is written.
#[test]
fn a_run_that_goes_on_no_more_ends(rt: HostRuntime) -> Result<(), Fail> {
    let alloc = rt.alloc();
    let config = PROFILE_S.replace(alloc, "rcd = 4\n", "rcd = 176\n")?;
    let input = format!(in alloc; "{config}---\n{STARVED}")?;
    for _ in 0..RUNS {
        let mut reader = input.as_bytes();
        let mut output = Vec::new(alloc);
        let end = run(&rt, alloc, false, &mut reader, &mut output);
        assert!(rt; matches!(end, Err(Fault::RunStuck { .. })), "{end:?}");
        assert!(rt; output.is_empty());
    }
    Ok(())
}

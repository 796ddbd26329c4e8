//! How ports finish, and how a worker is stopped and goes on.
ghost use Rattle.std.specs.Prelude.{IfOk};
ghost use Rattle.ddr_workers.specs.Port.{IsEndOfPort, IsSamePort};

use super::*;
use ddr_ports::refusal::PortError;
use ddr_workers::gate::Free;
use ddr_workers::refusal::{FinishError, SubmitError};
use ddr_workers::worker::Cause;

/// Lets a worker make so many turns, and stops it then.
#[derive(Drop)]
struct Halt {
    turns: u64,
    made: AtomicU64,
}

impl Gate for Halt {
    ghost may_stop = { λ _. Unit {0} };

    ghost may_hold = { λ _. Unit {0} };

    fn turn<R: Wait>(&self, _rt: &R, _channel: u32) -> Turn {
        if self.made.fetch_add(1, Ordering::SeqCst) < self.turns {
            Turn::Go
        } else {
            Turn::Stop
        }
    }
}

/// Fills the queue to channel 0, whose one place it needs, and finds that it isn't finished before its reply is given up.
struct FillsUp;

impl FillsUp {
    /// Submits the read, and sees that there is no place for another.
    fn submit_first<R: Wait>(rt: &R, port: &mut Port) -> Result<(), &'static str>
        ensures { IsSamePort port.old port.new }
    {
        submit(rt, port, Request::read(0, 4), 0)?;
        let other = port.submit(rt, Request::read(0, 4));
        expect(
            other == Err(SubmitError::Busy { channel: 0 }),
            "there is no place for another",
        )
    }

    /// Takes the reply in, and looks at it in front.
    fn fill_first<R: Wait>(rt: &R, port: &mut Port) -> Result<(), &'static str>
        ensures { IsSamePort port.old port.new }
    {
        fill(rt, port, 0)?;
        let is_there = is_reply(port.front(), 0, read_echo(0, 4), &[0; 4]);
        expect(is_there, "the read in front")?;
        // ACT in the first cycle that is made, RD 4 clocks later, and CL and a burst behind it.
        let is_told = is_served(port.front(), 4, 12);
        expect(is_told, "the cycles in which the read was served")
    }

    /// Gives up the reply, for which the port didn't finish, and finishes it.
    fn finish_again<R: Wait>(
        rt: &R,
        mut port: Port,
        error: FinishError,
    ) -> Result<PortEnd, &'static str>
        ensures { IfOk result (IsEndOfPort port) }
    {
        let is_given_up = error == FinishError::NotEmpty && port.release() == Some(0);
        let came = expect(is_given_up, "the read is given up");
        finish_after(rt, port, came)
    }
}

impl Host for FillsUp {
    fn begin<R: Wait>(&self, rt: &R, mut port: Port) -> Result<Port, &'static str> {
        let came = FillsUp::submit_first(rt, &mut port);
        begun(port, came)
    }

    fn go_on<R: Wait>(&self, rt: &R, mut port: Port) -> Result<PortEnd, &'static str> {
        FillsUp::fill_first(rt, &mut port)?;
        match port.finish(rt) {
            Err((back, error)) => FillsUp::finish_again(rt, back, error),
            Ok(_) => Err("not empty"),
        }
    }
}

/// Finds the queue to channel 0 full when it is first finished, and may submit nothing from then on.
struct FindsItFull;

impl FindsItFull {
    /// Sees that the port, which the queue to channel 0 held up, submits nothing.
    fn submit_none<R: Wait>(
        rt: &R,
        mut port: Port,
        error: FinishError,
    ) -> Result<Port, &'static str>
        ensures { IfOk result (IsSamePort port) }
    {
        let read = port.submit(rt, Request::read(0, 4));
        let is_refused = read == Err(SubmitError::Refused(PortError::Finished));
        let came = expect(
            is_refused && error == FinishError::Busy { channel: 0 },
            "a finished port submits nothing",
        );
        begun(port, came)
    }
}

impl Host for FindsItFull {
    fn begin<R: Wait>(&self, rt: &R, port: Port) -> Result<Port, &'static str> {
        match port.finish(rt) {
            Err((back, error)) => FindsItFull::submit_none(rt, back, error),
            Ok(_) => Err("a full queue"),
        }
    }

    fn go_on<R: Wait>(&self, rt: &R, port: Port) -> Result<PortEnd, &'static str> {
        finish_in_time(rt, port).ok_or("an end")
    }
}

/// In one run: what port 1 may not do while the queue is full, and that it finishes once workers run.
#[test]
fn ports_finish_once_workers_run(rt: HostRuntime) -> Result<(), Fail> {
    let config = config_with(rt.alloc(), "intake", "intake = 1")?;
    let closed = run_and_close(&rt, rt.alloc(), &config, &FillsUp, &FindsItFull)?;
    assert!(rt; has_counts(&closed, &[1, 0]));
    Ok(())
}

/// The worker that stopped, if it was told to.
fn told(stopped: Stopped) -> Result<Worker, Fail> {
    let Stopped { worker, cause } = stopped;
    if cause == Cause::Told {
        Ok(worker)
    } else {
        Err("a stop".into())
    }
}

/// Runs a worker for so many turns, at which it is told to stop.
fn run_for<R: Wait>(rt: &R, worker: Worker, turns: u64) -> Result<Worker, Fail> {
    let gate = Halt {
        turns,
        made: AtomicU64::new(0),
    };
    match worker.run(rt, &gate) {
        Err(stopped) => told(stopped),
        Ok(_) => Err("a stop".into()),
    }
}

/// Runs a worker that is stopped before its first turn, and once more with what it got in its channel.
fn run_with_stops<R: Wait>(rt: &R, worker: Worker) -> Result<Worker, Fail> {
    match run_for(rt, worker, 0) {
        Ok(worker) => run_for(rt, worker, 1),
        Err(what) => Err(what),
    }
}

/// Submits a read and runs the worker of its channel until the reply came. It is stopped before its first turn, and once
/// more with the read in its channel.
fn read_with_stops<R: Wait>(rt: &R, port: &mut Port, worker: Worker) -> Result<Worker, Fail> {
    let submitted = submit(rt, port, Request::read(0, 4), 0);
    let worker = run_with_stops(rt, worker)?;
    if submitted.is_ok() && port.poll(rt) == Ok(PollAnswer::Empty) {
        run_for(rt, worker, 100)
    } else {
        Err("no reply yet".into())
    }
}

/// Whether a port finishes at once.
fn finishes<R: Wait>(rt: &R, port: Port) -> bool {
    port.finish(rt).is_ok()
}

/// Whether the read of a port is filled, and the port finishes once it is given up.
fn takes_its_reply<R: Wait>(rt: &R, port: Port) -> bool {
    FillsUp.go_on(rt, port).is_ok()
}

/// Reads as one port with a worker that is stopped. Says whether the port got its reply, and whether the worker came to
/// its end.
fn goes_on<R: Wait>(rt: &R, mut port: Port, worker: Worker) -> Result<(bool, bool), Fail> {
    match read_with_stops(rt, &mut port, worker) {
        Ok(worker) => {
            let took = takes_its_reply(rt, port);
            Ok((took, worker.run(rt, &Free).is_ok()))
        }
        Err(what) => Err(what),
    }
}

/// Finishes the second port, and reads as the first with a worker that is stopped. Says whether the second finished, and
/// of the first what `goes_on` says.
fn all_go_on<R: Wait>(rt: &R, parts: Parts) -> Result<(bool, (bool, bool)), Fail> {
    let (first, second, worker, _) = parts;
    let has_finished = finishes(rt, second);
    match goes_on(rt, first, worker) {
        Ok(went_on) => Ok((has_finished, went_on)),
        Err(what) => Err(what),
    }
}

/// What a stopped worker holds isn't lost: the reply comes.
#[test]
fn a_stopped_worker_goes_on(rt: HostRuntime) -> Result<(), Fail> {
    let config = config_with(rt.alloc(), "intake", "intake = 64")?;
    let parts = open_two(rt.alloc(), &config, 7, Traces::Kept)?;
    assert_eq!(rt; all_go_on(&rt, parts)?, (true, (true, true)));
    Ok(())
}

//! A port that doesn't poll holds no other up.
ghost use Rattle.ddr_workers.specs.Port.{IsSamePort};

use super::*;
use ddr_ports::refusal::PortError;
use ddr_timing::profile::PROFILE_S;
use ddr_workers::refusal::SubmitError;

/// How many requests profile S lets a port have outstanding.
const WINDOW: u64 = 4;

/// How often a line is written and read back.
const ROUNDS: u8 = 50;

/// Reads one line as often as it may, and polls once the other port has all its replies.
#[derive(Clone, Copy)]
struct Waits<'a> {
    is_other_done: &'a AtomicU64,
}

impl Waits<'_> {
    /// Submits the reads, and sees that there may be no more of them.
    fn submit_all<R: Wait>(rt: &R, port: &mut Port) -> Result<(), &'static str>
        ensures { IsSamePort port.old port.new }
    {
        for number in 0..WINDOW {
            submit(rt, port, Request::read(0, 4), number)?;
        }
        let fifth = port.submit(rt, Request::read(0, 4));
        expect(
            fifth == Err(SubmitError::Refused(PortError::WindowFull)),
            "the window is full",
        )
    }

    /// Waits for the other port, as long as there are tries.
    fn wait(&self) {
        for _ in 0..TRIES {
            if self.is_other_done.load(Ordering::SeqCst) == 1 {
                break;
            }
            thread::yield_now();
        }
    }

    /// Takes the completions in, in whichever order they come.
    fn fill<R: Wait>(rt: &R, port: &mut Port) -> Result<(), &'static str>
        ensures { IsSamePort port.old port.new }
    {
        for _ in 0..WINDOW {
            let filled = poll_in_time(rt, port, POLLS);
            expect(filled.is_some(), "one of four is filled")?;
        }
        Ok(())
    }

    /// Gives the replies up in the order of their numbers.
    fn take(port: &mut Port) -> Result<(), &'static str>
        ensures { IsSamePort port.old port.new }
    {
        for number in 0..WINDOW {
            take_front(port, number, read_echo(0, 4), &[0; 4])?;
        }
        Ok(())
    }

    /// Takes the completions in, and gives the replies up.
    fn fill_and_take<R: Wait>(rt: &R, port: &mut Port) -> Result<(), &'static str>
        ensures { IsSamePort port.old port.new }
    {
        Waits::fill(rt, port)?;
        Waits::take(port)
    }
}

impl Host for Waits<'_> {
    fn begin<R: Wait>(&self, rt: &R, mut port: Port) -> Result<Port, &'static str> {
        let came = Waits::submit_all(rt, &mut port);
        begun(port, came)
    }

    fn go_on<R: Wait>(&self, rt: &R, mut port: Port) -> Result<PortEnd, &'static str> {
        self.wait();
        let came = Waits::fill_and_take(rt, &mut port);
        finish_after(rt, port, came)
    }
}

/// Polls until a number is filled, in so many tries, and tells how many of them are left.
fn poll_for<R: Wait>(rt: &R, port: &mut Port, tries: u32) -> Option<(u64, u32)>
    ensures { IsSamePort port.old port.new }
{
    for tried in 0..tries {
        match port.poll(rt) {
            Ok(PollAnswer::Filled { number }) => return Some((number, tries - tried - 1)),
            Ok(PollAnswer::Empty) => thread::yield_now(),
            Err(_) => return None,
        }
    }
    None
}

/// Writes a line and reads it back in turn, each time with other bytes.
#[derive(Clone, Copy)]
struct Works<'a> {
    is_done: &'a AtomicU64,
}

impl Works<'_> {
    /// Submits a request and takes its reply, in so many polls, and tells how many of them are left.
    fn exchange<R: Wait>(
        rt: &R,
        port: &mut Port,
        request: Request<'_>,
        number: u64,
        expected: (Echo, &[u8]),
        tries: u32,
    ) -> Result<u32, &'static str>
        ensures { IsSamePort port.old port.new }
    {
        submit(rt, port, request, number)?;
        let (filled, left) = poll_for(rt, port, tries).ok_or("a reply")?;
        expect(filled == number, "it is filled")?;
        take_front(port, number, expected.0, expected.1)?;
        Ok(left)
    }

    /// Writes a byte and reads it back.
    fn write_and_read<R: Wait>(
        rt: &R,
        port: &mut Port,
        round: u8,
        tries: u32,
    ) -> Result<u32, &'static str>
        ensures { IsSamePort port.old port.new }
    {
        let bytes = [u8::MAX - round];
        let number = 2 * round as u64;
        let write = Request::write(64, &bytes);
        let written = (write_echo(64, 1), [].as_slice());
        let left = Works::exchange(rt, port, write, number, written, tries)?;
        let read = Request::read(64, 1);
        let back = (read_echo(64, 1), bytes.as_slice());
        Works::exchange(rt, port, read, number + 1, back, left)
    }

    /// Does so in each round.
    fn work<R: Wait>(rt: &R, port: &mut Port) -> Result<(), &'static str>
        ensures { IsSamePort port.old port.new }
    {
        let mut tries = TRIES;
        for round in 0..ROUNDS {
            tries = Works::write_and_read(rt, port, round, tries)?;
        }
        Ok(())
    }

    /// Does so, and tells the other port that all came.
    fn work_and_tell<R: Wait>(&self, rt: &R, port: &mut Port) -> Result<(), &'static str>
        ensures { IsSamePort port.old port.new }
    {
        Works::work(rt, port)?;
        self.is_done.store(1, Ordering::SeqCst);
        Ok(())
    }
}

impl Host for Works<'_> {
    fn begin<R: Wait>(&self, _rt: &R, port: Port) -> Result<Port, &'static str> {
        Ok(port)
    }

    fn go_on<R: Wait>(&self, rt: &R, mut port: Port) -> Result<PortEnd, &'static str> {
        let came = self.work_and_tell(rt, &mut port);
        finish_after(rt, port, came)
    }
}

#[test]
fn a_port_that_waits_holds_no_other_up(rt: HostRuntime) -> Result<(), Fail> {
    let config = Config::read(rt.alloc(), PROFILE_S)?;
    let is_done = AtomicU64::new(0);
    let waits = Waits {
        is_other_done: &is_done,
    };
    let works = Works { is_done: &is_done };
    let closed = run_and_close(&rt, rt.alloc(), &config, &waits, &works)?;
    assert!(rt; has_counts(&closed, &[4, 100]));
    Ok(())
}

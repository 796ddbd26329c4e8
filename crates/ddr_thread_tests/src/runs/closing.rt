//! What `close` gives of a system that ran to its end. The replies and the traces are written out by hand, for profile S.
ghost use Rattle.std.specs.Prelude.{◌∷◌, [], IfOk};
ghost use Rattle.ddr_workers.specs.Closing.{AreOfOneOpen};
ghost use Rattle.ddr_workers.specs.Port.{IsSamePort};

use super::*;
use ddr_address_map::request::Kind;
use ddr_timing::profile::PROFILE_S;
use ddr_trace::checker::first_fault;
use ddr_trace::command::{Command, Entry};
use ddr_trace::trace::Trace;

/// Writes a byte and reads it back.
#[derive(Drop)]
struct WritesAndReads {
    addr: u64,
    byte: u8,
}

impl WritesAndReads {
    /// Takes a reply that is ready alone.
    fn take_alone<R: Wait>(
        rt: &R,
        port: &mut Port,
        number: u64,
        echo: Echo,
        bytes: &[u8],
    ) -> Result<(), &'static str>
        ensures { IsSamePort port.old port.new }
    {
        fill(rt, port, number)?;
        let is_alone = port.ready() == 1 && port.nth(1).is_none();
        expect(is_alone, "no other is ready")?;
        let is_there = is_reply(port.nth(0), number, echo, bytes);
        expect(is_there, "the reply in its place")?;
        take_front(port, number, echo, bytes)
    }

    /// Submits the write, then the read.
    fn submit_both<R: Wait>(&self, rt: &R, port: &mut Port) -> Result<(), &'static str>
        ensures { IsSamePort port.old port.new }
    {
        let bytes = [self.byte];
        submit(rt, port, Request::write(self.addr, &bytes), 0)?;
        submit(rt, port, Request::read(self.addr, 1), 1)
    }

    /// Takes the replies, of which that of the write comes first.
    fn take_both<R: Wait>(&self, rt: &R, port: &mut Port) -> Result<(), &'static str>
        ensures { IsSamePort port.old port.new }
    {
        let write = write_echo(self.addr, 1);
        WritesAndReads::take_alone(rt, port, 0, write, &[])?;
        let read = read_echo(self.addr, 1);
        WritesAndReads::take_alone(rt, port, 1, read, &[self.byte])
    }

    /// Submits both, and takes their replies.
    fn exchange<R: Wait>(&self, rt: &R, port: &mut Port) -> Result<(), &'static str>
        ensures { IsSamePort port.old port.new }
    {
        self.submit_both(rt, port)?;
        self.take_both(rt, port)
    }
}

impl Host for WritesAndReads {
    fn begin<R: Wait>(&self, _rt: &R, port: Port) -> Result<Port, &'static str> {
        Ok(port)
    }

    fn go_on<R: Wait>(&self, rt: &R, mut port: Port) -> Result<PortEnd, &'static str> {
        let came = self.exchange(rt, &mut port);
        finish_after(rt, port, came)
    }
}

/// Closes a system, whose ends stand the other way round.
fn close_in_reverse<R: Wait>(
    rt: &R,
    alloc: Global,
    id: u64,
    ends: AllEnds,
) -> Result<SystemClosed, Fail>
    requires { AreOfOneOpen id (ends.0 ∷ ends.1 ∷ []) (ends.2 ∷ ends.3 ∷ []) }
{
    let (first, second, first_work, second_work) = ends;
    let ports = vec![in alloc; second, first]?;
    let workers = vec![in alloc; second_work, first_work]?;
    expect_closed(close(rt, alloc, id, ports, workers))
}

/// A command for bank 0 in group 0.
#[derive(Clone, Copy)]
enum Step {
    Act { row: u32 },
    Rd { row: u32, line: u32 },
    Wr { row: u32, line: u32 },
    Pre,
}

/// The command, as a trace has it.
fn command_of(step: Step) -> Command {
    let (rank, group, bank) = (0, 0, 0);
    match step {
        Step::Act { row } => Command::Act {
            rank,
            group,
            bank,
            row,
        },
        Step::Rd { row, line } => Command::Rd {
            rank,
            group,
            bank,
            row,
            line,
        },
        Step::Wr { row, line } => Command::Wr {
            rank,
            group,
            bank,
            row,
            line,
        },
        Step::Pre => Command::Pre { rank, group, bank },
    }
}

/// Commands at their cycles.
type Steps<'a> = &'a [(u64, Step)];

/// Whether the entries are these commands, at these cycles.
fn are_entries(entries: &[Entry], steps: Steps<'_>) -> bool {
    for (entry, (cycle, step)) in entries.iter().zip(steps) {
        let command = command_of(*step);
        let cycle = *cycle;
        if *entry != (Entry { cycle, command }) {
            return false;
        }
    }
    entries.len() == steps.len()
}

/// Whether a trace has these commands, goes from cycle 0 to this end, and keeps every rule.
fn is_trace(trace: &Trace, config: &Config, steps: Steps<'_>, end: u64) -> bool {
    let entries = trace.entries.as_slice();
    are_entries(entries, steps)
        && trace.start == 0
        && trace.end == end
        && first_fault(entries, config, 0, end).is_none()
}

/// Whether both channels have these traces.
fn has_traces(
    closed: &SystemClosed,
    config: &Config,
    first: (Steps<'_>, u64),
    second: (Steps<'_>, u64),
) -> bool {
    match closed.traces.as_slice() {
        [Some(trace), Some(other)] => {
            is_trace(trace, config, first.0, first.1) && is_trace(other, config, second.0, second.1)
        }
        _ => false,
    }
}

/// Whether neither channel has a fault.
fn has_no_faults(closed: &SystemClosed) -> bool {
    matches!(closed.faults.as_slice(), [None, None])
}

/// Writes and reads back as each of two ports, on a channel each.
fn run_writes_and_reads<R: Threads + Wait + Sync>(
    rt: &R,
    alloc: Global,
    config: &Config,
    traces: Traces,
) -> Result<AllEnds, Fail>
    ensures { IfOk result (λ ends. AreOfOneOpen 7 (ends.0 ∷ ends.1 ∷ []) (ends.2 ∷ ends.3 ∷ [])) }
{
    let host = WritesAndReads { addr: 0, byte: 1 };
    let other_host = WritesAndReads {
        addr: HALF,
        byte: 2,
    };
    run_system(rt, alloc, config, 7, traces, &host, &other_host)
}

/// Whether each port took both of its replies, and each channel has the trace of a write and a read behind it: the write RCD
/// after ACT, and the read WTR_L after the write's data. However late the read comes, the clock waits for it.
fn has_all_replies(closed: &SystemClosed, config: &Config) -> bool {
    let steps = [
        (0, Step::Act { row: 0 }),
        (4, Step::Wr { row: 0, line: 0 }),
        (15, Step::Rd { row: 0, line: 0 }),
    ];
    has_counts(closed, &[2, 2])
        && has_traces(closed, config, (&steps, 24), (&steps, 24))
        && has_no_faults(closed)
}

#[test]
fn each_port_takes_its_replies(rt: HostRuntime) -> Result<(), Fail> {
    let config = Config::read(rt.alloc(), PROFILE_S)?;
    let ends = run_writes_and_reads(&rt, rt.alloc(), &config, Traces::Kept)?;
    let closed = close_in_order(&rt, rt.alloc(), 7, ends)?;
    assert!(rt; has_all_replies(&closed, &config));
    Ok(())
}

#[test]
fn the_ends_come_in_any_order(rt: HostRuntime) -> Result<(), Fail> {
    let config = Config::read(rt.alloc(), PROFILE_S)?;
    let ends = run_writes_and_reads(&rt, rt.alloc(), &config, Traces::Kept)?;
    let closed = close_in_reverse(&rt, rt.alloc(), 7, ends)?;
    assert!(rt; has_all_replies(&closed, &config));
    Ok(())
}

/// Without its traces a system gives the same replies, has none to hand out, and no fault.
#[test]
fn a_system_without_traces_is_judged(rt: HostRuntime) -> Result<(), Fail> {
    let config = Config::read(rt.alloc(), PROFILE_S)?;
    let ends = run_writes_and_reads(&rt, rt.alloc(), &config, Traces::Dropped)?;
    let closed = close_in_order(&rt, rt.alloc(), 7, ends)?;
    assert!(rt; has_counts(&closed, &[2, 2]));
    assert!(rt; matches!(closed.traces.as_slice(), [None, None]));
    assert!(rt; has_no_faults(&closed));
    Ok(())
}

/// Reads a line, then one of another row of its bank, then one of the first row, all before a worker runs.
struct ReadsTwoRows;

impl ReadsTwoRows {
    /// Submits the three reads.
    fn submit_all<R: Wait>(rt: &R, port: &mut Port) -> Result<(), &'static str>
        ensures { IsSamePort port.old port.new }
    {
        submit(rt, port, Request::read(0, 1), 0)?;
        submit(rt, port, Request::read(8192, 1), 1)?;
        submit(rt, port, Request::read(64, 1), 2)
    }

    /// Takes the first reply, and sees the third come before the second.
    fn take_first<R: Wait>(rt: &R, port: &mut Port) -> Result<(), &'static str>
        ensures { IsSamePort port.old port.new }
    {
        fill(rt, port, 0)?;
        take_front(port, 0, read_echo(0, 1), &[0])?;
        fill(rt, port, 2)?;
        let is_none = port.ready() == 0 && port.nth(1).is_none();
        expect(is_none, "the second is waited for")
    }

    /// Takes the other two replies in their order.
    fn take_others<R: Wait>(rt: &R, port: &mut Port) -> Result<(), &'static str>
        ensures { IsSamePort port.old port.new }
    {
        fill(rt, port, 1)?;
        expect(port.ready() == 2, "both are ready")?;
        take_front(port, 1, read_echo(8192, 1), &[0])?;
        take_front(port, 2, read_echo(64, 1), &[0])
    }

    /// Takes all three replies.
    fn take_all<R: Wait>(rt: &R, port: &mut Port) -> Result<(), &'static str>
        ensures { IsSamePort port.old port.new }
    {
        ReadsTwoRows::take_first(rt, port)?;
        ReadsTwoRows::take_others(rt, port)
    }
}

impl Host for ReadsTwoRows {
    fn begin<R: Wait>(&self, rt: &R, mut port: Port) -> Result<Port, &'static str> {
        let came = ReadsTwoRows::submit_all(rt, &mut port);
        begun(port, came)
    }

    fn go_on<R: Wait>(&self, rt: &R, mut port: Port) -> Result<PortEnd, &'static str> {
        let came = ReadsTwoRows::take_all(rt, &mut port);
        finish_after(rt, port, came)
    }
}

/// Whether channel 0 has the trace of those reads: RCD, CCD_L, RTP, RP and RCD lie between the commands.
fn has_two_rows(closed: &SystemClosed, config: &Config) -> bool {
    let steps = [
        (0, Step::Act { row: 0 }),
        (4, Step::Rd { row: 0, line: 0 }),
        (9, Step::Rd { row: 0, line: 1 }),
        (12, Step::Pre),
        (16, Step::Act { row: 1 }),
        (20, Step::Rd { row: 1, line: 0 }),
    ];
    has_traces(closed, config, (&steps, 29), (&[], 0))
}

#[test]
fn the_younger_row_hit_comes_first(rt: HostRuntime) -> Result<(), Fail> {
    let config = Config::read(rt.alloc(), PROFILE_S)?;
    let closed = run_and_close(&rt, rt.alloc(), &config, &ReadsTwoRows, &Silent)?;
    assert!(rt; has_counts(&closed, &[3, 0]));
    assert!(rt; has_two_rows(&closed, &config));
    Ok(())
}

/// Looks at replies that wait behind others, all of one row: a write, two reads, and a third that comes later.
struct LooksAtReplies;

impl LooksAtReplies {
    /// Submits the write and two reads.
    fn submit_all<R: Wait>(rt: &R, port: &mut Port) -> Result<(), &'static str>
        ensures { IsSamePort port.old port.new }
    {
        let bytes = [0x5a, 0x5b];
        submit(rt, port, Request::write(64, &bytes), 0)?;
        submit(rt, port, Request::read(65, 2), 1)?;
        submit(rt, port, Request::read(0, 1), 2)
    }

    /// What the reply of each number repeats, and the bytes that it lends.
    fn expected(number: u64) -> (Echo, usize, [u8; 2]) {
        let (kind, addr, len, lent, bytes) = match number {
            0 => (Kind::Write, 64, 2, 0, [0, 0]),
            1 => (Kind::Read, 65, 2, 2, [0x5b, 0]),
            2 => (Kind::Read, 0, 1, 1, [0, 0]),
            _ => (Kind::Read, 64, 1, 1, [0x5a, 0]),
        };
        (Echo { kind, addr, len }, lent, bytes)
    }

    /// Whether the reply of this number stands at this place.
    fn is_at(port: &Port, place: usize, number: u64) -> bool {
        let (echo, lent, bytes) = LooksAtReplies::expected(number);
        match bytes.get(..lent) {
            Some(bytes) => is_reply(port.nth(place), number, echo, bytes),
            None => false,
        }
    }

    /// Whether the replies of these numbers are ready, and no other.
    fn are_ready(port: &Port, numbers: &[u64]) -> bool {
        for (place, number) in numbers.iter().enumerate() {
            if !LooksAtReplies::is_at(port, place, *number) {
                return false;
            }
        }
        port.ready() == numbers.len() && port.nth(numbers.len()).is_none()
    }

    /// Looks at three replies while a fourth is waited for.
    fn look<R: Wait>(rt: &R, port: &mut Port) -> Result<(), &'static str>
        ensures { IsSamePort port.old port.new }
    {
        for _ in 0..3 {
            let filled = poll_in_time(rt, port, POLLS);
            expect(filled.is_some(), "one of three is filled")?;
        }
        submit(rt, port, Request::read(64, 1), 3)?;
        let are_there = LooksAtReplies::are_ready(port, &[0, 1, 2]);
        expect(are_there, "three are ready")
    }

    /// Gives up the oldest, and looks at what moves up.
    fn move_up<R: Wait>(rt: &R, port: &mut Port) -> Result<(), &'static str>
        ensures { IsSamePort port.old port.new }
    {
        expect(port.release() == Some(0), "the write is given up")?;
        let are_there = LooksAtReplies::are_ready(port, &[1, 2]);
        expect(are_there, "two have moved up")?;
        fill(rt, port, 3)?;
        let are_there = LooksAtReplies::are_ready(port, &[1, 2, 3]);
        expect(are_there, "three are ready again")
    }

    /// Gives up the other three.
    fn give_up(port: &mut Port) -> Result<(), &'static str>
        ensures { IsSamePort port.old port.new }
    {
        for number in 1..4 {
            expect(port.release() == Some(number), "each is given up")?;
        }
        Ok(())
    }

    /// Looks at the replies as they come, and gives them up.
    fn look_at_all<R: Wait>(rt: &R, port: &mut Port) -> Result<(), &'static str>
        ensures { IsSamePort port.old port.new }
    {
        LooksAtReplies::look(rt, port)?;
        LooksAtReplies::move_up(rt, port)?;
        LooksAtReplies::give_up(port)
    }
}

impl Host for LooksAtReplies {
    fn begin<R: Wait>(&self, rt: &R, mut port: Port) -> Result<Port, &'static str> {
        let came = LooksAtReplies::submit_all(rt, &mut port);
        begun(port, came)
    }

    fn go_on<R: Wait>(&self, rt: &R, mut port: Port) -> Result<PortEnd, &'static str> {
        let came = LooksAtReplies::look_at_all(rt, &mut port);
        finish_after(rt, port, came)
    }
}

#[test]
fn replies_are_looked_at_in_place(rt: HostRuntime) -> Result<(), Fail> {
    let config = Config::read(rt.alloc(), PROFILE_S)?;
    let closed = run_and_close(&rt, rt.alloc(), &config, &LooksAtReplies, &Silent)?;
    assert_eq!(rt; closed.taken.as_slice(), [4, 0].as_slice());
    Ok(())
}

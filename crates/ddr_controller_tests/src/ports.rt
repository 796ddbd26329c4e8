//! Worked calls of a port. Addresses and bytes are written out by hand, for profile S, whose memory has
//! 262,144 bytes.
ghost use Rattle.std.specs.Prelude.{◌≤◌};

use Asked::{Masked, Read, Write};
use ddr_address_map::request::{Done, Echo, Kind, Line, Req};
use ddr_ports::port::PortCore;
use ddr_ports::refusal::{NotEmpty, PortError};
use ddr_ports::request::Request;
use ddr_reorder::refusal::Stray;
use ddr_timing::config::Config;
use ddr_timing::profile::PROFILE_S;
use ddr_timing::units::CLOCK_STOP;
use std::alloc::{AllocError, Global};
use std::process::Abort;
use std::test::Fail;

mod order;

/// A port of profile S with this window, whose numbers begin here.
fn open(alloc: Global, window: u32, first: u64) -> Result<PortCore, Fail>
    requires window { (1 ≤ window) × (window ≤ 64) }
    requires first { first ≤ CLOCK_STOP }
{
    let mut config = Config::read(alloc, PROFILE_S)?;
    config.limits.window = window;
    Ok(PortCore::open(alloc, &config, 0, first)?)
}

/// What is asked of a port.
#[derive(Clone, Copy)]
enum Asked {
    /// A read: its first address and its length.
    Read(u64, u32),
    /// A write: its first address and its bytes.
    Write(u64, &'static [u8]),
    /// A masked write: an address in its line, its bytes, and which of them are enabled.
    Masked(u64, &'static Line, u64),
}

/// An echo: the kind, the first address and the length.
type Echoed = (Kind, u64, u32);

/// What a prepared request says of itself, all but its port.
#[derive(Clone, Copy, PartialEq)]
struct Made {
    number: u64,
    echo: Echoed,
    /// The line of its place, and the offset.
    at: (u32, u32),
    mask: u64,
    bytes: Line,
}

/// What is done with a port, and what it answers.
#[derive(Clone, Copy)]
enum Step {
    /// A request gets a number, or is refused for a cause.
    Asks(Asked, Result<u64, PortError>),
    /// A request is prepared, and says this of itself.
    Makes(Asked, Made),
    /// A request is prepared and taken back at once.
    TakesBack(Asked),
    /// The line comes under this number and this echo.
    Fills(u64, Echoed, &'static Line, Result<(), Stray>),
    /// How many replies are ready, and how many numbers are outstanding.
    Holds(usize, usize),
    /// The oldest reply lends these bytes.
    Lends(&'static [u8]),
    /// The oldest reply is given up, which has this number.
    Releases(u64),
    /// The port is told to finish.
    Finishes(Result<(), NotEmpty>),
}

fn request(asked: Asked) -> Request<'static> {
    match asked {
        Read(addr, len) => Request::read(addr, len),
        Write(addr, bytes) => Request::write(addr, bytes),
        Masked(addr, bytes, enable) => Request::masked(addr, bytes, enable),
    }
}

/// The number that a request gets.
fn ask(port: &mut PortCore, asked: Asked) -> Result<u64, PortError> {
    Ok(port.prepare(request(asked))?.number)
}

/// What a request says of itself.
fn made_of(request: &Req) -> Made {
    let Echo { kind, addr, len } = request.echo;
    Made {
        number: request.number,
        echo: (kind, addr, len),
        at: (request.place.line, request.place.offset),
        mask: request.mask,
        bytes: *request.line,
    }
}

/// What the request says of itself that is prepared, if one is.
fn make(port: &mut PortCore, asked: Asked) -> Option<Made> {
    match port.prepare(request(asked)) {
        Ok(request) => Some(made_of(&request)),
        Err(_) => None,
    }
}

/// Whether a request is prepared, which is then taken back.
fn take_back(port: &mut PortCore, asked: Asked) -> bool {
    match port.prepare(request(asked)) {
        Ok(made) => {
            port.retract(made);
            true
        }
        Err(_) => false,
    }
}

/// A completion with this number, this echo and this line.
fn done(alloc: Global, number: u64, echo: Echoed, line: &Line) -> Result<Done, AllocError> {
    done_in(alloc, number, echo, line, (4, 12))
}

/// A completion of a request that was served in these cycles.
fn done_in(
    alloc: Global,
    number: u64,
    echo: Echoed,
    line: &Line,
    cycles: (u64, u64),
) -> Result<Done, AllocError> {
    let (kind, addr, len) = echo;
    let (issued, due) = cycles;
    Ok(Done {
        port: 0,
        number,
        echo: Echo { kind, addr, len },
        issued,
        due,
        line: Box::new(alloc, *line)?,
    })
}

/// Brings a line back under a number and an echo.
fn fill(
    alloc: Global,
    port: &mut PortCore,
    number: u64,
    echo: Echoed,
    line: &Line,
) -> Result<Result<(), Stray>, AllocError> {
    Ok(port.fill(done(alloc, number, echo, line)?))
}

/// Whether the oldest reply is there and lends these bytes.
fn lends(port: &PortCore, bytes: &[u8]) -> bool {
    match port.front() {
        Some(reply) => reply.bytes == bytes,
        None => false,
    }
}

/// Takes a step. Tells whether the port answers so.
fn take(alloc: Global, port: &mut PortCore, step: Step) -> Result<bool, AllocError> {
    Ok(match step {
        Step::Asks(asked, expected) => ask(port, asked) == expected,
        Step::Makes(asked, expected) => make(port, asked) == Some(expected),
        Step::TakesBack(asked) => take_back(port, asked),
        Step::Fills(number, echo, line, expected) => {
            fill(alloc, port, number, echo, line)? == expected
        }
        Step::Holds(ready, outstanding) => {
            port.ready() == ready && port.outstanding() == outstanding
        }
        Step::Lends(bytes) => lends(port, bytes),
        Step::Releases(number) => port.release() == Some(number),
        Step::Finishes(expected) => port.finish() == expected,
    })
}

/// Takes the steps, in order.
fn take_all(
    rt: &impl Abort,
    alloc: Global,
    port: &mut PortCore,
    steps: &[Step],
) -> Result<(), Fail> {
    for (nth, step) in steps.iter().enumerate() {
        assert!(rt; take(alloc, port, *step)?, "step {nth}");
    }
    Ok(())
}

/// Takes the steps with a port of this window, whose numbers begin here.
fn play(rt: &impl Abort, alloc: Global, window: u32, first: u64, steps: &[Step]) -> Result<(), Fail>
    requires window { (1 ≤ window) × (window ≤ 64) }
    requires first { first ≤ CLOCK_STOP }
{
    let mut port = open(alloc, window, first)?;
    take_all(rt, alloc, &mut port, steps)
}

/// A read of byte 0, and its echo.
const BYTE: Asked = Read(0, 1);

const BYTE_ECHO: Echoed = (Kind::Read, 0, 1);

const ZEROS: Line = [0; 64];

/// A second request is refused until the first one is done.
const ONE_AT_A_TIME: &[Step] = &[
    Step::Asks(BYTE, Ok(0)),
    Step::Asks(BYTE, Err(PortError::WindowFull)),
    Step::Fills(0, BYTE_ECHO, &ZEROS, Ok(())),
    Step::Releases(0),
    Step::Asks(BYTE, Ok(1)),
];

#[test]
fn refuses_a_request_past_a_window_of_one(rt: HostRuntime) -> Result<(), Fail> {
    play(&rt, rt.alloc(), 1, 0, ONE_AT_A_TIME)
}

/// Asks for 64 bytes, whose numbers follow one another, and for one more.
fn ask_past_64(rt: &impl Abort, port: &mut PortCore) {
    for number in 0..64 {
        assert!(rt; ask(port, BYTE) == Ok(number), "at {number}");
    }
    assert!(rt; ask(port, BYTE) == Err(PortError::WindowFull));
}

#[test]
fn refuses_the_request_past_the_widest_window(rt: HostRuntime) -> Result<(), Fail> {
    let mut port = open(rt.alloc(), 64, 0)?;
    ask_past_64(&rt, &mut port);
    Ok(())
}

/// Requests that are no part of one line, between two that are, whose numbers follow one another.
const ACROSS_LINES: &[Step] = &[
    Step::Makes(
        Read(262_143, 1),
        Made {
            number: 0,
            echo: (Kind::Read, 262_143, 1),
            at: (7, 63),
            mask: 0,
            bytes: ZEROS,
        },
    ),
    Step::Asks(Read(262_144, 0), Err(PortError::OutOfRange)),
    Step::Asks(Masked(262_144, &ZEROS, 0), Err(PortError::OutOfRange)),
    Step::Asks(Read(0, 0), Err(PortError::EmptyLength)),
    Step::Asks(Read(60, 8), Err(PortError::CrossesLine)),
    Step::Asks(Write(0, &[0; 65]), Err(PortError::CrossesLine)),
    Step::Asks(Read(60, 4), Ok(1)),
];

#[test]
fn refuses_what_is_no_part_of_one_line(rt: HostRuntime) -> Result<(), Fail> {
    play(&rt, rt.alloc(), 4, 0, ACROSS_LINES)
}

/// The last number, and none behind it.
const LAST_NUMBER: &[Step] = &[
    Step::Asks(BYTE, Ok(CLOCK_STOP - 1)),
    Step::Asks(BYTE, Err(PortError::Spent)),
];

#[test]
fn gives_no_number_from_the_last_on(rt: HostRuntime) -> Result<(), Fail> {
    for window in 1..3 {
        play(&rt, rt.alloc(), window, CLOCK_STOP - 1, LAST_NUMBER)?;
    }
    Ok(())
}

const NINES: Line = [9; 64];

/// The cycles of a write at address 0 and of a read behind it: WR in cycle 4, RD in cycle 15.
const WRITTEN: (u64, u64) = (4, 11);

const READ_BACK: (u64, u64) = (15, 23);

/// The cycles in which the request of the reply with so many older ones was served.
fn cycles_of(port: &PortCore, k: usize) -> Option<(u64, u64)> {
    let reply = port.nth(k)?;
    Some((reply.issued, reply.due))
}

/// Whether a write and a read of byte 0 get numbers, and both their completions are waited for, that of the read first.
fn write_and_read(alloc: Global, port: &mut PortCore) -> Result<bool, AllocError> {
    let asked = ask(port, Write(0, &[9])) == Ok(0) && ask(port, BYTE) == Ok(1);
    let read = port.fill(done_in(alloc, 1, BYTE_ECHO, &NINES, READ_BACK)?);
    let written = port.fill(done_in(alloc, 0, (Kind::Write, 0, 1), &NINES, WRITTEN)?);
    Ok(asked && read.is_ok() && written.is_ok())
}

#[test]
fn tells_in_which_cycles_a_request_was_served(rt: HostRuntime) -> Result<(), Fail> {
    let mut port = open(rt.alloc(), 2, 0)?;
    assert!(rt; write_and_read(rt.alloc(), &mut port)?);
    assert_eq!(rt; cycles_of(&port, 0), Some(WRITTEN));
    assert_eq!(rt; cycles_of(&port, 1), Some(READ_BACK));
    let front = port.front().ok_or("no reply")?;
    assert_eq!(rt; (front.issued, front.due), WRITTEN);
    Ok(())
}

/// Only the completion that is waited for is taken, and only once.
const STRAYS: &[Step] = &[
    Step::Asks(BYTE, Ok(0)),
    Step::Fills(7, BYTE_ECHO, &NINES, Err(Stray)),
    Step::Fills(0, (Kind::Read, 64, 1), &NINES, Err(Stray)),
    Step::Holds(0, 1),
    Step::Fills(0, BYTE_ECHO, &ZEROS, Ok(())),
    Step::Fills(0, BYTE_ECHO, &NINES, Err(Stray)),
    Step::Lends(&[0]),
];

#[test]
fn takes_no_stray_line(rt: HostRuntime) -> Result<(), Fail> {
    play(&rt, rt.alloc(), 4, 0, STRAYS)
}

const WHOLE_LINE: Echoed = (Kind::Write, 64, 64);

const ELEVENS: Line = [0x11; 64];

/// A masked write is of the whole line that holds its address.
const MASKED: &[Step] = &[
    Step::Makes(
        Masked(100, &ELEVENS, 0x3c),
        Made {
            number: 0,
            echo: WHOLE_LINE,
            at: (1, 0),
            mask: 0x3c,
            bytes: ELEVENS,
        },
    ),
    Step::Makes(
        Masked(64, &ELEVENS, 0),
        Made {
            number: 1,
            echo: WHOLE_LINE,
            at: (1, 0),
            mask: 0,
            bytes: ELEVENS,
        },
    ),
];

#[test]
fn masks_the_line_that_holds_an_address(rt: HostRuntime) -> Result<(), Fail> {
    play(&rt, rt.alloc(), 4, 0, MASKED)
}

const LAST_FOUR: Echoed = (Kind::Write, 60, 4);

/// The last four bytes of a line, behind 60 zeros.
const FOUR_WRITTEN: Line = [
    0, 0, 0, 0, 0, 0, 0, 0, 0, 0, 0, 0, 0, 0, 0, 0, 0, 0, 0, 0, 0, 0, 0, 0, 0, 0, 0, 0, 0, 0, 0, 0,
    0, 0, 0, 0, 0, 0, 0, 0, 0, 0, 0, 0, 0, 0, 0, 0, 0, 0, 0, 0, 0, 0, 0, 0, 0, 0, 0, 0, 0xa, 0xb,
    0xc, 0xd,
];

/// A write of four bytes masks the others, and lends none when it is done.
const FOUR_BYTES: &[Step] = &[
    Step::Makes(
        Write(60, &[0xa, 0xb, 0xc, 0xd]),
        Made {
            number: 0,
            echo: LAST_FOUR,
            at: (0, 60),
            mask: 0xf000_0000_0000_0000,
            bytes: FOUR_WRITTEN,
        },
    ),
    Step::Fills(0, LAST_FOUR, &FOUR_WRITTEN, Ok(())),
    Step::Lends(&[]),
];

#[test]
fn masks_the_bytes_of_a_write(rt: HostRuntime) -> Result<(), Fail> {
    play(&rt, rt.alloc(), 4, 0, FOUR_BYTES)
}

const SEVEN: Echoed = (Kind::Read, 3, 7);

/// Bytes in a line's first places, and zeros behind.
const SIX_STORED: Line = [
    0x11, 0x11, 0x22, 0x22, 0x22, 0x22, 0, 0, 0, 0, 0, 0, 0, 0, 0, 0, 0, 0, 0, 0, 0, 0, 0, 0, 0, 0,
    0, 0, 0, 0, 0, 0, 0, 0, 0, 0, 0, 0, 0, 0, 0, 0, 0, 0, 0, 0, 0, 0, 0, 0, 0, 0, 0, 0, 0, 0, 0, 0,
    0, 0, 0, 0, 0, 0,
];

/// A read lends its own bytes of the line.
const SEVEN_BYTES: &[Step] = &[
    Step::Makes(
        Read(3, 7),
        Made {
            number: 0,
            echo: SEVEN,
            at: (0, 3),
            mask: 0,
            bytes: ZEROS,
        },
    ),
    Step::Fills(0, SEVEN, &SIX_STORED, Ok(())),
    Step::Lends(&[0x22, 0x22, 0x22, 0, 0, 0, 0]),
];

#[test]
fn lends_the_bytes_asked_for(rt: HostRuntime) -> Result<(), Fail> {
    play(&rt, rt.alloc(), 4, 0, SEVEN_BYTES)
}

/// The number of a request that is taken back is given again.
const TAKEN_BACK: &[Step] = &[
    Step::TakesBack(BYTE),
    Step::Holds(0, 0),
    Step::Asks(Read(64, 1), Ok(0)),
];

#[test]
fn gives_the_number_of_a_request_that_was_taken_back(rt: HostRuntime) -> Result<(), Fail> {
    play(&rt, rt.alloc(), 4, 0, TAKEN_BACK)
}

/// A port finishes only once its request is done and given up.
const FINISHED: &[Step] = &[
    Step::Asks(BYTE, Ok(0)),
    Step::Finishes(Err(NotEmpty)),
    Step::Fills(0, BYTE_ECHO, &ZEROS, Ok(())),
    Step::Finishes(Err(NotEmpty)),
    Step::Releases(0),
    Step::Finishes(Ok(())),
    Step::Asks(Read(262_144, 1), Err(PortError::Finished)),
];

#[test]
fn finishes_once_nothing_is_outstanding(rt: HostRuntime) -> Result<(), Fail> {
    play(&rt, rt.alloc(), 4, 0, FINISHED)
}

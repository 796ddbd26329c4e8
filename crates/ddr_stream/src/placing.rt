//! What a line of a stream asks for in a memory, or what is wrong with it.
//!
//! `line`, `capacity`, `ask` and the feed of `ddr_capture` stand below, and `stream` above.
ghost use Rattle.std.specs.Prelude.{◌≡◌, ◌<◌, Ok, Some};
ghost use Rattle.ddr_stream.specs.Stream.{meant, next_port, of_line, of_said, of_text, within};

use crate::ask::Ask;
use crate::capacity::capacity;
use crate::line::{Sent, is_skipped, parse_line};
use ddr_address_map::map::Map;
use ddr_capture::feed::{LONGEST_LINE, MOST_LINES};
use ddr_text::command::Reading;
use ddr_text::fault::{Fault, LineFault};
use std::str;

/// A request, and the port that it is for.
#[derive(Clone, Copy, Debug, PartialEq, Eq)]
pub struct Placed {
    pub port: u32,
    pub ask: Ask,
}

/// What the line of this number asks for, behind so many requests; nothing where it is skipped. Fails as `ReplayLine` where it has more
/// than `LONGEST_LINE` bytes, is no text or of another form, as `InputTooLong` where it stands behind `MOST_LINES` others, and as
/// `ReplayRange` where its address is beyond the capacity.
pub(crate) fn of_line(
    map: &Map,
    reading: Reading,
    ports: u32,
    line: u64,
    sent: u64,
    text: &[u8],
) -> Result<Option<Placed>, Fault>
    requires { 0 < ports }
    ensures { result ≡ of_line map.now.geometry reading ports line sent text.now }
{
    if text.len() > LONGEST_LINE {
        let cause = LineFault::TooLong;
        return Err(Fault::ReplayLine { line, cause });
    }
    if line > MOST_LINES {
        return Err(Fault::InputTooLong);
    }
    match str::from_utf8(text) {
        Ok(text) => of_text(map, reading, ports, line, sent, text),
        Err(_) => {
            let cause = LineFault::NotUtf8;
            Err(Fault::ReplayLine { line, cause })
        }
    }
}

/// What the text of a line asks for; nothing where it is skipped.
fn of_text(
    map: &Map,
    reading: Reading,
    ports: u32,
    line: u64,
    sent: u64,
    text: &str,
) -> Result<Option<Placed>, Fault>
    requires { 0 < ports }
    ensures { result ≡ of_text map.now.geometry reading ports line sent text.now }
{
    if is_skipped(reading.format, text) {
        return Ok(None);
    }
    let next = next_port(reading, ports, sent);
    match parse_line(reading.format, ports, next, text) {
        Ok(sent) => of_sent(map, reading, line, sent),
        Err(cause) => Err(Fault::ReplayLine { line, cause }),
    }
}

/// The port of the next request that names none: the first, or where requests go round the ports the next in turn.
fn next_port(reading: Reading, ports: u32, sent: u64) -> u32
    requires { 0 < ports }
    ensures { result ≡ next_port reading ports sent }
{
    if reading.spread {
        (sent % u64::from(ports)) as u32
    } else {
        0
    }
}

/// What a line of this number asks for that says so.
fn of_sent(map: &Map, reading: Reading, line: u64, sent: Sent) -> Result<Option<Placed>, Fault>
    ensures { result ≡ of_said map.now.geometry reading line (Ok sent) }
{
    let Sent { port, at, kind, .. } = sent;
    let addr = meant(map, reading, sent.addr);
    within(
        map,
        Placed {
            port,
            ask: Ask {
                line,
                at,
                kind,
                addr,
            },
        },
    )
}

/// The address that is meant.
fn meant(map: &Map, reading: Reading, addr: u64) -> u64
    ensures { result ≡ meant map.now.geometry reading addr }
{
    if reading.wrap {
        addr % capacity(&map.geometry)
    } else {
        addr
    }
}

/// The request, where its address lies in the memory.
fn within(map: &Map, placed: Placed) -> Result<Option<Placed>, Fault>
    ensures { result ≡ within map.now.geometry placed }
{
    if map.place(placed.ask.addr).is_none() {
        return Err(Fault::ReplayRange {
            line: placed.ask.line,
        });
    }
    Ok(Some(placed))
}

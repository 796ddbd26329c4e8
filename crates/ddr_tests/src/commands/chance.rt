//! Runs of scripts by chance in threads: eight ports over four channels, and every byte that is read is checked.
//!
//! A port's requests to one line are served in the order in which it asked, and all requests to a line in one order.
//! So a line that one port alone uses is known exactly. Of a byte that all ports write, what a port reads goes forward
//! along that order: it is what the port last read or wrote there, or a value that comes later, by a write of
//! another port, and by a later one than those of that port that it read before.
ghost use Rattle.std.specs.Prelude.{◌+◌, ◌<◌, ◌≤◌};

use super::with_lines;
use ddr_address_map::request::Line;
use ddr_run::run::run;
use ddr_samples::chance::Chance;
use ddr_timing::profile::PROFILE_S;
use std::alloc::{AllocError, Global};
use std::sync::Wait;
use std::test::Fail;
use std::thread::Threads;

const PORTS: usize = 8;

/// How often each port asks.
const ASKS: u32 = 500;

/// The lines that a port has alone.
const OWN: usize = 16;

/// The lines that all ports have.
const SHARED: usize = 8;

/// The lines among which a port asks: its own ones, and then those of all.
const LINES: usize = OWN + SHARED;

/// The most writes of a port to one line of all, so that a byte can tell its write.
const MOST: usize = 31;

const ZEROS: Line = [0; 64];

/// Where some bytes of a line begin, and where they end.
fn span(chance: &mut Chance) -> (usize, usize)
    ensures { (result.0 < result.1) × (result.1 ≤ 64) }
{
    let first = chance.below(64) as usize;
    let count = chance.below(64 - first as u64) as usize;
    (first, first + count + 1)
}

/// The bytes that a write changes.
fn extent_of(chance: &mut Chance) -> Extent {
    if chance.below(2) == 0 {
        let (first, end) = span(chance);
        Extent::Span { first, end }
    } else {
        Extent::Mask(chance.next())
    }
}

/// The bytes of a line that a write changes.
#[derive(Clone, Copy)]
enum Extent {
    /// Those from the first up to the end, by `write`.
    Span { first: usize, end: usize },
    /// Those whose bit is set, by `mask`.
    Mask(u64),
}

impl Extent {
    fn has(self, byte: usize) -> bool {
        match self {
            Extent::Span { first, end } => first <= byte && byte < end,
            Extent::Mask(mask) => byte < 64 && (mask >> byte) & 1 == 1,
        }
    }
}

/// What is asked for.
#[derive(Clone, Copy)]
enum What {
    Read { first: usize, end: usize },
    Write { extent: Extent, line: Line },
}

/// A request of a script.
#[derive(Clone, Copy)]
struct Ask {
    port: usize,
    /// How many requests of the port come before.
    number: u32,
    /// Which line of the port's.
    place: usize,
    what: What,
}

/// The address of a line of a port. Each port has lines of its own in four channels, two groups and two rows, and the lines
/// of all are in another bank.
fn address_of(port: usize, place: usize) -> u64 {
    let channel = place as u64 % 4;
    let row = place as u64 / 4 % 2;
    let within = if place < OWN {
        4 * (port as u64 % 8) + 32 * (place as u64 / 8 % 2)
    } else {
        128
    };
    64 * (channel + within + 512 * row)
}

impl Ask {
    /// The line of the script.
    fn text(&self, alloc: Global) -> Result<String, AllocError> {
        let port = self.port;
        let addr = address_of(self.port, self.place);
        match &self.what {
            What::Read { first, end } => read_text(alloc, port, addr, *first, *end),
            What::Write { extent, line } => write_text(alloc, port, addr, *extent, line),
        }
    }

    /// How the reply begins: all of it but the bytes of a read.
    fn reply(&self, alloc: Global) -> Result<String, AllocError> {
        let port = self.port;
        let number = self.number;
        let addr = address_of(self.port, self.place);
        match self.what {
            What::Read { first, .. } => {
                let addr = addr.wrapping_add(first as u64);
                format!(in alloc; "{port} {number} read {addr} ")
            }
            What::Write { extent, .. } => {
                let addr = addr.wrapping_add(first_of(extent));
                format!(in alloc; "{port} {number} write {addr}")
            }
        }
    }
}

/// Where the bytes of a write are said to begin: a masked one is of a whole line.
fn first_of(extent: Extent) -> u64 {
    match extent {
        Extent::Span { first, .. } => first as u64,
        Extent::Mask(_) => 0,
    }
}

fn read_text(
    alloc: Global,
    port: usize,
    addr: u64,
    first: usize,
    end: usize,
) -> Result<String, AllocError> {
    let addr = addr.wrapping_add(first as u64);
    let count = end.saturating_sub(first);
    format!(in alloc; "read {port} {addr} {count}\n")
}

fn write_text(
    alloc: Global,
    port: usize,
    addr: u64,
    extent: Extent,
    line: &Line,
) -> Result<String, AllocError> {
    match extent {
        Extent::Span { first, end } => {
            let addr = addr.wrapping_add(first as u64);
            span_text(alloc, port, addr, line.get(first..end).unwrap_or(&[]))
        }
        Extent::Mask(mask) => mask_text(alloc, port, addr, mask, line),
    }
}

fn span_text(alloc: Global, port: usize, addr: u64, bytes: &[u8]) -> Result<String, AllocError> {
    let bytes = hex::encode(alloc, bytes)?;
    format!(in alloc; "write {port} {addr} {bytes}\n")
}

fn mask_text(
    alloc: Global,
    port: usize,
    addr: u64,
    mask: u64,
    line: &Line,
) -> Result<String, AllocError> {
    let bytes = hex::encode(alloc, line)?;
    format!(in alloc; "mask {port} {addr} {mask:016x} {bytes}\n")
}

/// Which write a byte of a line of all is by.
#[derive(Clone, Copy)]
struct Writer {
    port: usize,
    /// How many writes of the port to the line come before.
    nth: usize,
}

impl Writer {
    /// The byte that the write puts.
    fn byte(self) -> u8 {
        let rank = self.port.wrapping_mul(MOST).wrapping_add(self.nth);
        u8::try_from(rank.wrapping_add(1)).unwrap_or(u8::MAX)
    }

    /// The write that put a byte. None put a zero.
    fn of(byte: u8) -> Option<Writer> {
        let rank = (byte as usize).checked_sub(1)?;
        Some(Writer {
            port: rank / MOST,
            nth: rank % MOST,
        })
    }
}

/// The writes to one line of all, by their ports and in order.
type Writes = [[Option<Extent>; MOST]; PORTS];

/// A script by chance.
#[derive(Drop)]
struct Script {
    chance: Chance,
    asks: Vec<Ask>,
    /// The writes to each of the lines of all.
    writes: Vec<Writes>,
}

impl Script {
    /// A script of no requests yet.
    fn empty(alloc: Global, seed: u64) -> Result<Script, AllocError> {
        Ok(Script {
            chance: Chance::new(seed),
            asks: Vec::new(alloc),
            writes: vec![in alloc; [[None; MOST]; PORTS]; SHARED]?,
        })
    }

    fn new(alloc: Global, seed: u64) -> Result<Script, Fail> {
        let mut script = Script::empty(alloc, seed)?;
        for port in 0..PORTS {
            script.ask_for(port)?;
        }
        Ok(script)
    }

    /// Adds the requests of a port.
    fn ask_for(&mut self, port: usize) -> Result<(), AllocError> {
        for number in 0..ASKS {
            let place = self.chance.below(LINES as u64) as usize;
            let what = self.what(port, place);
            self.asks.push(Ask {
                port,
                number,
                place,
                what,
            })?;
        }
        Ok(())
    }

    fn what(&mut self, port: usize, place: usize) -> What {
        if self.chance.below(2) == 0 {
            return self.read();
        }
        let extent = extent_of(&mut self.chance);
        match place.checked_sub(OWN) {
            None => What::Write {
                extent,
                line: self.chance.line(),
            },
            Some(shared) => match self.note(port, shared, extent) {
                Some(nth) => What::Write {
                    extent,
                    line: [Writer { port, nth }.byte(); 64],
                },
                None => self.read(),
            },
        }
    }

    fn read(&mut self) -> What {
        let (first, end) = span(&mut self.chance);
        What::Read { first, end }
    }

    /// Notes a write to a line of all, and says how many of the port come before. None where there were too many.
    fn note(&mut self, port: usize, shared: usize, extent: Extent) -> Option<usize> {
        let writes = self.writes.get_mut(shared)?.get_mut(port)?;
        let nth = writes.iter().position(|write| write.is_none())?;
        *writes.get_mut(nth)? = Some(extent);
        Some(nth)
    }

    /// Whether a write put this byte at this place of a line of all.
    fn puts(&self, shared: usize, writer: Writer, byte: usize) -> bool {
        let Some(writes) = self.writes.get(shared) else {
            return false;
        };
        match writes.get(writer.port) {
            Some(writes) => match writes.get(writer.nth) {
                Some(Some(extent)) => extent.has(byte),
                _ => false,
            },
            None => false,
        }
    }

    fn text(&self, alloc: Global) -> Result<String, AllocError> {
        let mut text = String::new(alloc);
        for ask in self.asks.iter() {
            text.push_str(ask.text(alloc)?.as_str())?;
        }
        Ok(text)
    }
}

/// What a port knows of a byte.
#[derive(Clone, Copy)]
struct Known {
    /// What it wrote or read last.
    byte: u8,
    /// For each port, which of its writes is the first that may be read yet.
    next: [usize; PORTS],
}

const UNKNOWN: Known = Known {
    byte: 0,
    next: [0; PORTS],
};

impl Known {
    /// Reads another byte, by a write of another port. Answers whether that may be.
    fn read(&mut self, port: usize, byte: u8, writer: Writer) -> bool {
        let Some(next) = self.next.get_mut(writer.port) else {
            return false;
        };
        if writer.port == port || writer.nth < *next {
            return false;
        }
        *next = writer.nth.wrapping_add(1);
        self.byte = byte;
        true
    }
}

/// What a port knows of its lines.
#[derive(Drop)]
struct Memory {
    port: usize,
    lines: Vec<[Known; 64]>,
}

impl Memory {
    fn new(alloc: Global, port: usize) -> Result<Memory, AllocError> {
        Ok(Memory {
            port,
            lines: vec![in alloc; [UNKNOWN; 64]; LINES]?,
        })
    }

    /// Writes some bytes of a line.
    fn write(&mut self, place: usize, extent: Extent, line: &Line) {
        let Some(known) = self.lines.get_mut(place) else {
            return;
        };
        for (place, (old, new)) in known.iter_mut().zip(line.iter()).enumerate() {
            if extent.has(place) {
                old.byte = *new;
            }
        }
    }

    /// Whether these bytes may be read of a line, from one on.
    fn reads(&mut self, script: &Script, place: usize, first: usize, bytes: &[u8]) -> bool {
        for (nth, byte) in bytes.iter().enumerate() {
            if !self.reads_byte(script, place, first.wrapping_add(nth), *byte) {
                return false;
            }
        }
        true
    }

    /// Whether this byte may be read at a place of a line.
    fn reads_byte(&mut self, script: &Script, place: usize, at: usize, byte: u8) -> bool {
        let Some(line) = self.lines.get_mut(place) else {
            return false;
        };
        let Some(known) = line.get_mut(at) else {
            return false;
        };
        if known.byte == byte {
            return true;
        }
        match (place.checked_sub(OWN), Writer::of(byte)) {
            (Some(shared), Some(writer)) => {
                script.puts(shared, writer, at) && known.read(self.port, byte, writer)
            }
            _ => false,
        }
    }

    /// Whether a line of text is the reply to a request.
    fn takes(
        &mut self,
        alloc: Global,
        script: &Script,
        ask: &Ask,
        text: &str,
    ) -> Result<bool, Fail> {
        let wanted = ask.reply(alloc)?;
        let Some(rest) = text.strip_prefix(wanted.as_str()) else {
            return Ok(false);
        };
        match &ask.what {
            What::Read { first, end } => {
                let bytes = hex::decode(alloc, rest)?;
                let has_all = bytes.len() == end.wrapping_sub(*first);
                Ok(has_all && self.reads(script, ask.place, *first, bytes.as_slice()))
            }
            What::Write { extent, line } => {
                self.write(ask.place, *extent, line);
                Ok(rest.is_empty())
            }
        }
    }
}

const VERDICTS: &str = "channel 0 legal\nchannel 1 legal\nchannel 2 legal\nchannel 3 legal\n";

/// Whether each line of a text is the reply to the request of its place.
fn are_replies(alloc: Global, script: &Script, text: &str) -> Result<bool, Fail> {
    let mut memory = Memory::new(alloc, 0)?;
    for (ask, line) in script.asks.iter().zip(text.lines()) {
        if ask.port != memory.port {
            memory = Memory::new(alloc, ask.port)?;
        }
        if !memory.takes(alloc, script, ask, line)? {
            return Ok(false);
        }
    }
    Ok(true)
}

/// Whether a text has the right replies to a script, all of them, and then the verdicts.
fn is_right(alloc: Global, script: &Script, text: &str) -> Result<bool, Fail> {
    let Some(replies) = text.strip_suffix(VERDICTS) else {
        return Ok(false);
    };
    let has_all = replies.lines().count() == script.asks.len();
    Ok(has_all && are_replies(alloc, script, replies)?)
}

/// Runs a script by chance in a configuration, and says whether all replies are right and all traces legal.
fn runs_well<R: Threads + Wait + Sync>(
    rt: &R,
    alloc: Global,
    config: &str,
    seed: u64,
) -> Result<bool, Fail> {
    let script = Script::new(alloc, seed)?;
    let text = script.text(alloc)?;
    let input = format!(in alloc; "{config}---\n{text}")?;
    let mut reader = input.as_bytes();
    let mut written = Vec::new(alloc);
    let legal = run(rt, alloc, false, &mut reader, &mut written)?;
    let text = String::from_utf8(written)?;
    Ok(legal && is_right(alloc, &script, text.as_str())?)
}

/// Eight ports and four channels, in which lines next to each other are of different channels.
const EIGHT_BY_FOUR: [(&str, &str); 3] = [
    ("\nchannels = 2", "\nchannels = 4"),
    ("\nports = 2", "\nports = 8"),
    (
        "column group bank row channel",
        "channel column group bank row",
    ),
];

/// The smallest queues, and a window that they can't hold.
const SMALL_QUEUES: [(&str, &str); 6] = [
    ("\nwindow = 4", "\nwindow = 16"),
    ("\nintake = 8", "\nintake = 1"),
    ("\nreads = 8", "\nreads = 1"),
    ("\nwrites = 8", "\nwrites = 1"),
    ("\ndone = 8", "\ndone = 1"),
    ("\nlow = 2\nhigh = 6", "\nlow = 0\nhigh = 1"),
];

#[test]
fn eight_ports_over_four_channels(rt: HostRuntime) -> Result<(), Fail> {
    let config = with_lines(rt.alloc(), PROFILE_S, &EIGHT_BY_FOUR)?;
    for seed in 0..10 {
        let is_well = runs_well(&rt, rt.alloc(), config.as_str(), seed)?;
        assert!(rt; is_well, "seed {seed}");
    }
    Ok(())
}

#[test]
fn eight_ports_over_four_channels_in_small_queues(rt: HostRuntime) -> Result<(), Fail> {
    let config = with_lines(rt.alloc(), PROFILE_S, &EIGHT_BY_FOUR)?;
    let config = with_lines(rt.alloc(), config.as_str(), &SMALL_QUEUES)?;
    for seed in 10..20 {
        let is_well = runs_well(&rt, rt.alloc(), config.as_str(), seed)?;
        assert!(rt; is_well, "seed {seed}");
    }
    Ok(())
}

/// The byte of the first write of port 0 to a line of all.
const FIRST: u8 = 1;

/// That of the first write of port 1.
const THEIRS: u8 = 32;

/// That of the second write of port 1.
const LATER: u8 = 33;

/// Port 0's view of the first line of all, where port 0 wrote once and port 1 twice, and their script.
fn three_writes(alloc: Global) -> Result<(Script, Memory), Fail> {
    let mut script = Script::empty(alloc, 0)?;
    let extent = Extent::Span { first: 0, end: 8 };
    for port in [0, 1, 1] {
        script.note(port, 0, extent).ok_or("no room")?;
    }
    let mut memory = Memory::new(alloc, 0)?;
    memory.write(OWN, extent, &[FIRST; 64]);
    Ok((script, memory))
}

/// Bytes that are read from a place on, one after another, and whether they may be.
const READS: &[(usize, &[u8], bool)] = &[
    // Never written, at a place that isn't written, and from before the port's own write.
    (0, &[LATER + 1], false),
    (8, &[THEIRS], false),
    (0, &[0], false),
    // Once the second of another port is read neither its first nor the own one comes again.
    (0, &[FIRST, THEIRS, LATER], true),
    (1, &[LATER, LATER], true),
    (2, &[THEIRS], false),
    (2, &[FIRST], false),
];

#[test]
fn bytes_that_may_not_be_read_are_told(rt: HostRuntime) -> Result<(), Fail> {
    let (script, mut memory) = three_writes(rt.alloc())?;
    for (first, bytes, may_be) in READS {
        let is_right = memory.reads(&script, OWN, *first, bytes);
        assert_eq!(rt; is_right, *may_be, "{bytes:?} at {first}");
    }
    Ok(())
}

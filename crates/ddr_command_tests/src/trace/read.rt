//! Traces read from their text: cuts, bounds, records that are none, and readers that fail.
use super::entries::{act, pre, pre_all, rd, refresh, wr};
use super::text::WRITE_THEN_READ;
use ddr_trace::command::Entry;
use ddr_trace_text::reader::read_trace;
use ddr_trace_text::text::{TraceError, write_trace};
use std::alloc::{AllocError, Global};
use std::io;
use std::io::{ErrorKind, Read};
use std::process::Abort;
use std::test::Fail;

const HEADER: &[u8] = b"cycle,cmd,rank,group,bank,row,col\n";

const END: &[u8] = b"9,END,,,,,\n";

const REFRESH: &[u8] = b"7,REF,0,,,,\n";

/// What a text is read as: the trace's end, or an error.
fn end_of<R: Read + Drop>(alloc: Global, text: R) -> Result<u64, TraceError> {
    match read_trace(alloc, text) {
        Ok(trace) => Ok(trace.end),
        Err(error) => Err(error),
    }
}

/// These parts, one behind the other.
fn concat(alloc: Global, parts: &[&[u8]]) -> Result<Vec<u8>, AllocError> {
    let mut text = Vec::new(alloc);
    for part in parts {
        text.extend_from_slice(part)?;
    }
    Ok(text)
}

/// What the text of these parts is read as.
fn end_of_parts(alloc: Global, parts: &[&[u8]]) -> Result<u64, TraceError> {
    let text = concat(alloc, parts)?;
    end_of(alloc, text.as_slice())
}

const EACH_KIND: &[Entry] = &[
    act!(1, 3, 2, 15),
    wr!(5, 3, 2, 15),
    rd!(16, 3, 2, 15),
    pre!(24, 3, 2),
    pre_all!(25),
    refresh!(29),
];

#[test]
fn what_was_written_is_read(rt: HostRuntime) -> Result<(), Fail> {
    let mut text = Vec::new(rt.alloc());
    write_trace(rt.alloc(), EACH_KIND, 1 << 62, &mut text)?;
    let trace = read_trace(rt.alloc(), text.as_slice())?;
    assert_eq!(rt; (trace.start, trace.end), (0, 1 << 62));
    assert_eq!(rt; trace.entries.as_slice(), EACH_KIND);
    Ok(())
}

/// What so many bytes of the text are read as. The header is 33 bytes and a line feed, and the records behind it end at
/// bytes 49, 64, 80 and 92.
fn answer_at(cut: usize) -> Result<u64, TraceError> {
    match cut {
        0..=32 => Err(TraceError::Header),
        33 | 34 | 48 | 49 | 63 | 64 | 79 | 80 => Err(TraceError::Truncated),
        35..=47 => Err(TraceError::Row { line: 2 }),
        50..=62 => Err(TraceError::Row { line: 3 }),
        65..=78 => Err(TraceError::Row { line: 4 }),
        81..=90 => Err(TraceError::Row { line: 5 }),
        _ => Ok(24),
    }
}

#[test]
fn each_cut(rt: HostRuntime) {
    for cut in 0..93 {
        let end = end_of(rt.alloc(), &WRITE_THEN_READ[..cut]);
        assert_eq!(rt; end, answer_at(cut), "{cut} bytes");
    }
}

/// A record, and the entry that it is read as.
const SPELLINGS: &[(&str, Entry)] = &[
    ("00000000000000000007,ACT,00,3,2,015,", act!(7, 3, 2, 15)),
    ("4611686018427387904,REF,0,,,,", refresh!(1 << 62)),
    ("7,PRE,0,4294967295,0,,", pre!(7, u32::MAX, 0)),
    ("7,RD,0,0,0,0,0\r", rd!(7, 0, 0, 0)),
    ("\"7\",PREA,0,,,,", pre_all!(7)),
];

#[test]
fn spellings(rt: HostRuntime) -> Result<(), Fail> {
    for (record, entry) in SPELLINGS {
        let text = concat(rt.alloc(), &[HEADER, record.as_bytes(), b"\n", END])?;
        let trace = read_trace(rt.alloc(), text.as_slice())?;
        assert_eq!(rt; trace.entries.as_slice(), [*entry].as_slice(), "{record}");
    }
    Ok(())
}

fn is_no_record(rt: &impl Abort, alloc: Global, record: &[u8]) {
    let end = end_of_parts(alloc, &[HEADER, record, b"\n", END]);
    assert_eq!(rt; end, Err(TraceError::Row { line: 2 }), "{record:?}");
}

const NO_RECORDS: &[&str] = &[
    "000000000000000000007,ACT,0,3,2,15,",
    "4611686018427387905,REF,0,,,,",
    "18446744073709551616,REF,0,,,,",
    "7,PRE,0,4294967296,0,,",
    "7,RD,0,0,0,0,12",
    "7,RD,0,0,0,0,",
    "7,RD,0,0,0,,0",
    "7,WR,0,0,0,0,4",
    "7,ACT,0,0,0,0,0",
    "7,ACT,0,0,0,0",
    "7,ACT,0,0,0,0,,",
    "7,PRE,0,0,0,0,",
    "7,PREA,0,0,,,",
    "7,PREA,,,,,",
    "7,REF,0,,0,,",
    "7,RDA,0,0,0,0,12",
    "7,RDA,0,0,0,0,",
    "7,WRA,0,0,0,0,4",
    "7,WRA,0,0,0,,0",
    "7,WRA,0,0,,0,0",
    "7,PREAA,0,,,,",
    "7,rda,0,0,0,0,0",
    "7,act,0,0,0,0,",
    "7,,0,0,0,0,",
    ",REF,0,,,,",
    "-7,REF,0,,,,",
    "+7,REF,0,,,,",
    " 7,REF,0,,,,",
    "7,REF,0 ,,,,",
    "7,END,0,,,,",
    "7,END,,,,,0",
    "\u{e9},REF,0,,,,",
    "cycle,cmd,rank,group,bank,row,col",
];

#[test]
fn records_that_are_none(rt: HostRuntime) {
    for record in NO_RECORDS {
        is_no_record(&rt, rt.alloc(), record.as_bytes());
    }
    is_no_record(&rt, rt.alloc(), b"\xff,REF,0,,,,");
}

/// What stands behind END at cycle 9, and what the text is read as.
const BEHIND_END: &[(&str, Result<u64, TraceError>)] = &[
    ("9,END,,,,,\n", Err(TraceError::Order { line: 3 })),
    ("10,REF,0,,,,\n", Err(TraceError::Order { line: 3 })),
    ("10,REF,0,,,", Err(TraceError::Row { line: 3 })),
    ("\n\n", Ok(9)),
];

#[test]
fn behind_end(rt: HostRuntime) {
    for (behind, wanted) in BEHIND_END {
        let end = end_of_parts(rt.alloc(), &[HEADER, END, behind.as_bytes()]);
        assert_eq!(rt; end, *wanted, "{behind}");
    }
}

/// A text, and what it is read as.
type Case = (&'static str, Result<u64, TraceError>);

fn check(rt: &impl Abort, alloc: Global, cases: &[Case]) {
    for (text, wanted) in cases {
        assert_eq!(rt; end_of(alloc, text.as_bytes()), *wanted, "{text}");
    }
}

const HEADERS: &[Case] = &[
    ("", Err(TraceError::Header)),
    ("9,END,,,,,\n", Err(TraceError::Header)),
    (
        "cycle,cmd,rank,group,bank,row\n9,END,,,,,\n",
        Err(TraceError::Header),
    ),
    (
        "cycle,cmd,rank,group,bank,row,col,\n9,END,,,,,\n",
        Err(TraceError::Header),
    ),
    (
        "Cycle,cmd,rank,group,bank,row,col\n9,END,,,,,\n",
        Err(TraceError::Header),
    ),
    (
        "cycle,cmd,rank,bank,group,row,col\n9,END,,,,,\n",
        Err(TraceError::Header),
    ),
    ("cycle,cmd,rank,group,bank,row,col\r\n9,END,,,,,\r\n", Ok(9)),
    // A carriage return alone ends a record too.
    ("cycle,cmd,rank,group,bank,row,col\r9,END,,,,,\r", Ok(9)),
    (
        "\u{feff}cycle,cmd,rank,group,bank,row,col\n9,END,,,,,",
        Ok(9),
    ),
];

#[test]
fn headers(rt: HostRuntime) {
    check(&rt, rt.alloc(), HEADERS);
}

/// What so many refreshes are read as, and what stands behind them.
fn end_behind(alloc: Global, count: u32, behind: &[u8]) -> Result<u64, TraceError> {
    let mut text = HEADER.to_vec(alloc)?;
    for _ in 0..count {
        text.extend_from_slice(REFRESH)?;
    }
    text.extend_from_slice(behind)?;
    end_of(alloc, text.as_slice())
}

/// A number of refreshes, what stands behind them, and what the text is read as.
const MOST_COMMANDS: &[(u32, &str, Result<u64, TraceError>)] = &[
    (65_536, "9,END,,,,,\n", Ok(9)),
    (65_536, "", Err(TraceError::Truncated)),
    (
        65_536,
        "9,END,,,,,\n9,END,,,,,\n",
        Err(TraceError::Order { line: 65_539 }),
    ),
    (65_536, "9,END,,,,\n", Err(TraceError::Row { line: 65_538 })),
    (65_537, "9,END,,,,,\n", Err(TraceError::TooLong)),
    (65_537, "", Err(TraceError::TooLong)),
];

#[test]
fn the_most_commands(rt: HostRuntime) {
    for (count, behind, wanted) in MOST_COMMANDS {
        let end = end_behind(rt.alloc(), *count, behind.as_bytes());
        assert_eq!(rt; end, *wanted, "{count} {behind}");
    }
}

/// A reader of 8 bytes at a time that fails where no call is left.
#[derive(Drop)]
struct Failing<'a> {
    text: &'a [u8],
    calls: u32,
}

impl Read for Failing<'_> {
    fn read(&mut self, buf: &mut [u8]) -> io::Result<usize> {
        match self.calls.checked_sub(1) {
            Some(left) => self.calls = left,
            None => return Err(io::Error::from(ErrorKind::Other)),
        }
        let count = buf.len().min(8).min(self.text.len());
        let (now, later) = self.text.split_at(count);
        buf[..count].copy_from_slice(now);
        self.text = later;
        Ok(count)
    }
}

/// What the text is read as in so many calls.
fn end_in(alloc: Global, text: &[u8], calls: u32) -> Result<u64, TraceError> {
    end_of(alloc, Failing { text, calls })
}

#[test]
fn each_read_fails(rt: HostRuntime) {
    // 92 bytes are read in 12 calls, and their end by one more.
    let text = WRITE_THEN_READ;
    for calls in 0..13 {
        let end = end_in(rt.alloc(), text, calls);
        assert_eq!(rt; end, Err(TraceError::Read), "{calls} calls");
    }
    assert_eq!(rt; end_in(rt.alloc(), text, 16), Ok(24));
}

/// A reader that gives the header and then refreshes without end, and fails once it gave 900,000 bytes: 113,522 more than
/// the header and 65,537 refreshes.
#[derive(Drop)]
struct Endless {
    given: usize,
}

impl Endless {
    fn next_byte(&mut self) -> u8 {
        let place = self.given;
        self.given = place.wrapping_add(1);
        match place.checked_sub(HEADER.len()) {
            None => HEADER[place],
            Some(behind) => REFRESH[behind % REFRESH.len()],
        }
    }
}

impl Read for Endless {
    fn read(&mut self, buf: &mut [u8]) -> io::Result<usize> {
        if self.given >= 900_000 {
            return Err(io::Error::from(ErrorKind::Other));
        }
        for byte in buf.iter_mut() {
            *byte = self.next_byte();
        }
        Ok(buf.len())
    }
}

#[test]
fn a_text_without_end_is_read_to_an_answer(rt: HostRuntime) {
    let end = end_of(rt.alloc(), Endless { given: 0 });
    assert_eq!(rt; end, Err(TraceError::TooLong));
}

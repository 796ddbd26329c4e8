//! Inputs that are at fault: each with its fault, and with nothing written.
use super::{Command, is_refused};
use ddr_text::fault::Fault;
use std::alloc::{AllocError, Global};
use std::process::Abort;
use std::test::Fail;

/// Lines that are at fault wherever they stand.
const BAD_LINES: &[&str] = &[
    // No form of a script's line.
    " ",
    "   ",
    " read 0 0 1",
    "read 0 0 1 ",
    "\tread 0 0 1",
    "read\t0 0 1",
    "read",
    "read 0 0",
    "read 0 0 1 1",
    "READ 0 0 1",
    "reads 0 0 1",
    "write 0 0",
    "write 0 0 00 00",
    "erase 0 0 1",
    "read 0 0 1#",
    "read 0 0 1\r\r",
    // No number.
    "read 0 -1 1",
    "read 0 +1 1",
    "read 0 0x0 1",
    "read 0 18446744073709551616 1",
    "read 0 000000000000000000000 1",
    "read 0 0 65536",
    "read 0 0 1.",
    // No bytes.
    "write 0 0 0",
    "write 0 0 0g",
    "write 0 0 010",
    "write 0 0 0x01",
    // No mask, and no line.
    "mask 0 0 000000000000000f",
    "mask 0 0 000000000000000f 11",
    "mask 0 0 f 1111111111111111111111111111111111111111111111111111111111111111\
1111111111111111111111111111111111111111111111111111111111111111",
    "mask 0 0 000000000000000g 1111111111111111111111111111111111111111111111111111111111111111\
1111111111111111111111111111111111111111111111111111111111111111",
    "mask 0 0 000000000000000f 1111111111111111111111111111111111111111111111111111111111111111\
111111111111111111111111111111111111111111111111111111111111111111",
    // No count of rounds.
    "cycle",
    "cycle 0",
    "cycle 1000001",
    "cycle -1",
    "cycle 1 1",
    "cycles 1",
    // A port that is not there.
    "read 2 0 1",
    "write 2 0 00",
    "read 4294967296 0 1",
    "read 18446744073709551615 0 1",
];

/// That a script is at fault in a line.
fn is_bad(rt: &impl Abort, alloc: Global, script: &str, line: u64) {
    let fault = Fault::ScriptLine { line };
    is_refused(rt, alloc, Command::Sim, true, script.as_bytes(), fault);
}

/// That a line is at fault as the first one of a script, and as the third.
fn is_bad_anywhere(rt: &impl Abort, alloc: Global, line: &str) -> Result<(), AllocError> {
    let first = format!(in alloc; "{line}\n")?;
    is_bad(rt, alloc, first.as_str(), 1);
    let third = format!(in alloc; "# a comment\nread 0 0 1\n{line}\nnone\n")?;
    is_bad(rt, alloc, third.as_str(), 3);
    Ok(())
}

#[test]
fn bad_lines(rt: HostRuntime) -> Result<(), Fail> {
    for line in BAD_LINES {
        is_bad_anywhere(&rt, rt.alloc(), line)?;
    }
    Ok(())
}

#[test]
fn lines_too_long(rt: HostRuntime) -> Result<(), Fail> {
    let bytes = "00".repeat(rt.alloc(), 129)?;
    let line = format!(in rt.alloc(); "write 0 0 {bytes}")?;
    is_bad(&rt, rt.alloc(), line.as_str(), 1);
    Ok(())
}

/// Scripts, and the first line of each that is at fault.
const COUNTED: &[(&str, u64)] = &[
    ("\r\n\r\nread 0 0\r\n", 3),
    ("#\n read 0 0 1", 2),
    // A carriage return ends a line only before a line feed.
    ("read 0 0 1\r", 1),
    // The first line at fault is told.
    ("read 0 0 1\nread 2 0 1\nbad\n", 2),
];

#[test]
fn lines_are_counted_from_1(rt: HostRuntime) {
    for (script, line) in COUNTED {
        is_bad(&rt, rt.alloc(), script, *line);
    }
}

const NO_TEXTS: &[&[u8]] = &[b"\xff", b"bad\n# \xe2\x82\n"];

#[test]
fn bytes_that_are_no_text(rt: HostRuntime) {
    let fault = Fault::InputNotUtf8;
    for input in NO_TEXTS {
        is_refused(&rt, rt.alloc(), Command::Sim, true, input, fault);
    }
}

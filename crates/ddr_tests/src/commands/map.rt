//! Maps of addresses, with the places that hand calculation gives.
use super::{Command, Configured, all_write, all_write_in, ends_so, is_refused};
use ddr_text::fault::Fault;
use std::alloc::{AllocError, Global};
use std::process::Abort;
use std::test::Fail;

const TWO_PLACES: &str = "100000 0 3 0 12 16 32\n64 0 0 0 0 8 0\n";

/// Line 1562 is 2 + 8 * (3 + 4 * (0 + 4 * 12)) and 100000 is its byte 32; line 2 is column 16.
/// The capacity is 64 * (2 * 4 * 4 * 8 * 16) = 262144.
const PLACES: &str = "100000 0 3 0 12 16 32
262143 1 3 3 15 56 63
262144 out
0 0 0 0 0 0 0
18446744073709551615 out
63 0 0 0 0 0 63
64 0 0 0 0 8 0
512 0 1 0 0 0 0
2048 0 0 1 0 0 0
8192 0 0 0 1 0 0
131072 1 0 0 0 0 0
";

const MAPPED: &[(Command, &str, &str)] = &[
    (
        Command::Map,
        "100000\n262143\n262144\n0\n18446744073709551615\n63\n64\n512\n2048\n8192\n131072\n",
        PLACES,
    ),
    // The same two addresses, spelled otherwise.
    (Command::Map, "100000\n64\n", TWO_PLACES),
    (Command::Map, "100000\r\n64\r\n", TWO_PLACES),
    (Command::Map, "100000\n64", TWO_PLACES),
    (Command::Map, "\n\r\n100000\n\n64\n\n", TWO_PLACES),
    (Command::Map, "0100000\n00000000000000000064\n", TWO_PLACES),
    // Nothing to map.
    (Command::Map, "", ""),
    (Command::Map, "\n", ""),
    (Command::Map, "\r\n\n", ""),
];

#[test]
fn places(rt: HostRuntime) {
    all_write(&rt, rt.alloc(), MAPPED);
}

const CONFIGURED: &[Configured] = &[
    // The row is the one numbered 13, which is 1 mod 4, so bank 0 becomes 1.
    (
        &[("bank_xor = false", "bank_xor = true")],
        Command::Map,
        "---\n106496\n",
        "106496 0 0 1 13 0 0\n",
    ),
    (&[], Command::Map, "---\r\n106496", "106496 0 0 0 13 0 0\n"),
    // Nothing to map.
    (&[], Command::Map, "---\n", ""),
    (&[], Command::Map, "---\n\n", ""),
    (&[], Command::Map, "---\n\r\n\n", ""),
    (&[], Command::Map, "---", ""),
];

#[test]
fn with_a_configuration(rt: HostRuntime) -> Result<(), Fail> {
    Ok(all_write_in(&rt, rt.alloc(), CONFIGURED)?)
}

/// Lines that are no addresses.
const BAD_LINES: &[&str] = &[
    " ",
    " 1",
    "1 ",
    "-1",
    "+1",
    "0x1",
    "1.",
    "#",
    "1 2",
    "18446744073709551616",
    "000000000000000000000",
    "1\r\r",
    "---",
];

/// That a body is at fault in a line.
fn is_bad(rt: &impl Abort, alloc: Global, body: &str, line: u64) {
    let fault = Fault::MapLine { line };
    is_refused(rt, alloc, Command::Map, true, body.as_bytes(), fault);
}

/// That a line is at fault as the first one of a body, and as the fourth.
fn is_bad_anywhere(rt: &impl Abort, alloc: Global, line: &str) -> Result<(), AllocError> {
    let first = format!(in alloc; "{line}\n0\n")?;
    is_bad(rt, alloc, first.as_str(), 1);
    // Skipped lines are counted, and those of the configuration are not.
    let fourth = format!(in alloc; "---\n0\n\n0\n{line}\nbad\n")?;
    let fault = Fault::MapLine { line: 4 };
    ends_so(
        rt,
        alloc,
        (&[], Command::Map, fourth.as_str()),
        Err(fault),
        "",
    )
}

#[test]
fn bad_lines(rt: HostRuntime) -> Result<(), Fail> {
    for line in BAD_LINES {
        is_bad_anywhere(&rt, rt.alloc(), line)?;
    }
    is_bad(&rt, rt.alloc(), "0\n1\r", 2);
    Ok(())
}

#[test]
fn bytes_that_are_no_text(rt: HostRuntime) {
    let fault = Fault::InputNotUtf8;
    is_refused(&rt, rt.alloc(), Command::Map, true, b"bad\n\xff", fault);
}

//! Traces for `check`: in each refresh interval a REF, and then one visit of a bank after another, which opens a row, reads or
//! writes it and closes it.
//!
//! `draw`, `text` and `configs` stand below.
ghost use Rattle.std.specs.Prelude.{◌<◌, ◌≤◌, ◌^◌};

use crate::configs::of_one_rank;
use crate::draw::Draw;
use crate::text::{number, word};
use ddr_text::fault::Fault;
use std::alloc::{AllocError, Global};

/// The head of a trace.
const HEAD: &str = "cycle,cmd,rank,group,bank,row,col\n";

/// Clocks of a refresh interval, and of one REF.
const INTERVAL: u64 = 9_363;

const REFRESH: u64 = 420;

/// The most clocks that a visit takes.
const VISIT: u64 = 600;

/// Clocks behind an ACT until the first read or write, between two of one group, and behind a PRE until the next ACT.
const RCD: u64 = 17;

const CCD: u64 = 6;

const RP: u64 = 17;

/// A visit of a bank.
#[derive(Clone, Copy)]
struct Visit {
    write: bool,
    group: u64,
    bank: u64,
    row: u64,
    /// How many reads or writes it has.
    columns: u64,
    /// How many clocks too soon its first read or write is.
    early: u64,
    /// How many clocks too soon its PRE is.
    hasty: u64,
}

/// A visit by chance, without a fault.
fn draw_visit(draw: &mut Draw) -> Visit {
    Visit {
        write: draw.below(3) == 0,
        group: draw.below(4),
        bank: draw.below(4),
        row: draw.below(65_536),
        columns: 1 + draw.below(64),
        early: 0,
        hasty: 0,
    }
}

/// Adds a field behind the others.
fn field(text: &mut Vec<u8>, value: u64) -> Result<(), AllocError> {
    word(text, ",")?;
    number(text, value)
}

/// Adds a command of a visit's bank, without its row.
fn command(text: &mut Vec<u8>, cycle: u64, name: &str, at: Visit) -> Result<(), AllocError> {
    number(text, cycle)?;
    word(text, name)?;
    field(text, at.group)?;
    field(text, at.bank)
}

/// Adds the reads or writes of a visit, and tells the cycle of the last one.
fn columns(
    alloc: Global,
    text: &mut Vec<u8>,
    first: u64,
    at: Visit,
    draw: &mut Draw,
) -> Result<u64, AllocError> {
    let mut middle = Vec::from_slice(alloc, if at.write { b",WR,0" } else { b",RD,0" })?;
    field(&mut middle, at.group)?;
    field(&mut middle, at.bank)?;
    field(&mut middle, at.row)?;
    word(&mut middle, ",")?;
    let begun = draw.below(64);
    let mut cycle = first;
    let mut last = first;
    for index in 0..at.columns {
        number(text, cycle)?;
        text.extend_from_slice(middle.as_slice())?;
        number(text, (begun.wrapping_add(index) % 128) * 8)?;
        word(text, "\n")?;
        last = cycle;
        cycle = cycle.wrapping_add(CCD);
    }
    Ok(last)
}

/// Adds a visit that begins in this cycle, and tells the first cycle behind it.
fn add_visit(
    alloc: Global,
    text: &mut Vec<u8>,
    cycle: u64,
    at: Visit,
    draw: &mut Draw,
) -> Result<u64, AllocError> {
    command(text, cycle, ",ACT,0", at)?;
    field(text, at.row)?;
    word(text, ",\n")?;
    let first = cycle.wrapping_add(RCD).wrapping_sub(at.early);
    let last = columns(alloc, text, first, at, draw)?;
    let recovery = if at.write { 12 + 4 + 18 } else { 9 };
    let free = last.wrapping_add(recovery).max(cycle.wrapping_add(39));
    let close = free.wrapping_sub(at.hasty);
    command(text, close, ",PRE,0", at)?;
    word(text, ",,\n")?;
    Ok(close.wrapping_add(RP).max(cycle.wrapping_add(56)))
}

/// A trace of about so many commands, with the configuration before it. Of so many visits about one has a fault, where
/// `faults` is above 0.
fn trace(alloc: Global, size: u64, faults: u64, draw: &mut Draw) -> Result<Vec<u8>, Fault> {
    let mut text = of_one_rank(alloc)?;
    word(&mut text, HEAD)?;
    let mut interval = INTERVAL;
    let mut cycle = interval.wrapping_add(REFRESH);
    let mut count: u64 = 1;
    number(&mut text, interval)?;
    word(&mut text, ",REF,0,,,,\n")?;
    for _turn in 0..size {
        if count >= size {
            break;
        }
        let mut at = draw_visit(draw);
        if faults > 0 {
            match draw.below(faults) {
                0 => at.early = 1,
                1 => at.hasty = 1,
                _ => {}
            }
        }
        cycle = add_visit(alloc, &mut text, cycle, at, draw)?;
        count = count.wrapping_add(at.columns).wrapping_add(2);
        if cycle.wrapping_add(VISIT) > interval.wrapping_add(INTERVAL) {
            interval = interval.wrapping_add(INTERVAL);
            cycle = interval.wrapping_add(REFRESH);
            number(&mut text, interval)?;
            word(&mut text, ",REF,0,,,,\n")?;
            count = count.wrapping_add(1);
        }
    }
    number(&mut text, cycle)?;
    word(&mut text, ",END,,,,,\n")?;
    Ok(text)
}

/// A legal trace of about so many commands.
pub(crate) fn legal(alloc: Global, size: u64, draw: &mut Draw) -> Result<Vec<u8>, Fault> {
    trace(alloc, size, 0, draw)
}

/// A trace of about so many commands, with a fault in about every third visit.
pub(crate) fn faulty(alloc: Global, size: u64, draw: &mut Draw) -> Result<Vec<u8>, Fault> {
    trace(alloc, size, 6, draw)
}

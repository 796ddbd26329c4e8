//! Scripts for `sim`.
//!
//! `draw`, `text` and `configs` stand below.
use crate::configs::{of_one_rank, of_two_ranks};
use crate::draw::Draw;
use crate::text::{bytes, number, word};
use ddr_text::fault::Fault;
use std::alloc::{AllocError, Global};

/// Bytes of a line.
const LINE: u64 = 64;

/// Requests between two waits.
const AT_ONCE: u64 = 32;

/// Adds a read of the whole line, or a write of it.
fn request(
    text: &mut Vec<u8>,
    write: bool,
    port: u64,
    line: u64,
    draw: &mut Draw,
) -> Result<(), AllocError> {
    word(text, if write { "write " } else { "read " })?;
    number(text, port)?;
    word(text, " ")?;
    number(text, line.wrapping_mul(LINE))?;
    if write {
        word(text, " ")?;
        bytes(text, draw.next(), LINE as usize)?;
        return word(text, "\n");
    }
    word(text, " 64\n")
}

/// Adds a wait.
fn wait(text: &mut Vec<u8>, cycles: u64) -> Result<(), AllocError> {
    word(text, "cycle ")?;
    number(text, cycles)?;
    word(text, "\n")
}

/// Reads and writes at lines by chance of 64 MiB, half of them each, from four ports.
pub(crate) fn random(alloc: Global, size: u64, draw: &mut Draw) -> Result<Vec<u8>, Fault> {
    let mut text = of_one_rank(alloc)?;
    for index in 0..size {
        let write = draw.below(2) == 0;
        let port = draw.below(4);
        let line = draw.below(1_048_576);
        request(&mut text, write, port, line, draw)?;
        if index % AT_ONCE == AT_ONCE - 1 {
            wait(&mut text, 180)?;
        }
    }
    Ok(text)
}

/// Four ports in turn, each of which goes through memory line by line from where it began; one of them writes.
pub(crate) fn stream(alloc: Global, size: u64, draw: &mut Draw) -> Result<Vec<u8>, Fault> {
    let mut text = of_one_rank(alloc)?;
    let begun = draw.below(1_048_576);
    for index in 0..size {
        let port = index % 4;
        let line = (begun + port * 65_536 + index / 4) % 4_194_304;
        request(&mut text, port == 3, port, line, draw)?;
        if index % AT_ONCE == AT_ONCE - 1 {
            wait(&mut text, 90)?;
        }
    }
    Ok(text)
}

/// Reads and writes one at a time, at lines by chance of 64 MiB, with up to 900 cycles between two.
pub(crate) fn sparse(alloc: Global, size: u64, draw: &mut Draw) -> Result<Vec<u8>, Fault> {
    let mut text = of_one_rank(alloc)?;
    for _index in 0..size {
        let write = draw.below(4) == 0;
        let port = draw.below(4);
        let line = draw.below(1_048_576);
        request(&mut text, write, port, line, draw)?;
        wait(&mut text, 1 + draw.below(900))?;
    }
    Ok(text)
}

/// A masked write of a line.
fn masked(text: &mut Vec<u8>, port: u64, line: u64, draw: &mut Draw) -> Result<(), AllocError> {
    word(text, "mask ")?;
    number(text, port)?;
    word(text, " ")?;
    number(text, line.wrapping_mul(LINE))?;
    word(text, " ")?;
    bytes(text, draw.next(), 8)?;
    word(text, " ")?;
    bytes(text, draw.next(), LINE as usize)?;
    word(text, "\n")
}

/// More requests than can be served, from eight ports to two lines of 32 rows in every fourth bank, so that most of them wait for
/// one another and rows conflict; some are refused. All of these banks are of rank 0.
pub(crate) fn ranks(alloc: Global, size: u64, draw: &mut Draw) -> Result<Vec<u8>, Fault> {
    crowded(alloc, size, draw, false)
}

/// The same of both ranks alike: of every fourth bank and the like one of the other rank.
pub(crate) fn both_ranks(alloc: Global, size: u64, draw: &mut Draw) -> Result<Vec<u8>, Fault> {
    crowded(alloc, size, draw, true)
}

/// More requests than can be served, to banks of rank 0 or of both ranks. The lowest digit of a bank's number is its rank.
fn crowded(alloc: Global, size: u64, draw: &mut Draw, both: bool) -> Result<Vec<u8>, Fault> {
    let mut text = of_two_ranks(alloc)?;
    for index in 0..size {
        let port = draw.below(8);
        let channel = draw.below(4);
        let column = draw.below(2);
        let bank = 4 * draw.below(8);
        let rank = if both { draw.below(2) } else { 0 };
        let row = draw.below(4);
        let line = channel + 4 * (column + 128 * (bank + rank + 32 * row));
        match draw.below(4) {
            0 => masked(&mut text, port, line, draw)?,
            1 => request(&mut text, true, port, line, draw)?,
            _ => request(&mut text, false, port, line, draw)?,
        }
        if index % AT_ONCE == AT_ONCE - 1 {
            wait(&mut text, 150)?;
        }
    }
    Ok(text)
}

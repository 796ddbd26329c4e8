//! Traces in the one form in which they are written, read straight from the bytes.
//!
//! Below stand `ddr_trace_text`, whose `write_trace` writes this form and whose `read_trace` reads every other form too, `ddr_trace`
//! and `ddr_timing`; `check` stands above. Each function here takes one thing off the front of a text and gives what stands
//! behind it, or None where the text begins with something else.
ghost use Rattle.std.specs.Prelude.{◌≡◌, ◌≤◌, ◌<◌, ◌*◌, ◌++◌, IfSome, length, true};
ghost use Rattle.ddr_trace.specs.Rules.{is_in};
ghost use Rattle.ddr_trace_text.specs.Text.{command_fields, end_fields, record_text};
ghost use Rattle.ddr_text.specs.Canonical.{IsCanonical, IsCommandThen, bank_then, number_then, target_then};

use ddr_timing::geometry::Geometry;
use ddr_timing::units::{CLOCK_STOP, LINE_COLUMNS};
use ddr_trace::command::{Command, Entry};
use ddr_trace::trace::Trace;
use std::alloc::Global;

/// The most commands of a trace.
const MOST_COMMANDS: usize = 65_536;

/// The greatest number behind which one more digit is read: ten times as much fits a `u64`, and is above `CLOCK_STOP`.
const MOST_BEFORE_DIGIT: u64 = 1_000_000_000_000_000_000;

/// The header's line.
const HEADER: &[u8] = b"cycle,cmd,rank,group,bank,row,col\n";

/// A bank, by its numbers.
#[derive(Clone, Copy)]
struct BankNumbers {
    rank: u32,
    group: u32,
    bank: u32,
}

/// A line of a bank's row, by its numbers.
#[derive(Clone, Copy)]
struct Target {
    rank: u32,
    group: u32,
    bank: u32,
    row: u32,
    line: u32,
}

/// The trace of a text in the form that is written: numbers without leading zeros, each line ended by a line feed, and
/// nothing behind END. None where the text has another form, and also where a command lies outside the geometry, a
/// cycle behind `CLOCK_STOP`, the trace has more than 65,536 commands, or memory for them is refused: such a text may be
/// that of a trace all the same.
pub(crate) fn canonical_trace(alloc: Global, geometry: &Geometry, text: &[u8]) -> Option<Trace>
    ensures { IfSome result (λ trace. IsCanonical geometry.now text.now trace) }
{
    let mut rest = take_word(text, HEADER)?;
    let mut entries = Vec::new(alloc);
    'lines: while let Some((entry, behind)) = take_entry(geometry, rest) {
        if entries.len() >= MOST_COMMANDS || entries.push(entry).is_err() {
            return None;
        }
        rest = behind;
    }
    let end = take_end(rest)?;
    Some(Trace {
        start: 0,
        end,
        entries,
    })
}

/// The trace's end, where the text is END's line alone.
fn take_end(text: &[u8]) -> Option<u64>
    ensures line { IfSome result (λ end. text.now ≡ record_text (end_fields end)) }
    ensures early { IfSome result (λ end. end ≤ CLOCK_STOP) }
{
    let (end, rest) = take_number(text, b',')?;
    let rest = take_word(rest, b"END,,,,,\n")?;
    if !rest.is_empty() || end > CLOCK_STOP {
        return None;
    }
    Some(end)
}

/// A command's line, where the command lies in the geometry.
fn take_entry<'a>(geometry: &Geometry, text: &'a [u8]) -> Option<(Entry, &'a [u8])>
    ensures line { IfSome result (λ taken. text.now ≡ record_text (command_fields taken.0.cycle taken.0.command) ++ taken.1.now) }
    ensures within { IfSome result (λ taken. is_in geometry.now taken.0.command ≡ true) }
    ensures early { IfSome result (λ taken. taken.0.cycle ≤ CLOCK_STOP) }
    ensures short { IfSome result (λ taken. length taken.1.now < length text.now) }
{
    let (cycle, rest) = take_number(text, b',')?;
    let (command, rest) = take_command(rest)?;
    if cycle > CLOCK_STOP || !command.is_in(geometry) {
        return None;
    }
    Some((Entry { cycle, command }, rest))
}

/// A command, which is what stands behind the cycle in its line.
fn take_command(text: &[u8]) -> Option<(Command, &[u8])>
    ensures { IfSome result (λ taken. IsCommandThen text.now taken.0 taken.1.now) }
{
    if let Some(taken) = take_read(text) {
        return Some(taken);
    }
    if let Some(taken) = take_write(text) {
        return Some(taken);
    }
    if let Some(taken) = take_activate(text) {
        return Some(taken);
    }
    if let Some(taken) = take_precharge(text) {
        return Some(taken);
    }
    take_rarer(text)
}

/// A command of the kinds that a trace has fewer of.
fn take_rarer(text: &[u8]) -> Option<(Command, &[u8])>
    ensures { IfSome result (λ taken. IsCommandThen text.now taken.0 taken.1.now) }
{
    if let Some(taken) = take_read_auto(text) {
        return Some(taken);
    }
    if let Some(taken) = take_write_auto(text) {
        return Some(taken);
    }
    if let Some(taken) = take_precharge_all(text) {
        return Some(taken);
    }
    take_refresh(text)
}

/// RD, a read.
fn take_read(text: &[u8]) -> Option<(Command, &[u8])>
    ensures { IfSome result (λ taken. IsCommandThen text.now taken.0 taken.1.now) }
{
    let rest = take_word(text, b"RD,")?;
    let (target, rest) = take_target(rest)?;
    let command = Command::Rd {
        rank: target.rank,
        group: target.group,
        bank: target.bank,
        row: target.row,
        line: target.line,
    };
    Some((command, rest))
}

/// WR, a write.
fn take_write(text: &[u8]) -> Option<(Command, &[u8])>
    ensures { IfSome result (λ taken. IsCommandThen text.now taken.0 taken.1.now) }
{
    let rest = take_word(text, b"WR,")?;
    let (target, rest) = take_target(rest)?;
    let command = Command::Wr {
        rank: target.rank,
        group: target.group,
        bank: target.bank,
        row: target.row,
        line: target.line,
    };
    Some((command, rest))
}

/// RDA, a read with auto-precharge.
fn take_read_auto(text: &[u8]) -> Option<(Command, &[u8])>
    ensures { IfSome result (λ taken. IsCommandThen text.now taken.0 taken.1.now) }
{
    let rest = take_word(text, b"RDA,")?;
    let (target, rest) = take_target(rest)?;
    let command = Command::RdAuto {
        rank: target.rank,
        group: target.group,
        bank: target.bank,
        row: target.row,
        line: target.line,
    };
    Some((command, rest))
}

/// WRA, a write with auto-precharge.
fn take_write_auto(text: &[u8]) -> Option<(Command, &[u8])>
    ensures { IfSome result (λ taken. IsCommandThen text.now taken.0 taken.1.now) }
{
    let rest = take_word(text, b"WRA,")?;
    let (target, rest) = take_target(rest)?;
    let command = Command::WrAuto {
        rank: target.rank,
        group: target.group,
        bank: target.bank,
        row: target.row,
        line: target.line,
    };
    Some((command, rest))
}

/// ACT, which opens a row.
fn take_activate(text: &[u8]) -> Option<(Command, &[u8])>
    ensures { IfSome result (λ taken. IsCommandThen text.now taken.0 taken.1.now) }
{
    let rest = take_word(text, b"ACT,")?;
    let (bank, rest) = take_bank(rest)?;
    let (row, rest) = take_index(rest, b',')?;
    let rest = take_word(rest, b"\n")?;
    let command = Command::Act {
        rank: bank.rank,
        group: bank.group,
        bank: bank.bank,
        row,
    };
    Some((command, rest))
}

/// PRE, which closes a bank's row.
fn take_precharge(text: &[u8]) -> Option<(Command, &[u8])>
    ensures { IfSome result (λ taken. IsCommandThen text.now taken.0 taken.1.now) }
{
    let rest = take_word(text, b"PRE,")?;
    let (bank, rest) = take_bank(rest)?;
    let rest = take_word(rest, b",\n")?;
    let command = Command::Pre {
        rank: bank.rank,
        group: bank.group,
        bank: bank.bank,
    };
    Some((command, rest))
}

/// PREA, which closes the rows of a rank.
fn take_precharge_all(text: &[u8]) -> Option<(Command, &[u8])>
    ensures { IfSome result (λ taken. IsCommandThen text.now taken.0 taken.1.now) }
{
    let rest = take_word(text, b"PREA,")?;
    let (rank, rest) = take_index(rest, b',')?;
    let rest = take_word(rest, b",,,\n")?;
    Some((Command::PreAll { rank }, rest))
}

/// REF, which refreshes a rank.
fn take_refresh(text: &[u8]) -> Option<(Command, &[u8])>
    ensures { IfSome result (λ taken. IsCommandThen text.now taken.0 taken.1.now) }
{
    let rest = take_word(text, b"REF,")?;
    let (rank, rest) = take_index(rest, b',')?;
    let rest = take_word(rest, b",,,\n")?;
    Some((Command::Refresh { rank }, rest))
}

/// The numbers of a read or a write, to the end of its text's line.
fn take_target(text: &[u8]) -> Option<(Target, &[u8])>
    ensures { IfSome result (λ taken. text.now ≡ target_then taken.0 taken.1.now) }
{
    let (bank, rest) = take_bank(text)?;
    let (row, rest) = take_index(rest, b',')?;
    let (line, rest) = take_line(rest)?;
    let target = Target {
        rank: bank.rank,
        group: bank.group,
        bank: bank.bank,
        row,
        line,
    };
    Some((target, rest))
}

/// The numbers of a bank, with a comma behind each.
fn take_bank(text: &[u8]) -> Option<(BankNumbers, &[u8])>
    ensures { IfSome result (λ taken. text.now ≡ bank_then taken.0 taken.1.now) }
{
    let (rank, rest) = take_index(text, b',')?;
    let (group, rest) = take_index(rest, b',')?;
    let (bank, rest) = take_index(rest, b',')?;
    Some((BankNumbers { rank, group, bank }, rest))
}

/// The line that begins at a column, and the line feed behind the column's number.
fn take_line(text: &[u8]) -> Option<(u32, &[u8])>
    ensures { IfSome result (λ taken. text.now ≡ number_then (LINE_COLUMNS * taken.0) 10 taken.1.now) }
{
    let (column, rest) = take_index(text, b'\n')?;
    if column % LINE_COLUMNS != 0 {
        return None;
    }
    Some((column / LINE_COLUMNS, rest))
}

/// A number that fits a `u32`, and the byte behind it.
fn take_index(text: &[u8], mark: u8) -> Option<(u32, &[u8])>
    ensures { IfSome result (λ taken. text.now ≡ number_then taken.0 mark taken.1.now) }
{
    let (number, rest) = take_number(text, mark)?;
    if number > u64::from(u32::MAX) {
        return None;
    }
    Some((number as u32, rest))
}

/// A number without leading zeros, and the byte behind it. None also where the number is above ten times
/// `MOST_BEFORE_DIGIT`, and so above `CLOCK_STOP`.
fn take_number(text: &[u8], mark: u8) -> Option<(u64, &[u8])>
    ensures { IfSome result (λ taken. text.now ≡ number_then taken.0 mark taken.1.now) }
{
    let (first, mut rest) = text.split_first()?;
    if !first.is_ascii_digit() {
        return None;
    }
    let mut number = u64::from(*first - b'0');
    'digits: while let Some((byte, behind)) = rest.split_first() {
        if *byte == mark {
            return Some((number, behind));
        }
        if !byte.is_ascii_digit() || number == 0 || number > MOST_BEFORE_DIGIT {
            return None;
        }
        number = number * 10 + u64::from(*byte - b'0');
        rest = behind;
    }
    None
}

/// A word, byte for byte.
fn take_word<'a>(text: &'a [u8], word: &[u8]) -> Option<&'a [u8]>
    ensures { IfSome result (λ rest. text.now ≡ word.now ++ rest.now) }
{
    text.strip_prefix(word)
}

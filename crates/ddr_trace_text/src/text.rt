//! Traces as text: comma-separated fields under a header, one command a line, and an END line.
//!
//! `specs/Text.antt` has the text of a trace, byte for byte.
ghost use Rattle.std.specs.Prelude.{◌≡◌, ◌⊎◌, ◌-◌, ◌*◌, ◌≤◌, ◌∷◌, ◌++◌, [], IfErr, IfOk, IsOkUnless, OnOk, Some, length, map, replicate};
ghost use Rattle.std.specs.Fmt.{decimal};
ghost use Rattle.std.specs.Io.KnownBytes.{Appends};
ghost use Rattle.csv.specs.Records.{fields_of, partial_of};
ghost use Rattle.ddr_trace_text.specs.declared.text.TraceError.TheVariants.{OutOfMemory};
ghost use Rattle.ddr_trace_text.specs.Text.{command_fields, end_fields, header, record_text, trace_text};
ghost use Rattle.ddr_trace_text.specs.Table.{AddsRecord, IsPlain, IsReady};

use csv::{ByteRecord, Writer, WriterBuilder};
use ddr_timing::units::LINE_COLUMNS;
use ddr_trace::command::{Command, Entry};
use std::alloc::{AllocError, AllocFailed, Global};
use std::io::Write;
use thiserror::Error;

/// Why a trace was not read or not written. A line counts records from 1, the header being 1.
#[derive(Clone, Copy, Debug, PartialEq, Eq, Error)]
pub enum TraceError {
    #[error("the reader failed")]
    Read,
    #[error("the writer failed")]
    Write,
    #[error("the first record is not the header")]
    Header,
    #[error("record {line} is not one of a trace")]
    Row { line: u64 },
    #[error("record {line} stands after END")]
    Order { line: u64 },
    #[error("the trace has no END")]
    Truncated,
    #[error("the trace has too many commands")]
    TooLong,
    #[error("out of memory")]
    OutOfMemory,
}

impl From<AllocError> for TraceError {
    ghost from_gives = { λ _ e. e ≡ OutOfMemory };

    fn from(_error: AllocError) -> TraceError {
        TraceError::OutOfMemory
    }
}

impl<T: Drop> From<AllocFailed<T>> for TraceError {
    ghost from_gives = { λ _ e. e ≡ OutOfMemory };

    fn from(_error: AllocFailed<T>) -> TraceError {
        TraceError::OutOfMemory
    }
}

/// Writes the trace of these entries and this end to the writer, and flushes it. After an error some part of
/// the text has been written. Fails as `Write` where the writer does, and as `OutOfMemory`.
pub fn write_trace<W: Write>(
    alloc: Global,
    entries: &[Entry],
    end: u64,
    writer: &mut W,
) -> Result<(), TraceError>
    ensures written { OnOk result
        (Appends (W.contents writer.old) (W.contents writer.new) (trace_text entries.now end)) }
    ensures refused { IfErr result (λ e. (e ≡ TraceError.Write) ⊎ (e ≡ TraceError.OutOfMemory)) }
{
    let text = trace_text(alloc, entries, end)?;
    if writer.write_all(text.as_slice()).is_err() || writer.flush().is_err() {
        return Err(TraceError::Write);
    }
    Ok(())
}

/// The text of a trace.
fn trace_text(alloc: Global, entries: &[Entry], end: u64) -> Result<Vec<u8>, TraceError>
    ensures text { IfOk result (λ v. v.items ≡ trace_text entries.now end) }
    ensures refused { IsOkUnless result OutOfMemory }
{
    let mut table = WriterBuilder::new().from_writer(Vec::new(alloc));
    write_header(&mut table)?;
    for entry in entries {
        write_entry(alloc, &mut table, entry)?;
    }
    write_record(alloc, &mut table, end, b"END", &[])?;
    match table.into_inner() {
        Ok(text) => Ok(text),
        Err(_) => Err(TraceError::OutOfMemory),
    }
}

/// What stands before the first command in the text of a trace: the names of its columns.
pub fn head_text(alloc: Global) -> Result<Vec<u8>, TraceError>
    ensures text { IfOk result (λ v. v.items ≡ record_text header) }
    ensures refused { IsOkUnless result OutOfMemory }
{
    let mut names = WriterBuilder::new().from_writer(Vec::new(alloc));
    write_header(&mut names)?;
    match names.into_inner() {
        Ok(text) => Ok(text),
        Err(_) => Err(TraceError::OutOfMemory),
    }
}

/// The line of a command in the text of a trace.
pub fn entry_text(alloc: Global, entry: &Entry) -> Result<Vec<u8>, TraceError>
    ensures text { IfOk result (λ v. v.items ≡ record_text (command_fields entry.now.cycle entry.now.command)) }
    ensures refused { IsOkUnless result OutOfMemory }
{
    let mut line = WriterBuilder::new().from_writer(Vec::new(alloc));
    write_entry(alloc, &mut line, entry)?;
    match line.into_inner() {
        Ok(text) => Ok(text),
        Err(_) => Err(TraceError::OutOfMemory),
    }
}

/// What stands behind the last command in the text of a trace that ends in this cycle.
#[tactic(auto, unfolding(crate::specs::Text::end_fields))]
pub fn end_text(alloc: Global, end: u64) -> Result<Vec<u8>, TraceError>
    ensures text { IfOk result (λ v. v.items ≡ record_text (end_fields end)) }
    ensures refused { IsOkUnless result OutOfMemory }
{
    let mut last = WriterBuilder::new().from_writer(Vec::new(alloc));
    write_record(alloc, &mut last, end, b"END", &[])?;
    match last.into_inner() {
        Ok(text) => Ok(text),
        Err(_) => Err(TraceError::OutOfMemory),
    }
}

fn write_header(table: &mut Writer<Vec<u8>>) -> Result<(), TraceError>
    requires { IsReady table.old }
    ensures text { OnOk result (AddsRecord (λ v. Some v.items) table.old table.new header) }
    ensures ready { OnOk result (IsReady table.new) }
    ensures refused { IsOkUnless result OutOfMemory }
{
    let names: [&[u8]; 7] = [b"cycle", b"cmd", b"rank", b"group", b"bank", b"row", b"col"];
    match table.write_fields(&names) {
        Ok(()) => Ok(()),
        Err(_) => Err(TraceError::OutOfMemory),
    }
}

fn write_entry(alloc: Global, table: &mut Writer<Vec<u8>>, entry: &Entry) -> Result<(), TraceError>
    requires { IsReady table.old }
    ensures text { OnOk result (AddsRecord (λ v. Some v.items) table.old table.new
        (command_fields entry.now.cycle entry.now.command)) }
    ensures ready { OnOk result (IsReady table.new) }
    ensures refused { IsOkUnless result OutOfMemory }
{
    let cycle = entry.cycle;
    match entry.command {
        Command::Act {
            rank,
            group,
            bank,
            row,
        } => {
            let numbers = [
                u64::from(rank),
                u64::from(group),
                u64::from(bank),
                u64::from(row),
            ];
            write_record(alloc, table, cycle, b"ACT", &numbers)
        }
        Command::Rd {
            rank,
            group,
            bank,
            row,
            line,
        } => {
            let numbers = column_numbers(rank, group, bank, row, line);
            write_record(alloc, table, cycle, b"RD", &numbers)
        }
        Command::Wr {
            rank,
            group,
            bank,
            row,
            line,
        } => {
            let numbers = column_numbers(rank, group, bank, row, line);
            write_record(alloc, table, cycle, b"WR", &numbers)
        }
        Command::RdAuto {
            rank,
            group,
            bank,
            row,
            line,
        } => {
            let numbers = column_numbers(rank, group, bank, row, line);
            write_record(alloc, table, cycle, b"RDA", &numbers)
        }
        Command::WrAuto {
            rank,
            group,
            bank,
            row,
            line,
        } => {
            let numbers = column_numbers(rank, group, bank, row, line);
            write_record(alloc, table, cycle, b"WRA", &numbers)
        }
        Command::Pre { rank, group, bank } => {
            let numbers = [u64::from(rank), u64::from(group), u64::from(bank)];
            write_record(alloc, table, cycle, b"PRE", &numbers)
        }
        Command::PreAll { rank } => {
            write_record(alloc, table, cycle, b"PREA", &[u64::from(rank)])
        }
        Command::Refresh { rank } => {
            write_record(alloc, table, cycle, b"REF", &[u64::from(rank)])
        }
    }
}

/// The numbers of a read or a write.
fn column_numbers(rank: u32, group: u32, bank: u32, row: u32, line: u32) -> [u64; 5]
    ensures { result ≡ rank ∷ group ∷ bank ∷ row ∷ LINE_COLUMNS * line ∷ [] }
{
    [
        u64::from(rank),
        u64::from(group),
        u64::from(bank),
        u64::from(row),
        u64::from(LINE_COLUMNS) * u64::from(line),
    ]
}

/// Writes a record of a cycle, a name and at most five numbers, with empty fields for those that it lacks.
fn write_record(
    alloc: Global,
    table: &mut Writer<Vec<u8>>,
    cycle: u64,
    name: &[u8],
    numbers: &[u64],
) -> Result<(), TraceError>
    requires ready { IsReady table.old }
    requires plain { IsPlain name.now }
    requires few { length numbers.now ≤ 5 }
    ensures text { OnOk result (AddsRecord (λ v. Some v.items) table.old table.new
        (decimal cycle ∷ name.now ∷ (map decimal numbers.now ++ replicate (5 - length numbers.now) []))) }
    ensures ready { OnOk result (IsReady table.new) }
    ensures refused { IsOkUnless result OutOfMemory }
{
    let mut fields = ByteRecord::new(alloc);
    push_number(alloc, &mut fields, cycle)?;
    fields.push_field(name)?;
    push_numbers(alloc, &mut fields, numbers)?;
    push_empty(&mut fields, 5 - numbers.len())?;
    match table.write_byte_record(&fields) {
        Ok(()) => Ok(()),
        Err(_) => Err(TraceError::OutOfMemory),
    }
}

/// Adds a field for each number.
fn push_numbers(alloc: Global, fields: &mut ByteRecord, numbers: &[u64]) -> Result<(), TraceError>
    requires { partial_of fields.old ≡ [] }
    ensures fields { OnOk result (fields_of fields.new ≡ fields_of fields.old ++ map decimal numbers.now) }
    ensures partial { OnOk result (partial_of fields.new ≡ []) }
    ensures refused { IsOkUnless result OutOfMemory }
{
    for number in numbers {
        push_number(alloc, fields, *number)?;
    }
    Ok(())
}

/// Adds so many empty fields.
fn push_empty(fields: &mut ByteRecord, count: usize) -> Result<(), TraceError>
    requires { partial_of fields.old ≡ [] }
    ensures fields { OnOk result (fields_of fields.new ≡ fields_of fields.old ++ replicate count []) }
    ensures partial { OnOk result (partial_of fields.new ≡ []) }
    ensures refused { IsOkUnless result OutOfMemory }
{
    for _number in 0..count {
        fields.push_field(b"")?;
    }
    Ok(())
}

/// Adds a field for the number, in decimal.
fn push_number(alloc: Global, fields: &mut ByteRecord, number: u64) -> Result<(), TraceError>
    requires { partial_of fields.old ≡ [] }
    ensures fields { OnOk result (fields_of fields.new ≡ fields_of fields.old ++ decimal number ∷ []) }
    ensures partial { OnOk result (partial_of fields.new ≡ []) }
    ensures refused { IsOkUnless result OutOfMemory }
{
    let text = number.to_string(alloc)?;
    fields.push_field(text.as_bytes())?;
    Ok(())
}

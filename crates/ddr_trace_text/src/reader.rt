//! Traces read from their text, the counterpart of `text`.
//!
//! `specs/Reader.antt` has what the records of a text say. Below stands `parse`, one record of a trace.
ghost use Rattle.std.specs.Prelude.{◌≡◌, ◌≤◌, ◌+◌, ◌-◌, ◌⊎◌, [], ◌∷◌, List, ℕ, suc, IfErr, IfOk, None, OnOk, Ok, Some, length};
ghost use Rattle.csv.specs.Records.{fields_of};
ghost use Rattle.ddr_trace_text.specs.Parse.{is_header, record_of};
ghost use Rattle.ddr_timing.specs.declared.config.Config.{Config};
ghost use Rattle.ddr_trace.specs.declared.command.Entry.{Entry};
ghost use Rattle.ddr_trace_text.specs.Text.{trace_text};
ghost use Rattle.ddr_trace_text.specs.Reader.{FailsAs, FitsText, IsAnswer, behind_end, entries_of, records_in, trace_of};
ghost use Rattle.ddr_trace_text.specs.Table.{HasLeft, IsReading, Takes};
ghost use Rattle.ddr_trace.specs.Traces.{Recorded};

use crate::parse::{Parsed, is_header, parse_record};
use crate::text::TraceError;
use csv::{ByteRecord, ErrorKind, Reader, ReaderBuilder};
use ddr_trace::command::Entry;
use ddr_trace::trace::Trace;
use std::alloc::Global;
use std::io::Read;

/// The line of the first record behind the header; a line counts records from 1.
const FIRST_LINE: u64 = 2;

/// The line at which a command is one too many.
const LINE_TOO_FAR: u64 = 65_538;

/// Reads a trace from cycle 0 on. At most 65,539 records are taken: the header, 65,536 commands, END and one
/// behind it.
///
/// Fails at the fault that comes first in the text: `Header` where the first record is not the header, or there
/// is none; `Row` where a record is of no command and not END; `TooLong` at command 65,537; `Truncated` where
/// the text ends without END; `Order` where a record stands behind END. Fails as `Read` where the reader does,
/// and as `OutOfMemory`. Cycles out of order are not refused here; they break rule ORDER.
///
/// What `write_trace` wrote of at most 65,536 commands of a configuration is read back as it was.
pub fn read_trace<R: Read + Drop>(alloc: Global, reader: R) -> Result<Trace, TraceError>
    ensures read { (text : List ℕ) → R.remaining reader ≡ Some text → IsAnswer (trace_of (records_in text)) result }
    ensures back { (config : Config) (entries : List Entry) (end : ℕ) → FitsText config.geometry entries end
        → R.remaining reader ≡ Some (trace_text entries end)
        → IsAnswer (Ok (record { start = 0; end = end; entries = entries })) result }
{
    let mut table = ReaderBuilder::new()
        .has_headers(false)
        .flexible(true)
        .from_reader(alloc, reader);
    let mut fields = ByteRecord::new(alloc);
    read_header(&mut table, &mut fields)?;
    let mut entries = Vec::new(alloc);
    let end = read_entries(&mut table, &mut fields, &mut entries)?;
    read_nothing(&mut table, &mut fields, entries.len() as u64 + 3)?;
    Ok(Trace {
        start: 0,
        end,
        entries,
    })
}

/// Takes the header.
fn read_header<R: Read>(table: &mut Reader<R>, fields: &mut ByteRecord) -> Result<(), TraceError>
    requires { IsReading table.old }
    ensures reading { OnOk result (IsReading table.new) }
    ensures header { OnOk result ((n : ℕ) (records : List (List (List ℕ))) → HasLeft R.remaining table.old (suc n) records
        → (rest : List (List (List ℕ))) × (trace_of records ≡ entries_of FIRST_LINE [] rest) × HasLeft R.remaining table.new n rest) }
    ensures fault { IfErr result (λ e. (n : ℕ) (records : List (List (List ℕ))) → HasLeft R.remaining table.old (suc n) records
        → FailsAs (trace_of records) e) }
{
    if !next(table, fields)? {
        return Err(TraceError::Header);
    }
    if !is_header(fields) {
        return Err(TraceError::Header);
    }
    Ok(())
}

/// Takes the commands and END, and gives the trace's end.
fn read_entries<R: Read>(
    table: &mut Reader<R>,
    fields: &mut ByteRecord,
    entries: &mut Vec<Entry>,
) -> Result<u64, TraceError>
    requires reading { IsReading table.old }
    requires none { entries.old.items ≡ [] }
    ensures reading { OnOk result (IsReading table.new) }
    ensures few { OnOk result (length entries.new.items ≤ 65536) }
    ensures taken { IfOk result (λ end. (records : List (List (List ℕ))) → HasLeft R.remaining table.old 65538 records
        → (n : ℕ) × (rest : List (List (List ℕ))) × HasLeft R.remaining table.new (suc n) rest
        × (entries_of FIRST_LINE [] records ≡ behind_end (length entries.new.items + 3) (record { start = 0; end = end; entries = entries.new.items }) rest)) }
    ensures fault { IfErr result (λ e. (records : List (List (List ℕ))) → HasLeft R.remaining table.old 65538 records
        → FailsAs (entries_of FIRST_LINE [] records) e) }
{
    for line in FIRST_LINE..LINE_TOO_FAR {
        match read_record(table, fields, line)? {
            Parsed::Command(entry) => entries.push(entry)?,
            Parsed::End(end) => return Ok(end),
        }
    }
    match read_record(table, fields, LINE_TOO_FAR)? {
        Parsed::Command(_) => Err(TraceError::TooLong),
        Parsed::End(end) => Ok(end),
    }
}

/// Takes the record of a line behind the header. Fails as `Truncated` where there is none.
fn read_record<R: Read>(
    table: &mut Reader<R>,
    fields: &mut ByteRecord,
    line: u64,
) -> Result<Parsed, TraceError>
    requires { IsReading table.old }
    ensures reading { OnOk result (IsReading table.new) }
    ensures said { IfOk result (λ said. (n : ℕ) (records : List (List (List ℕ))) → HasLeft R.remaining table.old (suc n) records
        → (first : List (List ℕ)) × (rest : List (List (List ℕ)))
        × (records ≡ first ∷ rest) × (record_of first ≡ Some said) × HasLeft R.remaining table.new n rest) }
    ensures fault { IfErr result (λ e. (n : ℕ) (records : List (List (List ℕ))) (so_far : List Entry) → HasLeft R.remaining table.old (suc n) records
        → FailsAs (entries_of line so_far records) e) }
{
    if !next(table, fields)? {
        return Err(TraceError::Truncated);
    }
    match parse_record(fields) {
        Some(said) => Ok(said),
        None => Err(TraceError::Row { line }),
    }
}

/// Sees that no record stands behind END, at this line.
fn read_nothing<R: Read>(
    table: &mut Reader<R>,
    fields: &mut ByteRecord,
    line: u64,
) -> Result<(), TraceError>
    requires { IsReading table.old }
    ensures nothing { OnOk result ((n : ℕ) (records : List (List (List ℕ))) → HasLeft R.remaining table.old (suc n) records → records ≡ []) }
    ensures fault { IfErr result (λ e. (n : ℕ) (records : List (List (List ℕ))) (trace : Recorded) → HasLeft R.remaining table.old (suc n) records
        → FailsAs (behind_end line trace records) e) }
{
    if !next(table, fields)? {
        return Ok(());
    }
    match parse_record(fields) {
        Some(_) => Err(TraceError::Order { line }),
        None => Err(TraceError::Row { line }),
    }
}

/// Takes the next record, if there is one.
fn next<R: Read>(table: &mut Reader<R>, fields: &mut ByteRecord) -> Result<bool, TraceError>
    requires { IsReading table.old }
    ensures reading { OnOk result (IsReading table.new) }
    ensures takes { IfOk result (λ found. Takes R.remaining table.old table.new found (fields_of fields.new)) }
    ensures refused { IfErr result (λ e. (e ≡ TraceError.Read) ⊎ (e ≡ TraceError.OutOfMemory)) }
{
    match table.read_byte_record(fields) {
        Ok(found) => Ok(found),
        Err(error) => Err(match error.kind() {
            ErrorKind::Io(_) => TraceError::Read,
            _ => TraceError::OutOfMemory,
        }),
    }
}

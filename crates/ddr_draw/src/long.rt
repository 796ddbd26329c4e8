//! A trace of any length, read line by line, with memory that does not grow with it.
//!
//! `ddr_capture` stands below, which finds the lines and reads each, and `sketch`, which keeps what is in the picture; `part` stands
//! above. The lines are those of this project's own form: a number has no sign, a field no quotation marks, and no line is left out.
ghost use Rattle.std.specs.Prelude.{◌≡◌, ◌≢◌, [], IfErr, IfOk, IfSome, IsErrOf, IsTrue, List, Ok, OnOk, Option, ℕ};
ghost use Rattle.std.specs.Str.Lines.{lines};
ghost use Rattle.ddr_trace.specs.declared.command.Entry.{Entry};
ghost use Rattle.ddr_trace.specs.Traces.{Recorded};
ghost use Rattle.ddr_capture.specs.declared.feed.Found as found;
ghost use Rattle.ddr_capture.specs.Feed.{Along, HasFound, IsWell, left};
ghost use Rattle.ddr_capture.specs.Lines.{text_of};
ghost use Rattle.ddr_draw.specs.Long.{long_trace, row_of};
ghost use Rattle.ddr_draw.specs.Ahead.{EndsAt, IsBodyFault, IsEnd, IsHeader, IsRow, StandsAt, end_fault, header_fault, row_fault};
ghost use Rattle.ddr_draw.specs.Sketch.{IsSmall, Shows};

use crate::sketch::Sketch;
use ddr_capture::feed::{Feed, Found, LONGEST_LINE, Refusal, without_return};
use ddr_capture::line::{Said, read_line};
use ddr_text::command::Format;
use ddr_text::fault::Fault;
use ddr_text::source::Source;
use ddr_timing::config::Config;
use ddr_trace::command::Entry;
use std::alloc::Global;

/// The most commands of a long trace, this project's choice.
pub const MOST_COMMANDS: u64 = 0x4000_0000_0000_0000;

/// The header's line.
pub const HEADER: &[u8] = b"cycle,cmd,rank,group,bank,row,col";

/// What a line behind the header says.
#[derive(Clone, Copy, Debug, PartialEq, Eq)]
pub enum Row {
    Command(Entry),
    /// END, with the trace's end.
    End(u64),
}

/// Reads a trace to its end, and gives that.
///
/// Fails at the fault that comes first: as `TraceHeader` where the first line is not the header, as `TraceRow` at a line that is of
/// no command and not END, as `TraceTruncated` where there is no END, as `TraceOrder` at what stands behind it, and as
/// `InputTooLong` where there are 2^62 commands or more; as `Read` where the reader fails, and as `OutOfMemory`.
pub(crate) fn read_long<R: Source>(
    alloc: Global,
    config: &Config,
    feed: &mut Feed,
    reader: &mut R,
    sketch: &mut Sketch,
) -> Result<u64, Fault>
    requires well { IsWell feed.old }
    requires unread { sketch.old.count ≡ 0 }
    requires none { Shows config.now sketch.old [] }
    requires small { IsSmall config.now sketch.old }
    ensures view { OnOk result (sketch.new.view ≡ sketch.old.view) }
    ensures small { OnOk result (IsSmall config.now sketch.new) }
    ensures read { IfOk result (λ end. (entries : List Entry) × Shows config.now sketch.new entries
        × IfSome (left feed.old (R.remaining reader.old)) (λ body. long_trace (lines body) ≡ Ok (record { start = 0; end = end; entries = entries }))) }
    ensures refused { IfErr result (λ fault. IfSome (left feed.old (R.remaining reader.old)) (λ body. IsBodyFault body fault)) }
    ensures sure { IsErrOf result Fault.Read → IsTrue R.may_fail }
    ensures unwritten { ¬ IsErrOf result Fault.Write }
{
    read_header(feed, reader)?;
    for count in 0..MOST_COMMANDS {
        match next_row(count + 2, feed, reader)? {
            Row::Command(entry) => sketch.take(alloc, config, &entry)?,
            Row::End(end) => {
                read_nothing(count + 3, feed, reader)?;
                return Ok(end);
            }
        }
    }
    Err(Fault::InputTooLong)
}

/// Takes the header.
fn read_header<R: Source>(feed: &mut Feed, reader: &mut R) -> Result<(), Fault>
    requires { IsWell feed.old }
    ensures well { IsWell feed.new }
    ensures said { IsHeader (left feed.old (R.remaining reader.old)) (left feed.new (R.remaining reader.new)) result }
    ensures sure { IsErrOf result Fault.Read → IsTrue R.may_fail }
    ensures unwritten { ¬ IsErrOf result Fault.Write }
{
    match feed.next(reader) {
        Ok(found) => found_header(found, feed.line()),
        Err(refusal) => Err(header_fault(refusal)),
    }
}

/// Sees that what was found is the header.
fn found_header(found: Found, line: &[u8]) -> Result<(), Fault>
    ensures said { (a b : Option (List ℕ)) → HasFound found line.now a b → IsHeader a b result }
    ensures sure { ¬ IsErrOf result Fault.Read }
    ensures unwritten { ¬ IsErrOf result Fault.Write }
{
    match found {
        Found::Line => text_header(without_return(line)),
        Found::Last => text_header(line),
        Found::End => Err(Fault::TraceHeader),
    }
}

/// Sees that a line's text is the header.
fn text_header(text: &[u8]) -> Result<(), Fault>
    ensures said { (a b : Option (List ℕ)) (f : found.Found) (line : List ℕ) → HasFound f line a b → f ≢ Found.End → text.now ≡ text_of f line → IsHeader a b result }
    ensures sure { ¬ IsErrOf result Fault.Read }
    ensures unwritten { ¬ IsErrOf result Fault.Write }
{
    if text == HEADER {
        Ok(())
    } else {
        Err(Fault::TraceHeader)
    }
}

/// Takes the line of this number, which stands behind the header.
fn next_row<R: Source>(line: u64, feed: &mut Feed, reader: &mut R) -> Result<Row, Fault>
    requires { IsWell feed.old }
    ensures well { IsWell feed.new }
    ensures said { (so_far : List Entry) (a : Option (List ℕ)) → Along (StandsAt line so_far) a (left feed.old (R.remaining reader.old))
        → IsRow line so_far a (left feed.new (R.remaining reader.new)) result }
    ensures sure { IsErrOf result Fault.Read → IsTrue R.may_fail }
    ensures unwritten { ¬ IsErrOf result Fault.Write }
{
    match feed.next(reader) {
        Ok(found) => found_row(line, found, feed.line()),
        Err(refusal) => Err(row_fault(line, refusal)),
    }
}

/// What was found as the line of this number.
fn found_row(line: u64, found: Found, text: &[u8]) -> Result<Row, Fault>
    ensures said { (so_far : List Entry) (a b c : Option (List ℕ)) → Along (StandsAt line so_far) a b → HasFound found text.now b c → IsRow line so_far a c result }
    ensures sure { ¬ IsErrOf result Fault.Read }
    ensures unwritten { ¬ IsErrOf result Fault.Write }
{
    match found {
        Found::Line => text_row(line, without_return(text)),
        Found::Last => text_row(line, text),
        Found::End => Err(Fault::TraceTruncated),
    }
}

/// What the text of the line of this number says.
fn text_row(line: u64, text: &[u8]) -> Result<Row, Fault>
    ensures said { (so_far : List Entry) (a b c : Option (List ℕ)) (f : found.Found) (bytes : List ℕ) → Along (StandsAt line so_far) a b → HasFound f bytes b c → f ≢ Found.End
        → text.now ≡ text_of f bytes → IsRow line so_far a c result }
    ensures sure { ¬ IsErrOf result Fault.Read }
    ensures unwritten { ¬ IsErrOf result Fault.Write }
{
    match row_of(text) {
        Some(row) => Ok(row),
        None => Err(Fault::TraceRow { line }),
    }
}

/// What a line's text says, if it is a command or END.
#[tactic(auto, unfolding(crate::specs::Long::row_of))]
fn row_of(text: &[u8]) -> Option<Row>
    ensures { result ≡ row_of text.now }
{
    if text.len() > LONGEST_LINE {
        return None;
    }
    match read_line(Format::Own, false, text) {
        Ok(Said::Command { entry, .. }) => Some(Row::Command(entry)),
        Ok(Said::End(end)) => Some(Row::End(end)),
        _ => None,
    }
}

/// Sees that no line stands behind END, where this is the next line's number.
fn read_nothing<R: Source>(line: u64, feed: &mut Feed, reader: &mut R) -> Result<(), Fault>
    requires { IsWell feed.old }
    ensures said { (trace : Recorded) (a : Option (List ℕ)) → Along (EndsAt line trace) a (left feed.old (R.remaining reader.old)) → IsEnd trace a result }
    ensures sure { IsErrOf result Fault.Read → IsTrue R.may_fail }
    ensures unwritten { ¬ IsErrOf result Fault.Write }
{
    match feed.next(reader) {
        Ok(found) => found_nothing(line, found),
        Err(refusal) => Err(end_fault(line, refusal)),
    }
}

/// Sees that no line was found.
fn found_nothing(line: u64, found: Found) -> Result<(), Fault>
    ensures said { (trace : Recorded) (a b c : Option (List ℕ)) (text : List ℕ) → Along (EndsAt line trace) a b → HasFound found text b c → IsEnd trace a result }
    ensures sure { ¬ IsErrOf result Fault.Read }
    ensures unwritten { ¬ IsErrOf result Fault.Write }
{
    match found {
        Found::End => Ok(()),
        _ => Err(Fault::TraceOrder { line }),
    }
}

/// Why the header was not found.
fn header_fault(refusal: Refusal) -> Fault
    ensures { result ≡ header_fault refusal }
{
    match refusal {
        Refusal::Line => Fault::TraceHeader,
        Refusal::Read => Fault::Read,
        Refusal::OutOfMemory => Fault::OutOfMemory,
    }
}

/// Why a line behind the header was not found.
fn row_fault(line: u64, refusal: Refusal) -> Fault
    ensures { result ≡ row_fault line refusal }
{
    match refusal {
        Refusal::Line => Fault::TraceRow { line },
        Refusal::Read => Fault::Read,
        Refusal::OutOfMemory => Fault::OutOfMemory,
    }
}

/// Why it was not seen what stands behind END, or a long line does.
fn end_fault(line: u64, refusal: Refusal) -> Fault
    ensures { result ≡ end_fault line refusal }
{
    match refusal {
        Refusal::Line => Fault::TraceOrder { line },
        Refusal::Read => Fault::Read,
        Refusal::OutOfMemory => Fault::OutOfMemory,
    }
}

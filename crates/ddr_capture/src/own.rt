//! A line of this project's own form: a record of a trace's text, whose fields have no quotation marks.
//!
//! `cuts` stands below, and `line` above. `ddr_trace_text` says what a record is, and reads its fields.
ghost use Rattle.std.specs.Prelude.{◌≡◌, ◌≢◌, IfNone, IfOk, IfSome, length};
ghost use Rattle.ddr_trace_text.specs.Parse as trace;
ghost use Rattle.ddr_trace_text.specs.Parse.{fields_in};
ghost use Rattle.ddr_capture.specs.Fields.{cut};
ghost use Rattle.ddr_capture.specs.Line.{IsEarly, is_name, of_own, said_of_one};

use crate::cuts::{four_cut, last_cuts};
use crate::line::Said;
use ddr_text::fault::LineFault;
use ddr_trace_text::parse::{Address, Parsed, Record};

/// What a line says.
#[tactic(auto, using(crate::proofs::CutLemmas::not_seven))]
pub(crate) fn read_own(first: bool, line: &[u8]) -> Result<Said, LineFault>
    ensures exact { result ≡ of_own first (cut line.now) }
    ensures early { IfOk result IsEarly }
{
    match record_in(line) {
        Some(record) => read_record(first, &record),
        None => Err(LineFault::Fields),
    }
}

/// What seven fields say.
fn read_record(first: bool, fields: &Record<'_>) -> Result<Said, LineFault>
    ensures exact { result ≡ of_own first (fields_in fields.now) }
    ensures early { IfOk result IsEarly }
{
    if first && fields.is_header() {
        return Ok(Said::Nothing);
    }
    if !is_name(fields.name) {
        return Err(LineFault::Word);
    }
    match fields.parsed() {
        Some(parsed) => Ok(said(parsed)),
        None => Err(LineFault::Number),
    }
}

/// What a record says of the one channel.
fn said(parsed: Parsed) -> Said
    requires { trace.IsEarly parsed }
    ensures exact { result ≡ said_of_one parsed }
    ensures early { IsEarly result }
{
    match parsed {
        Parsed::Command(entry) => Said::Command {
            channel: Some(0),
            entry,
        },
        Parsed::End(cycle) => Said::End(cycle),
    }
}

/// Whether this is the name of a command, or END.
fn is_name(name: &[u8]) -> bool
    ensures { result ≡ is_name name.now }
{
    name == b"ACT".as_slice()
        || name == b"RD".as_slice()
        || name == b"WR".as_slice()
        || name == b"RDA".as_slice()
        || name == b"WRA".as_slice()
        || name == b"PRE".as_slice()
        || name == b"PREA".as_slice()
        || name == b"REF".as_slice()
        || name == b"END".as_slice()
}

/// The seven fields of a line; none where it has another number of them.
fn record_in(line: &[u8]) -> Option<Record<'_>>
    ensures some { IfSome result (λ r. cut line.now ≡ fields_in r) }
    ensures none { IfNone result (length (cut line.now) ≢ 7) }
{
    let (front, rest) = four_cut(line)?;
    let (bank, row, column) = last_cuts(rest)?;
    let address = Address {
        rank: front.third,
        group: front.fourth,
        bank,
        row,
        column,
    };
    Some(Record {
        cycle: front.first,
        name: front.second,
        address,
    })
}

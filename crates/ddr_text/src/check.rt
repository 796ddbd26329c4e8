//! Whether a trace is legal: a configuration and a trace's text in, a verdict out.
//!
//! `input`, `body`, `canonical`, `writing`, `ddr_legality`, `ddr_trace` and `ddr_trace_text` stand below, and the program above.
//! `ddr_explain` reads and judges a trace by the functions here.
ghost use Rattle.std.specs.Prelude.{◌≡◌, ◌≢◌, IfErr, IfOk, IfSome, IsErrOf, IsTrue, Ok, string_bytes};
ghost use Rattle.ddr_trace.specs.declared.checker.Fault as checker;
ghost use Rattle.ddr_trace_text.specs.Reader.{IsAnswer, records_in, trace_of};
ghost use Rattle.ddr_text.specs.Check.{HasCheckFault, IsChecked, IsVerdict, SaysTrace, in_memory, verdict_text};
ghost use Rattle.ddr_text.specs.Fault.{is_before_output};

use crate::body::take_apart;
use crate::canonical::canonical_trace;
use crate::fault::Fault;
use crate::input::{read_source, text_of};
use crate::sink::Sink;
use crate::source::Source;
use crate::writing::write_whole;
use ddr_legality::checker::first_fault;
use ddr_timing::config::Config;
use ddr_timing::geometry::Geometry;
use ddr_timing::profile::PROFILE_S;
use ddr_trace::checker;
use ddr_trace::trace::Trace;
use ddr_trace_text::reader::read_trace;
use ddr_trace_text::text::TraceError;
use std::alloc::{AllocError, Global};

/// Reads a trace, and writes `legal`, or `fault PLACE RULE` for its first fault; answers whether it is legal. It
/// is legal where it breaks no rule, the two on refresh among them.
///
/// With `sample` the whole input is the trace's text, on the sample configuration; else the input is a
/// configuration of either version, a line `---` and the text. A place counts the commands from 0, and is their number where the
/// trace's end is at fault.
///
/// Fails as `take_apart` does, and by the fault that comes first in the trace's text; as `Read` where the reader fails and as
/// `Write` where the writer does, and so never over bytes in memory. Nothing is written before the verdict is there, so only
/// `Write` may leave a part of it.
pub fn check<R: Source, W: Sink>(
    alloc: Global,
    sample: bool,
    reader: &mut R,
    writer: &mut W,
) -> Result<bool, Fault>
    ensures untouched { IfErr result (λ fault. IsTrue (is_before_output fault) → writer.new ≡ writer.old) }
    ensures sure { IsErrOf result Fault.Read → IsTrue R.may_fail }
    ensures taken { IsErrOf result Fault.Write → IsTrue W.may_fail }
    ensures spared { IsErrOf result Fault.OutOfMemory → W.contents writer.new ≡ W.contents writer.old }
    ensures unmoved { IsErrOf result Fault.OutOfMemory → IsTrue W.may_fail → writer.new ≡ writer.old }
    ensures fault { IfErr result (λ fault. IfSome (R.remaining reader.old) (λ input.
        HasCheckFault sample PROFILE_S.now input fault)) }
    ensures written { IfOk result (λ legal. IfSome (R.remaining reader.old) (λ input.
        IsChecked sample PROFILE_S.now input legal (W.contents writer.old) (W.contents writer.new))) }
{
    let (config, trace) = read_checked(alloc, sample, reader)?;
    let fault = verdict(alloc, &config, &trace)?;
    let line = verdict_text(alloc, fault)?;
    write_whole(writer, line.as_str())?;
    Ok(fault.is_none())
}

/// Reads what a check looks at, a configuration and a trace. The input is that of `check`; fails as `check` does where
/// it can't be read, and never as `Write`.
pub fn read_checked<R: Source>(
    alloc: Global,
    sample: bool,
    reader: &mut R,
) -> Result<(Config, Trace), Fault>
    ensures sure { IsErrOf result Fault.Read → IsTrue R.may_fail }
    ensures unwritten { ¬ IsErrOf result Fault.Write }
    ensures fault { IfErr result (λ fault. IfSome (R.remaining reader.old) (λ input.
        HasCheckFault sample PROFILE_S.now input fault)) }
    ensures said { IfOk result (λ read. IfSome (R.remaining reader.old) (λ input.
        SaysTrace sample PROFILE_S.now input read.0 (Ok read.1))) }
{
    let input = read_source(alloc, reader)?;
    let text = text_of(input.as_slice())?;
    let (config, body) = take_apart(alloc, sample, text)?;
    let trace = trace_in(alloc, &config.geometry, body)?;
    Ok((config, trace))
}

/// The trace of a body. Its text is in memory, and so it never fails as `Read`. The geometry has no say in the answer: a
/// text in the form that is written, of commands in it, is read by the shorter way. Where that way gives none, for want of
/// memory too, the text is read as any other, and so only `read_trace` fails.
fn trace_in(alloc: Global, geometry: &Geometry, body: &str) -> Result<Trace, TraceError>
    ensures read { IsAnswer (trace_of (records_in body.now)) result }
    ensures sure { IfErr result (λ refusal. refusal ≢ TraceError.Read) }
{
    if let Some(trace) = canonical_trace(alloc, geometry, body.as_bytes()) {
        return Ok(trace);
    }
    match read_trace(alloc, body.as_bytes()) {
        Ok(trace) => Ok(trace),
        Err(refusal) => Err(in_memory(refusal)),
    }
}

/// What refuses a text in memory. `Read` would be want of memory: no more may fail, though no clause says so.
fn in_memory(refusal: TraceError) -> TraceError
    ensures { result ≡ in_memory refusal }
{
    match refusal {
        TraceError::Read => TraceError::OutOfMemory,
        other => other,
    }
}

/// The first fault of the trace.
pub fn verdict(
    alloc: Global,
    config: &Config,
    trace: &Trace,
) -> Result<Option<checker::Fault>, AllocError>
    ensures { IfOk result (λ fault. IsVerdict config.now trace.entry.now fault) }
{
    first_fault(
        alloc,
        trace.entries.as_slice(),
        config,
        trace.start,
        trace.end,
    )
}

/// The line of a verdict, with its line feed.
#[tactic(auto, unfolding(crate::specs::Check::verdict_text))]
pub fn verdict_text(alloc: Global, fault: Option<checker::Fault>) -> Result<String, AllocError>
    ensures { IfOk result (λ text. string_bytes text ≡ verdict_text fault) }
{
    let Some(fault) = fault else {
        return String::from_str(alloc, "legal\n");
    };
    let place = fault.place;
    let rule = fault.rule.name();
    format!(in alloc; "fault {place} {rule}\n")
}

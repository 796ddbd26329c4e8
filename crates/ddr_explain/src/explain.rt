//! The command `check --explain`: a configuration and a trace's text in, a verdict out, and why it is so.
//!
//! `reason` and `check` of `ddr_text` stand below, and the program above.
ghost use Rattle.std.specs.Prelude.{◌≡◌, IfErr, IfOk, IfSome, IsErrOf, IsTrue, string_bytes};
ghost use Rattle.ddr_text.specs.Check.{HasCheckFault, IsVerdict};
ghost use Rattle.ddr_text.specs.Fault.{is_before_output};
ghost use Rattle.ddr_explain.specs.Explained.{Explains, IsExplained};

use crate::reason::reason;
use ddr_text::check::{read_checked, verdict, verdict_text};
use ddr_text::fault::Fault;
use ddr_text::sink::Sink;
use ddr_text::source::Source;
use ddr_text::writing::write_whole;
use ddr_timing::config::Config;
use ddr_timing::profile::PROFILE_S;
use ddr_trace::checker;
use ddr_trace::trace::Trace;
use std::alloc::{AllocError, Global};

/// Reads a trace, and writes the line of `check`; where that is a fault, a sentence on what it rests on stands behind.
/// Answers whether the trace is legal.
///
/// The input is that of `check`, and it fails as `check` does. Nothing is written before the whole text is there, so only
/// `Write` may leave a part of it.
pub fn explain<R: Source, W: Sink>(
    alloc: Global,
    sample: bool,
    reader: &mut R,
    writer: &mut W,
) -> Result<bool, Fault>
    ensures untouched { IfErr result (λ fault. IsTrue (is_before_output fault) → writer.new ≡ writer.old) }
    ensures sure { IsErrOf result Fault.Read → IsTrue R.may_fail }
    ensures taken { IsErrOf result Fault.Write → IsTrue W.may_fail }
    ensures spared { IsErrOf result Fault.OutOfMemory → W.contents writer.new ≡ W.contents writer.old }
    ensures unmoved { IsErrOf result Fault.OutOfMemory → IsTrue W.may_fail → writer.new ≡ writer.old }
    ensures fault { IfErr result (λ fault. IfSome (R.remaining reader.old) (λ input.
        HasCheckFault sample PROFILE_S.now input fault)) }
    ensures written { IfOk result (λ legal. IfSome (R.remaining reader.old) (λ input.
        IsExplained sample PROFILE_S.now input legal (W.contents writer.old) (W.contents writer.new))) }
{
    let (config, trace) = read_checked(alloc, sample, reader)?;
    let fault = verdict(alloc, &config, &trace)?;
    let text = explained(alloc, &config, &trace, fault)?;
    write_whole(writer, text.as_str())?;
    Ok(fault.is_none())
}

/// The line of the verdict, and behind it why it is a fault.
fn explained(
    alloc: Global,
    config: &Config,
    trace: &Trace,
    fault: Option<checker::Fault>,
) -> Result<String, AllocError>
    requires { IsVerdict config.now trace.now fault }
    ensures { IfOk result (λ text. Explains config.now trace.entry.now fault (string_bytes text)) }
{
    let mut text = verdict_text(alloc, fault)?;
    if let Some(fault) = fault {
        let why = reason(alloc, config, trace, fault)?;
        text.push_str(why.as_str())?;
    }
    Ok(text)
}

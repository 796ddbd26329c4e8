//! A run of a script: bytes in, replies or a trace out.
//!
//! `simulation` and `ddr_text` stand below, and `ddr_tool` above.
ghost use Rattle.std.specs.Prelude.{◌≡◌, IsTrue, IfErr, IfSome, IsErrOf, OnOk};
ghost use Rattle.ddr_text.specs.Fault.{is_before_output};
ghost use Rattle.ddr_sim.specs.Sims.{HasSimFault, IsRun, has_channel};

use crate::simulation::Simulation;
use ddr_text::body::take_apart;
use ddr_text::fault::Fault;
use ddr_text::input::{read_source, text_of};
use ddr_text::instructions::{Form, instructions_of};
use ddr_text::sink::Sink;
use ddr_text::source::Source;
use ddr_text::writing::flush;
use ddr_timing::config::Config;
use ddr_timing::profile::PROFILE_S;
use std::alloc::Global;

/// Reads a script and runs it.
///
/// With `sample` the whole input is the script, on the sample configuration; else the input is a configuration, a
/// line `---` and the script, which is read whole before its first step. Where `trace` is none, each reply and each
/// refusal is written as a line when it comes; where it names a channel, only the trace of that channel is, at the end.
///
/// Fails as `take_apart` does, then as `TraceNoSuch` where there is no such channel, then as `ScriptLine` at the first
/// line of the script that is at fault, or as `ScriptLimit` at the first request too many. At these nothing is written.
/// A run that needs too many rounds fails as `ScriptLimit` too, and what was written before stands, as at every later
/// fault; of a trace nothing is written where memory runs out. At its end the core is drained. Over bytes in memory it never
/// fails as `Read` or as `Write`.
pub fn sim<R: Source, W: Sink>(
    alloc: Global,
    sample: bool,
    trace: Option<u32>,
    reader: &mut R,
    writer: &mut W,
) -> Result<(), Fault>
    ensures untouched { IfErr result (λ fault. IsTrue (is_before_output fault) → writer.new ≡ writer.old) }
    ensures sure { IsErrOf result Fault.Read → IsTrue R.may_fail }
    ensures taken { IsErrOf result Fault.Write → IsTrue W.may_fail }
    ensures fault { IfErr result (λ fault. IfSome (R.remaining reader.old) (λ input.
        HasSimFault sample PROFILE_S.now trace input (W.contents writer.old) (W.contents writer.new) fault)) }
    ensures written { OnOk result (IfSome (R.remaining reader.old) (λ input.
        IsRun sample PROFILE_S.now trace input (W.contents writer.old) (W.contents writer.new))) }
{
    let input = read_source(alloc, reader)?;
    let text = text_of(input.as_slice())?;
    let (config, body) = take_apart(alloc, sample, text)?;
    if !has_channel(&config, trace) {
        return Err(Fault::TraceNoSuch);
    }
    let form = Form {
        ports: config.limits.ports,
        rounds: true,
    };
    let instructions = instructions_of(alloc, form, body)?;
    let mut simulation = Simulation::open(alloc, &config, trace.is_some())?;
    simulation.run(alloc, instructions.as_slice(), writer)?;
    match trace {
        None => flush(writer)?,
        Some(channel) => simulation.write_trace(alloc, channel, writer)?,
    }
    Ok(())
}

/// Whether the channel that is named, if one is, is there.
fn has_channel(config: &Config, trace: Option<u32>) -> bool
    ensures { result ≡ has_channel config.now trace }
{
    match trace {
        Some(channel) => channel < config.geometry.channels,
        None => true,
    }
}

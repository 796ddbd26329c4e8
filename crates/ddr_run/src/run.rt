//! A run of a script in threads: bytes in, the replies of each port and a verdict on each channel's trace out.
//!
//! `threads`, `outcome` and `ddr_text` stand below, and `ddr_tool` above.
ghost use Rattle.std.specs.Prelude.{◌≡◌, ◌≢◌, IfErr, IfOk, IfSome, IsErrOf, IsTrue, None, map, string_bytes};
ghost use Rattle.ddr_text.specs.Input.{IsText};
ghost use Rattle.ddr_text.specs.Script.{view};
ghost use Rattle.ddr_run.specs.declared.flag.Stop.TheVariants.{OutOfMemory};
ghost use Rattle.ddr_run.specs.Started.{AreChecked, HasRunFault, IsRan, IsRunStop, IsStopped, IsThreaded};

use crate::flag::{Flag, Stop};
use crate::outcome::{replies_of, verdicts_of};
use crate::threads::run_all;
use ddr_latency::clocks::leaves_time;
use ddr_text::body::take_apart;
use ddr_text::fault::Fault;
use ddr_text::input::{read_source, text_of};
use ddr_text::instructions::{Form, instructions_of};
use ddr_text::requests::check_requests;
use ddr_text::script::Instruction;
use ddr_text::sink::Sink;
use ddr_text::source::Source;
use ddr_text::writing::write_whole;
use ddr_timing::config::Config;
use ddr_timing::profile::PROFILE_S;
use ddr_workers::closing::{CloseError, all_ends_of_one_open};
use ddr_workers::{close, open_without_traces};
use std::alloc::Global;
use std::sync::Wait;
use std::thread::Threads;

/// By which the ends of a run are told from those of others. A run has one system.
const RUN: u64 = 0;

/// Reads a script and runs it, with a thread for each port and one for each channel.
///
/// With `sample` the whole input is the script, on the sample configuration; else the input is a configuration, a
/// line `---` and the script. Each port asks for what its lines say, in order, and keeps its replies. Once all threads
/// ended these are written, those of port 0 first, and then a line for each channel: `channel C legal`, or `channel C fault
/// PLACE RULE` for the first fault of its trace, which a judge was told command by command and of which nothing is kept. Answers whether
/// all traces are legal, which is proved to be so: no trace has a fault.
///
/// Fails as `take_apart` does, then as `ScriptLine` at the first line of the script that is at fault, of which `cycle` is
/// one, or as `ScriptLimit` at the first request too many, and then as `RequestLine` at the first request that no port
/// takes. Where a thread stops before its end it fails as `OutOfMemory`, `ClockSpent` or `PortBroken`, and where the system
/// gives too few threads as `ThreadsRefused`; and as `RunStuck` where a refresh interval leaves no time to serve a request, and for 64 of
/// them a channel had requests and served none. Nothing is written before all threads ended. Over bytes in memory it never fails
/// as `Read` or as `Write`.
pub fn run<H: Threads + Wait + Sync, R: Source, W: Sink>(
    rt: &H,
    alloc: Global,
    sample: bool,
    reader: &mut R,
    writer: &mut W,
) -> Result<bool, Fault>
    ensures untouched { IfErr result (λ fault. fault ≢ Fault.Write → fault ≢ Fault.OutOfMemory → writer.new ≡ writer.old) }
    ensures sure { IsErrOf result Fault.Read → IsTrue R.may_fail }
    ensures taken { IsErrOf result Fault.Write → IsTrue W.may_fail }
    ensures spared { IsErrOf result Fault.OutOfMemory → W.contents writer.new ≡ W.contents writer.old }
    ensures unmoved { IsErrOf result Fault.OutOfMemory → IsTrue W.may_fail → writer.new ≡ writer.old }
    ensures fault { IfErr result (λ fault. IfSome (R.remaining reader.old) (λ input.
        HasRunFault sample PROFILE_S.now input fault)) }
    ensures written { IfOk result (λ legal. IfSome (R.remaining reader.old) (λ input.
        IsRan sample PROFILE_S.now input legal (W.contents writer.old) (W.contents writer.new))) }
{
    let input = read_source(alloc, reader)?;
    let text = text_of(input.as_slice())?;
    let (config, instructions) = read_requests(alloc, sample, text)?;
    let (text, legal) = run_to_end(rt, alloc, &config, instructions.as_slice())?;
    write_whole(writer, text.as_str())?;
    Ok(legal)
}

/// Runs a script that was checked, and gives the text that is to be written, and whether all traces are legal. Fails as `run` does.
fn run_to_end<H: Threads + Wait + Sync>(
    rt: &H,
    alloc: Global,
    config: &Config,
    instructions: &[Instruction],
) -> Result<(String, bool), Fault>
    ensures ran { IfOk result (λ ran. IsThreaded config.now (map view instructions.now) (string_bytes ran.0) ran.1) }
    ensures stopped { IfErr result (IsRunStop config.now) }
{
    let flag = Flag::of_run(config);
    match run_threads(rt, alloc, &flag, config, instructions) {
        Ok(ran) => Ok(ran),
        Err(stop) => Err(fault_of(config, &flag, stop)),
    }
}

/// The fault that a run ends by whose threads stopped so: where all of them were told to, since a channel went on no more.
fn fault_of(config: &Config, flag: &Flag, stop: Stop) -> Fault
    ensures { IsRunStop config.now result }
{
    match (stop, flag.stuck_in()) {
        (Stop::Told, Some(cycle)) if !leaves_time(config) => Fault::RunStuck { cycle },
        _ => Fault::from(stop),
    }
}

/// The configuration of a text, and its script's instructions, each of which asks for what a port takes. Nothing is written
/// yet and nothing is read anymore, so it never fails as `Write` or `Read`.
fn read_requests(
    alloc: Global,
    sample: bool,
    text: &str,
) -> Result<(Config, Vec<Instruction>), Fault>
    requires { IsText text.now }
    ensures ok { IfOk result (λ read. AreChecked sample PROFILE_S.now text.now read.0 (map view read.1.items) None) }
    ensures err { IfErr result (HasRunFault sample PROFILE_S.now text.now) }
    ensures sure { IfErr result (λ fault. fault ≢ Fault.Write) }
    ensures read { IfErr result (λ fault. fault ≢ Fault.Read) }
{
    let (config, body) = take_apart(alloc, sample, text)?;
    let form = Form {
        ports: config.limits.ports,
        rounds: false,
    };
    let instructions = instructions_of(alloc, form, body)?;
    check_requests(alloc, &config, body)?;
    Ok((config, instructions))
}

/// Runs a script that was checked, and gives the text that is to be written, and whether all traces are legal.
///
/// Fails as `run_all` does. A request that no port takes stops its port as `PortBroken`.
pub fn run_threads<H: Threads + Wait + Sync>(
    rt: &H,
    alloc: Global,
    flag: &Flag,
    config: &Config,
    instructions: &[Instruction],
) -> Result<(String, bool), Stop>
    ensures ran { IfOk result (λ ran. IsThreaded config.now (map view instructions.now) (string_bytes ran.0) ran.1) }
    ensures stopped { IfErr result (λ stop. (stop ≡ OutOfMemory → ⊥) → IsStopped config.now (map view instructions.now) stop) }
{
    let _limits = config.limits;
    let (ports, workers) = open_without_traces(alloc, config, RUN)?;
    let ended = run_all(rt, alloc, flag, instructions, ports, workers)?;
    let replies = replies_of(alloc, ended.ports)?;
    all_ends_of_one_open();
    let closed = match close(rt, alloc, RUN, replies.ends, ended.workers) {
        Ok(closed) => closed,
        Err(CloseError::OutOfMemory(_)) => return Err(Stop::OutOfMemory),
        Err(CloseError::Foreign(_)) => unreachable!(),
        Err(CloseError::Missing(_)) => unreachable!(),
    };
    let (verdicts, legal) = verdicts_of(alloc, closed.faults.as_slice())?;
    let mut text = replies.text;
    text.push_str(verdicts.as_str())?;
    Ok((text, legal))
}

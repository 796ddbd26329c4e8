//! The command `draw`: a configuration and a trace's text in, a picture of the trace out.
//!
//! `waves`, `part` and `check` of `ddr_text` stand below, and the program above.
ghost use Rattle.std.specs.Prelude.{◌≡◌, IfErr, IfOk, IfSome, IsErrOf, IsTrue, None, string_bytes};
ghost use Rattle.ddr_text.specs.Check.{HasCheckFault};
ghost use Rattle.ddr_text.specs.Fault.{is_before_output};
ghost use Rattle.ddr_draw.specs.Drawn.{IsDumped};
ghost use Rattle.ddr_draw.specs.Part.{AreLanes, HasDrawFault, HasWholeFault, IsDrawnText, IsShortText};
ghost use Rattle.ddr_draw.specs.Waves.{waves_text};

use crate::part::{part_text, picture_of, view_of};
use crate::view::Asked;
use crate::waves::waves_text;
use ddr_text::check::read_checked;
use ddr_text::fault::Fault;
use ddr_text::sink::Sink;
use ddr_text::source::Source;
use ddr_text::writing::write_whole;
use ddr_timing::config::Config;
use ddr_timing::profile::PROFILE_S;
use ddr_trace::trace::Trace;
use std::alloc::{AllocError, Global};

/// Reads a trace, and writes it as a value change dump (IEEE 1364, "Value change dump (VCD) files"; strings as values are GTKWave's
/// extension), in which one unit of time is one clock. Its variables are the command bus, the data bus and each bank of a channel; a
/// command of a bank that the memory lacks stands on the command bus, and its burst on the data bus.
///
/// A bank is open from its ACT on, and idle from its precharge on or from the start of its auto-precharge. The data bus has the
/// burst of a read or a write for its four clocks. A trace that breaks rules is shown too: a burst then ends where the next read's
/// or write's begins, and what stands before the trace's start is shown in its first cycle.
///
/// The input is that of `check`, and it fails as `check` does. Nothing is written before the whole text is there, so only
/// `Write` may leave a part of it.
pub fn waves<R: Source, W: Sink>(
    alloc: Global,
    sample: bool,
    reader: &mut R,
    writer: &mut W,
) -> Result<(), Fault>
    ensures untouched { IfErr result (λ fault. IsTrue (is_before_output fault) → writer.new ≡ writer.old) }
    ensures sure { IsErrOf result Fault.Read → IsTrue R.may_fail }
    ensures taken { IsErrOf result Fault.Write → IsTrue W.may_fail }
    ensures spared { IsErrOf result Fault.OutOfMemory → W.contents writer.new ≡ W.contents writer.old }
    ensures unmoved { IsErrOf result Fault.OutOfMemory → IsTrue W.may_fail → writer.new ≡ writer.old }
    ensures fault { IfErr result (λ fault. IfSome (R.remaining reader.old) (λ input.
        HasCheckFault sample PROFILE_S.now input fault)) }
    ensures written { IfOk result (λ _. IfSome (R.remaining reader.old) (λ input.
        IsDumped sample PROFILE_S.now input (W.contents writer.old) (W.contents writer.new))) }
{
    let (config, trace) = read_checked(alloc, sample, reader)?;
    let text = dump_of(alloc, &config, &trace)?;
    write_whole(writer, text.as_str())?;
    Ok(())
}

/// The value change dump of a trace.
fn dump_of(alloc: Global, config: &Config, trace: &Trace) -> Result<String, AllocError>
    ensures { IfOk result (λ text. let t = trace.now in
        string_bytes text ≡ waves_text config.now t.start t.end t.entries) }
{
    waves_text(
        alloc,
        config,
        trace.start,
        trace.end,
        trace.entries.as_slice(),
    )
}

/// Reads a trace, and writes a picture of it as scalable vector graphics (SVG 1.1): its cycles from `from` on, up to `to` and
/// without it, at most `MOST_CLOCKS` of them; those of the whole trace where none are named.
///
/// There is a lane for the command bus, one for the data bus with the bursts of reads and writes, and one for each bank with its
/// commands and with its open rows; PREA and REF go over all lanes of their rank. Where the pointer rests on a command, its cycle, its
/// line in the trace's text and its place are told, and what it waited for: of the rules on distances the one that allowed it last, by
/// the `MOST_BACK` commands before it. A command of a place that the memory lacks stands on the buses alone.
///
/// The input is that of `check`, and it fails as `check` does, but that a whole trace of more than 65,536 commands fails as
/// `DrawTooLong`. Where `from` or `to` is named a trace may have any length. One that is too long for `check` is then read line by
/// line, in the form in which `check --stream` reads this project's traces and without empty lines and comments; the picture is that
/// of the whole of it, and the memory that it takes is that of what the picture shows, besides as much as `check` takes.
///
/// Nothing is written before the whole text is there, so only `Write` may leave a part of it.
pub fn lanes<R: Source, W: Sink>(
    alloc: Global,
    sample: bool,
    from: Option<u64>,
    to: Option<u64>,
    reader: &mut R,
    writer: &mut W,
) -> Result<(), Fault>
    ensures untouched { IfErr result (λ fault. IsTrue (is_before_output fault) → writer.new ≡ writer.old) }
    ensures sure { IsErrOf result Fault.Read → IsTrue R.may_fail }
    ensures taken { IsErrOf result Fault.Write → IsTrue W.may_fail }
    ensures spared { IsErrOf result Fault.OutOfMemory → W.contents writer.new ≡ W.contents writer.old }
    ensures unmoved { IsErrOf result Fault.OutOfMemory → IsTrue W.may_fail → writer.new ≡ writer.old }
    ensures fault { IfErr result (λ fault. IfSome (R.remaining reader.old) (λ input.
        HasDrawFault sample PROFILE_S.now input from to fault)) }
    ensures written { IfOk result (λ _. IfSome (R.remaining reader.old) (λ input.
        AreLanes sample PROFILE_S.now input from to (W.contents writer.old) (W.contents writer.new))) }
{
    let text = lanes_text(alloc, sample, Asked { from, to }, reader)?;
    write_whole(writer, text.as_str())?;
    Ok(())
}

/// The picture of the whole trace, or of the part that is asked for.
fn lanes_text<R: Source>(
    alloc: Global,
    sample: bool,
    asked: Asked,
    reader: &mut R,
) -> Result<String, Fault>
    ensures sure { IsErrOf result Fault.Read → IsTrue R.may_fail }
    ensures unwritten { ¬ IsErrOf result Fault.Write }
    ensures fault { IfErr result (λ fault. IfSome (R.remaining reader.old) (λ input.
        HasDrawFault sample PROFILE_S.now input asked.from asked.to fault)) }
    ensures said { IfOk result (λ text. IfSome (R.remaining reader.old) (λ input.
        IsDrawnText sample PROFILE_S.now input asked.from asked.to (string_bytes text))) }
{
    if asked.from.is_none() && asked.to.is_none() {
        whole_text(alloc, sample, reader)
    } else {
        part_text(alloc, sample, asked, reader)
    }
}

/// The picture of the whole trace.
fn whole_text<R: Source>(alloc: Global, sample: bool, reader: &mut R) -> Result<String, Fault>
    ensures sure { IsErrOf result Fault.Read → IsTrue R.may_fail }
    ensures unwritten { ¬ IsErrOf result Fault.Write }
    ensures fault { IfErr result (λ fault. IfSome (R.remaining reader.old) (λ input.
        HasWholeFault sample PROFILE_S.now input fault)) }
    ensures said { IfOk result (λ text. IfSome (R.remaining reader.old) (λ input.
        IsShortText sample PROFILE_S.now input None None (string_bytes text))) }
{
    match read_checked(alloc, sample, reader) {
        Ok((config, trace)) => {
            let view = view_of(&trace, None, None);
            let text = picture_of(alloc, &config, &view, &trace)?;
            Ok(text)
        }
        Err(Fault::TraceTooLong) => Err(Fault::DrawTooLong),
        Err(fault) => Err(fault),
    }
}

//! The picture of a part of a trace, whatever the trace's length.
//!
//! `joined`, `long`, `sketch` and `lanes` stand below, and `draw` above. What `check` reads is read whole, as `check` does; only what
//! is too long for that is read line by line, and of it no more is kept than the picture shows.
ghost use Rattle.std.specs.Prelude.{◌≡◌, ◌≤◌, IfErr, IfNone, IfOk, IfSome, IsErrOf, IsTrue, List, Option, length, string_bytes, true, ℕ};
ghost use Rattle.ddr_text.specs.Check.{HasCheckFault};
ghost use Rattle.ddr_draw.specs.Drawn.{IsView};
ghost use Rattle.ddr_draw.specs.Lanes.{picture_text};
ghost use Rattle.ddr_draw.specs.Long.{HasLongFault, IsLong};
ghost use Rattle.ddr_draw.specs.Part.{HasPartFault, IsLongText, IsPartText, IsShortText, IsStart};

use crate::joined::{Joined, Start, read_start};
use crate::lanes::picture_text;
use crate::long::read_long;
use crate::sketch::Sketch;
use crate::view::{Asked, View};
use ddr_capture::feed::Feed;
use ddr_capture::front::read_config;
use ddr_text::check::read_checked;
use ddr_text::fault::Fault;
use ddr_text::input::LONGEST_INPUT;
use ddr_text::source::Source;
use ddr_timing::config::Config;
use ddr_timing::profile::PROFILE_S;
use ddr_trace::trace::Trace;
use std::alloc::{AllocError, Global};

/// The picture of the cycles that are asked for.
pub(crate) fn part_text<R: Source>(
    alloc: Global,
    sample: bool,
    asked: Asked,
    reader: &mut R,
) -> Result<String, Fault>
    ensures sure { IsErrOf result Fault.Read → IsTrue R.may_fail }
    ensures unwritten { ¬ IsErrOf result Fault.Write }
    ensures fault { IfErr result (λ fault. IfSome (R.remaining reader.old) (λ input. HasPartFault sample PROFILE_S.now input fault)) }
    ensures said { IfOk result (λ text. IfSome (R.remaining reader.old) (λ input. IsPartText sample PROFILE_S.now input asked.from asked.to (string_bytes text))) }
{
    let start = read_start(alloc, reader)?;
    match start_text(alloc, sample, asked, &start)? {
        Some(text) => Ok(text),
        None => {
            let mut joined = Joined {
                start: start.bytes.as_slice(),
                reader,
            };
            long_text(alloc, sample, asked, &mut joined)
        }
    }
}

/// The picture, where the input was read whole and `check` reads it; none where it is too long for that.
fn start_text(
    alloc: Global,
    sample: bool,
    asked: Asked,
    start: &Start,
) -> Result<Option<String>, Fault>
    requires { start.now.is_whole ≡ true → length start.now.bytes.items ≤ LONGEST_INPUT }
    ensures sure { ¬ IsErrOf result Fault.Read }
    ensures unwritten { ¬ IsErrOf result Fault.Write }
    ensures fault { IfErr result (λ fault. (old new : Option (List ℕ)) → IsStart old start.now new → IfSome old (λ input. HasPartFault sample PROFILE_S.now input fault)) }
    ensures some { IfOk result (λ told. IfSome told (λ text. (old new : Option (List ℕ)) → IsStart old start.now new
        → IfSome old (λ input. IsPartText sample PROFILE_S.now input asked.from asked.to (string_bytes text)))) }
    ensures none { IfOk result (λ told. IfNone told ((old new : Option (List ℕ)) → IsStart old start.now new → IfSome old (IsLong sample PROFILE_S.now))) }
{
    if !start.is_whole {
        return Ok(None);
    }
    match short_text(alloc, sample, asked, start.bytes.as_slice()) {
        Ok(text) => Ok(Some(text)),
        Err(Fault::TraceTooLong) => Ok(None),
        Err(fault) => Err(fault),
    }
}

/// The picture of these cycles of a trace that `check` reads. Fails as `check` does.
fn short_text(alloc: Global, sample: bool, asked: Asked, input: &[u8]) -> Result<String, Fault>
    requires { length input.now ≤ LONGEST_INPUT }
    ensures sure { ¬ IsErrOf result Fault.Read }
    ensures short { ¬ IsErrOf result Fault.InputTooLong }
    ensures unwritten { ¬ IsErrOf result Fault.Write }
    ensures fault { IfErr result (λ fault. HasCheckFault sample PROFILE_S.now input.now fault) }
    ensures said { IfOk result (λ text. IsShortText sample PROFILE_S.now input.now asked.from asked.to (string_bytes text)) }
{
    let mut reader = input;
    let (config, trace) = read_checked(alloc, sample, &mut reader)?;
    let view = view_of(&trace, asked.from, asked.to);
    let text = picture_of(alloc, &config, &view, &trace)?;
    Ok(text)
}

/// The cycles of the trace that are asked for.
pub(crate) fn view_of(trace: &Trace, from: Option<u64>, to: Option<u64>) -> View
    ensures { let t = trace.now in IsView from to t.start t.end result }
{
    View::new(trace.start, trace.end, from, to)
}

/// The picture of these cycles of a trace.
pub(crate) fn picture_of(
    alloc: Global,
    config: &Config,
    view: &View,
    trace: &Trace,
) -> Result<String, AllocError>
    ensures { IfOk result (λ text. string_bytes text ≡ picture_text config.now view.now trace.now.entries) }
{
    picture_text(alloc, config, view, trace.entries.as_slice())
}

/// The picture of these cycles of a trace of any length.
fn long_text<R: Source>(
    alloc: Global,
    sample: bool,
    asked: Asked,
    reader: &mut R,
) -> Result<String, Fault>
    ensures sure { IsErrOf result Fault.Read → IsTrue R.may_fail }
    ensures unwritten { ¬ IsErrOf result Fault.Write }
    ensures fault { IfErr result (λ fault. IfSome (R.remaining reader.old) (λ input. HasLongFault sample PROFILE_S.now input fault)) }
    ensures said { IfOk result (λ text. IfSome (R.remaining reader.old) (λ input. IsLongText sample PROFILE_S.now input asked.from asked.to (string_bytes text))) }
{
    let mut feed = Feed::new(alloc);
    let config = read_config(alloc, sample, &mut feed, reader)?;
    let mut sketch = Sketch::new(alloc, View::new(0, u64::MAX, asked.from, asked.to));
    let end = read_long(alloc, &config, &mut feed, reader, &mut sketch)?;
    let view = View::new(0, end, asked.from, asked.to);
    let text = sketch.picture_text(alloc, &config, &view)?;
    Ok(text)
}

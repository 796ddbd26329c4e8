//! The commands on configurations, traces and addresses, which need no scheduler.
//!
//! Nothing of the crate stands below, and the programs above.
ghost use Rattle.std.specs.Prelude.{◌≡◌, IfOk, None, Ok, is_some, not, true};
ghost use Rattle.ddr_shell.specs.Needs.{needs_scheduler};

use ddr_capture::capture::capture;
use ddr_capture::form::Form;
use ddr_draw::draw::{lanes, waves};
use ddr_explain::all::check_all;
use ddr_explain::explain::explain;
use ddr_lint::bound::bound;
use ddr_lint::lint::lint;
use ddr_text::check::check;
use ddr_text::fault::Fault;
use ddr_text::map::map;
use ddr_text::sink::Sink;
use ddr_text::source::Source;
use ddr_words::command::{Job, Picture};
use std::alloc::Global;

/// The status of a trace that is not legal.
const NOT_LEGAL: u8 = 1;

/// Performs a command on a reader and a writer, by the function of its name, and answers the status that the program ends with: 0,
/// 1 for a trace that is not legal, or that of `lint`. None, with nothing read or written, where the command runs a script or a
/// stream.
pub fn perform_on_traces<R: Source, W: Sink>(
    alloc: Global,
    asked: Job,
    reader: &mut R,
    writer: &mut W,
) -> Result<Option<u8>, Fault>
    ensures performed { IfOk result (λ status. is_some status ≡ not (needs_scheduler asked)) }
    ensures passed_over { needs_scheduler asked ≡ true → (writer.new ≡ writer.old) × (reader.new ≡ reader.old) × (result ≡ Ok None) }
{
    match asked {
        Job::Check { sample } => status_of(check(alloc, sample, reader, writer)),
        Job::Explain { sample } => status_of(explain(alloc, sample, reader, writer)),
        Job::All { sample, most } => status_of(check_all(alloc, sample, most, reader, writer)),
        Job::Stream {
            sample,
            format,
            start,
            channel,
        } => {
            let form = Form { format, channel };
            status_of(capture(alloc, sample, form, start, reader, writer))
        }
        Job::Draw { sample, picture } => {
            draw(alloc, sample, picture, reader, writer)?;
            Ok(Some(0))
        }
        Job::Map { sample } => {
            map(alloc, sample, reader, writer)?;
            Ok(Some(0))
        }
        Job::Lint { sample } => Ok(Some(lint(alloc, sample, reader, writer)?.status())),
        Job::Bound { sample } => Ok(Some(bound(alloc, sample, reader, writer)?.status())),
        Job::Sim { .. } | Job::Run { .. } | Job::Replay { .. } | Job::Measure { .. } => Ok(None),
    }
}

/// Draws a trace.
fn draw<R: Source, W: Sink>(
    alloc: Global,
    sample: bool,
    picture: Picture,
    reader: &mut R,
    writer: &mut W,
) -> Result<(), Fault> {
    match picture {
        Picture::Waves => waves(alloc, sample, reader, writer),
        Picture::Lanes { from, to } => lanes(alloc, sample, from, to, reader, writer),
    }
}

/// The status of traces that are all legal, or of which one is not.
fn status_of(legal: Result<bool, Fault>) -> Result<Option<u8>, Fault>
    ensures { IfOk result (λ status. is_some status ≡ true) }
{
    Ok(Some(if legal? { 0 } else { NOT_LEGAL }))
}

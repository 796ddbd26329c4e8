//! A line of a captured trace.
//!
//! `own` and `tool` stand below, which read the lines that are not skipped.
ghost use Rattle.std.specs.Prelude.{◌≡◌, IfOk};
ghost use Rattle.ddr_text.specs.Script.{is_skipped};
ghost use Rattle.ddr_capture.specs.Line.{IsEarly, of_form, said_of};

use crate::own::read_own;
use crate::tool::{read_cut, read_spaced};
use ddr_text::command::Format;
use ddr_text::fault::LineFault;
use ddr_trace::command::Entry;

/// What a line says.
#[derive(Clone, Copy, Debug, PartialEq, Eq)]
pub enum Said {
    /// Nothing: the line is empty, a comment, which begins with `#`, or the header.
    Nothing,
    /// A command, of the channel that the line names, if it names one.
    Command { channel: Option<u32>, entry: Entry },
    /// The trace's end.
    End(u64),
}

/// What a line says, which has no end of its own. The header of this project's form may stand in the first line alone. Fails as
/// `Fields` where there are not as many fields as the form has, else as `Word` where the name is of no command of the form, and
/// else as `Number` where a field is not as the command wants it.
#[tactic(auto, unfolding(crate::specs::Line::said_of))]
pub fn read_line(format: Format, first: bool, line: &[u8]) -> Result<Said, LineFault>
    ensures exact { result ≡ said_of format first line.now }
    ensures early { IfOk result IsEarly }
{
    if is_skipped(line) {
        return Ok(Said::Nothing);
    }
    read_form(format, first, line)
}

/// What a line says that is not skipped.
fn read_form(format: Format, first: bool, line: &[u8]) -> Result<Said, LineFault>
    ensures exact { result ≡ of_form format first line.now }
    ensures early { IfOk result IsEarly }
{
    match format {
        Format::Own => read_own(first, line),
        Format::Dramsim3 => read_spaced(line),
        Format::Ramulator2 => read_cut(line),
    }
}

/// Whether a line does nothing: it is empty, or a comment.
pub(crate) fn is_skipped(line: &[u8]) -> bool
    ensures { result ≡ is_skipped line.now }
{
    line.is_empty() || line[0] == b'#'
}

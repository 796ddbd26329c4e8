//! A configuration's faults, all of them, and its oddities: a configuration in, a line for each finding out.
//!
//! `verdict`, `ddr_findings` and the inputs, outputs and faults of `ddr_text` stand below, and `bound` and the program above.
ghost use Rattle.std.specs.Prelude.{◌≡◌, ◌⊎◌, IfErr, IfOk, IfSome, IsErrOf, IsTrue};
ghost use Rattle.std.specs.Io.KnownBytes.{Appends};
ghost use Rattle.toml.specs.Parse.{parse_document};
ghost use Rattle.ddr_text.specs.Fault.{is_before_output};
ghost use Rattle.ddr_lint.specs.Lint.{HasLintFault, IsLinted, configuration_of, report_of, verdict_on};

use crate::verdict::Verdict;
use ddr_findings::lint;
use ddr_findings::text::findings_text;
use ddr_text::body::split;
use ddr_text::fault::Fault;
use ddr_text::input::{read_source, text_of};
use ddr_text::sink::Sink;
use ddr_text::source::Source;
use ddr_text::writing::write_whole;
use ddr_timing::profile::PROFILE_S;
use std::alloc::Global;

/// Reads a configuration, and writes a line for each finding: first all that speaks against it, then what is strange about
/// it; answers what the findings amount to.
///
/// The input is a configuration of either version. Where it has a line `---`, the configuration ends there, and what stands
/// behind is not looked at. With `sample` the sample configuration is looked through, and nothing is read.
///
/// Fails as `InputTooLong`, as `InputNotUtf8`, as `Read` where the reader fails, as `Write` where the writer does, and as
/// `OutOfMemory`; a configuration at fault is no failure. Nothing is written before the whole text is there, so only
/// `Write` may leave a part of it.
pub fn lint<R: Source, W: Sink>(
    alloc: Global,
    sample: bool,
    reader: &mut R,
    writer: &mut W,
) -> Result<Verdict, Fault>
    ensures unread { IsTrue sample → reader.new ≡ reader.old }
    ensures untouched { IfErr result (λ fault. IsTrue (is_before_output fault) → writer.new ≡ writer.old) }
    ensures sure { IsErrOf result Fault.Read → IsTrue R.may_fail }
    ensures taken { IsErrOf result Fault.Write → IsTrue W.may_fail }
    ensures spared { IsErrOf result Fault.OutOfMemory → W.contents writer.new ≡ W.contents writer.old }
    ensures unmoved { IsErrOf result Fault.OutOfMemory → IsTrue W.may_fail → writer.new ≡ writer.old }
    ensures fault { IfErr result (λ fault. IfSome (R.remaining reader.old) (λ input. HasLintFault sample input fault)) }
    ensures written { IfOk result (λ verdict. IfSome (R.remaining reader.old) (λ input.
        IsLinted sample PROFILE_S.now input verdict (W.contents writer.old) (W.contents writer.new))) }
{
    if sample {
        return report(alloc, PROFILE_S, writer);
    }
    let input = read_source(alloc, reader)?;
    let text = text_of(input.as_slice())?;
    report(alloc, configuration(text), writer)
}

/// The configuration of an input: what stands before the first line `---`, or all of it where no line is that.
pub(crate) fn configuration(text: &str) -> &str
    ensures { result.now ≡ configuration_of text.now }
{
    match split(text) {
        Ok((configuration, _)) => configuration,
        Err(_) => text,
    }
}

/// Writes the findings of a configuration's text.
pub(crate) fn report<W: Sink>(alloc: Global, text: &str, writer: &mut W) -> Result<Verdict, Fault>
    ensures written { IfOk result (λ _. Appends (W.contents writer.old) (W.contents writer.new) (report_of (parse_document text.now))) }
    ensures answered { IfOk result (λ verdict. verdict ≡ verdict_on (parse_document text.now)) }
    ensures refused { IfErr result (λ fault. (fault ≡ Fault.OutOfMemory) ⊎ (fault ≡ Fault.Write)) }
    ensures taken { IsErrOf result Fault.Write → IsTrue W.may_fail }
    ensures spared { IsErrOf result Fault.OutOfMemory → W.contents writer.new ≡ W.contents writer.old }
    ensures unmoved { IsErrOf result Fault.OutOfMemory → IsTrue W.may_fail → writer.new ≡ writer.old }
{
    let findings = lint::lint(alloc, text)?;
    let lines = findings_text(alloc, &findings)?;
    write_whole(writer, lines.as_str())?;
    Ok(Verdict::on(&findings))
}

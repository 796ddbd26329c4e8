//! How long a request takes at most: a configuration in, a table with the bound and its parts out.
//!
//! `lint`, `bound_text` and `verdict` stand below, and the program above.
ghost use Rattle.std.specs.Prelude.{◌≡◌, ◌⊎◌, IfErr, IfOk, IfSome, IsErrOf, IsTrue};
ghost use Rattle.std.specs.Io.KnownBytes.{Appends};
ghost use Rattle.toml.specs.Parse.{parse_document};
ghost use Rattle.ddr_text.specs.Fault.{is_before_output};
ghost use Rattle.ddr_lint.specs.Bound.{IsBounded, IsTold, bound_verdict};
ghost use Rattle.ddr_lint.specs.BoundText.{bound_text};
ghost use Rattle.ddr_lint.specs.Lint.{HasLintFault};

use crate::bound_text::bound_text;
use crate::lint::{configuration, report};
use crate::verdict::Verdict;
use ddr_text::fault::Fault;
use ddr_text::input::{read_source, text_of};
use ddr_text::sink::Sink;
use ddr_text::source::Source;
use ddr_text::writing::write_whole;
use ddr_timing::config::Config;
use ddr_timing::error::ConfigError;
use ddr_timing::profile::PROFILE_S;
use std::alloc::Global;

/// Reads a configuration, and writes the bound on the clocks of a request with its parts, as TOML; answers whether it is proved. Of a
/// configuration at fault it writes and answers what `lint` does.
///
/// The input, `sample` and the failures are those of `lint`.
pub fn bound<R: Source, W: Sink>(
    alloc: Global,
    sample: bool,
    reader: &mut R,
    writer: &mut W,
) -> Result<Verdict, Fault>
    ensures unread { IsTrue sample → reader.new ≡ reader.old }
    ensures untouched { IfErr result (λ fault. IsTrue (is_before_output fault) → writer.new ≡ writer.old) }
    ensures sure { IsErrOf result Fault.Read → IsTrue R.may_fail }
    ensures taken { IsErrOf result Fault.Write → IsTrue W.may_fail }
    ensures spared { IsErrOf result Fault.OutOfMemory → W.contents writer.new ≡ W.contents writer.old }
    ensures unmoved { IsErrOf result Fault.OutOfMemory → IsTrue W.may_fail → writer.new ≡ writer.old }
    ensures fault { IfErr result (λ fault. IfSome (R.remaining reader.old) (λ input. HasLintFault sample input fault)) }
    ensures written { IfOk result (λ verdict. IfSome (R.remaining reader.old) (λ input.
        IsBounded sample PROFILE_S.now input verdict (W.contents writer.old) (W.contents writer.new))) }
{
    if sample {
        return tell(alloc, PROFILE_S, writer);
    }
    let input = read_source(alloc, reader)?;
    let text = text_of(input.as_slice())?;
    tell(alloc, configuration(text), writer)
}

/// Writes the bound of a configuration's text, or what is at fault in it.
fn tell<W: Sink>(alloc: Global, text: &str, writer: &mut W) -> Result<Verdict, Fault>
    ensures written { IfOk result (λ verdict. IsTold (parse_document text.now) verdict (W.contents writer.old) (W.contents writer.new)) }
    ensures refused { IfErr result (λ fault. (fault ≡ Fault.OutOfMemory) ⊎ (fault ≡ Fault.Write)) }
    ensures taken { IsErrOf result Fault.Write → IsTrue W.may_fail }
    ensures spared { IsErrOf result Fault.OutOfMemory → W.contents writer.new ≡ W.contents writer.old }
    ensures unmoved { IsErrOf result Fault.OutOfMemory → IsTrue W.may_fail → writer.new ≡ writer.old }
{
    match Config::read(alloc, text) {
        Ok(config) => write_bound(alloc, &config, writer),
        Err(ConfigError::OutOfMemory) => Err(Fault::OutOfMemory),
        Err(_) => report(alloc, text, writer),
    }
}

/// Writes the bound of a configuration.
fn write_bound<W: Sink>(alloc: Global, config: &Config, writer: &mut W) -> Result<Verdict, Fault>
    ensures written { IfOk result (λ _. Appends (W.contents writer.old) (W.contents writer.new) (bound_text config.now)) }
    ensures answered { IfOk result (λ verdict. verdict ≡ bound_verdict config.now) }
    ensures refused { IfErr result (λ fault. (fault ≡ Fault.OutOfMemory) ⊎ (fault ≡ Fault.Write)) }
    ensures taken { IsErrOf result Fault.Write → IsTrue W.may_fail }
    ensures spared { IsErrOf result Fault.OutOfMemory → W.contents writer.new ≡ W.contents writer.old }
    ensures unmoved { IsErrOf result Fault.OutOfMemory → IsTrue W.may_fail → writer.new ≡ writer.old }
{
    let table = bound_text(alloc, config)?;
    write_whole(writer, table.as_str())?;
    Ok(Verdict::on_bound(config))
}

//! The two parts of a command's input: a configuration, and the body that the command is for.
//!
//! `fault` and `ddr_timing` stand below; every command takes its input apart by this.
ghost use Rattle.std.specs.Prelude.{◌≡◌, ◌≤◌, ◌++◌, ◌∷◌, IfErr, IfOk, None, Some, false, length};
ghost use Rattle.std.specs.Str.Lines.{lines};
ghost use Rattle.ddr_text.specs.Body.{HasConfigFault, IsConfig, HasParts, IsRefused, has_mark, is_mark, parts_of, split_of};

use crate::fault::Fault;
use ddr_timing::config::Config;
use ddr_timing::profile::PROFILE_S;
use std::alloc::Global;

/// The line that ends a configuration.
const MARK: &str = "---";

/// The configuration of an input, of either version, and the input's body.
///
/// With `sample` the configuration is the sample and the whole text is the body; else the text has both parts.
/// Fails as `InputHasNoMark` where it has not, then by the first refusal of the configuration, and as `OutOfMemory`.
pub fn take_apart(alloc: Global, sample: bool, text: &str) -> Result<(Config, &str), Fault>
    ensures opened { IfOk result (λ opened. HasParts (parts_of sample PROFILE_S.now text.now) opened.0 opened.1.now) }
    ensures short { IfOk result (λ opened. length opened.1.now ≤ length text.now) }
    ensures refused { IfErr result (IsRefused (parts_of sample PROFILE_S.now text.now)) }
{
    let (config, body) = if sample {
        (PROFILE_S, text)
    } else {
        split(text)?
    };
    Ok((configuration(alloc, config)?, body))
}

/// The configuration that a text says.
fn configuration(alloc: Global, text: &str) -> Result<Config, Fault>
    ensures read { IfOk result (IsConfig text.now) }
    ensures refused { IfErr result (HasConfigFault text.now) }
{
    Ok(Config::read(alloc, text)?)
}

/// The configuration's text and the body: what stands before the first line `---`, and what stands behind it.
///
/// A line ends with LF or CR LF, and the last one may lack its end, but a CR is no end. Fails as `InputHasNoMark`
/// where no line is `---`.
pub fn split(text: &str) -> Result<(&str, &str), Fault>
    ensures parts { IfOk result (λ parts. split_of text.now ≡ Some (parts.0.now, parts.1.now)) }
    // By the lines of both parts, which say the same again: the mark stands between them, and is the first.
    ensures lines { IfOk result (λ parts. lines text.now ≡ lines parts.0.now ++ (MARK.now ∷ lines parts.1.now)) }
    ensures first { IfOk result (λ parts. has_mark parts.0.now ≡ false) }
    ensures short { IfOk result (λ parts. length parts.1.now ≤ length text.now) }
    ensures refused { IfErr result (λ fault.
        (fault ≡ Fault.InputHasNoMark) × (split_of text.now ≡ None) × (has_mark text.now ≡ false)) }
{
    let mut rest = text;
    'lines: while let Some((line, behind)) = rest.split_once('\n') {
        if is_mark(line) {
            let end = text.len() - rest.len();
            return Ok((&text[..end], behind));
        }
        rest = behind;
    }
    if rest == MARK {
        let end = text.len() - rest.len();
        return Ok((&text[..end], ""));
    }
    Err(Fault::InputHasNoMark)
}

/// Whether a line that LF ends is the mark.
fn is_mark(line: &str) -> bool
    ensures { result ≡ is_mark line.now }
{
    line == MARK || line == "---\r"
}

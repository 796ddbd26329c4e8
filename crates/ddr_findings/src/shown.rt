//! How names and values are told, within a line.
ghost use Rattle.std.specs.Prelude.{◌≡◌, ◌<◌, IfOk, string_bytes};
ghost use Rattle.toml.specs.Data as toml;
ghost use Rattle.toml.specs.View.{view};
ghost use Rattle.ddr_findings.specs.Shown.{plain, printed, shown};

use std::alloc::{AllocError, Global};
use toml::Value;

/// The value as it is told: in full where it is an integer, a flag or a text, else its type.
#[tactic(auto, unfolding(crate::specs::Shown::shown))]
pub(crate) fn shown(alloc: Global, value: &Value) -> Result<String, AllocError>
    ensures { IfOk result (λ text. string_bytes text ≡ shown (view value.now)) }
{
    match value {
        Value::Integer(n) => format!(in alloc; "{n}"),
        Value::Boolean(true) => String::from_str(alloc, "true"),
        Value::Boolean(false) => String::from_str(alloc, "false"),
        Value::String(text) => quoted(alloc, text.as_str()),
        Value::Float(_) => String::from_str(alloc, "a float"),
        Value::Datetime(_) => String::from_str(alloc, "a date"),
        Value::Array(_) => String::from_str(alloc, "an array"),
        Value::Table(_) => String::from_str(alloc, "a table"),
    }
}

/// The text in quotation marks.
#[tactic(auto, unfolding(crate::specs::Shown::shown))]
fn quoted(alloc: Global, text: &str) -> Result<String, AllocError>
    ensures { IfOk result (λ told. string_bytes told ≡ shown (toml.string text.now)) }
{
    let plain = plain(alloc, text)?;
    format!(in alloc; "\"{plain}\"")
}

/// The text with a question mark for each byte that does not print in ASCII.
pub(crate) fn plain(alloc: Global, text: &str) -> Result<String, AllocError>
    ensures { IfOk result (λ told. string_bytes told ≡ plain text.now) }
{
    let mut told = String::new(alloc);
    for byte in text.as_bytes() {
        told.push(char::from(printed(*byte)))?;
    }
    Ok(told)
}

/// The byte where it prints in ASCII, and a question mark for another.
fn printed(byte: u8) -> u8
    ensures value { result ≡ printed byte }
    ensures ascii { result < 128 }
{
    if 32 <= byte && byte < 127 { byte } else { b'?' }
}

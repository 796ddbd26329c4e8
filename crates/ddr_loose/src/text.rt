//! A configuration's text as a host in C hands it over: bytes, and room for the text of a refusal.
//!
//! `ddr_timing` stands below, which reads the text, and `open` of `ddr_c` and of `ddr_judge_c` above, which has a code for each `Unread`.
ghost use Rattle.std.specs.Prelude.{◌≡◌, length};
ghost use Rattle.ddr_loose.specs.Text.{IsRead, IsShown, IsTold, message_after};

use ddr_timing::config::Config;
use ddr_timing::error::ConfigError;
use std::alloc::Global;

/// Why there is no configuration.
#[derive(Clone, Copy)]
pub enum Unread {
    /// The text is no UTF-8, or is refused.
    Refused,
    /// Memory was refused.
    OutOfMemory,
}

/// Reads a configuration. A refusal's text is copied as far as it fits, and its whole length told.
pub fn read_config(
    alloc: Global,
    text: &[u8],
    message: &mut [u8],
    length: &mut u64,
) -> Result<Config, Unread>
    ensures read { IsRead text.now result }
    ensures shown { IsShown result message.old message.new length.old length.new }
{
    let Ok(text) = std::str::from_utf8(text) else {
        *length = copied("the configuration is not UTF-8", message);
        return Err(Unread::Refused);
    };
    match Config::read(alloc, text) {
        Ok(config) => Ok(config),
        Err(ConfigError::OutOfMemory) => Err(Unread::OutOfMemory),
        Err(error) => Err(told(alloc, &error, message, length)),
    }
}

/// Copies the text of a configuration's refusal.
fn told(alloc: Global, error: &ConfigError, message: &mut [u8], length: &mut u64) -> Unread
    ensures { IsTold result message.old message.new length.old length.new }
{
    match format!(in alloc; "{error}") {
        Ok(text) => {
            *length = copied(text.as_str(), message);
            Unread::Refused
        }
        Err(_) => Unread::OutOfMemory,
    }
}

/// Copies a text as far as it fits, and tells its whole length.
fn copied(text: &str, buffer: &mut [u8]) -> u64
    ensures length { result ≡ length text.now }
    ensures copied { buffer.new ≡ message_after text.now buffer.old }
{
    let bytes = text.as_bytes();
    let count = bytes.len().min(buffer.len());
    buffer[..count].copy_from_slice(&bytes[..count]);
    bytes.len() as u64
}

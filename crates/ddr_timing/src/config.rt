//! A whole configuration, and how its text is read.
ghost use Rattle.std.specs.Prelude.{◌==◌, ◌||◌, ◌&&◌, IsTrue, not};

use crate::check::check;
use crate::error::ConfigError;
use crate::geometry::Geometry;
use crate::limits::Limits;
use crate::timing::Timing;
use crate::values;
use std::alloc::Global;

/// An accepted configuration: the facts on its three parts are all the ranges and relations.
#[derive(Clone, Copy, Debug)]
pub struct Config {
    pub timing: Timing,
    pub geometry: Geometry,
    pub limits: Limits,
    ghost first_version: { IsTrue (geometry.version == 2 || not limits.closed && timing.rtrs == 1) },
}

impl Config {
    ghost use Rattle.std.specs.Prelude.{◌≡◌, ◌≢◌, Some, IfErr, IfOk};
    ghost use Rattle.toml.specs.Errors.{IsBlank};
    ghost use Rattle.toml.specs.Parse.{parse_document};
    ghost use Rattle.ddr_timing.specs.Refusals.{refusal_of};
    ghost use Rattle.ddr_timing.specs.Values.{IsReadAs};

    /// Reads a configuration's text, a TOML document.
    ///
    /// The answer is a function of the table that the text is, unless memory runs out: the first
    /// refusal that applies, in the order of `ConfigError`, or the table's values.
    pub fn read(alloc: Global, text: &str) -> Result<Config, ConfigError>
        ensures read { IfOk result (λ config. IsReadAs (parse_document text.now) config) }
        ensures refused { IfErr result (λ refusal. refusal ≢ ConfigError.OutOfMemory → refusal_of (parse_document text.now) ≡ Some refusal) }
        ensures blank { IfErr result (λ refusal. refusal ≡ ConfigError.OutOfMemory → ¬ IsBlank text.now) }
    {
        let table = match toml::table_from_str(alloc, text) {
            Ok(table) => table,
            Err(error) if error.is_memory() => return Err(ConfigError::OutOfMemory),
            Err(_) => return Err(ConfigError::Syntax),
        };
        check(&table)?;
        Ok(Config {
            timing: values::timing(&table),
            geometry: values::geometry(&table),
            limits: values::limits(&table),
        })
    }
}

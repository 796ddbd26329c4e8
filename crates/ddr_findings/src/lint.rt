//! All findings of a configuration's text.
//!
//! `faults` and `warnings` stand below, and the command `lint` above.
ghost use Rattle.std.specs.Prelude.{◌≡◌, ◌≢◌, ◌↔◌, IfOk, None, [], map};
ghost use Rattle.toml.specs.Parse.{parse_document};
ghost use Rattle.ddr_timing.specs.Refusals.{refusal_of};
ghost use Rattle.ddr_findings.specs.Faults.{faults_of, told};
ghost use Rattle.ddr_findings.specs.Warnings.{warnings_of};

use crate::fault::ConfigFault;
use crate::faults::faults;
use crate::warning::Warning;
use crate::warnings::warnings;
use std::alloc::{AllocError, Global};

/// What is found in a configuration's text.
#[derive(Debug, Drop)]
pub struct Findings {
    /// All that speaks against it. `Config::read` accepts the text exactly where there is none.
    pub faults: Vec<ConfigFault>,
    /// What is strange about its values, also beside faults: each value is looked at for itself.
    pub warnings: Vec<Warning>,
}

/// The findings of a configuration's text, of either version.
///
/// A relation is told where all keys that it speaks of are there and in range, and a warning too. Fails where memory runs
/// out.
pub fn lint(alloc: Global, text: &str) -> Result<Findings, AllocError>
    ensures faults { IfOk result (λ findings. map told findings.faults.items ≡ faults_of (parse_document text.now)) }
    ensures warnings { IfOk result (λ findings. findings.warnings.items ≡ warnings_of (parse_document text.now)) }
    ensures accepted { IfOk result (λ findings. (findings.faults.items ≡ []) ↔ (refusal_of (parse_document text.now) ≡ None)) }
{
    let table = match toml::table_from_str(alloc, text) {
        Ok(table) => table,
        Err(error) if error.is_memory() => return Err(AllocError),
        Err(_) => return unread(alloc),
    };
    Ok(Findings {
        faults: faults(alloc, &table)?,
        warnings: warnings(alloc, &table)?,
    })
}

/// The findings of a text that is no TOML document.
#[tactic(auto, unfolding(crate::specs::Faults::faults_of, crate::specs::Warnings::warnings_of))]
fn unread(alloc: Global) -> Result<Findings, AllocError>
    ensures faults { IfOk result (λ findings. map told findings.faults.items ≡ faults_of None) }
    ensures some { IfOk result (λ findings. findings.faults.items ≢ []) }
    ensures warnings { IfOk result (λ findings. findings.warnings.items ≡ warnings_of None) }
{
    let mut faults = Vec::new(alloc);
    faults.push(ConfigFault::Syntax)?;
    Ok(Findings {
        faults,
        warnings: Vec::new(alloc),
    })
}

//! What a configuration's findings amount to, or its bound.
ghost use Rattle.std.specs.Prelude.{◌≡◌, map};
ghost use Rattle.ddr_findings.specs.Faults.{told};
ghost use Rattle.ddr_lint.specs.Bound.{bound_verdict};
ghost use Rattle.ddr_lint.specs.Lint.{status_of, verdict_of};

use ddr_findings::lint::Findings;
use ddr_latency::bound::leaves_room;
use ddr_timing::config::Config;

/// What a configuration's findings amount to.
#[derive(Clone, Copy, Debug, PartialEq, Eq)]
pub enum Verdict {
    /// Nothing was found, or the bound that was asked for is proved.
    Clean,
    /// The configuration is accepted, and something of it is strange, or no bound is proved where one was asked for.
    Strange,
    /// The configuration is refused.
    AtFault,
}

impl Verdict {
    /// The verdict on what was found.
    pub fn on(findings: &Findings) -> Verdict
        ensures { result ≡ verdict_of (map told findings.now.faults.items) findings.now.warnings.items }
    {
        if !findings.faults.is_empty() {
            Verdict::AtFault
        } else if !findings.warnings.is_empty() {
            Verdict::Strange
        } else {
            Verdict::Clean
        }
    }

    /// The verdict on a configuration whose bound was asked for.
    pub fn on_bound(config: &Config) -> Verdict
        ensures { result ≡ bound_verdict config.now }
    {
        if leaves_room(config) {
            Verdict::Clean
        } else {
            Verdict::Strange
        }
    }

    /// The status that the program ends with: 0, 1 where something is strange or no bound is proved, 2 where something is at fault.
    pub fn status(self) -> u8
        ensures { result ≡ status_of self }
    {
        match self {
            Verdict::Clean => 0,
            Verdict::Strange => 1,
            Verdict::AtFault => 2,
        }
    }
}

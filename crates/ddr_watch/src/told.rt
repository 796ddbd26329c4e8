//! What is told of a command that breaks a rule.
//!
//! `watch` stands above.
ghost use Rattle.std.specs.Prelude.{◌<◌, ◌^◌};

use ddr_evidence::evidence::Evidence;
use ddr_trace::rule::Rule;

/// The lowest rule that a command breaks, and what that rests on.
#[derive(Clone, Copy, Debug, PartialEq, Eq)]
pub struct Told {
    /// The place that it has, or would have, among the commands of its channel that count, from 0.
    pub place: u64,
    pub rule: Rule,
    /// `None` where that may be a command that is no longer kept.
    pub evidence: Option<Evidence>,
    pub ghost in_range: { place < 2 ^ 63 },
}

//! The first fault of a channel.
//!
//! `channel_judge` and `judge` stand above.
use ddr_trace::rule::Rule;

/// The lowest place of a channel's commands that breaks a rule, with the lowest rule broken there.
#[derive(Clone, Copy, Debug, PartialEq, Eq)]
pub struct Fault {
    /// The place among the channel's commands, counted from 0; the number of them where the trace's end breaks the rule.
    pub place: u64,
    pub rule: Rule,
    /// The line of the command; `None` where the trace's end breaks the rule.
    pub line: Option<u64>,
}

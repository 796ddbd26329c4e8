//! Traces worked out by hand, with the timing of the sample configuration.
use ddr_samples::sample::with_lines;
use ddr_timing::config::Config;
use ddr_trace::checker::{Fault, first_fault};
use ddr_trace::command::Entry;
use ddr_trace::rule::Rule;
use std::alloc::Global;
use std::process::Abort;
use std::test::Fail;

mod auto_precharge;
mod bank;
mod entries;
mod number;
mod ranks;
mod read;
mod rules;
mod text;

/// A rule, commands, the first cycle behind them, and the place that breaks the rule, where the trace isn't legal.
type Case = (Rule, &'static [Entry], u64, Option<usize>);

fn fault_at(place: Option<usize>, rule: Rule) -> Option<Fault> {
    Some(Fault {
        place: place?,
        rule,
    })
}

fn check(rt: &impl Abort, config: &Config, start: u64, cases: &[Case]) {
    for (rule, entries, end, place) in cases {
        let found = first_fault(entries, config, start, *end);
        assert_eq!(rt; found, fault_at(*place, *rule), "{rule:?}");
    }
}

/// Commands of a trace up to cycle 99, and the rule that the last one breaks, where the trace isn't legal.
type Ending = (&'static [Entry], Option<Rule>);

fn fault_at_last(entries: &[Entry], rule: Option<Rule>) -> Option<Fault> {
    Some(Fault {
        place: entries.len().checked_sub(1)?,
        rule: rule?,
    })
}

fn check_last(rt: &impl Abort, config: &Config, endings: &[(&[Entry], Option<Rule>)]) {
    for (entries, rule) in endings {
        let found = first_fault(entries, config, 0, 100);
        assert_eq!(rt; found, fault_at_last(entries, *rule), "{entries:?}");
    }
}

/// The configuration of a profile with other lines.
fn config_with(alloc: Global, profile: &str, lines: &[(&str, &str)]) -> Result<Config, Fail> {
    let text = with_lines(alloc, profile, lines)?;
    Ok(Config::read(alloc, text.as_str())?)
}

//! How long requests took, as text.
//!
//! `times` and `ledger` stand below, and `ddr_replay` above. `specs/TimesReport.antt` has the text, byte for byte.
ghost use Rattle.std.specs.Prelude.{◌≡◌, ◌++◌, IfOk, codes, flat_map, string_bytes};
ghost use Rattle.std.specs.Fmt.{decimal};
ghost use Rattle.ddr_ledger.specs.TimesReport.{bounds_lines, histogram_line, latency_lines, latency_table, ledger_tables, numbers_list, ports_times, times_tables, waits_tables};

use crate::ledger::Ledger;
use crate::times::{Latency, Times, Waits, bound_of};
use std::alloc::{AllocError, Global};

/// A table of each owner (`total`, `port.P`), kind (`read`, `write`) and span (`accepted_to_issued`, `accepted_to_released`),
/// with the keys `count`, `clocks` (the sum), `least`, `most`, `p50_at_most`, `p90_at_most`, `p99_at_most` and `histogram`.
#[tactic(auto, unfolding(crate::specs::TimesReport::ledger_tables))]
pub fn ledger_tables(alloc: Global, ledger: &Ledger) -> Result<String, AllocError>
    ensures { IfOk result (λ text. string_bytes text ≡ ledger_tables ledger.now) }
{
    let mut text = times_tables(alloc, "total", ledger.total())?;
    let ports = ports_times(alloc, ledger.ports())?;
    text.push_str(ports.as_str())?;
    Ok(text)
}

/// The tables of the ports.
fn ports_times(alloc: Global, ports: &[Times]) -> Result<String, AllocError>
    ensures { IfOk result (λ text. string_bytes text ≡ ports_times 0 ports.now) }
{
    let mut text = String::new(alloc);
    for (port, times) in ports.iter().enumerate() {
        let owner = format!(in alloc; "port.{port}")?;
        let tables = times_tables(alloc, owner.as_str(), times)?;
        text.push_str(tables.as_str())?;
    }
    Ok(text)
}

/// The tables of an owner.
#[tactic(auto, unfolding(crate::specs::TimesReport::times_tables))]
fn times_tables(alloc: Global, owner: &str, times: &Times) -> Result<String, AllocError>
    ensures { IfOk result (λ text. string_bytes text ≡ times_tables owner.now times.now) }
{
    let mut text = waits_tables(alloc, owner, "read", &times.reads)?;
    let writes = waits_tables(alloc, owner, "write", &times.writes)?;
    text.push_str(writes.as_str())?;
    Ok(text)
}

/// The tables of the requests of one kind of an owner.
#[tactic(auto, unfolding(crate::specs::TimesReport::waits_tables))]
fn waits_tables(alloc: Global, owner: &str, kind: &str, waits: &Waits) -> Result<String, AllocError>
    ensures { IfOk result (λ text. string_bytes text ≡ waits_tables owner.now kind.now waits.now) }
{
    let mut text = latency_table(alloc, owner, kind, "accepted_to_issued", &waits.to_issue)?;
    let released = latency_table(
        alloc,
        owner,
        kind,
        "accepted_to_released",
        &waits.to_release,
    )?;
    text.push_str(released.as_str())?;
    Ok(text)
}

/// A table, behind an empty line.
#[tactic(auto, unfolding(crate::specs::TimesReport::latency_table))]
fn latency_table(
    alloc: Global,
    owner: &str,
    kind: &str,
    span: &str,
    latency: &Latency,
) -> Result<String, AllocError>
    ensures { IfOk result (λ text. string_bytes text ≡ latency_table owner.now kind.now span.now latency.now) }
{
    let mut text = format!(in alloc; "\n[{owner}.{kind}.{span}]\n")?;
    let lines = latency_lines(alloc, latency)?;
    text.push_str(lines.as_str())?;
    let bounds = bounds_lines(alloc, latency)?;
    text.push_str(bounds.as_str())?;
    let histogram = histogram_line(alloc, latency.histogram.as_slice())?;
    text.push_str(histogram.as_str())?;
    Ok(text)
}

#[tactic(auto, unfolding(crate::specs::TimesReport::latency_lines))]
fn latency_lines(alloc: Global, latency: &Latency) -> Result<String, AllocError>
    ensures { IfOk result (λ text. string_bytes text ≡ latency_lines latency.now) }
{
    let count = latency.count;
    let clocks = latency.clocks;
    let least = latency.least;
    let most = latency.most;
    format!(in alloc; "count = {count}\nclocks = {clocks}\nleast = {least}\nmost = {most}\n")
}

#[tactic(auto, unfolding(crate::specs::TimesReport::bounds_lines))]
fn bounds_lines(alloc: Global, latency: &Latency) -> Result<String, AllocError>
    ensures { IfOk result (λ text. string_bytes text ≡ bounds_lines latency.now) }
{
    let half = bound_of(50, latency);
    let most = bound_of(90, latency);
    let nearly_all = bound_of(99, latency);
    format!(in alloc; "p50_at_most = {half}\np90_at_most = {most}\np99_at_most = {nearly_all}\n")
}

#[tactic(auto, unfolding(crate::specs::TimesReport::histogram_line))]
fn histogram_line(alloc: Global, histogram: &[u64]) -> Result<String, AllocError>
    ensures { IfOk result (λ text. string_bytes text ≡ histogram_line histogram.now) }
{
    let mut text = String::from_str(alloc, "histogram = [")?;
    let numbers = numbers_list(alloc, histogram)?;
    text.push_str(numbers.as_str())?;
    text.push_str("]\n")?;
    Ok(text)
}

/// The numbers, one behind the other.
fn numbers_list(alloc: Global, numbers: &[u64]) -> Result<String, AllocError>
    ensures { IfOk result (λ text. string_bytes text ≡ numbers_list numbers.now) }
{
    match numbers {
        [] => Ok(String::new(alloc)),
        [first, more @ ..] => {
            let mut text = format!(in alloc; "{first}")?;
            let rest = more_numbers(alloc, more)?;
            text.push_str(rest.as_str())?;
            Ok(text)
        }
    }
}

/// Further numbers, a comma before each.
fn more_numbers(alloc: Global, numbers: &[u64]) -> Result<String, AllocError>
    ensures { IfOk result (λ text. string_bytes text ≡ flat_map (λ n. codes ", " ++ decimal n) numbers.now) }
{
    let mut text = String::new(alloc);
    for number in numbers {
        let one = format!(in alloc; ", {number}")?;
        text.push_str(one.as_str())?;
    }
    Ok(text)
}

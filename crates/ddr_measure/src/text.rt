//! The numbers of some requests as text: a TOML document.
//!
//! `measured`, `spread`, `group`, `span`, `distribution` and `usage` stand below, and `ddr_replay` above. `specs/Text.antt` has the text,
//! byte for byte.
ghost use Rattle.std.specs.Prelude.{◌≡◌, ◌<◌, ◌≤◌, IfOk, length, string_bytes};
ghost use Rattle.ddr_measure.specs.declared.distribution.TheConstants.{CLASSES};
ghost use Rattle.ddr_measure.specs.Spreads.{spreads_tables};
ghost use Rattle.ddr_measure.specs.Text.{bounds_lines, class_line, class_lines, classes_text, counts_lines, mean_at, mean_lines, measured_text, nanoseconds_line, share_lines, span_table, speed_lines, thousandths, usage_lines};

use crate::distribution::{Distribution, first_of, last_of};
use crate::group::Group;
use crate::measured::Measured;
use crate::span::Span;
use crate::spread::Spread;
use crate::usage::{Usage, peak_of, quotient};
use std::alloc::{AllocError, Global};

/// The numbers of these requests, of a memory of so many channels. `clock` is how many picoseconds a clock has, where that is known: then
/// means are told in nanoseconds and the use of the data bus in bytes a second, too.
///
/// First come the keys `requests`, `clocks` (from the first acceptance to the last reply) and `bus_share` (of the data buses of all
/// channels in these clocks, with three digits), and with a clock `bytes_per_second` and `peak_bytes_per_second`. Then a table
/// `GROUP.SPAN` for each group (`read`, `write`, `hit`, `miss`, `conflict`) and span, with the keys `count`, `clocks` (the sum), `least`,
/// `most`, `mean`, with a clock `mean_nanoseconds`, `p50_at_most`, `p90_at_most`, `p99_at_most`, `p999_at_most`, and `histogram`: of each
/// class that has some its least and its greatest number of clocks, and how many it has.
#[tactic(auto, using(crate::proofs::SpreadLemmas::spreads_written), unfolding(crate::specs::Text::measured_text))]
pub fn measured_text(
    alloc: Global,
    channels: u32,
    clock: Option<u32>,
    requests: &Measured,
) -> Result<String, AllocError>
    ensures { IfOk result (λ text. string_bytes text ≡ measured_text channels clock requests.now) }
{
    let usage = requests.usage();
    let mut text = usage_lines(alloc, usage)?;
    let share = share_lines(alloc, channels, usage)?;
    text.push_str(share.as_str())?;
    let speed = speed_lines(alloc, channels, clock, usage)?;
    text.push_str(speed.as_str())?;
    let tables = spreads_tables(alloc, clock, requests.spreads())?;
    text.push_str(tables.as_str())?;
    Ok(text)
}

#[tactic(auto, unfolding(crate::specs::Text::usage_lines))]
fn usage_lines(alloc: Global, usage: &Usage) -> Result<String, AllocError>
    ensures { IfOk result (λ text. string_bytes text ≡ usage_lines usage.now) }
{
    let requests = usage.requests;
    let clocks = usage.elapsed();
    format!(in alloc; "requests = {requests}\nclocks = {clocks}\n")
}

/// The part of the data buses that was used.
#[tactic(auto, unfolding(crate::specs::Text::share_lines))]
fn share_lines(alloc: Global, channels: u32, usage: &Usage) -> Result<String, AllocError>
    ensures { IfOk result (λ text. string_bytes text ≡ share_lines channels usage.now) }
{
    let share = thousandths(alloc, usage.share(channels))?;
    format!(in alloc; "bus_share = {share}\n")
}

/// Bytes a second, where a clock's time is known.
fn speed_lines(
    alloc: Global,
    channels: u32,
    clock: Option<u32>,
    usage: &Usage,
) -> Result<String, AllocError>
    ensures { IfOk result (λ text. string_bytes text ≡ speed_lines channels clock usage.now) }
{
    match clock {
        Some(clock) => {
            let speed = usage.speed(clock);
            let peak = peak_of(channels, clock);
            format!(in alloc; "bytes_per_second = {speed}\npeak_bytes_per_second = {peak}\n")
        }
        None => Ok(String::new(alloc)),
    }
}

/// A table of each.
fn spreads_tables(
    alloc: Global,
    clock: Option<u32>,
    spreads: &[Spread],
) -> Result<String, AllocError>
    ensures { IfOk result (λ text. string_bytes text ≡ spreads_tables clock spreads.now) }
{
    let mut text = String::new(alloc);
    for spread in spreads {
        let table = span_table(alloc, clock, spread.group, spread.span, &spread.clocks)?;
        text.push_str(table.as_str())?;
    }
    Ok(text)
}

/// A table, behind an empty line.
#[tactic(auto, unfolding(crate::specs::Text::span_table))]
fn span_table(
    alloc: Global,
    clock: Option<u32>,
    group: Group,
    span: Span,
    spread: &Distribution,
) -> Result<String, AllocError>
    ensures { IfOk result (λ text. string_bytes text ≡ span_table clock group span spread.now) }
{
    let owner = group.name();
    let name = span.name();
    let mut text = format!(in alloc; "\n[{owner}.{name}]\n")?;
    let counts = counts_lines(alloc, spread)?;
    text.push_str(counts.as_str())?;
    let means = mean_lines(alloc, clock, spread)?;
    text.push_str(means.as_str())?;
    let bounds = bounds_lines(alloc, spread)?;
    text.push_str(bounds.as_str())?;
    let classes = classes_text(alloc, spread.classes.as_slice())?;
    text.push_str(classes.as_str())?;
    Ok(text)
}

#[tactic(auto, unfolding(crate::specs::Text::counts_lines))]
fn counts_lines(alloc: Global, spread: &Distribution) -> Result<String, AllocError>
    ensures { IfOk result (λ text. string_bytes text ≡ counts_lines spread.now) }
{
    let count = spread.count;
    let clocks = spread.sum;
    let least = spread.least;
    let most = spread.most;
    format!(in alloc; "count = {count}\nclocks = {clocks}\nleast = {least}\nmost = {most}\n")
}

/// The mean, in clocks and where a clock's time is known in nanoseconds.
#[tactic(auto, unfolding(crate::specs::Text::mean_lines))]
fn mean_lines(
    alloc: Global,
    clock: Option<u32>,
    spread: &Distribution,
) -> Result<String, AllocError>
    ensures { IfOk result (λ text. string_bytes text ≡ mean_lines clock spread.now) }
{
    let mean = thousandths(alloc, mean_at(1000, spread))?;
    let mut text = format!(in alloc; "mean = {mean}\n")?;
    let nanoseconds = nanoseconds_line(alloc, clock, spread)?;
    text.push_str(nanoseconds.as_str())?;
    Ok(text)
}

#[tactic(auto, unfolding(crate::specs::Text::nanoseconds_line))]
fn nanoseconds_line(
    alloc: Global,
    clock: Option<u32>,
    spread: &Distribution,
) -> Result<String, AllocError>
    ensures { IfOk result (λ text. string_bytes text ≡ nanoseconds_line clock spread.now) }
{
    match clock {
        Some(clock) => {
            let mean = thousandths(alloc, mean_at(clock, spread))?;
            format!(in alloc; "mean_nanoseconds = {mean}\n")
        }
        None => Ok(String::new(alloc)),
    }
}

/// The mean, of which each clock counts for so many; 0 where there is no number.
pub(crate) fn mean_at(scale: u32, spread: &Distribution) -> u128
    ensures { result ≡ mean_at scale spread.now }
{
    quotient(
        u128::from(scale) * u128::from(spread.sum),
        u128::from(spread.count),
    )
}

/// Bounds that so many in a hundred, or in a thousand, don't pass.
#[tactic(auto, unfolding(crate::specs::Text::bounds_lines))]
fn bounds_lines(alloc: Global, spread: &Distribution) -> Result<String, AllocError>
    ensures { IfOk result (λ text. string_bytes text ≡ bounds_lines spread.now) }
{
    let half = spread.bound(500);
    let most = spread.bound(900);
    let nearly_all = spread.bound(990);
    let all_but_few = spread.bound(999);
    format!(in alloc;
        "p50_at_most = {half}\np90_at_most = {most}\np99_at_most = {nearly_all}\np999_at_most = {all_but_few}\n"
    )
}

/// The classes that have some.
#[tactic(auto, unfolding(crate::specs::Text::classes_text))]
fn classes_text(alloc: Global, classes: &[u64]) -> Result<String, AllocError>
    requires { length classes.now ≤ CLASSES }
    ensures { IfOk result (λ text. string_bytes text ≡ classes_text classes.now) }
{
    let mut text = String::from_str(alloc, "histogram = [\n")?;
    let lines = class_lines(alloc, classes)?;
    text.push_str(lines.as_str())?;
    text.push_str("]\n")?;
    Ok(text)
}

/// A line of each class that has some.
fn class_lines(alloc: Global, classes: &[u64]) -> Result<String, AllocError>
    requires { length classes.now ≤ CLASSES }
    ensures { IfOk result (λ text. string_bytes text ≡ class_lines 0 classes.now) }
{
    let mut text = String::new(alloc);
    for (class, count) in classes.iter().enumerate() {
        let line = class_line(alloc, class, *count)?;
        text.push_str(line.as_str())?;
    }
    Ok(text)
}

/// The line of a class, if it has some.
#[tactic(auto, unfolding(crate::specs::Text::class_line))]
fn class_line(alloc: Global, class: usize, count: u64) -> Result<String, AllocError>
    requires { class < CLASSES }
    ensures { IfOk result (λ text. string_bytes text ≡ class_line class count) }
{
    if count == 0 {
        return Ok(String::new(alloc));
    }
    let first = first_of(class);
    let last = last_of(class);
    format!(in alloc; "  [{first}, {last}, {count}],\n")
}

/// A number of thousandths, with three digits behind the point.
#[tactic(auto, unfolding(crate::specs::Text::thousandths))]
pub fn thousandths(alloc: Global, number: u128) -> Result<String, AllocError>
    ensures { IfOk result (λ text. string_bytes text ≡ thousandths number) }
{
    let whole = number / 1000;
    let tenths = number / 100 % 10;
    let hundredths = number / 10 % 10;
    let rest = number % 10;
    format!(in alloc; "{whole}.{tenths}{hundredths}{rest}")
}

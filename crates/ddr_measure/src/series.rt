//! The numbers of intervals as text: comma-separated values.
//!
//! `interval`, `group`, `span`, `distribution` and `text` stand below, and `ddr_replay` above. `specs/Series.antt` has the text, byte for
//! byte.
ghost use Rattle.std.specs.Prelude.{◌≡◌, IfOk, max, string_bytes};
ghost use Rattle.ddr_measure.specs.Series.{interval_line, kinds_fields, reads_fields, rows_fields, series_text};

use crate::distribution::Distribution;
use crate::group::Group;
use crate::interval::{Interval, intervals_of};
use crate::span::Span;
use crate::text::{mean_at, thousandths};
use crate::timed::Timed;
use ddr_timing::units::LINE_BYTES;
use std::alloc::{AllocError, Global};

/// The numbers of these requests in each interval of so many cycles, up to that of the last completion; 0 cycles are taken as 1.
///
/// A request counts in the interval in which it was complete. Behind a line that names the columns comes a line of each interval: its
/// first `cycle`, its `reads` and `writes` and their `bytes`, how many of them were row `hits`, `misses` and `conflicts`, in how many of
/// its clocks the data buses had a burst (`busy_clocks`, of all channels together), and how long its reads took from their acceptance to
/// their completion: `read_mean` with three digits, and `read_p99_at_most`, which 99 in a hundred of them don't pass.
#[tactic(auto, unfolding(crate::specs::Series::series_text))]
pub fn series_text(alloc: Global, every: u32, requests: &[Timed]) -> Result<String, AllocError>
    ensures { IfOk result (λ text. string_bytes text ≡ series_text (max every 1) requests.now) }
{
    let cycles = every.max(1);
    let intervals = intervals_of(alloc, u64::from(cycles), requests)?;
    let mut text = String::from_str(
        alloc,
        "cycle,reads,writes,bytes,hits,misses,conflicts,busy_clocks,read_mean,read_p99_at_most\n",
    )?;
    for (at, interval) in intervals.as_slice().iter().enumerate() {
        let cycle = u128::from(cycles) * at as u128;
        let line = interval_line(alloc, cycle, interval)?;
        text.push_str(line.as_str())?;
    }
    Ok(text)
}

/// The line of an interval with this first cycle.
#[tactic(auto, unfolding(crate::specs::Series::interval_line))]
fn interval_line(alloc: Global, cycle: u128, interval: &Interval) -> Result<String, AllocError>
    ensures { IfOk result (λ text. string_bytes text ≡ interval_line cycle interval.now) }
{
    let requests = interval.requests.as_slice();
    let kinds = kinds_fields(alloc, requests)?;
    let rows = rows_fields(alloc, requests)?;
    let busy = interval.busy;
    let reads = reads_fields(
        alloc,
        &Group::Reads.distribution(Span::AcceptedToDone, requests),
    )?;
    format!(in alloc; "{cycle},{kinds},{rows},{busy},{reads}\n")
}

#[tactic(auto, unfolding(crate::specs::Series::kinds_fields))]
fn kinds_fields(alloc: Global, requests: &[Timed]) -> Result<String, AllocError>
    ensures { IfOk result (λ text. string_bytes text ≡ kinds_fields requests.now) }
{
    let reads = Group::Reads.count(requests);
    let writes = Group::Writes.count(requests);
    let bytes = LINE_BYTES as u128 * requests.len() as u128;
    format!(in alloc; "{reads},{writes},{bytes}")
}

#[tactic(auto, unfolding(crate::specs::Series::rows_fields))]
fn rows_fields(alloc: Global, requests: &[Timed]) -> Result<String, AllocError>
    ensures { IfOk result (λ text. string_bytes text ≡ rows_fields requests.now) }
{
    let hits = Group::Hits.count(requests);
    let misses = Group::Misses.count(requests);
    let conflicts = Group::Conflicts.count(requests);
    format!(in alloc; "{hits},{misses},{conflicts}")
}

#[tactic(auto, unfolding(crate::specs::Series::reads_fields))]
fn reads_fields(alloc: Global, spread: &Distribution) -> Result<String, AllocError>
    ensures { IfOk result (λ text. string_bytes text ≡ reads_fields spread.now) }
{
    let mean = thousandths(alloc, mean_at(1000, spread))?;
    let nearly_all = spread.bound(990);
    format!(in alloc; "{mean},{nearly_all}")
}

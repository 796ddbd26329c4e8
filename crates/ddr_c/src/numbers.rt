//! The numbers of a channel and of a port in C's form.
//!
//! `traffic`, `ddr_counting` and `ddr_measure` stand below, and `host` and `lib` above.
ghost use Rattle.std.specs.Prelude.{◌≡◌, List};
ghost use Rattle.ddr_timing.specs.declared.config.Config.{Config};
ghost use Rattle.ddr_trace.specs.declared.command.Entry.{Entry};
ghost use Rattle.ddr_counting.specs.Noting.{AreCounted};
ghost use Rattle.ddr_c.specs.Numbers.{numbers_of};
ghost use Rattle.ddr_c.specs.Traffic.{port_numbers, requests_of, spread_of};

use crate::traffic::{Took, Traffic};
use ddr_measure::distribution::Distribution;
use ddr_statistics::statistics::Statistics;
use ddr_world::world::Counts;

/// The numbers of a channel's commands. `cycles`, `busy_clocks` and `drain_cycles` are clock cycles, `refresh_debt_most` REFs that a rank
/// owed, and the others counts.
#[repr(C)]
#[derive(Clone, Copy)]
pub struct ChannelNumbers {
    pub cycles: u64,
    pub activates: u64,
    pub precharges: u64,
    pub precharges_all: u64,
    pub refreshes: u64,
    pub reads: u64,
    pub writes: u64,
    pub reads_auto: u64,
    pub writes_auto: u64,
    pub row_hits: u64,
    pub row_misses: u64,
    pub row_conflicts: u64,
    pub busy_clocks: u64,
    pub turn_rounds: u64,
    pub rank_switches: u64,
    pub refresh_debt_most: u64,
    pub drain_cycles: u64,
}

/// How the clocks are spread that some requests took: how many requests, all their clocks together, the fewest and the most, and what
/// 50, 90, 99 and 99.9 in a hundred don't pass.
#[repr(C)]
#[derive(Clone, Copy)]
pub struct Spread {
    pub count: u64,
    pub clocks: u64,
    pub least: u64,
    pub most: u64,
    pub p50: u64,
    pub p90: u64,
    pub p99: u64,
    pub p999: u64,
}

/// How long requests took from their acceptance on: to the cycle of the column command, to completion, and to the clock when the reply was
/// taken.
#[repr(C)]
#[derive(Clone, Copy)]
pub struct RequestNumbers {
    pub to_issue: Spread,
    pub to_done: Spread,
    pub to_release: Spread,
}

/// What came of a port's requests: how many were accepted, how many replies were taken, and how often one was refused since the window or
/// the queue of its channel was full.
#[repr(C)]
#[derive(Clone, Copy)]
pub struct PortNumbers {
    pub accepted: u64,
    pub taken: u64,
    pub full_window: u64,
    pub full_queue: u64,
    pub reads: RequestNumbers,
    pub writes: RequestNumbers,
}

/// Those of a trace that ends before this cycle, of which these are the statistics. In so many cycles writes were drained.
pub(crate) fn numbers_of(statistics: &Statistics, end: u64, drains: u64) -> ChannelNumbers
    ensures { (config : Config) (trace : List Entry) → AreCounted config end trace statistics.now → result ≡ numbers_of config end trace drains }
{
    let counts = statistics.total();
    ChannelNumbers {
        cycles: end,
        activates: counts.activates,
        precharges: counts.precharges,
        precharges_all: counts.precharges_all,
        refreshes: counts.refreshes,
        reads: counts.reads,
        writes: counts.writes,
        reads_auto: counts.reads_auto,
        writes_auto: counts.writes_auto,
        row_hits: counts.row_hits,
        row_misses: counts.row_misses,
        row_conflicts: counts.row_conflicts,
        busy_clocks: counts.busy_clocks,
        turn_rounds: statistics.turn_rounds(),
        rank_switches: statistics.rank_switches(),
        refresh_debt_most: statistics.refresh_debts_most(end),
        drain_cycles: drains,
    }
}

/// How some numbers of clocks are spread.
fn spread_of(spread: &Distribution) -> Spread
    ensures { result ≡ spread_of spread.now }
{
    Spread {
        count: spread.count,
        clocks: spread.sum,
        least: spread.least,
        most: spread.most,
        p50: spread.bound(500),
        p90: spread.bound(900),
        p99: spread.bound(990),
        p999: spread.bound(999),
    }
}

fn requests_of(took: &Took) -> RequestNumbers
    ensures { result ≡ requests_of took.now }
{
    RequestNumbers {
        to_issue: spread_of(&took.to_issue),
        to_done: spread_of(&took.to_done),
        to_release: spread_of(&took.to_release),
    }
}

/// The numbers of a port.
pub(crate) fn port_numbers(counts: Counts, traffic: &Traffic) -> PortNumbers
    ensures { result ≡ port_numbers counts traffic.now }
{
    PortNumbers {
        accepted: counts.accepted,
        taken: counts.taken,
        full_window: traffic.full_window,
        full_queue: traffic.full_queue,
        reads: requests_of(&traffic.reads),
        writes: requests_of(&traffic.writes),
    }
}

//! How many requests of a port were outstanding: accepted, and their replies not released.
//!
//! `times`, `activity` and `ledger` stand below, and `ddr_replay`, whose statistics have it, above.
ghost use Rattle.std.specs.Prelude.{◌≡◌, slice_index_or};
ghost use Rattle.ddr_ledger.specs.Times.{no_times};
ghost use Rattle.ddr_ledger.specs.Windows.{outstanding_at, outstanding_of};

use crate::activity::Held;
use crate::ledger::Ledger;
use crate::times::Times;

/// Those of a port, summed over the rounds, behind each of which they are looked at, and at most. None where the port isn't there.
pub fn outstanding_at(ledger: &Ledger, port: usize) -> Held
    ensures { result ≡ outstanding_at ledger.now port }
{
    let times = times_at(ledger.ports(), port);
    outstanding_of(&times, most_at(ledger.windows(), port))
}

/// Those of a port whose requests took so long, of which there were so many at the most.
fn outstanding_of(times: &Times, most: u64) -> Held
    ensures { result ≡ outstanding_of times.now most }
{
    let (reads, writes) = (&times.reads.to_release, &times.writes.to_release);
    Held {
        sum: reads.clocks.saturating_add(writes.clocks),
        most,
    }
}

fn times_at(times: &[Times], port: usize) -> Times
    ensures { result ≡ slice_index_or times.now port no_times }
{
    match times.get(port) {
        Some(one) => *one,
        None => Times::NONE,
    }
}

fn most_at(windows: &[u64], port: usize) -> u64
    ensures { result ≡ slice_index_or windows.now port 0 }
{
    match windows.get(port) {
        Some(most) => *most,
        None => 0,
    }
}

//! How many clocks a request takes at most, from its admission to its completion, and what they are made up of.
//!
//! `clocks` stands below, and nothing of the crate above. That each request is served in time is a law of `ddr_deadline`,
//! `requests_are_served_in_time`; here is what it comes to. By the ranges of the keys (`docs/FORMATS.md`) the clocks of all parts
//! together are below 2^26: a timing and the cap are at most 65535, and 64 requests are pending at most.
ghost use Rattle.std.specs.Prelude.{◌≡◌, ◌+◌, ◌≤◌};
ghost use Rattle.ddr_latency.specs.Bound.{burst, latency, leaves_room, left_over, most_pending, most_refreshes, refreshed, rounded_up, stolen};

use crate::clocks::Clocks;
use ddr_timing::config::Config;
use ddr_timing::units::BURST_CLOCKS;

/// As many requests as are pending in a channel at most: `reads` and `writes` of them.
pub fn most_pending(config: &Config) -> u32
    ensures exact { result ≡ most_pending config.now }
    ensures bound { result ≤ 64 }
{
    config.limits.reads + config.limits.writes
}

/// The clocks from a read or a write to its completion, at most: to its first data, and those of the burst.
pub fn burst(config: &Config) -> u32
    ensures exact { result ≡ burst config.now }
    ensures bound { result ≤ 65539 }
{
    config.timing.cl.max(config.timing.cwl) + BURST_CLOCKS
}

/// The cycles that the refresh commands of both ranks take from a request in each interval, where there are two: a REF for each one that
/// either may owe, a PREA for each that is overdue, and a PREA of the other while nothing is pending for that. With one rank there are
/// none.
pub fn stolen(config: &Config) -> u32
    ensures exact { result ≡ stolen config.now }
    ensures bound { result ≤ 19 }
{
    if config.geometry.ranks == 2 {
        2 * config.timing.postpone + 5
    } else {
        0
    }
}

/// The clocks of a request that meets its refresh, where no older one is pending.
pub fn refreshed(config: &Config) -> u32
    ensures exact { result ≡ refreshed config.now }
    ensures bound { result ≤ 327699 }
{
    Clocks::of(config).alone() + stolen(config)
}

/// Whether each refresh interval leaves time to serve a request, whatever the refresh commands of both ranks take: where it does, `latency`
/// bounds the time of each. With one rank that is `leaves_time`.
pub fn leaves_room(config: &Config) -> bool
    ensures { result ≡ leaves_room config.now }
{
    refreshed(config) <= config.timing.refi
}

/// How many refreshes the requests that are pending meet at most, until all of them are served: one each, and no more than one in each
/// interval until what the intervals leave over is enough for all.
pub fn most_refreshes(config: &Config) -> u32
    ensures exact { result ≡ most_refreshes config.now }
    ensures bound { result ≤ 64 }
{
    let pending = most_pending(config);
    let left = left_over(config);
    if left == 0 {
        return pending;
    }
    let needed = pending * Clocks::of(config).service() + refreshed(config);
    pending.min(rounded_up(needed, left))
}

/// The clocks that a refresh interval leaves beside those of a request that meets its refresh.
fn left_over(config: &Config) -> u32
    ensures exact { result ≡ left_over config.now }
    ensures bound { result ≤ 65535 }
{
    config.timing.refi.saturating_sub(refreshed(config))
}

/// How many intervals have so many clocks.
fn rounded_up(clocks: u32, interval: u32) -> u32
    requires some { 1 ≤ interval }
    requires bound { clocks + interval ≤ 4294967295 }
    ensures { result ≡ rounded_up clocks interval }
{
    (clocks + interval - 1) / interval
}

/// The clocks of a request at most, where `leaves_room`: it takes fewer than so many from its admission to its completion. They are the
/// cap, behind which no younger request is served before it; those in which all that are pending are served; those of the refreshes that
/// these meet, and of one more, that may be under way; and those of its own data.
pub fn latency(config: &Config) -> u32
    ensures { result ≡ latency config.now }
{
    let served = most_pending(config) * Clocks::of(config).service();
    let met = (most_refreshes(config) + 1) * refreshed(config);
    config.limits.cap + served + met + burst(config)
}

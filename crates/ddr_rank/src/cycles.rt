//! Cycles of commands, of which there may have been none.
ghost use Rattle.std.specs.Prelude.{◌≡◌};
ghost use Rattle.ddr_rank.specs.First.{behind};
ghost use Rattle.ddr_rank.specs.Latest.{is_within, later};
ghost use Rattle.ddr_rank.specs.Ready.{after};

/// The later one of two cycles.
pub(crate) fn later(a: Option<u64>, b: Option<u64>) -> Option<u64>
    ensures { result ≡ later a b }
{
    match (a, b) {
        (Some(a), Some(b)) => Some(a.max(b)),
        (Some(a), None) => Some(a),
        (None, b) => b,
    }
}

/// Whether `cycle` stands fewer than `clocks` after the last command of a kind.
pub(crate) fn is_within(clocks: u32, cycle: u64, last: Option<u64>) -> bool
    ensures { result ≡ is_within clocks cycle last }
{
    let Some(at) = last else {
        return false;
    };
    match at.checked_add(u64::from(clocks)) {
        Some(end) => cycle < end,
        None => true,
    }
}

/// The cycle so many clocks on, as far as a clock counts.
pub(crate) fn after(cycle: u64, clocks: u32) -> u64
    ensures { result ≡ after cycle clocks }
{
    cycle.saturating_add(u64::from(clocks))
}

/// The cycle so many clocks behind the last command of a kind, 0 where there was none.
pub(crate) fn behind(clocks: u32, last: Option<u64>) -> u64
    ensures { result ≡ behind clocks last }
{
    match last {
        Some(at) => after(at, clocks),
        None => 0,
    }
}

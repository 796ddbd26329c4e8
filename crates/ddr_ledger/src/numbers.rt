//! What a replay comes to: of each channel the numbers of its commands, and of several ports together their requests.
//!
//! `ddr_stream`, `ddr_world`, `ddr_counting` and `ddr_statistics` stand below, and `places` and `ddr_replay` above.
ghost use Rattle.std.specs.Prelude.{◌≡◌, ◌≢◌, true, false, ◌==◌, IfErr, IfOk};
ghost use Rattle.ddr_timing.specs.declared.units.TheConstants.{CLOCK_STOP};
ghost use Rattle.ddr_counting.specs.Noting.{AreNoted, IsNotedOf};
ghost use Rattle.ddr_world.specs.Kept.{state_of};
ghost use Rattle.ddr_ledger.specs.Numbers.{IsCounted, added, both, is_any_spent, is_spent, many, numbers_at, numbers_in, together};

use ddr_channel::channel::Channel;
use ddr_counting::noting::{Noting, all_are_counted};
use ddr_statistics::counts::Counts;
use ddr_statistics::statistics::Statistics;
use ddr_stream::requests::Requests;
use ddr_text::fault::Fault;
use ddr_timing::units::CLOCK_STOP;
use ddr_world::world::World;
use std::alloc::Global;

/// The numbers of a channel's commands, or of those of several. Each number stops at the last one that a `u64` holds, here and below.
#[derive(Clone, Copy, Debug, PartialEq, Eq)]
pub struct Numbers {
    pub turn_rounds: u64,
    pub rank_switches: u64,
    /// The most refreshes that a rank owed in a cycle.
    pub refresh_debt_most: u64,
    pub counts: Counts,
}

impl Numbers {
    pub const NONE: Numbers = Numbers {
        turn_rounds: 0,
        rank_switches: 0,
        refresh_debt_most: 0,
        counts: Counts::NONE,
    };
}

/// The requests of several ports together.
pub fn many(requests: &[Requests]) -> Requests
    ensures { result ≡ many requests.now }
{
    let mut all = Requests::NONE;
    for one in requests {
        all = both(&all, one);
    }
    all
}

fn both(a: &Requests, b: &Requests) -> Requests
    ensures { result ≡ both a.now b.now }
{
    Requests {
        reads: a.reads.saturating_add(b.reads),
        writes: a.writes.saturating_add(b.writes),
    }
}

/// The numbers of each channel, of whose commands these are the statistics. Fails as `ClockSpent` where a channel's clock has come to
/// its end.
pub fn numbers_of(
    alloc: Global,
    world: &World,
    noting: &Noting,
    channels: u32,
) -> Result<Vec<Numbers>, Fault>
    requires { AreNoted world.now.config (state_of world.now) noting.now }
    ensures { IsCounted (λ v. v.items) result (state_of world.now) channels }
{
    let mut all = Vec::new(alloc);
    for channel in 0..channels {
        all.push(numbers_at(world, noting, channel)?)?;
    }
    Ok(all)
}

/// The numbers of the channel of that number.
fn numbers_at(world: &World, noting: &Noting, number: u32) -> Result<Numbers, Fault>
    requires { AreNoted world.now.config (state_of world.now) noting.now }
    ensures counted { IfOk result (λ n. n ≡ numbers_at (state_of world.now) number) }
    ensures running { IfOk result (λ n. is_spent (state_of world.now) number ≡ false) }
    ensures spent { IfErr result (λ fault. (fault ≡ Fault.ClockSpent) × (is_spent (state_of world.now) number ≡ true)) }
{
    match world.channel(number) {
        Some(channel) => numbers_in(channel, noting.at(number)),
        None => Ok(Numbers::NONE),
    }
}

/// The numbers of a channel, of whose commands these are the statistics.
fn numbers_in(channel: &Channel, statistics: &Statistics) -> Result<Numbers, Fault>
    requires { IsNotedOf channel.now.config channel.now.trace statistics.now }
    ensures counted { IfOk result (λ n. n ≡ numbers_in channel.now.config channel.now.now channel.now.trace) }
    ensures running { IfOk result (λ n. channel.now.now ≢ CLOCK_STOP) }
    ensures spent { IfErr result (λ fault. (fault ≡ Fault.ClockSpent) × (channel.now.now ≡ CLOCK_STOP)) }
{
    if channel.now() == CLOCK_STOP {
        return Err(Fault::ClockSpent);
    }
    all_are_counted(channel, statistics);
    Ok(Numbers {
        turn_rounds: statistics.turn_rounds(),
        rank_switches: statistics.rank_switches(),
        refresh_debt_most: statistics.refresh_debts_most(channel.now()),
        counts: statistics.total(),
    })
}

/// Whether the clock of one of so many channels has come to its end.
pub fn is_any_spent(world: &World, channels: u32) -> bool
    ensures { result ≡ is_any_spent (state_of world.now) channels }
{
    for channel in 0..channels {
        if is_spent(world, channel) {
            return true;
        }
    }
    false
}

/// Whether the clock of the channel of that number has come to its end.
fn is_spent(world: &World, channel: u32) -> bool
    ensures { result ≡ is_spent (state_of world.now) channel }
{
    match world.channel(channel) {
        Some(channel) => channel.now() == CLOCK_STOP,
        None => false,
    }
}

/// The numbers of several channels together.
pub fn together(numbers: &[Numbers]) -> Numbers
    ensures { result ≡ together numbers.now }
{
    let mut all = Numbers::NONE;
    for one in numbers {
        all = Numbers {
            turn_rounds: all.turn_rounds.saturating_add(one.turn_rounds),
            rank_switches: all.rank_switches.saturating_add(one.rank_switches),
            refresh_debt_most: all.refresh_debt_most.max(one.refresh_debt_most),
            counts: added(&all.counts, &one.counts),
        };
    }
    all
}

/// The counts of two together.
#[tactic(auto, unfolding(crate::specs::Numbers::added))]
fn added(a: &Counts, b: &Counts) -> Counts
    ensures { result ≡ added a.now b.now }
{
    Counts {
        activates: a.activates.saturating_add(b.activates),
        precharges: a.precharges.saturating_add(b.precharges),
        precharges_all: a.precharges_all.saturating_add(b.precharges_all),
        reads: a.reads.saturating_add(b.reads),
        writes: a.writes.saturating_add(b.writes),
        reads_auto: a.reads_auto.saturating_add(b.reads_auto),
        writes_auto: a.writes_auto.saturating_add(b.writes_auto),
        refreshes: a.refreshes.saturating_add(b.refreshes),
        row_hits: a.row_hits.saturating_add(b.row_hits),
        row_misses: a.row_misses.saturating_add(b.row_misses),
        row_conflicts: a.row_conflicts.saturating_add(b.row_conflicts),
        busy_clocks: a.busy_clocks.saturating_add(b.busy_clocks),
    }
}

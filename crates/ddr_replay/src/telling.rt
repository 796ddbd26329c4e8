//! What is told of a replay that has come to its end, behind what was told as it came.
//!
//! `wanted`, `replaying`, `report`, `places`, `teller` and `drampower` stand below, and `replay` above.
ghost use Rattle.std.specs.Prelude.{◌≡◌, ◌++◌, ◌<◌, ℕ, [], drop, false, map, IfErr, IfOk};
ghost use Rattle.ddr_world.specs.Kept.{state_of};
ghost use Rattle.ddr_world.specs.Promise.{trace_at};
ghost use Rattle.ddr_ledger.specs.Measured.{timed_of};
ghost use Rattle.ddr_replay.specs.Replays.{IsSaid, channel_commands, channel_text, listed, measured, names_no_channel, reported, series, told_of};
ghost use Rattle.ddr_replay.specs.Runs.{Run};
ghost use Rattle.ddr_replay.specs.Told.{said};
ghost use Rattle.ddr_replay.specs.View.{run_of, told_so_far};
ghost use Rattle.ddr_replay.specs.declared.wanted.Wanted.{Wanted};

use crate::replaying::Replaying;
use crate::report::report_lines;
use crate::teller::Tale;
use ddr_ledger::drampower::end_line;
use ddr_ledger::numbers::{is_any_spent, numbers_of};
use ddr_ledger::places::places_tables;
use ddr_measure::measured::Measured;
use ddr_measure::series::series_text;
use ddr_measure::text::measured_text;
use ddr_measure::timed::Timed;
use ddr_stream::requests::Requests;
use ddr_text::fault::Fault;
use ddr_timing::config::Config;
use ddr_trace_text::text::end_text;
use ddr_world::world::World;
use std::alloc::Global;

/// What is to be told of a replay of these requests behind what was told as it came. Fails as `ClockSpent` where a channel's clock has come
/// to its end, unless the commands of a channel are asked for.
pub fn ending_of(
    alloc: Global,
    config: &Config,
    requests: &[Requests],
    replaying: &Replaying,
) -> Result<Vec<u8>, Fault>
    requires config { replaying.now.config ≡ config.now }
    requires channel { names_no_channel config.now replaying.now.wanted ≡ false }
    ensures { IsSaid (λ v. told_so_far replaying.now ++ v.items) result (told_of config.now replaying.now.wanted requests.now (run_of replaying.now)) }
{
    let world = replaying.world();
    match replaying.tale() {
        Tale::Statistics => reported(alloc, config, requests, replaying),
        Tale::Requests => rows_ended(alloc, config, world),
        Tale::Trace { channel } => trace_ended(alloc, world, *channel),
        Tale::Drampower { channel } => commands_ended(alloc, world, *channel),
        Tale::Numbers {
            clock,
            requests,
            ..
        } => measured(alloc, config, *clock, requests, world),
        Tale::Intervals {
            every,
            requests,
            ..
        } => series(alloc, config, *every, requests.as_slice(), world),
    }
}

/// What stands behind the requests: nothing. Fails as `ClockSpent` where a channel's clock has come to its end.
fn rows_ended(alloc: Global, config: &Config, world: &World) -> Result<Vec<u8>, Fault>
    ensures { (run : Run) → run.state ≡ state_of world.now → IsSaid (λ v. said Wanted.Requests run.ledger.served [] ++ v.items) result (listed config.now run) }
{
    if is_any_spent(world, config.geometry.channels) {
        return Err(Fault::ClockSpent);
    }
    Ok(Vec::new(alloc))
}

/// What stands behind the commands of a channel.
fn trace_ended(alloc: Global, world: &World, channel: u32) -> Result<Vec<u8>, Fault>
    requires { channel < world.now.config.geometry.channels }
    ensures text { IfOk result (λ v. said (Wanted.Trace channel) [] (trace_at (state_of world.now) channel) ++ v.items ≡ channel_text (state_of world.now) channel) }
    ensures refused { IfErr result (λ fault. fault ≡ Fault.OutOfMemory) }
{
    let _ = world.still(); // it has as many channels as it was opened with
    let Some(channel) = world.channel(channel) else {
        return Ok(Vec::new(alloc));
    };
    match end_text(alloc, channel.now()) {
        Ok(text) => Ok(text),
        Err(_) => Err(Fault::OutOfMemory),
    }
}

/// What stands behind the commands of a channel in DRAMPower's form.
fn commands_ended(alloc: Global, world: &World, channel: u32) -> Result<Vec<u8>, Fault>
    requires { channel < world.now.config.geometry.channels }
    ensures text { IfOk result (λ v. said (Wanted.Drampower channel) [] (trace_at (state_of world.now) channel) ++ v.items ≡ channel_commands (state_of world.now) channel) }
    ensures refused { IfErr result (λ fault. fault ≡ Fault.OutOfMemory) }
{
    let _ = world.still(); // it has as many channels as it was opened with
    let Some(channel) = world.channel(channel) else {
        return Ok(Vec::new(alloc));
    };
    let text = end_line(alloc, channel.now())?;
    Ok(text.into_bytes())
}

/// The numbers of these requests. Fails as `ClockSpent` where a channel's clock has come to its end.
fn measured(
    alloc: Global,
    config: &Config,
    clock: Option<u32>,
    requests: &Measured,
    world: &World,
) -> Result<Vec<u8>, Fault>
    ensures { (skip : ℕ) (run : Run) → run.state ≡ state_of world.now → requests.now ≡ map timed_of (drop skip run.ledger.served) → IsSaid (λ v. v.items) result (measured config.now skip clock run) }
{
    let channels = config.geometry.channels;
    if is_any_spent(world, channels) {
        return Err(Fault::ClockSpent);
    }
    let text = measured_text(alloc, channels, clock, requests)?;
    Ok(text.into_bytes())
}

/// The numbers of each interval of so many cycles, of these requests. Fails as `ClockSpent` where a channel's clock has come to its end.
fn series(
    alloc: Global,
    config: &Config,
    every: u32,
    requests: &[Timed],
    world: &World,
) -> Result<Vec<u8>, Fault>
    ensures { (skip : ℕ) (run : Run) → run.state ≡ state_of world.now → requests.now ≡ map timed_of (drop skip run.ledger.served) → IsSaid (λ v. v.items) result (series config.now skip every run) }
{
    if is_any_spent(world, config.geometry.channels) {
        return Err(Fault::ClockSpent);
    }
    let text = series_text(alloc, every, requests)?;
    Ok(text.into_bytes())
}

/// The statistics. Fails as `ClockSpent` where a channel's clock has come to its end.
fn reported(
    alloc: Global,
    config: &Config,
    requests: &[Requests],
    replaying: &Replaying,
) -> Result<Vec<u8>, Fault>
    ensures { IsSaid (λ v. v.items) result (reported config.now requests.now (run_of replaying.now)) }
{
    let world = replaying.world();
    let noting = replaying.noting();
    let channels = config.geometry.channels;
    let numbers = numbers_of(alloc, world, noting, channels)?;
    let mut report = report_lines(
        alloc,
        config,
        requests,
        numbers.as_slice(),
        replaying.ledger(),
        replaying.round(),
    )?;
    let places = places_tables(alloc, world, noting, channels)?;
    report.push_str(places.as_str())?;
    Ok(report.into_bytes())
}

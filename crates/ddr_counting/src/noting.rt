//! The statistics of each channel of a core, command by command.
//!
//! `ddr_statistics` and `ddr_rounds` stand below, and the crates above this one above.
ghost use Rattle.std.specs.Prelude.{◌≡◌, ◌≢◌, ◌<◌, IfOk, Some, length, slice_get};
ghost use Rattle.ddr_timing.specs.declared.units.TheConstants.{CLOCK_STOP};
ghost use Rattle.ddr_counting.specs.Noting.{AreCounted, AreNew, IsNotedOf, counted, finding_at, finding_of, noted_at};

use ddr_channel::channel::Channel;
use ddr_rounds::told::Told;
use ddr_rounds::watcher::Watcher;
use ddr_statistics::counts::Finding;
use ddr_statistics::statistics::Statistics;
use ddr_timing::config::Config;
use ddr_trace::command::{Command, Entry};
use std::alloc::{AllocError, Global};
use std::marker::Model;

/// Of each channel of a core the statistics of its commands. It watches the core's rounds, and counts each command that it is told.
/// Contracts see it as the list of the statistics.
#[derive(Drop)]
pub struct Noting {
    statistics: Vec<Statistics>,
}

impl Model for Noting {
    ghost use Rattle.std.specs.Prelude.{List};
    ghost use Rattle.ddr_statistics.specs.Tally.{Tally};

    ghost Value = { List Tally };

    ghost view = { λ a. a.statistics.items };
}

impl Watcher for Noting {
    ghost use Rattle.ddr_counting.specs.Noting.{heard};

    ghost hears = { heard };

    #[inline]
    fn hear(&mut self, told: Told) {
        if let Told::Issued { channel, issued } = told {
            self.note(channel, &issued.entry);
        }
    }
}

impl Noting {
    /// That of a core so configured whose channels' first cycle is 0, before its first command.
    pub fn open(alloc: Global, config: &Config) -> Result<Noting, AllocError>
        ensures { IfOk result (AreNew config.now) }
    {
        Ok(Noting {
            statistics: none_counted(alloc, config)?,
        })
    }

    /// Counts a command of the channel of that number, if there is one.
    fn note(&mut self, channel: u32, entry: &Entry)
        ensures { self.new ≡ noted_at channel entry.now self.old }
    {
        if (channel as usize) < self.statistics.len() {
            count(&mut self.statistics[channel as usize], entry);
        }
    }

    /// How the next command of the channel of that number finds its bank, by what was counted; `None` where it is no read or write, lies
    /// outside the geometry, or there is no such channel.
    pub fn finding_at(&self, channel: u32, command: &Command) -> Option<Finding>
        ensures { result ≡ finding_at self.entry.now channel command.now }
    {
        let statistics = self.statistics.get(channel as usize)?;
        finding_of(statistics, command)
    }

    /// The statistics of the channel of that number, which is there.
    pub fn at(&self, channel: u32) -> &Statistics
        requires { channel < length self.now }
        ensures { slice_get self.entry.now channel ≡ Some result.now }
    {
        &self.statistics[channel as usize]
    }
}

/// Those of each channel, of no command.
fn none_counted(alloc: Global, config: &Config) -> Result<Vec<Statistics>, AllocError>
    ensures { IfOk result (λ all. AreNew config.now all.items) }
{
    let mut all = Vec::new(alloc);
    for _ in 0..config.geometry.channels {
        all.push(Statistics::open(config, 0))?;
    }
    Ok(all)
}

/// Counts a command. One that lies outside the geometry, as no channel issues, isn't counted.
fn count(statistics: &mut Statistics, entry: &Entry)
    ensures { statistics.new ≡ counted entry.now statistics.old }
{
    if entry.command.is_in(statistics.geometry()) {
        statistics.note(entry);
    }
}

/// How the next command of a channel with these statistics finds its bank.
fn finding_of(statistics: &Statistics, command: &Command) -> Option<Finding>
    ensures { result ≡ finding_of command.now statistics.entry.now }
{
    if command.is_in(statistics.geometry()) {
        statistics.finding(command)
    } else {
        None
    }
}

/// All commands of the channel were counted. A law: it does nothing.
pub fn all_are_counted(channel: &Channel, statistics: &Statistics)
    requires running { channel.now.now ≢ CLOCK_STOP }
    requires noted { IsNotedOf channel.now.config channel.now.trace statistics.now }
    ensures { AreCounted channel.now.config channel.now.now channel.now.trace statistics.now }
{
    channel.commands_are_legal();
    let _ = channel.now();
    let _ = statistics;
}

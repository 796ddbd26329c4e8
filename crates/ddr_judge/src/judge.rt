//! The judge of a capture: which channels are legal, and the first fault of each other.
//!
//! `channel_judge` stands below, and what reads a capture above.
ghost use Rattle.std.specs.Prelude.{◌≡◌, ◌≢◌, ℕ, ◌+◌, ◌-◌, ◌<◌, ◌≤◌, ◌^◌, List, [], ◌∷◌, ◌++◌, IfOk, length, max};
ghost use Rattle.ddr_timing.specs.declared.config.Config.{Config};
ghost use Rattle.ddr_judge.specs.Records.{Record, end_behind, of_channel};
ghost use Rattle.ddr_judge.specs.Verdict.{IsVerdict};

use crate::channel_judge::ChannelJudge;
use crate::fault::Fault;
use ddr_timing::config::Config;
use ddr_trace::command::Entry;
use std::alloc::{AllocError, Global};

/// The commands of a capture so far, of each channel as much as tells its verdict. Contracts speak of every list of records
/// that it judged: the commands of all channels, in the order in which they came. It takes as much memory as the channels
/// do, however many commands come.
#[derive(Drop)]
pub struct Judge {
    /// One for each channel.
    judges: Vec<ChannelJudge>,
    /// The first cycle from the start on that is behind every command.
    end: u64,
}

impl Judge {
    ghost use Rattle.ddr_judge.specs.Judged.{HasJudged, channels_of, commands_of, end_of};

    /// Before the first command, in the cycle `start`. Fails where memory is refused; no later call asks for any.
    pub fn open(alloc: Global, config: &Config, start: u64) -> Result<Judge, AllocError>
        ensures channels { IfOk result (λ j. channels_of j ≡ config.now.geometry.channels) }
        ensures nothing { IfOk result (λ j. (channel : ℕ) → channel < channels_of j → commands_of j channel ≡ 0) }
        ensures end { IfOk result (λ j. end_of j ≡ start) }
        ensures judged { IfOk result (λ j. HasJudged j config.now start []) }
    {
        let mut judges = Vec::new(alloc);
        for _channel in 0..config.geometry.channels {
            judges.push(ChannelJudge::open(alloc, config, start)?)?;
        }
        Ok(Judge { judges, end: start })
    }

    /// Judges the next command of the capture, which stands in that line, behind those of its channel. Behind its channel's
    /// first fault a command is only counted.
    pub fn pass(&mut self, channel: u32, entry: &Entry, line: u64)
        requires there { channel < channels_of self.old }
        requires early { entry.now.cycle < 2 ^ 64 - 1 }
        requires countable { commands_of self.old channel + 1 < 2 ^ 64 }
        ensures channels { channels_of self.new ≡ channels_of self.old }
        ensures counted { commands_of self.new channel ≡ commands_of self.old channel + 1 }
        ensures others { (other : ℕ) → other ≢ channel → commands_of self.new other ≡ commands_of self.old other }
        ensures end { end_of self.new ≡ max (end_of self.old) (entry.now.cycle + 1) }
        ensures judged { (config : Config) (start : ℕ) (records : List Record) → HasJudged self.old config start records
            → HasJudged self.new config start (records ++ record { channel = channel; entry = entry.now; line = line } ∷ []) }
    {
        self.end = self.end.max(entry.cycle + 1);
        self.judges[channel as usize].pass(entry, line);
    }

    /// The channel's first fault, in a trace that ends at `end`; `None` where the channel is legal. No command stands at `end`
    /// or behind it.
    pub fn verdict(&self, channel: u32, end: u64) -> Option<Fault>
        requires there { channel < channels_of self.now }
        requires behind { end_of self.now ≤ end }
        ensures { (config : Config) (start : ℕ) (records : List Record) → HasJudged self.now config start records
            → IsVerdict config start end (of_channel channel records) result }
    {
        self.judges[channel as usize].verdict(end)
    }

    /// How many commands the channel had.
    pub fn commands(&self, channel: u32) -> u64
        requires { channel < channels_of self.now }
        ensures value { result ≡ commands_of self.now channel }
        ensures counted { (config : Config) (start : ℕ) (records : List Record) → HasJudged self.now config start records
            → result ≡ length (of_channel channel records) }
    {
        self.judges[channel as usize].count
    }

    /// The first cycle from the start on that is behind every command.
    pub fn end(&self) -> u64
        ensures value { result ≡ end_of self.now }
        ensures behind { (config : Config) (start : ℕ) (records : List Record) → HasJudged self.now config start records
            → result ≡ end_behind start records }
    {
        self.end
    }
}

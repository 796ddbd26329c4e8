//! Turns of the data bus: between reads and writes, and between ranks.
//!
//! `counts` stands below, and `statistics` above.
ghost use Rattle.std.specs.Prelude.{◌≡◌};
ghost use Rattle.ddr_trace.specs.Commands.{is_same_kind, is_same_rank};
ghost use Rattle.ddr_statistics.specs.Noted.{turns_noted};
ghost use Rattle.ddr_statistics.specs.Turns.{is_unlike};

use crate::counts::raise_if;
use ddr_trace::command::Command;

/// The turns so far, and the read or write that the next one is compared with.
#[derive(Clone, Copy)]
pub struct Turns {
    pub last: Option<Command>,
    pub turn_rounds: u64,
    pub rank_switches: u64,
}

impl Turns {
    /// Before the first command.
    pub const NONE: Turns = Turns {
        last: None,
        turn_rounds: 0,
        rank_switches: 0,
    };

    /// Counts a command of the channel.
    pub fn note(&mut self, command: &Command)
        ensures { self.new ≡ turns_noted command.now self.old }
    {
        if !command.is_column() {
            return;
        }
        let is_turn_round = self.is_turn_round(command);
        let is_rank_switch = self.is_rank_switch(command);
        raise_if(&mut self.turn_rounds, is_turn_round);
        raise_if(&mut self.rank_switches, is_rank_switch);
        self.last = Some(*command);
    }

    /// Whether the last one goes the other way.
    fn is_turn_round(&self, command: &Command) -> bool
        ensures { result ≡ is_unlike is_same_kind self.now.last command.now }
    {
        match &self.last {
            Some(last) => !is_same_kind(last, command),
            None => false,
        }
    }

    /// Whether the last one is of another rank.
    fn is_rank_switch(&self, command: &Command) -> bool
        ensures { result ≡ is_unlike is_same_rank self.now.last command.now }
    {
        match &self.last {
            Some(last) => last.rank() != command.rank(),
            None => false,
        }
    }
}

/// Whether both are reads, or both writes.
fn is_same_kind(first: &Command, second: &Command) -> bool
    ensures { result ≡ is_same_kind first.now second.now }
{
    (first.is_read() && second.is_read()) || (first.is_write() && second.is_write())
}

//! Who lets a worker make its turns.
ghost use Rattle.std.specs.Prelude.{◌≡◌};
ghost use Rattle.ddr_workers.specs.declared.gate.Turn.TheVariants.{Hold, Stop};

use std::sync::Wait;

/// What a worker's turn does.
#[derive(Clone, Copy, Debug, PartialEq, Eq)]
pub enum Turn {
    /// The turn is made.
    Go,
    /// The turn does nothing.
    Hold,
    /// The worker stops, and comes back whole.
    Stop,
}

/// Asked before each turn of a worker, and told behind each in which its channel made a cycle.
pub trait Gate {
    /// The gate may answer `Stop`.
    ghost may_stop: { Self → Type 0 };
    /// The gate may answer `Hold`.
    ghost may_hold: { Self → Type 0 };

    /// What the next turn of this channel's worker does. It may wait.
    fn turn<R: Wait>(&self, rt: &R, channel: u32) -> Turn
        ensures stop { result ≡ Stop → may_stop self.now }
        ensures hold { result ≡ Hold → may_hold self.now };

    /// Told behind a turn in which this channel made a cycle: which one comes next, and whether a completion is done and not
    /// pushed yet. A gate that has no use for it leaves it out.
    fn made(&self, _channel: u32, _next: u64, _has_done: bool) {}
}

/// A gate that always answers `Go`: it neither stops a worker nor holds it.
#[derive(Clone, Copy, Debug, PartialEq, Eq)]
pub struct Free;

impl Gate for Free {
    ghost may_stop = { λ _. ⊥ };

    ghost may_hold = { λ _. ⊥ };

    fn turn<R: Wait>(&self, _rt: &R, _channel: u32) -> Turn {
        Turn::Go
    }
}

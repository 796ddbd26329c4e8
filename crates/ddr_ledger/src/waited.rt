//! For how long ports had to wait, by what they waited for.
//!
//! `ddr_world` stands below, and `ledger` and `ddr_replay` above. A port waits in a round where the cycle of its next request has come
//! and the request is refused; a round is a clock cycle of each channel.
ghost use Rattle.std.specs.Prelude.{◌≡◌};
ghost use Rattle.ddr_ledger.specs.Waited.{all_waited, both_waited, waited_for, window_waited};

use ddr_world::event::Refusal;

/// For how many clocks a port waited, or several did. Each number stops at the last one that a `u64` holds.
#[derive(Clone, Copy, Debug, PartialEq, Eq)]
pub struct Waited {
    /// For its window, which was full.
    pub window: u64,
    /// For the queue of its request's channel, which was full.
    pub queue: u64,
}

impl Waited {
    /// Before the first round.
    pub const NONE: Waited = Waited {
        window: 0,
        queue: 0,
    };

    /// Counts a round in which the port's request was refused so.
    pub(crate) fn refuse(&mut self, cause: Refusal)
        ensures { self.new ≡ waited_for cause self.old }
    {
        match cause {
            Refusal::WindowFull => self.window = self.window.saturating_add(1),
            Refusal::Busy { .. } => self.queue = self.queue.saturating_add(1),
            _ => {}
        }
    }

    /// Counts so many rounds in which the port's window was full.
    pub(crate) fn fill(&mut self, rounds: u64)
        ensures { self.new ≡ window_waited rounds self.old }
    {
        self.window = self.window.saturating_add(rounds);
    }
}

/// For how many clocks several ports waited together.
pub fn all_waited(waited: &[Waited]) -> Waited
    ensures { result ≡ all_waited waited.now }
{
    let mut all = Waited::NONE;
    for one in waited {
        all = both_waited(&all, one);
    }
    all
}

fn both_waited(a: &Waited, b: &Waited) -> Waited
    ensures { result ≡ both_waited a.now b.now }
{
    Waited {
        window: a.window.saturating_add(b.window),
        queue: a.queue.saturating_add(b.queue),
    }
}

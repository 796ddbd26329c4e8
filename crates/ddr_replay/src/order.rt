//! The order in which the ports of a replay submit.
//!
//! Nothing stands below; `taken` says which one is asked for, and `replaying` goes by it.
ghost use Rattle.std.specs.Prelude.{◌≡◌, ◌≤◌, ◌<◌, ◌+◌, ◌^◌};
ghost use Rattle.ddr_replay.specs.Runs.{first_port, with_first};

/// In which order the ports submit before a round.
#[derive(Clone, Copy, Debug, PartialEq, Eq)]
pub enum Order {
    /// From port 0 on, before each round.
    Fixed,
    /// From the port on whose turn it is, and then those before it: port 0 at first, and then the one behind the last port of which a
    /// request was accepted; behind the last port of all port 0 again. This project's choice.
    InTurn,
}

/// In which order the ports submit before the next round.
#[derive(Clone, Copy, Debug, PartialEq, Eq)]
pub struct Asking {
    pub order: Order,
    /// The port that submits first; where there is no port of that number, port 0 does.
    pub first: u32,
}

impl Asking {
    /// The port that submits first, of so many.
    pub fn first_port(&self, ports: u32) -> u32
        ensures first { result ≡ first_port self.now ports }
        ensures within { result ≤ ports }
    {
        if self.first < ports { self.first } else { 0 }
    }

    /// A request of this port was accepted.
    pub fn note(&mut self, port: u32)
        requires { port + 1 < 2 ^ 32 }
        ensures { self.new ≡ with_first self.old.order port self.old }
    {
        match self.order {
            Order::Fixed => {}
            Order::InTurn => self.first = port + 1,
        }
    }
}

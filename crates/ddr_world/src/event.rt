//! What may happen in the core, and what comes of it.
ghost use Rattle.std.specs.Prelude.{◌≡◌};
ghost use Rattle.ddr_world.specs.Refusals.{refusal_from, cycle_refusal_from};

use ddr_channel::channel::CycleError;
use ddr_ports::refusal::PortError;
use ddr_ports::request::Request;

/// One event: a port or a channel makes one step.
#[derive(Clone, Copy, Debug)]
pub enum Event<'a> {
    /// The port makes a request and pushes it on the queue of the channel that the address names.
    Submit(u32, Request<'a>),
    /// The channel pops from its request queue: it admits a request, or notes a port's End.
    Take(u32),
    /// The channel makes a cycle.
    Cycle(u32),
    /// The channel pushes its oldest completion on the queue of the port that asked for it.
    Deliver(u32),
    /// The port pops from its completion queue and puts the line in its place.
    Collect(u32),
    /// The port gives up its oldest reply.
    Release(u32),
    /// The port pushes its End on the queue of the channel, and is finished.
    End(u32, u32),
}

/// What a made event did.
#[derive(Clone, Copy, Debug, PartialEq, Eq)]
pub enum Outcome {
    /// The request was pushed, with this number at its port.
    Accepted { number: u64 },
    Taken,
    Cycled,
    Delivered,
    /// The completion of this number was put in its place.
    Collected { number: u64 },
    /// The reply of this number was given up.
    Released { number: u64 },
    Ended,
}

/// Why an event was not made. Nothing changed.
#[derive(Clone, Copy, Debug, PartialEq, Eq)]
pub enum Refusal {
    /// The port was finished; or this End was pushed before.
    Finished,
    /// The first address is not below the memory's capacity.
    OutOfRange,
    /// No byte is asked for.
    EmptyLength,
    /// The bytes are not all in the line of the first.
    CrossesLine,
    /// The next number is 2^62, which no port gives.
    Spent,
    /// As many numbers are outstanding as the window allows.
    WindowFull,
    /// The request queue of this channel holds as many items as it may.
    Busy { channel: u32 },
    /// There is nothing to pop, to push or to give up.
    Nothing,
    /// The channel's read queue or its write queue is full, or the port's completion queue.
    QueueFull,
    /// The channel's clock has come to 2^62.
    ClockSpent,
    /// Memory was refused.
    OutOfMemory,
    /// A number is outstanding.
    NotEmpty,
    /// There is no such port or no such channel.
    NoSuch,
}

impl From<PortError> for Refusal {
    ghost from_gives = { λ cause refusal. refusal ≡ refusal_from cause };

    fn from(cause: PortError) -> Refusal {
        match cause {
            PortError::Finished => Refusal::Finished,
            PortError::OutOfRange => Refusal::OutOfRange,
            PortError::EmptyLength => Refusal::EmptyLength,
            PortError::CrossesLine => Refusal::CrossesLine,
            PortError::Spent => Refusal::Spent,
            PortError::WindowFull => Refusal::WindowFull,
        }
    }
}

impl From<CycleError> for Refusal {
    ghost from_gives = { λ cause refusal. refusal ≡ cycle_refusal_from cause };

    fn from(cause: CycleError) -> Refusal {
        match cause {
            CycleError::ClockSpent => Refusal::ClockSpent,
            CycleError::OutOfMemory => Refusal::OutOfMemory,
        }
    }
}

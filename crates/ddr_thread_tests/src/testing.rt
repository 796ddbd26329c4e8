//! What the tests of queues, ports and workers share, but for what `ddr_system_samples` has.
ghost use Rattle.std.specs.Prelude.{◌≡◌, IfOk, Ok};

use ddr_address_map::request::{Echo, Kind};
use ddr_reorder::reply::Reply;
use ddr_samples::sample::changed;
use ddr_timing::config::Config;
use std::alloc::Global;
use std::test::Fail;

/// Profile S, which has two ports and two channels, with another line for one of its keys.
pub fn config_with(alloc: Global, key: &str, other: &str) -> Result<Config, Fail> {
    let text = changed(alloc, &[(key, other)])?;
    Ok(Config::read(alloc, text.as_str())?)
}

/// What the reply of a read repeats of it.
pub fn read_echo(addr: u64, len: u32) -> Echo {
    Echo {
        kind: Kind::Read,
        addr,
        len,
    }
}

/// What the reply of a write repeats of it.
pub fn write_echo(addr: u64, len: u32) -> Echo {
    Echo {
        kind: Kind::Write,
        addr,
        len,
    }
}

/// Whether a reply is there, whose request was served in these cycles.
pub fn is_served(reply: Option<Reply<'_>>, issued: u64, due: u64) -> bool {
    match reply {
        Some(reply) => reply.issued == issued && reply.due == due,
        None => false,
    }
}

/// What two results hold, or what is said in place of the first that doesn't.
pub fn both<T: Drop, U: Drop, E: Drop>(
    first: Result<T, E>,
    second: Result<U, E>,
) -> Result<(T, U), E>
    ensures first { IfOk result (λ values. first ≡ Ok values.0) }
    ensures second { IfOk result (λ values. second ≡ Ok values.1) }
{
    match first {
        Ok(value) => match second {
            Ok(other) => Ok((value, other)),
            Err(error) => Err(error),
        },
        Err(error) => Err(error),
    }
}

/// What three threads did with a queue, and what was left once it was joined.
#[derive(Drop)]
pub struct Exchange<T> {
    all_pushed: bool,
    /// What was taken.
    pub taken: Vec<T>,
    left: Vec<T>,
}

/// Whether all were pushed, how many were taken and left, and whether those of each source came in order.
pub type Outcome = (bool, (usize, usize), (bool, bool));

impl<T: Drop> Exchange<T> {
    /// What came of two sources, each of which says whether it pushed all.
    pub fn new(pushed: (bool, bool), taken: Vec<T>, left: Vec<T>) -> Exchange<T> {
        Exchange {
            all_pushed: pushed.0 && pushed.1,
            taken,
            left,
        }
    }

    /// What came out, where this is whether those of each source came in order.
    pub fn outcome(&self, are_in_order: (bool, bool)) -> Outcome {
        let counts = (self.taken.len(), self.left.len());
        (self.all_pushed, counts, are_in_order)
    }
}

/// Whether these are the numbers of all that a source pushes, in order.
pub fn are_in_order(numbers: &[u64]) -> bool {
    for (place, number) in numbers.iter().enumerate() {
        if *number != place as u64 {
            return false;
        }
    }
    numbers.len() == 100
}

//! The requests of a port that are still to be submitted.
//!
//! `ask` stands below, and `stream` and `ddr_replay` above.
ghost use Rattle.std.specs.Prelude.{◌≡◌, ◌<◌, ◌∷◌, ◌++◌, [], drop, length, slice_get, OnErr, OnOk};

use crate::ask::Ask;
use std::alloc::{AllocError, Global};
use std::marker::Model;

/// A list of requests, taken from its front. Contracts see those that were not taken.
#[derive(Drop)]
pub struct Queue {
    asks: Vec<Ask>,
    /// How many were taken.
    taken: usize,
}

impl Model for Queue {
    ghost use Rattle.std.specs.Prelude.{List, ◌≤◌, drop, length};
    ghost use Rattle.ddr_stream.specs.declared.ask.Ask.{Ask};

    ghost Value = { List Ask };

    ghost view = { λ a. drop a.taken a.asks.items };

    ghost invariant = { λ a. a.taken ≤ length a.asks.items };
}

impl Queue {
    pub fn new(alloc: Global) -> Queue
        ensures { result ≡ [] }
    {
        Queue {
            asks: Vec::new(alloc),
            taken: 0,
        }
    }

    /// Adds a request behind the others.
    pub fn push(&mut self, ask: Ask) -> Result<(), AllocError>
        ensures pushed { OnOk result (self.new ≡ self.old ++ ask ∷ []) }
        ensures kept { OnErr result (self.new ≡ self.old) }
    {
        self.asks.push(ask)?;
        Ok(())
    }

    /// The first request, if there is one.
    pub fn first(&self) -> Option<Ask>
        ensures { result ≡ slice_get self.now 0 }
    {
        self.asks.get(self.taken).copied()
    }

    /// Takes the first request.
    pub fn pop(&mut self)
        requires { 0 < length self.old }
        ensures { self.new ≡ drop 1 self.old }
    {
        self.taken += 1;
        if self.taken >= self.asks.len() - self.taken {
            self.move_to_front();
        }
    }

    /// Moves the requests that were not taken over those that were, so that there is room for at most twice as many as ever waited.
    fn move_to_front(&mut self)
        ensures { self.new ≡ self.old }
    {
        let count = self.asks.len() - self.taken;
        self.asks.copy_within(self.taken.., 0);
        self.asks.truncate(count);
        self.taken = 0;
    }

    pub fn len(&self) -> usize
        ensures { result ≡ length self.now }
    {
        self.asks.len() - self.taken
    }

    /// The requests, in order.
    pub fn asks(&self) -> &[Ask]
        ensures { result.now ≡ self.now }
    {
        &self.asks[self.taken..]
    }
}

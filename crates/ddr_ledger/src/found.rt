//! How the reads and writes of a port's requests found their banks, as far as they were issued.
//!
//! `ddr_statistics` stands below, and `ledger` above.
ghost use Rattle.std.specs.Prelude.{◌≡◌, [], ◌∷◌, ◌++◌, None, drop, slice_set, OnOk};
ghost use Rattle.ddr_ledger.specs.Ledgers.{oldest_found};

use ddr_statistics::counts::Finding;
use std::alloc::{AllocError, Global};
use std::collections::VecDeque;
use std::marker::Model;

/// Of each request of a port that was accepted and whose reply wasn't released, the oldest first, how its read or write found its bank;
/// `None` before that is issued.
#[derive(Drop)]
pub struct Found {
    requests: VecDeque<Option<Finding>>,
}

impl Model for Found {
    ghost use Rattle.std.specs.Prelude.{List, Option};
    ghost use Rattle.ddr_statistics.specs.declared.counts.Finding.{Finding};

    ghost Value = { List (Option Finding) };

    ghost view = { λ a. a.requests.items };
}

impl Found {
    pub fn new(alloc: Global) -> Found
        ensures { result ≡ [] }
    {
        Found {
            requests: VecDeque::new(alloc),
        }
    }

    /// One request more, which is not issued yet.
    pub fn push(&mut self) -> Result<(), AllocError>
        ensures { OnOk result (self.new ≡ self.old ++ None ∷ []) }
    {
        self.requests.push_back(None)?;
        Ok(())
    }

    /// The request at this place, if there is one, found its bank so.
    pub fn note(&mut self, place: u64, found: Option<Finding>)
        ensures { self.new ≡ slice_set self.old place found }
    {
        if place < self.requests.len() as u64 {
            self.requests[place as usize] = found;
        }
    }

    /// How the oldest one found its bank.
    pub fn oldest(&self) -> Option<Finding>
        ensures { result ≡ oldest_found self.now }
    {
        *self.requests.front()?
    }

    /// The oldest one, if there is one, is none of them any more.
    pub fn pop(&mut self)
        ensures { self.new ≡ drop 1 self.old }
    {
        let _ = self.requests.pop_front();
    }
}

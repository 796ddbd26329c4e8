//! What came of the requests of ports: how often they were refused, and how long those took whose replies were taken.
//!
//! `ddr_measure` stands below, and `host` and `numbers` above.
ghost use Rattle.std.specs.Prelude.{◌≡◌, IfOk, replicate};
ghost use Rattle.ddr_c.specs.Traffic.{no_traffic, refused, taken, took_more, with_refused, with_taken};

use crate::host::Front;
use ddr_address_map::request::Kind;
use ddr_measure::distribution::Distribution;
use ddr_reorder::reply::Service;
use ddr_world::event::Refusal;
use std::alloc::{AllocError, Global};

/// How many clocks requests took from their acceptance on.
#[derive(Clone, Copy)]
pub(crate) struct Took {
    /// To the cycle of the column command.
    pub(crate) to_issue: Distribution,
    /// To that of completion.
    pub(crate) to_done: Distribution,
    /// To the clock when the reply was taken.
    pub(crate) to_release: Distribution,
}

impl Took {
    const NONE: Took = Took {
        to_issue: Distribution::NONE,
        to_done: Distribution::NONE,
        to_release: Distribution::NONE,
    };

    /// Notes a request that was accepted and served so, and whose reply is taken at this clock.
    fn note(&mut self, accepted: u64, service: Service, released: u64)
        ensures { self.new ≡ took_more accepted service released self.old }
    {
        self.to_issue.note(service.issued.saturating_sub(accepted));
        self.to_done.note(service.due.saturating_sub(accepted));
        self.to_release.note(released.saturating_sub(accepted));
    }
}

/// What came of the requests of a port.
#[derive(Clone, Copy)]
pub(crate) struct Traffic {
    /// How often one was refused since the window was full.
    pub(crate) full_window: u64,
    /// How often one was since the queue of its channel was full.
    pub(crate) full_queue: u64,
    pub(crate) reads: Took,
    pub(crate) writes: Took,
}

impl Traffic {
    pub(crate) const NONE: Traffic = Traffic {
        full_window: 0,
        full_queue: 0,
        reads: Took::NONE,
        writes: Took::NONE,
    };

    /// Notes that a request was refused so.
    fn refuse(&mut self, cause: Refusal)
        ensures { self.new ≡ refused cause self.old }
    {
        match cause {
            Refusal::WindowFull => self.full_window = self.full_window.saturating_add(1),
            Refusal::Busy { .. } => self.full_queue = self.full_queue.saturating_add(1),
            _ => {}
        }
    }

    /// Notes that a reply is taken at this clock.
    fn take(&mut self, front: &Front, clock: u64)
        ensures { self.new ≡ taken front.now clock self.old }
    {
        match front.echo.kind {
            Kind::Read => self.reads.note(front.accepted, front.service, clock),
            Kind::Write => self.writes.note(front.accepted, front.service, clock),
        }
    }
}

/// Those of so many ports, before their first requests.
pub(crate) fn no_traffic(alloc: Global, ports: u32) -> Result<Vec<Traffic>, AllocError>
    ensures { IfOk result (λ all. all.items ≡ replicate ports no_traffic) }
{
    Ok(vec![in alloc; Traffic::NONE; ports as usize]?)
}

/// Notes that a port refused a request so.
pub(crate) fn refuse(all: &mut [Traffic], port: u32, cause: Refusal)
    ensures { all.new ≡ with_refused port cause all.old }
{
    if (port as usize) < all.len() {
        all[port as usize].refuse(cause);
    }
}

/// Notes that a reply of a port is taken at this clock.
pub(crate) fn take(all: &mut [Traffic], port: u32, front: &Front, clock: u64)
    ensures { all.new ≡ with_taken port front.now clock all.old }
{
    if (port as usize) < all.len() {
        all[port as usize].take(front, clock);
    }
}

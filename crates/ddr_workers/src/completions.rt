//! The queue that leads from every channel to one port.
//!
//! It has a put side for each channel and one take side, which go to threads of their own. Below stands `lane`, which
//! has the queue and its rule.
ghost use Rattle.std.specs.Prelude.{◌≡◌, ◌<◌, IfOk, IfErr, IfSome, IfNone, OnOk, OnErr};
ghost use Rattle.ddr_workers.specs.Completions.{IsFrom, WasFull, WasEmpty, IsNext, IsLeft};
ghost use Rattle.ddr_workers.specs.Sides.{after_push, after_full, after_pop, after_empty, AreOpened, AreSides};

use crate::error::OpenError;
use crate::lane;
use crate::lane::{Carries, LanePut, LaneTake};
use ddr_address_map::request::Done;
use ddr_timing::config::Config;
use ddr_timing::geometry::Geometry;
use std::alloc::Global;
use std::sync::Wait;

/// Where a queue leads: to a port, from the channels of this shape of memory.
#[derive(Clone, Copy)]
pub struct Delivery {
    pub geometry: Geometry,
    pub port: u32,
}

/// Completions for one port, each of the channel of its put side.
pub struct Completions;

impl Carries<Delivery, Done> for Completions {
    ghost use Rattle.ddr_workers.specs.Completions.{source_of, AreDelivered};

    ghost source = { source_of };

    ghost proper = { AreDelivered };
}

/// The put side of a channel: it pushes completions.
pub type DonePut = LanePut<Delivery, Done, Completions>;

/// The take side of a port: it pops what the channels pushed.
pub type DoneTake = LaneTake<Delivery, Done, Completions>;

/// Opens the queue that leads to a port: one put side for each channel, in order, and the take side. It holds at most
/// the configuration's `window` of completions.
pub fn open(
    alloc: Global,
    config: &Config,
    port: u32,
) -> Result<(Vec<DonePut>, DoneTake), OpenError>
    requires { port < config.now.limits.ports }
    ensures { IfOk result (λ sides. AreOpened (record { geometry = config.now.geometry; port = port }) config.now.limits.window config.now.geometry.channels sides.0.items sides.1) }
{
    let delivery = Delivery {
        geometry: config.geometry,
        port,
    };
    lane::open(
        alloc,
        delivery,
        config.limits.window,
        config.geometry.channels,
    )
}

impl DonePut {
    /// Pushes a completion. Where the queue is full it comes back.
    pub fn push<R: Wait>(&mut self, rt: &R, done: Done) -> Result<(), Done>
        requires { IsFrom self.old.who.queue.purpose self.old.who.source done }
        ensures pushed { OnOk result (self.new ≡ after_push self.old done) }
        ensures back { IfErr result (λ d. d ≡ done) }
        ensures same { OnErr result (self.new ≡ after_full self.old) }
        ensures full { OnErr result (WasFull self.old) }
        ensures who { self.new.who ≡ self.old.who }
    {
        self.put(rt, done)
    }
}

impl DoneTake {
    /// Pops the oldest completion that the queue holds.
    pub fn pop<R: Wait>(&mut self, rt: &R) -> Option<Done>
        ensures popped { IfSome result (λ d. self.new ≡ after_pop self.old d) }
        ensures next { IfSome result (IsNext self.old) }
        ensures same { IfNone result (self.new ≡ after_empty self.old) }
        ensures empty { IfNone result (WasEmpty self.old) }
        ensures who { self.new.who ≡ self.old.who }
    {
        self.take(rt)
    }
}

/// Ends the queue, of which all sides come back, and gives what it still holds, the oldest first.
pub fn join<R: Wait>(rt: &R, puts: Vec<DonePut>, take: DoneTake) -> Vec<Done>
    requires { AreSides puts.items take }
    ensures { IsLeft puts.items take result.items }
{
    lane::join(rt, puts, take)
}

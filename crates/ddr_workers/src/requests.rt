//! The queue that leads from every port to one channel.
//!
//! It has a put side for each port and one take side, which go to threads of their own. Below stands `lane`, which
//! has the queue and its rule.
ghost use Rattle.std.specs.Prelude.{◌≡◌, ◌<◌, ℕ, true, false, [], IfOk, IfErr, IfSome, IfNone, OnOk, OnErr};
ghost use Rattle.ddr_world.specs.declared.item.Item.TheVariants.{Request, End};
ghost use Rattle.ddr_workers.specs.Requests.{has_end, of_port, IsPlaced, WasFull, WasEmpty, IsNext, IsLeft};
ghost use Rattle.ddr_workers.specs.Sides.{after_push, after_full, after_pop, after_empty, AreOpened, AreSides};

use crate::error::OpenError;
use crate::lane;
use crate::lane::{Carries, LanePut, LaneTake};
use ddr_address_map::request::Req;
use ddr_timing::config::Config;
use ddr_timing::geometry::Geometry;
use std::alloc::Global;
use std::sync::Wait;
use thiserror::Error;

/// What travels to a channel.
pub use ddr_world::item::Item;

/// Where a queue leads: to a channel of this shape of memory.
#[derive(Clone, Copy)]
pub struct Route {
    pub geometry: Geometry,
    pub channel: u32,
}

/// Requests and Ends, each of the port of its put side.
pub struct Requests;

impl Carries<Route, Item> for Requests {
    ghost use Rattle.ddr_workers.specs.Requests.{port_of, IsProper};

    ghost source = { λ _. port_of };

    ghost proper = { IsProper };
}

/// The queue was full.
#[derive(Clone, Copy, Debug, PartialEq, Eq, Error)]
#[error("the queue is full")]
pub struct Full;

/// The put side of a port: it pushes requests, and at last an End.
pub type RequestPut = LanePut<Route, Item, Requests>;

/// The take side of a channel: it pops what the ports pushed.
pub type RequestTake = LaneTake<Route, Item, Requests>;

/// Opens the queue that leads to a channel: one put side for each port, in port order, and the take side. It holds at
/// most the configuration's `intake` of items.
pub fn open(
    alloc: Global,
    config: &Config,
    channel: u32,
) -> Result<(Vec<RequestPut>, RequestTake), OpenError>
    requires { channel < config.now.geometry.channels }
    ensures { IfOk result (λ sides. AreOpened (record { geometry = config.now.geometry; channel = channel }) config.now.limits.intake config.now.limits.ports sides.0.items sides.1) }
{
    let route = Route {
        geometry: config.geometry,
        channel,
    };
    lane::open(alloc, route, config.limits.intake, config.limits.ports)
}

impl RequestPut {
    /// Pushes a request. Where the queue is full the request comes back.
    pub fn push<R: Wait>(&mut self, rt: &R, request: Req) -> Result<(), Req>
        requires own { request.port ≡ self.old.who.source }
        requires placed { IsPlaced self.old.who.queue.purpose request }
        requires before_end { has_end self.old.put ≡ false }
        ensures pushed { OnOk result (self.new ≡ after_push self.old (Request request)) }
        ensures back { IfErr result (λ r. r ≡ request) }
        ensures same { OnErr result (self.new ≡ after_full self.old) }
        ensures full { OnErr result (WasFull self.old) }
        ensures who { self.new.who ≡ self.old.who }
    {
        match self.put(rt, Item::Request(request)) {
            Ok(()) => Ok(()),
            Err(Item::Request(request)) => Err(request),
            Err(Item::End(_)) => unreachable!(),
        }
    }

    /// Pushes the port's End, after which nothing is pushed. Where the queue is full nothing changes.
    pub fn end<R: Wait>(&mut self, rt: &R) -> Result<(), Full>
        requires before_end { has_end self.old.put ≡ false }
        ensures pushed { OnOk result (self.new ≡ after_push self.old (End self.old.who.source)) }
        ensures same { OnErr result (self.new ≡ after_full self.old) }
        ensures full { OnErr result (WasFull self.old) }
        ensures who { self.new.who ≡ self.old.who }
    {
        let end = Item::End(self.source());
        match self.put(rt, end) {
            Ok(()) => Ok(()),
            Err(_) => Err(Full),
        }
    }
}

impl RequestTake {
    /// Pops the oldest item that the queue holds.
    pub fn pop<R: Wait>(&mut self, rt: &R) -> Option<Item>
        ensures popped { IfSome result (λ x. self.new ≡ after_pop self.old x) }
        ensures next { IfSome result (IsNext self.old) }
        ensures same { IfNone result (self.new ≡ after_empty self.old) }
        ensures empty { IfNone result (WasEmpty self.old) }
        ensures who { self.new.who ≡ self.old.who }
    {
        self.take(rt)
    }
}

/// Ends the queue, of which all sides come back, and gives what it still holds, the oldest first.
pub fn join<R: Wait>(rt: &R, puts: Vec<RequestPut>, take: RequestTake) -> Vec<Item>
    requires { AreSides puts.items take }
    ensures left { IsLeft puts.items take result.items }
    // There is nothing where every port's End was taken.
    ensures ended { ((p : ℕ) → p < take.who.count → has_end (of_port p take.took) ≡ true) → result.items ≡ [] }
{
    lane::join(rt, puts, take)
}

//! The ports' part of a round, and what a port is asked for between rounds.
//!
//! `events`, `watcher` and `ddr_world` stand below, and `rounds` and the crates above this one above.
ghost use Rattle.std.specs.Prelude.{◌≡◌, ◌<◌, ℕ, None, false, fold, is_ok};
ghost use Rattle.ddr_ports.specs.Asked.{asked_of};
ghost use Rattle.ddr_world.specs.Answer.{IsAnswered};
ghost use Rattle.ddr_world.specs.Events.{Collect, Release, Submit};
ghost use Rattle.ddr_world.specs.History.{front_of};
ghost use Rattle.ddr_world.specs.Kept.{state_of};
ghost use Rattle.ddr_world.specs.Promise.{trace_at};
ghost use Rattle.ddr_world.specs.Served.{front_service};
ghost use Rattle.ddr_world.specs.Step.{step};
ghost use Rattle.ddr_rounds.specs.Continues.{Continues};
ghost use Rattle.ddr_rounds.specs.Rounds.{outstanding, ports_collected, until_refused};
ghost use Rattle.ddr_rounds.specs.Telling.{IsHeard, release_told, submit_told};

use crate::events::repeat;
use crate::told::Told;
use crate::watcher::Watcher;
use ddr_ports::request::Request;
use ddr_world::event::{Event, Outcome, Refusal};
use ddr_world::world::World;

/// Lets a port collect what was delivered, and tells whether anything was.
#[inline(always)]
pub fn collect(world: &mut World, port: u32) -> bool
    ensures state { state_of world.new ≡ until_refused (Collect port) (state_of world.old) }
    ensures some { result ≡ is_ok (step (state_of world.old) (Collect port)) }
    ensures outstanding { outstanding (state_of world.new) ≡ outstanding (state_of world.old) }
    ensures traces { (c : ℕ) → trace_at (state_of world.new) c ≡ trace_at (state_of world.old) c }
    ensures config { world.new.config ≡ world.old.config }
    ensures keeps { world.new.keeps ≡ world.old.keeps }
    ensures continues { Continues world.old world.new }
{
    repeat(world, Event::Collect(port))
}

/// Lets each of the first so many ports collect what was delivered, in order.
#[inline]
pub fn collect_ports(world: &mut World, ports: u32)
    ensures state { state_of world.new ≡ ports_collected ports (state_of world.old) }
    ensures outstanding { outstanding (state_of world.new) ≡ outstanding (state_of world.old) }
    ensures traces { (c : ℕ) → trace_at (state_of world.new) c ≡ trace_at (state_of world.old) c }
    ensures config { world.new.config ≡ world.old.config }
    ensures keeps { world.new.keeps ≡ world.old.keeps }
    ensures continues { Continues world.old world.new }
{
    for port in 0..ports {
        let _ = collect(world, port);
    }
}

/// Whether a reply is in front of one of the first so many ports.
#[inline(always)]
pub fn has_front(world: &World, ports: u32) -> bool
    ensures replies { result ≡ false → (port : ℕ) → port < ports → front_of (state_of world.now) port ≡ None }
    ensures services { result ≡ false → (port : ℕ) → port < ports → front_service (state_of world.now) port ≡ None }
{
    for port in 0..ports {
        if world.front(port).is_some() {
            return true;
        }
    }
    false
}

/// Asks a port for a request. The watcher is told whether it was accepted.
#[inline]
pub fn submit<W: Watcher>(
    world: &mut World,
    port: u32,
    request: Request<'_>,
    watcher: &mut W,
) -> Result<Outcome, Refusal>
    ensures answer { IsAnswered world.old world.new (Submit port (asked_of request.entry)) result }
    ensures told { watcher.new ≡ fold W.hears watcher.old (submit_told port result) }
    ensures heard { IsHeard W.hears watcher.old watcher.new (state_of world.old) (state_of world.new) }
    ensures continues { Continues world.old world.new }
{
    let answer = world.step(Event::Submit(port, request));
    tell_submit(watcher, port, answer);
    answer
}

/// Tells the watcher what a port answered to a request.
#[inline(always)]
fn tell_submit<W: Watcher>(watcher: &mut W, port: u32, answer: Result<Outcome, Refusal>)
    ensures { watcher.new ≡ fold W.hears watcher.old (submit_told port answer) }
{
    match answer {
        Ok(Outcome::Accepted { number }) => watcher.hear(Told::Accepted { port, number }),
        Ok(_) => {}
        Err(cause) => watcher.hear(Told::Refused { port, cause }),
    }
}

/// Lets a port give up the reply in front of it, if there is one. The watcher is told which.
#[inline]
pub fn release<W: Watcher>(
    world: &mut World,
    port: u32,
    watcher: &mut W,
) -> Result<Outcome, Refusal>
    ensures answer { IsAnswered world.old world.new (Release port) result }
    ensures told { watcher.new ≡ fold W.hears watcher.old (release_told port result) }
    ensures heard { IsHeard W.hears watcher.old watcher.new (state_of world.old) (state_of world.new) }
    ensures continues { Continues world.old world.new }
{
    let answer = world.step(Event::Release(port));
    tell_release(watcher, port, answer);
    answer
}

/// Tells the watcher which reply a port gave up, if it gave one up.
#[inline(always)]
fn tell_release<W: Watcher>(watcher: &mut W, port: u32, answer: Result<Outcome, Refusal>)
    ensures { watcher.new ≡ fold W.hears watcher.old (release_told port answer) }
{
    if let Ok(Outcome::Released { number }) = answer {
        watcher.hear(Told::Released { port, number });
    }
}

//! A port to which a completion comes that it does not wait for.
ghost use Rattle.std.specs.Prelude.{◌≡◌, IfOk, IfSome};
ghost use Rattle.ddr_workers.specs.Completions.{IsFrom};

use super::*;
use crate::port::PollAnswer;
use crate::refusal::{FinishError, PollError, SubmitError};
use ddr_address_map::map::Map;
use ddr_address_map::request::{Done, Echo, Kind};
use ddr_ports::request::Request;
use ddr_timing::profile::PROFILE_S;
use ddr_timing::units::LINE_BYTES;
use std::sync::Wait;
use std::test::Fail;

/// Port 0, and beside it the side on which channel 0 pushes its completions.
fn port_and_side(alloc: Global, config: &Config) -> Result<(Port, DonePut), Fail>
    ensures source { IfOk result (λ both. both.1.who.source ≡ 0) }
    ensures delivery { IfOk result (λ both. both.1.who.queue.purpose ≡ record { geometry = config.now.geometry; port = 0 }) }
{
    let (port_rows, _) = request_lanes(alloc, config)?;
    let (mut worker_rows, port_takes) = completion_lanes(alloc, config)?;
    let mut ports = open_ports(alloc, config, 7, port_rows, port_takes)?;
    if ports.is_empty() || worker_rows.is_empty() {
        return Err("a port and a channel".into());
    }
    let mut row = worker_rows.remove(0);
    if row.is_empty() {
        return Err("a side to the port".into());
    }
    let port = ports.remove(0);
    let side = row.remove(0);
    Ok((port, side))
}

/// What the reply of a read of the first bytes repeats of it.
const READ: Echo = Echo {
    kind: Kind::Read,
    addr: 0,
    len: 4,
};

/// The completion of a read of the first line, with this number, for port 0: a line of nines.
fn completion(alloc: Global, config: &Config, number: u64) -> Option<Done>
    ensures { IfSome result (IsFrom (record { geometry = config.now.geometry; port = 0 }) 0) }
{
    let place = Map::new(config).place(0)?;
    if place.channel != 0 {
        return None;
    }
    let line = Box::new(alloc, [9; LINE_BYTES]).ok()?;
    Some(Done {
        port: 0,
        number,
        echo: READ,
        issued: 4,
        due: 12,
        line,
    })
}

/// Pushes such a completion.
fn complete<R: Wait>(
    rt: &R,
    alloc: Global,
    config: &Config,
    side: &mut DonePut,
    number: u64,
) -> Result<(), Fail>
    requires source { side.old.who.source ≡ 0 }
    requires delivery { side.old.who.queue.purpose ≡ record { geometry = config.now.geometry; port = 0 } }
    ensures { side.new.who ≡ side.old.who }
{
    let done = completion(alloc, config, number).ok_or("a completion")?;
    match side.push(rt, done) {
        Ok(()) => Ok(()),
        Err(_) => Err("a free place".into()),
    }
}

/// Whether the read of number 0 is in front, with its bytes.
fn is_first_in_front(port: &Port) -> bool {
    match port.front() {
        Some(reply) => {
            reply.number == 0 && reply.echo == READ && reply.bytes == [9; 4].as_slice()
        }
        None => false,
    }
}

/// Submits two reads and takes the first one's completion in.
fn read_first<R: Wait>(
    rt: &R,
    alloc: Global,
    config: &Config,
    port: &mut Port,
    side: &mut DonePut,
) -> Result<bool, Fail>
    requires source { side.old.who.source ≡ 0 }
    requires delivery { side.old.who.queue.purpose ≡ record { geometry = config.now.geometry; port = 0 } }
    ensures { side.new.who ≡ side.old.who }
{
    let first = port.submit(rt, Request::read(0, 4));
    let second = port.submit(rt, Request::read(0, 4));
    complete(rt, alloc, config, side, 0)?;
    let polled = port.poll(rt);
    Ok(first == Ok(0) && second == Ok(1) && polled == Ok(PollAnswer::Filled { number: 0 }))
}

/// Whether a broken port refuses each call that would change it, and lends the reply that was in front before.
fn refuses_all<R: Wait>(rt: &R, mut port: Port) -> bool {
    let submitted = port.submit(rt, Request::read(0, 4));
    let polled = port.poll(rt);
    let refused = submitted == Err(SubmitError::Broken) && polled == Err(PollError::Broken);
    match port.finish(rt) {
        Err((back, error)) => {
            refused && error == FinishError::Broken && is_first_in_front(&back)
        }
        Ok(_) => false,
    }
}

#[test]
fn a_stray_completion_breaks_the_port(rt: HostRuntime) -> Result<(), Fail> {
    let alloc = rt.alloc();
    let config = Config::read(alloc, PROFILE_S)?;
    let (mut port, mut side) = port_and_side(alloc, &config)?;
    assert!(rt; read_first(&rt, alloc, &config, &mut port, &mut side)?);
    assert!(rt; is_first_in_front(&port));
    complete(&rt, alloc, &config, &mut side, 7)?;
    assert_eq!(rt; port.poll(&rt), Err(PollError::Stray));
    assert!(rt; refuses_all(&rt, port));
    Ok(())
}

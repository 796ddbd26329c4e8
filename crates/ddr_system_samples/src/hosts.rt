//! What a host does with a port while other threads go on, in so many tries as there may be.
ghost use Rattle.std.specs.Prelude.{IfSome};
ghost use Rattle.ddr_workers.specs.Port.{IsEndOfPort, IsSamePort};

use ddr_address_map::request::Echo;
use ddr_reorder::reply::Reply;
use ddr_workers::port::{PollAnswer, Port, PortEnd};
use std::sync::Wait;
use std::thread;

/// How often something is tried that waits for another thread.
pub const TRIES: u32 = 10_000_000;

/// Polls until a number is filled, in so many tries.
pub fn poll_in_time<R: Wait>(rt: &R, port: &mut Port, tries: u32) -> Option<u64>
    ensures { IsSamePort port.old port.new }
{
    for _ in 0..tries {
        match port.poll(rt) {
            Ok(PollAnswer::Filled { number }) => return Some(number),
            Ok(PollAnswer::Empty) => thread::yield_now(),
            Err(_) => return None,
        }
    }
    None
}

/// Whether a reply is there, with this number, for this request and with these bytes.
pub fn is_reply(reply: Option<Reply<'_>>, number: u64, echo: Echo, bytes: &[u8]) -> bool {
    match reply {
        Some(reply) => reply.number == number && reply.echo == echo && reply.bytes == bytes,
        None => false,
    }
}

/// Finishes a port, in as many tries as there may be.
pub fn finish_in_time<R: Wait>(rt: &R, mut port: Port) -> Option<PortEnd>
    ensures { IfSome result (IsEndOfPort port) }
{
    for _ in 0..TRIES {
        match port.finish(rt) {
            Ok(end) => return Some(end),
            Err((back, _)) => {
                port = back;
                thread::yield_now();
            }
        }
    }
    None
}

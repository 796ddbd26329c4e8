//! A port and a channel by themselves: what stands ready as completions come in another order than the requests.
ghost use Rattle.std.specs.Prelude.{◌≡◌, IfOk};

use super::*;
use ddr_channel::channel::Channel;
use ddr_ports::port::PortCore;

/// The port asks for a byte, and the channel admits the request.
fn ask(port: &mut PortCore, channel: &mut Channel, addr: u64) -> Result<(), Fail>
    requires { port.old.geometry ≡ channel.old.config.geometry }
    ensures { port.new.geometry ≡ channel.new.config.geometry }
{
    let Ok(request) = port.prepare(Request::read(addr, 1)) else {
        return Err("not prepared".into());
    };
    match channel.admit(request) {
        Ok(()) => Ok(()),
        Err(_) => Err("not admitted".into()),
    }
}

/// Reads of two DRAM rows of a bank, and then of another line of the first of them.
fn ask_all(port: &mut PortCore, channel: &mut Channel) -> Result<(), Fail>
    requires { port.old.geometry ≡ channel.old.config.geometry }
{
    ask(port, channel, 0)?;
    ask(port, channel, 8192)?;
    ask(port, channel, 64)
}

/// A cycle. What is done in it goes to the port.
fn cycle(port: &mut PortCore, channel: &mut Channel) -> Result<(), Fail> {
    channel.cycle()?;
    if let Some(done) = channel.pop_done() {
        if port.fill(done).is_err() {
            return Err("the port does not wait for it".into());
        }
    }
    Ok(())
}

fn cycles(port: &mut PortCore, channel: &mut Channel, count: u32) -> Result<(), Fail> {
    for _cycle in 0..count {
        cycle(port, channel)?;
    }
    Ok(())
}

/// The number of the reply behind the oldest one, where it is ready.
fn second(port: &PortCore) -> Option<u64> {
    match port.nth(1) {
        Some(reply) => Some(reply.number),
        None => None,
    }
}

/// The younger row hit comes back in cycle 17, and the read of the second DRAM row in cycle 28.
fn has_replies(rt: &impl Abort, port: &mut PortCore, channel: &mut Channel) -> Result<(), Fail> {
    cycles(port, channel, 17)?;
    assert_eq!(rt; port.release(), Some(0));
    for (count, ready, number) in [(1, 0, None), (11, 2, Some(2))] {
        cycles(port, channel, count)?;
        assert_eq!(rt;
            (port.ready(), port.outstanding(), second(port)),
            (ready, 2, number)
        );
    }
    Ok(())
}

/// A port and a channel of profile S.
fn open(alloc: Global) -> Result<(PortCore, Channel), Fail>
    ensures { IfOk result (λ both. both.0.geometry ≡ both.1.config.geometry) }
{
    let config = Config::read(alloc, PROFILE_S)?;
    let port = PortCore::open(alloc, &config, 0, 0)?;
    Ok((port, Channel::open(alloc, &config, 0)?))
}

#[test]
fn a_younger_reply_waits_for_the_older_one(rt: HostRuntime) -> Result<(), Fail> {
    let (mut port, mut channel) = open(rt.alloc())?;
    ask_all(&mut port, &mut channel)?;
    has_replies(&rt, &mut port, &mut channel)
}

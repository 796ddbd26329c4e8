//! A channel that is held up holds no other up, and a turn that is held does nothing.
ghost use Rattle.std.specs.Thread.{IsSync};
ghost use Rattle.ddr_workers.specs.Port.{IsSamePort};

use super::*;
use ddr_timing::profile::PROFILE_S;

/// How many turns that are held are waited for: more than the cycles that a channel needs to answer a read, which are 13.
const HELD_TURNS: u64 = 100;

/// The first address of the channel that is held up, and that of the other.
#[derive(Clone, Copy)]
struct Addresses {
    held: u64,
    other: u64,
}

/// Where the channels of profile S begin, of which this one is held up.
fn addresses_of(channel: u32) -> Addresses {
    let (held, other) = if channel == 0 { (0, HALF) } else { (HALF, 0) };
    Addresses { held, other }
}

/// Reads on the channel that isn't held up, and takes the reply.
fn read_other<R: Wait>(rt: &R, port: &mut Port, addr: u64) -> Result<(), &'static str>
    ensures { IsSamePort port.old port.new }
{
    submit(rt, port, Request::read(addr, 1), 0)?;
    fill(rt, port, 0)?;
    take_front(port, 0, read_echo(addr, 1), &[0])
}

/// Waits until enough turns more were held, as long as there are tries.
fn wait_for_turns(gate: &Barred) -> Result<(), &'static str> {
    let before = gate.held.load(Ordering::SeqCst);
    for _ in 0..TRIES {
        let turns = gate.held.load(Ordering::SeqCst).wrapping_sub(before);
        if turns >= HELD_TURNS {
            return Ok(());
        }
        thread::yield_now();
    }
    Err("turns that are held")
}

/// Reads on the channel that is held up and then on the other, and sees that the first reply doesn't come.
fn read_both<R: Wait>(
    rt: &R,
    gate: &Barred,
    port: &mut Port,
    addresses: Addresses,
) -> Result<(), &'static str>
    ensures { IsSamePort port.old port.new }
{
    submit(rt, port, Request::read(addresses.held, 1), 0)?;
    submit(rt, port, Request::read(addresses.other, 1), 1)?;
    fill(rt, port, 1)?;
    wait_for_turns(gate)?;
    let is_held = port.poll(rt) == Ok(PollAnswer::Empty);
    expect(is_held, "no reply of a channel that is held up")
}

/// Takes both replies once the gate lets the channel go.
fn take_both<R: Wait>(rt: &R, port: &mut Port, addresses: Addresses) -> Result<(), &'static str>
    ensures { IsSamePort port.old port.new }
{
    fill(rt, port, 0)?;
    take_front(port, 0, read_echo(addresses.held, 1), &[0])?;
    take_front(port, 1, read_echo(addresses.other, 1), &[0])
}

/// Reads on both channels. The reply of the one that is held up comes once the gate is opened.
fn read_held<R: Wait>(
    rt: &R,
    gate: &Barred,
    port: &mut Port,
    addresses: Addresses,
) -> Result<(), &'static str>
    ensures { IsSamePort port.old port.new }
{
    read_both(rt, gate, port, addresses)?;
    gate.open();
    take_both(rt, port, addresses)
}

/// Reads as the gate lets it, opens the gate once that is done or the tries are spent, and finishes the port. Where that
/// fails the workers are stopped, since they would wait for the port's end. Says whether each reply came when it should,
/// and whether the port came to its end.
fn read_and_open<R: Wait>(
    rt: &R,
    gate: &Barred,
    mut port: Port,
    addresses: Addresses,
) -> (bool, bool) {
    let came = match gate.bar {
        Bar::Waits => read_other(rt, &mut port, addresses.other),
        Bar::Holds => read_held(rt, gate, &mut port, addresses),
    };
    gate.open();
    let came = came.is_ok();
    let is_ended = came && finish_in_time(rt, port).is_some();
    if !is_ended {
        gate.stop();
    }
    (came, is_ended)
}

/// Runs two ports, each in a thread. Says whether the first one's replies came when they should, and whether both came to
/// their ends.
fn host_both<R: Threads + Wait + Sync>(
    rt: &R,
    gate: &Barred,
    first: Port,
    second: Port,
    addresses: Addresses,
) -> (bool, bool) {
    let ((came, is_first_ended), is_second_ended) = thread::join(
        rt,
        move || read_and_open(rt, gate, first, addresses),
        move || finish_in_time(rt, second).is_some(),
    );
    (came, is_first_ended && is_second_ended)
}

/// Runs two workers, each in a thread. Says whether both came to their ends.
fn have_ended<R: Threads + Wait + Sync>(
    rt: &R,
    gate: &Barred,
    first: Worker,
    second: Worker,
) -> bool {
    let (first, second) = run_both(rt, gate, first, second);
    both(first, second).is_ok()
}

/// Runs two ports and two workers, each in a thread. Says whether the first port's replies came when they should, and
/// whether all came to their ends.
fn run_threads<R: Threads + Wait + Sync>(
    rt: &R,
    gate: &Barred,
    addresses: Addresses,
    parts: Parts,
) -> (bool, bool) {
    let (first, second, first_worker, second_worker) = parts;
    let ((came, are_hosts_ended), are_workers_ended) = thread::join(
        rt,
        move || -> (bool, bool)
            requires { IsSync R.row }
        { host_both(rt, gate, first, second, addresses) },
        move || -> bool
            requires { IsSync R.row }
        { have_ended(rt, gate, first_worker, second_worker) },
    );
    (came, are_hosts_ended && are_workers_ended)
}

/// Whether port 0 gets its replies when it should while a channel is held up so, and whether all came to their ends.
fn passes<R: Threads + Wait + Sync>(
    rt: &R,
    alloc: Global,
    channel: u32,
    bar: Bar,
) -> Result<(bool, bool), Fail> {
    let config = Config::read(alloc, PROFILE_S)?;
    let parts = open_two(alloc, &config, 7, Traces::Kept)?;
    let gate = Barred::new(channel, bar);
    Ok(run_threads(rt, &gate, addresses_of(channel), parts))
}

#[test]
fn channel_1_runs_while_channel_0_is_held_up(rt: HostRuntime) -> Result<(), Fail> {
    assert_eq!(rt; passes(&rt, rt.alloc(), 0, Bar::Waits)?, (true, true));
    Ok(())
}

#[test]
fn channel_0_runs_while_channel_1_is_held_up(rt: HostRuntime) -> Result<(), Fail> {
    assert_eq!(rt; passes(&rt, rt.alloc(), 1, Bar::Waits)?, (true, true));
    Ok(())
}

#[test]
fn turns_of_channel_0_that_are_held_do_nothing(rt: HostRuntime) -> Result<(), Fail> {
    assert_eq!(rt; passes(&rt, rt.alloc(), 0, Bar::Holds)?, (true, true));
    Ok(())
}

#[test]
fn turns_of_channel_1_that_are_held_do_nothing(rt: HostRuntime) -> Result<(), Fail> {
    assert_eq!(rt; passes(&rt, rt.alloc(), 1, Bar::Holds)?, (true, true));
    Ok(())
}

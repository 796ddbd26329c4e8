//! A queue in one thread and in three: what each channel pushed comes out whole and in order.
ghost use Rattle.std.specs.Prelude.{◌≡◌, ◌<◌, ◌^◌, [], ◌∷◌, ◌++◌, IfOk, IfSome};
ghost use Rattle.std.specs.Thread.{IsSync};
ghost use Rattle.ddr_workers.specs.Completions.{IsFrom};
ghost use Rattle.ddr_workers.specs.Sides.{AreSides};

use crate::testing::{Exchange, are_in_order, both, config_with};
use ddr_address_map::map::Map;
use ddr_address_map::request::{Done, Echo, Kind};
use ddr_system_samples::hosts::TRIES;
use ddr_timing::config::Config;
use ddr_timing::units::LINE_BYTES;
use ddr_workers::completions::{DonePut, DoneTake, join, open};
use std::alloc::{AllocError, Global};
use std::sync::Wait;
use std::test::Fail;
use std::thread;
use std::thread::Threads;

/// The completions that each channel pushes.
const COMPLETIONS: u64 = 100;

/// The first address of channel 1: profile S has the channel as its highest digit.
const HALF: u64 = 131_072;

/// The completion of a read of a line of this channel, for port 1. Its number is also the line's.
fn completion(alloc: Global, config: &Config, channel: u32, number: u64) -> Option<Done>
    requires channel { channel < 2 }
    requires number { number < 2 ^ 32 }
    ensures { IfSome result (IsFrom (record { geometry = config.now.geometry; port = 1 }) channel) }
{
    let addr = HALF * channel as u64 + LINE_BYTES as u64 * number;
    let place = Map::new(config).place(addr)?;
    if place.channel != channel {
        return None;
    }
    let line = Box::new(alloc, [0; LINE_BYTES]).ok()?;
    Some(Done {
        port: 1,
        number,
        echo: Echo {
            kind: Kind::Read,
            addr,
            len: 64,
        },
        issued: number,
        due: number + 8,
        line,
    })
}

/// Pushes a completion, in as many tries as there may be.
fn push_in_time<R: Wait>(rt: &R, side: &mut DonePut, mut done: Done) -> bool
    requires { IsFrom side.old.who.queue.purpose side.old.who.source done }
    ensures { side.new.who ≡ side.old.who }
{
    for _ in 0..TRIES {
        match side.push(rt, done) {
            Ok(()) => return true,
            Err(back) => {
                done = back;
                thread::yield_now();
            }
        }
    }
    false
}

/// Pushes a channel's completions, and says whether that went.
fn push_all<R: Wait>(
    rt: &R,
    alloc: Global,
    config: &Config,
    channel: u32,
    mut side: DonePut,
) -> (DonePut, bool)
    requires channel { channel < 2 }
    requires source { side.who.source ≡ channel }
    requires delivery { side.who.queue.purpose ≡ record { geometry = config.now.geometry; port = 1 } }
    ensures { result.0.who ≡ side.who }
{
    for number in 0..COMPLETIONS {
        match completion(alloc, config, channel, number) {
            Some(done) => {
                if !push_in_time(rt, &mut side, done) {
                    return (side, false);
                }
            }
            None => return (side, false),
        }
    }
    (side, true)
}

/// Takes completions until there is no more room for them.
fn take_all<R: Wait>(rt: &R, mut side: DoneTake, mut got: Vec<Done>) -> (DoneTake, Vec<Done>)
    requires { got.items ≡ [] }
    ensures who { result.0.who ≡ side.who }
    ensures took { result.0.took ≡ side.took ++ result.1.items }
{
    for _ in 0..TRIES {
        if got.len() == got.capacity() {
            break;
        }
        match side.pop(rt) {
            Some(done) => got.push_reserved(done),
            None => thread::yield_now(),
        }
    }
    (side, got)
}

/// What the threads of two channels give back.
type Pushed = ((DonePut, bool), (DonePut, bool));

/// Pushes in two threads, as channel 0 and as channel 1.
fn push_both<R: Threads + Wait + Sync>(
    rt: &R,
    alloc: Global,
    config: &Config,
    first: DonePut,
    second: DonePut,
) -> Pushed
    requires channels { (first.who.source ≡ 0) × (second.who.source ≡ 1) }
    requires first { first.who.queue.purpose ≡ record { geometry = config.now.geometry; port = 1 } }
    requires second { second.who.queue.purpose ≡ record { geometry = config.now.geometry; port = 1 } }
    ensures { (result.0.0.who ≡ first.who) × (result.1.0.who ≡ second.who) }
{
    thread::join(
        rt,
        move || -> (DonePut, bool)
            requires source { first.who.source ≡ 0 }
            requires delivery { first.who.queue.purpose ≡ record { geometry = config.now.geometry; port = 1 } }
            ensures { result.0.who ≡ first.who }
        { push_all(rt, alloc, config, 0, first) },
        move || -> (DonePut, bool)
            requires source { second.who.source ≡ 1 }
            requires delivery { second.who.queue.purpose ≡ record { geometry = config.now.geometry; port = 1 } }
            ensures { result.0.who ≡ second.who }
        { push_all(rt, alloc, config, 1, second) },
    )
}

/// Pushes in two threads, takes in a third, and joins. There is room for what is taken.
fn exchanged<R: Threads + Wait + Sync>(
    rt: &R,
    alloc: Global,
    config: &Config,
    first: DonePut,
    second: DonePut,
    take: DoneTake,
    room: Vec<Done>,
) -> Result<Exchange<Done>, AllocError>
    requires channels { (first.who.source ≡ 0) × (second.who.source ≡ 1) }
    requires first { first.who.queue.purpose ≡ record { geometry = config.now.geometry; port = 1 } }
    requires second { second.who.queue.purpose ≡ record { geometry = config.now.geometry; port = 1 } }
    requires sides { AreSides (first ∷ second ∷ []) take }
    requires empty { room.items ≡ [] }
{
    let (pushed, (take, taken)) = thread::join(
        rt,
        move || -> Pushed
            requires sync { IsSync R.row }
            requires channels { (first.who.source ≡ 0) × (second.who.source ≡ 1) }
            requires first { first.who.queue.purpose ≡ record { geometry = config.now.geometry; port = 1 } }
            requires second { second.who.queue.purpose ≡ record { geometry = config.now.geometry; port = 1 } }
            ensures { (result.0.0.who ≡ first.who) × (result.1.0.who ≡ second.who) }
        { push_both(rt, alloc, config, first, second) },
        move || -> (DoneTake, Vec<Done>)
            requires { room.items ≡ [] }
            ensures { result.0.who ≡ take.who }
        { take_all(rt, take, room) },
    );
    let ((first, first_pushed), (second, second_pushed)) = pushed;
    let puts = vec![in alloc; first, second]?;
    let left = join(rt, puts, take);
    Ok(Exchange::new((first_pushed, second_pushed), taken, left))
}

/// The sides of a queue of two channels.
type Sides = (DonePut, DonePut, DoneTake);

/// Opens the queue to port 1, of two channels.
fn two_channels(alloc: Global, config: &Config) -> Result<Sides, Fail>
    ensures channels { IfOk result (λ s. (s.0.who.source ≡ 0) × (s.1.who.source ≡ 1)) }
    ensures first { IfOk result (λ s. s.0.who.queue.purpose ≡ record { geometry = config.now.geometry; port = 1 }) }
    ensures second { IfOk result (λ s. s.1.who.queue.purpose ≡ record { geometry = config.now.geometry; port = 1 }) }
    ensures sides { IfOk result (λ s. AreSides (s.0 ∷ s.1 ∷ []) s.2) }
{
    if config.limits.ports < 2 {
        return Err("two ports".into());
    }
    let (mut puts, take) = open(alloc, config, 1)?;
    if puts.len() != 2 {
        return Err("two channels".into());
    }
    let second = puts.pop().ok_or("a second channel")?;
    let first = puts.pop().ok_or("a first channel")?;
    Ok((first, second, take))
}

/// The numbers of a channel's completions, in order.
fn numbers_of(alloc: Global, dones: &[Done], channel: u32) -> Result<Vec<u64>, AllocError> {
    let mut numbers = Vec::new(alloc);
    for done in dones {
        if done.echo.addr / HALF == u64::from(channel) {
            numbers.push(done.number)?;
        }
    }
    Ok(numbers)
}

/// Pushes the completion of this number, as channel 0, and gives the number of what came back.
fn offer<R: Wait>(
    rt: &R,
    alloc: Global,
    config: &Config,
    side: &mut DonePut,
    number: u64,
) -> Result<Option<u64>, Fail>
    requires number { number < 2 ^ 32 }
    requires source { side.old.who.source ≡ 0 }
    requires delivery { side.old.who.queue.purpose ≡ record { geometry = config.now.geometry; port = 1 } }
    ensures { side.new.who ≡ side.old.who }
{
    let done = completion(alloc, config, 0, number).ok_or("a completion")?;
    let pushed = side.push(rt, done);
    Ok(pushed.err().map(|back| back.number))
}

/// Looks for a completion, pushes two and takes one, pushes another, and tells whether there was one at first, what was
/// taken, and what came back.
fn hand_over<R: Wait>(
    rt: &R,
    alloc: Global,
    config: &Config,
    side: &mut DonePut,
    take: &mut DoneTake,
) -> Result<(bool, Option<u64>, [Option<u64>; 3]), Fail>
    requires source { side.old.who.source ≡ 0 }
    requires delivery { side.old.who.queue.purpose ≡ record { geometry = config.now.geometry; port = 1 } }
    ensures who { side.new.who ≡ side.old.who }
    ensures take { take.new.who ≡ take.old.who }
{
    let had_done = take.pop(rt).is_some();
    let first = offer(rt, alloc, config, side, 7)?;
    let second = offer(rt, alloc, config, side, 8)?;
    let taken = take.pop(rt).map(|done| done.number);
    let third = offer(rt, alloc, config, side, 9)?;
    Ok((had_done, taken, [first, second, third]))
}

/// Joins the queue, and tells how many completions are left, and the numbers of those of channel 0.
fn join_both<R: Wait>(
    rt: &R,
    alloc: Global,
    first: DonePut,
    second: DonePut,
    take: DoneTake,
) -> Result<(usize, Vec<u64>), AllocError>
    requires { AreSides (first ∷ second ∷ []) take }
{
    let puts = vec![in alloc; first, second]?;
    let left = join(rt, puts, take);
    let numbers = numbers_of(alloc, left.as_slice(), 0)?;
    Ok((left.len(), numbers))
}

#[test]
fn one_place_is_full_and_empty_again(rt: HostRuntime) -> Result<(), Fail> {
    let config = config_with(rt.alloc(), "window", "window = 1")?;
    let (mut first, second, mut take) = two_channels(rt.alloc(), &config)?;
    let handed = hand_over(&rt, rt.alloc(), &config, &mut first, &mut take)?;
    assert_eq!(rt; handed, (false, Some(7), [None, Some(8), None]));
    let (count, left) = join_both(&rt, rt.alloc(), first, second, take)?;
    assert_eq!(rt; (count, left.as_slice()), (1, [9].as_slice()));
    Ok(())
}

/// Whether all of a channel's completions are there in order.
fn came_in_order(alloc: Global, dones: &[Done], channel: u32) -> Result<bool, AllocError> {
    let numbers = numbers_of(alloc, dones, channel)?;
    Ok(are_in_order(numbers.as_slice()))
}

/// Exchanges the completions of two channels over one place.
fn exchange_all<R: Threads + Wait + Sync>(rt: &R, alloc: Global) -> Result<Exchange<Done>, Fail> {
    let config = config_with(alloc, "window", "window = 1")?;
    let room = Vec::with_capacity(alloc, 2 * COMPLETIONS as usize)?;
    match two_channels(alloc, &config) {
        Ok((first, second, take)) => {
            let exchange = exchanged(rt, alloc, &config, first, second, take, room)?;
            Ok(exchange)
        }
        Err(what) => Err(what),
    }
}

/// Whether the completions of both channels came in order.
fn both_came_in_order(alloc: Global, taken: &[Done]) -> Result<(bool, bool), AllocError> {
    both(
        came_in_order(alloc, taken, 0),
        came_in_order(alloc, taken, 1),
    )
}

#[test]
fn three_threads_hand_over_in_order(rt: HostRuntime) -> Result<(), Fail> {
    let exchange = exchange_all(&rt, rt.alloc())?;
    let in_order = both_came_in_order(rt.alloc(), exchange.taken.as_slice())?;
    assert_eq!(rt; exchange.outcome(in_order), (true, (200, 0), (true, true)));
    Ok(())
}

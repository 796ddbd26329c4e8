//! A queue in one thread and in three: what each port pushed comes out whole and in order.
ghost use Rattle.std.specs.Prelude.{◌≡◌, ◌<◌, ◌^◌, false, [], ◌∷◌, ◌++◌, IfErr, IfOk, IfSome};
ghost use Rattle.std.specs.Thread.{IsSync};
ghost use Rattle.ddr_workers.specs.Requests.{has_end, IsPlaced};
ghost use Rattle.ddr_workers.specs.Sides.{AreSides};

use crate::testing::{Exchange, are_in_order, both, config_with};
use ddr_address_map::map::Map;
use ddr_address_map::request::{Echo, Kind, Req};
use ddr_system_samples::hosts::TRIES;
use ddr_timing::config::Config;
use ddr_timing::units::LINE_BYTES;
use ddr_workers::requests::{Full, Item, RequestPut, RequestTake, join, open};
use std::alloc::{AllocError, Global};
use std::sync::Wait;
use std::test::Fail;
use std::thread;
use std::thread::Threads;

/// The requests that each port pushes.
const REQUESTS: u64 = 100;

/// A read of the line with the request's number, which profile S has on channel 0.
fn request(alloc: Global, config: &Config, port: u32, number: u64) -> Option<Req>
    requires { number < 2 ^ 32 }
    ensures port { IfSome result (λ r. r.port ≡ port) }
    ensures placed { IfSome result (IsPlaced (record { geometry = config.now.geometry; channel = 0 })) }
{
    let addr = LINE_BYTES as u64 * number;
    let place = Map::new(config).place(addr)?;
    if place.channel != 0 {
        return None;
    }
    let line = Box::new(alloc, [0; LINE_BYTES]).ok()?;
    Some(Req {
        port,
        number,
        echo: Echo {
            kind: Kind::Read,
            addr,
            len: 64,
        },
        place,
        mask: 0,
        line,
    })
}

/// Pushes a request, or gives it back.
fn push<R: Wait>(rt: &R, side: &mut RequestPut, request: Req) -> Result<(), Req>
    requires own { request.port ≡ side.old.who.source }
    requires placed { IsPlaced side.old.who.queue.purpose request }
    requires before_end { has_end side.old.put ≡ false }
    ensures who { side.new.who ≡ side.old.who }
    ensures before_end { has_end side.new.put ≡ false }
    ensures back { IfErr result (λ back. back ≡ request) }
{
    match side.push(rt, request) {
        Ok(()) => Ok(()),
        Err(back) => Err(back),
    }
}

/// Pushes a request, in as many tries as there may be.
fn push_in_time<R: Wait>(rt: &R, side: &mut RequestPut, mut request: Req) -> bool
    requires own { request.port ≡ side.old.who.source }
    requires placed { IsPlaced side.old.who.queue.purpose request }
    requires before_end { has_end side.old.put ≡ false }
    ensures who { side.new.who ≡ side.old.who }
    ensures before_end { has_end side.new.put ≡ false }
{
    for _ in 0..TRIES {
        match push(rt, side, request) {
            Ok(()) => return true,
            Err(back) => {
                request = back;
                thread::yield_now();
            }
        }
    }
    false
}

/// Pushes a port's requests and its End, and says whether that went.
fn push_all<R: Wait>(
    rt: &R,
    alloc: Global,
    config: &Config,
    port: u32,
    mut side: RequestPut,
) -> (RequestPut, bool)
    requires port { side.who.source ≡ port }
    requires route { side.who.queue.purpose ≡ record { geometry = config.now.geometry; channel = 0 } }
    requires before_end { has_end side.put ≡ false }
    ensures { result.0.who ≡ side.who }
{
    for number in 0..REQUESTS {
        match request(alloc, config, port, number) {
            Some(request) => {
                if !push_in_time(rt, &mut side, request) {
                    return (side, false);
                }
            }
            None => return (side, false),
        }
    }
    for _ in 0..TRIES {
        if side.end(rt).is_ok() {
            return (side, true);
        }
        thread::yield_now();
    }
    (side, false)
}

/// Takes items until both Ends came, or there is no more room for them.
fn take_all<R: Wait>(rt: &R, mut side: RequestTake, mut got: Vec<Item>) -> (RequestTake, Vec<Item>)
    requires { got.items ≡ [] }
    ensures who { result.0.who ≡ side.who }
    ensures took { result.0.took ≡ side.took ++ result.1.items }
{
    let mut has_ended = false;
    for _ in 0..TRIES {
        if got.len() == got.capacity() {
            break;
        }
        let Some(item) = side.pop(rt) else {
            thread::yield_now();
            continue;
        };
        let is_last = has_ended && matches!(item, Item::End(_));
        has_ended = has_ended || matches!(item, Item::End(_));
        got.push_reserved(item);
        if is_last {
            break;
        }
    }
    (side, got)
}

/// What the threads of two ports give back.
type Pushed = ((RequestPut, bool), (RequestPut, bool));

/// Pushes in two threads, as port 0 and as port 1.
fn push_both<R: Threads + Wait + Sync>(
    rt: &R,
    alloc: Global,
    config: &Config,
    first: RequestPut,
    second: RequestPut,
) -> Pushed
    requires ports { (first.who.source ≡ 0) × (second.who.source ≡ 1) }
    requires first { first.who.queue.purpose ≡ record { geometry = config.now.geometry; channel = 0 } }
    requires second { second.who.queue.purpose ≡ record { geometry = config.now.geometry; channel = 0 } }
    requires before_end { (has_end first.put ≡ false) × (has_end second.put ≡ false) }
    ensures { (result.0.0.who ≡ first.who) × (result.1.0.who ≡ second.who) }
{
    thread::join(
        rt,
        move || -> (RequestPut, bool)
            requires port { first.who.source ≡ 0 }
            requires route { first.who.queue.purpose ≡ record { geometry = config.now.geometry; channel = 0 } }
            requires before_end { has_end first.put ≡ false }
            ensures { result.0.who ≡ first.who }
        { push_all(rt, alloc, config, 0, first) },
        move || -> (RequestPut, bool)
            requires port { second.who.source ≡ 1 }
            requires route { second.who.queue.purpose ≡ record { geometry = config.now.geometry; channel = 0 } }
            requires before_end { has_end second.put ≡ false }
            ensures { result.0.who ≡ second.who }
        { push_all(rt, alloc, config, 1, second) },
    )
}

/// Pushes in two threads, takes in a third, and joins. There is room for what is taken.
fn exchanged<R: Threads + Wait + Sync>(
    rt: &R,
    alloc: Global,
    config: &Config,
    first: RequestPut,
    second: RequestPut,
    take: RequestTake,
    room: Vec<Item>,
) -> Result<Exchange<Item>, AllocError>
    requires ports { (first.who.source ≡ 0) × (second.who.source ≡ 1) }
    requires first { first.who.queue.purpose ≡ record { geometry = config.now.geometry; channel = 0 } }
    requires second { second.who.queue.purpose ≡ record { geometry = config.now.geometry; channel = 0 } }
    requires before_end { (has_end first.put ≡ false) × (has_end second.put ≡ false) }
    requires sides { AreSides (first ∷ second ∷ []) take }
    requires empty { room.items ≡ [] }
{
    let (pushed, (take, taken)) = thread::join(
        rt,
        move || -> Pushed
            requires sync { IsSync R.row }
            requires ports { (first.who.source ≡ 0) × (second.who.source ≡ 1) }
            requires first { first.who.queue.purpose ≡ record { geometry = config.now.geometry; channel = 0 } }
            requires second { second.who.queue.purpose ≡ record { geometry = config.now.geometry; channel = 0 } }
            requires before_end { (has_end first.put ≡ false) × (has_end second.put ≡ false) }
            ensures { (result.0.0.who ≡ first.who) × (result.1.0.who ≡ second.who) }
        { push_both(rt, alloc, config, first, second) },
        move || -> (RequestTake, Vec<Item>)
            requires { room.items ≡ [] }
            ensures { result.0.who ≡ take.who }
        { take_all(rt, take, room) },
    );
    let ((first, first_pushed), (second, second_pushed)) = pushed;
    let puts = vec![in alloc; first, second]?;
    let left = join(rt, puts, take);
    Ok(Exchange::new((first_pushed, second_pushed), taken, left))
}

/// The sides of a queue of two ports.
type Sides = (RequestPut, RequestPut, RequestTake);

/// Opens the queue to channel 0, of two ports.
fn two_ports(alloc: Global, config: &Config) -> Result<Sides, Fail>
    ensures ports { IfOk result (λ s. (s.0.who.source ≡ 0) × (s.1.who.source ≡ 1)) }
    ensures first { IfOk result (λ s. s.0.who.queue.purpose ≡ record { geometry = config.now.geometry; channel = 0 }) }
    ensures second { IfOk result (λ s. s.1.who.queue.purpose ≡ record { geometry = config.now.geometry; channel = 0 }) }
    ensures before_end { IfOk result (λ s. (has_end s.0.put ≡ false) × (has_end s.1.put ≡ false)) }
    ensures sides { IfOk result (λ s. AreSides (s.0 ∷ s.1 ∷ []) s.2) }
{
    let (mut puts, take) = open(alloc, config, 0)?;
    if puts.len() != 2 {
        return Err("two ports".into());
    }
    let second = puts.pop().ok_or("a second port")?;
    let first = puts.pop().ok_or("a first port")?;
    Ok((first, second, take))
}

/// The numbers of a port's requests in order, and then the End's place among them.
fn numbers_of(
    alloc: Global,
    items: &[Item],
    port: u32,
) -> Result<(Vec<u64>, Vec<usize>), AllocError> {
    let mut numbers = Vec::new(alloc);
    let mut ends = Vec::new(alloc);
    for item in items {
        match item {
            Item::Request(request) if request.port == port => numbers.push(request.number)?,
            Item::End(p) if *p == port => ends.push(numbers.len())?,
            _ => {}
        }
    }
    Ok((numbers, ends))
}

/// Pushes the request of this number, as port 0, and gives the number of what came back.
fn offer<R: Wait>(
    rt: &R,
    alloc: Global,
    config: &Config,
    side: &mut RequestPut,
    number: u64,
) -> Result<Option<u64>, Fail>
    requires number { number < 2 ^ 32 }
    requires port { side.old.who.source ≡ 0 }
    requires route { side.old.who.queue.purpose ≡ record { geometry = config.now.geometry; channel = 0 } }
    requires before_end { has_end side.old.put ≡ false }
    ensures who { side.new.who ≡ side.old.who }
    ensures before_end { has_end side.new.put ≡ false }
{
    let request = request(alloc, config, 0, number).ok_or("a request")?;
    let pushed = push(rt, side, request);
    Ok(pushed.err().map(|back| back.number))
}

/// Pops, and gives the number of the request, or None of an End.
fn number_of(item: Item) -> Option<u64> {
    match item {
        Item::Request(request) => Some(request.number),
        Item::End(_) => None,
    }
}

/// Looks for an item, pushes two requests and takes one, and tells whether there was an item, what came back and what
/// was taken.
fn hand_over<R: Wait>(
    rt: &R,
    alloc: Global,
    config: &Config,
    side: &mut RequestPut,
    take: &mut RequestTake,
) -> Result<(bool, Option<u64>, Option<u64>, Option<u64>), Fail>
    requires port { side.old.who.source ≡ 0 }
    requires route { side.old.who.queue.purpose ≡ record { geometry = config.now.geometry; channel = 0 } }
    requires before_end { has_end side.old.put ≡ false }
    ensures who { side.new.who ≡ side.old.who }
    ensures before_end { has_end side.new.put ≡ false }
    ensures take { take.new.who ≡ take.old.who }
{
    let had_item = take.pop(rt).is_some();
    let back = offer(rt, alloc, config, side, 7)?;
    let other_back = offer(rt, alloc, config, side, 8)?;
    let taken = take.pop(rt).and_then(number_of);
    Ok((had_item, back, other_back, taken))
}

/// Ends both ports and joins the queue, and tells which End was pushed and what is left.
fn end_both<R: Wait>(
    rt: &R,
    alloc: Global,
    mut first: RequestPut,
    mut second: RequestPut,
    take: RequestTake,
) -> Result<((Result<(), Full>, Result<(), Full>), Vec<Item>), AllocError>
    requires before_end { (has_end first.put ≡ false) × (has_end second.put ≡ false) }
    requires sides { AreSides (first ∷ second ∷ []) take }
{
    let ended = (first.end(rt), second.end(rt));
    let puts = vec![in alloc; first, second]?;
    Ok((ended, join(rt, puts, take)))
}

#[test]
fn one_place_is_full_and_empty_again(rt: HostRuntime) -> Result<(), Fail> {
    let config = config_with(rt.alloc(), "intake", "intake = 1")?;
    let (mut first, second, mut take) = two_ports(rt.alloc(), &config)?;
    let handed = hand_over(&rt, rt.alloc(), &config, &mut first, &mut take)?;
    assert_eq!(rt; handed, (false, None, Some(8), Some(7)));
    let (ended, left) = end_both(&rt, rt.alloc(), first, second, take)?;
    assert_eq!(rt; ended, (Ok(()), Err(Full)));
    assert!(rt; matches!(left.as_slice(), [Item::End(0)]));
    Ok(())
}

/// Whether all of a port's requests are there in order, and one End behind them.
fn came_in_order(alloc: Global, items: &[Item], port: u32) -> Result<bool, AllocError> {
    let (numbers, ends) = numbers_of(alloc, items, port)?;
    Ok(are_in_order(numbers.as_slice()) && ends.as_slice() == [100].as_slice())
}

/// Exchanges the requests of two ports over one place.
fn exchange_all<R: Threads + Wait + Sync>(rt: &R, alloc: Global) -> Result<Exchange<Item>, Fail> {
    let config = config_with(alloc, "intake", "intake = 1")?;
    let room = Vec::with_capacity(alloc, 2 * (REQUESTS as usize + 1))?;
    match two_ports(alloc, &config) {
        Ok((first, second, take)) => {
            let exchange = exchanged(rt, alloc, &config, first, second, take, room)?;
            Ok(exchange)
        }
        Err(what) => Err(what),
    }
}

/// Whether the requests of both ports came in order.
fn both_came_in_order(alloc: Global, taken: &[Item]) -> Result<(bool, bool), AllocError> {
    both(
        came_in_order(alloc, taken, 0),
        came_in_order(alloc, taken, 1),
    )
}

#[test]
fn three_threads_hand_over_in_order(rt: HostRuntime) -> Result<(), Fail> {
    let exchange = exchange_all(&rt, rt.alloc())?;
    let in_order = both_came_in_order(rt.alloc(), exchange.taken.as_slice())?;
    assert_eq!(rt; exchange.outcome(in_order), (true, (202, 0), (true, true)));
    Ok(())
}

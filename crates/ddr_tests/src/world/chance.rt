//! Events of the core by chance, refused ones among them. A flat model says of each event what has to come of it: it
//! knows how many items each queue holds, and the bytes that the accepted requests leave, in the order of acceptance.
ghost use Rattle.std.specs.Prelude.{◌<◌, ◌≤◌};

use super::*;
use ddr_reorder::reply::Reply;
use ddr_samples::chance::Chance;
use ddr_trace::checker;

/// The events of a run. In the first half many are requests.
const EVENTS: u32 = 6000;

/// The first cycle of a run, and the first number of each port.
const CYCLE: u64 = 77;

const NUMBER: u64 = 5;

/// The lines among which the requests fall: 16 of each channel.
const LINES: usize = 64;

/// A part of a line: where it begins and where it ends.
fn part(chance: &mut Chance) -> (usize, usize)
    ensures order { result.0 ≤ result.1 }
    ensures bound { result.1 ≤ 64 }
{
    let start = chance.below(64) as usize;
    (start, start + chance.below(65 - start as u64) as usize)
}

/// A line that is asked for: its number among the test's lines, and its first address.
#[derive(Clone, Copy)]
struct Spot {
    line: usize,
    channel: u32,
    addr: u64,
}

/// The line of that number among the 16 of the channel. In profile S they are two in each of two rows of two banks of two
/// groups.
fn spot_of(channel: u32, bits: u64) -> Spot
    requires { bits < 16 }
{
    let addr = 64 * (bits & 1)
        + 512 * ((bits >> 1) & 1)
        + 2048 * ((bits >> 2) & 1)
        + 8192 * ((bits >> 3) & 1)
        + 131_072 * (channel as u64 & 3);
    Spot {
        line: (bits as usize).wrapping_add((channel as usize).wrapping_mul(16)),
        channel,
        addr,
    }
}

/// Where a request goes: its port, its line, and of how many bytes it is.
#[derive(Clone, Copy)]
struct Asked {
    port: u32,
    spot: Spot,
    len: usize,
}

/// What a port has to be told of an accepted request.
#[derive(Clone, Copy)]
struct Expected {
    addr: u64,
    /// The line as the requests accepted before it left it, and the bytes of it that are read: none of a write.
    line: [u8; 64],
    start: usize,
    end: usize,
}

/// The reply to a write, which has no bytes.
fn nothing_from(addr: u64) -> Expected {
    Expected {
        addr,
        line: [0; 64],
        start: 0,
        end: 0,
    }
}

/// What an event has to come to.
type Answer = Result<Outcome, Refusal>;

/// What the model knows of a port.
#[derive(Drop)]
struct Port {
    replies: Vec<Expected>,
    taken: usize,
    /// Completions that were delivered and not collected.
    delivered: u32,
    ends: u32,
}

impl Port {
    fn open(alloc: Global) -> Port {
        Port {
            replies: Vec::new(alloc),
            taken: 0,
            delivered: 0,
            ends: 0,
        }
    }

    fn outstanding(&self) -> usize {
        self.replies.len().wrapping_sub(self.taken)
    }

    /// The number of the reply that is to be taken next.
    fn first(&self) -> u64 {
        NUMBER.wrapping_add(self.taken as u64)
    }

    /// The number of the next request.
    fn next(&self) -> u64 {
        NUMBER.wrapping_add(self.replies.len() as u64)
    }

    /// Why no request of so many bytes is prepared, if it is not.
    fn refusal(&self, len: usize, window: u32) -> Option<Refusal> {
        if self.ends > 0 {
            Some(Refusal::Finished)
        } else if len == 0 {
            Some(Refusal::EmptyLength)
        } else if self.outstanding() == window as usize {
            Some(Refusal::WindowFull)
        } else {
            None
        }
    }
}

/// What the model knows of a channel.
#[derive(Drop)]
struct Queue {
    /// The items that were pushed and not taken: whether each is an End.
    items: Vec<bool>,
    taken: usize,
    ends_taken: u32,
}

impl Queue {
    fn open(alloc: Global) -> Queue {
        Queue {
            items: Vec::new(alloc),
            taken: 0,
            ends_taken: 0,
        }
    }

    fn len(&self) -> usize {
        self.items.len().wrapping_sub(self.taken)
    }

    /// The oldest item was taken.
    fn take(&mut self) -> Option<()> {
        if *self.items.get(self.taken)? {
            self.ends_taken = self.ends_taken.wrapping_add(1);
        }
        self.taken = self.taken.wrapping_add(1);
        Some(())
    }
}

/// What the accepted requests leave, and what is still to come of them. Its calls, and those of a run, answer `None`
/// where there is no such port, channel or line, or no memory.
#[derive(Drop)]
struct Flat {
    config: Config,
    memory: Vec<[u8; 64]>,
    ports: Vec<Port>,
    queues: Vec<Queue>,
    /// Of each port and channel, whether the End was pushed.
    pushed: Vec<bool>,
}

fn open_ports(alloc: Global, count: u32) -> Result<Vec<Port>, Fail> {
    let mut ports = Vec::new(alloc);
    for _port in 0..count {
        ports.push(Port::open(alloc))?;
    }
    Ok(ports)
}

fn open_queues(alloc: Global, count: u32) -> Result<Vec<Queue>, Fail> {
    let mut queues = Vec::new(alloc);
    for _channel in 0..count {
        queues.push(Queue::open(alloc))?;
    }
    Ok(queues)
}

impl Flat {
    fn open(alloc: Global, config: Config) -> Result<Flat, Fail> {
        Ok(Flat {
            config,
            memory: vec![in alloc; [0; 64]; LINES]?,
            ports: open_ports(alloc, config.limits.ports)?,
            queues: open_queues(alloc, config.geometry.channels)?,
            pushed: vec![in alloc; false; 32]?,
        })
    }

    /// Whether the channel's request queue holds as many items as it may.
    fn is_busy(&self, channel: u32) -> Option<bool> {
        let queue = self.queues.get(channel as usize)?;
        Some(queue.len() == self.config.limits.intake as usize)
    }

    /// What a request of so many bytes has to come to, at this port and for a line of this channel.
    fn answer_to_request(&self, number: u32, channel: u32, len: usize) -> Option<Answer> {
        let Some(port) = self.ports.get(number as usize) else {
            return Some(Err(Refusal::NoSuch));
        };
        if let Some(cause) = port.refusal(len, self.config.limits.window) {
            return Some(Err(cause));
        }
        if self.is_busy(channel)? {
            return Some(Err(Refusal::Busy { channel }));
        }
        let next = port.next();
        Some(Ok(Outcome::Accepted { number: next }))
    }

    /// The request was accepted: what has to be told of it, with the line as it stands.
    fn note_request(&mut self, number: u32, spot: Spot, expected: Expected) -> Option<()> {
        let line = *self.memory.get(spot.line)?;
        self.expect(number, Expected { line, ..expected })?;
        self.push(spot.channel, false)
    }

    /// One more reply is to come at the port.
    fn expect(&mut self, number: u32, expected: Expected) -> Option<()> {
        let port = self.ports.get_mut(number as usize)?;
        port.replies.push(expected).ok()?;
        Some(())
    }

    /// An item was pushed on the queue of the channel.
    fn push(&mut self, channel: u32, is_end: bool) -> Option<()> {
        let queue = self.queues.get_mut(channel as usize)?;
        queue.items.push(is_end).ok()?;
        Some(())
    }

    /// Puts the bytes whose bit in the mask is set over those of the line.
    fn merge(&mut self, line: usize, mask: u64, bytes: &[u8; 64]) -> Option<()> {
        let stored = self.memory.get_mut(line)?;
        merge(stored, mask, bytes);
        Some(())
    }

    /// Puts some of the bytes over those of the line.
    fn put(&mut self, line: usize, start: usize, end: usize, bytes: &[u8; 64]) -> Option<()>
        requires order { start ≤ end }
        requires bound { end ≤ 64 }
    {
        let stored = self.memory.get_mut(line)?;
        stored[start..end].copy_from_slice(&bytes[start..end]);
        Some(())
    }

    /// What the port's End has to come to at the channel.
    fn answer_to_end(&self, number: u32, channel: u32) -> Option<Answer> {
        let Some(port) = self.ports.get(number as usize) else {
            return Some(Err(Refusal::NoSuch));
        };
        if port.outstanding() != 0 {
            return Some(Err(Refusal::NotEmpty));
        }
        if *self.pushed.get(mark_of(number, channel))? {
            return Some(Err(Refusal::Finished));
        }
        if self.is_busy(channel)? {
            return Some(Err(Refusal::Busy { channel }));
        }
        Some(Ok(Outcome::Ended))
    }

    fn note_end(&mut self, number: u32, channel: u32) -> Option<()> {
        let port = self.ports.get_mut(number as usize)?;
        port.ends = port.ends.wrapping_add(1);
        let mark = mark_of(number, channel);
        *self.pushed.get_mut(mark)? = true;
        self.push(channel, true)
    }

    /// Whether nothing is left.
    fn is_drained(&self) -> bool {
        self.are_ports_drained() && self.are_queues_drained()
    }

    fn are_ports_drained(&self) -> bool {
        for port in self.ports.iter() {
            if port.outstanding() != 0 || port.ends != self.config.geometry.channels {
                return false;
            }
        }
        true
    }

    fn are_queues_drained(&self) -> bool {
        for queue in self.queues.iter() {
            if queue.ends_taken != self.config.limits.ports {
                return false;
            }
        }
        true
    }
}

/// Where it stands whether the port's End was pushed at the channel.
fn mark_of(number: u32, channel: u32) -> usize {
    (number as usize)
        .wrapping_mul(4)
        .wrapping_add(channel as usize)
}

/// Puts the bytes whose bit in the mask is set over those of the line.
fn merge(line: &mut [u8; 64], mask: u64, bytes: &[u8; 64]) {
    let mut rest = mask;
    for (old, new) in line.iter_mut().zip(bytes.iter()) {
        if rest & 1 == 1 {
            *old = *new;
        }
        rest >>= 1;
    }
}

#[derive(Drop)]
struct Run {
    world: World,
    flat: Flat,
    chance: Chance,
    refused: u64,
}

impl Run {
    fn open(alloc: Global, config: Config) -> Result<Run, Fail> {
        Ok(Run {
            world: World::open_at(alloc, &config, CYCLE, NUMBER)?,
            flat: Flat::open(alloc, config)?,
            chance: Chance::new(1),
            refused: 0,
        })
    }

    /// One of 16 lines of one of the channels.
    fn spot(&mut self) -> Spot {
        let channel = self.channel();
        spot_of(channel, self.chance.below(16))
    }

    /// A port, and now and then one that is not there.
    fn port(&mut self) -> u32 {
        let count = self.flat.config.limits.ports;
        let number = self.chance.below(count as u64) as u32;
        if self.chance.below(100) == 0 {
            return count;
        }
        number
    }

    fn channel(&mut self) -> u32 {
        self.chance.below(self.flat.config.geometry.channels as u64) as u32
    }

    /// Makes an event, which has to come to this. Whether it was made.
    fn step(&mut self, rt: &impl Abort, event: Event<'_>, expected: Answer) -> bool {
        let answer = self.world.step(event);
        assert_eq!(rt; answer, expected, "{event:?}");
        if expected.is_err() {
            self.refused = self.refused.wrapping_add(1);
        }
        expected.is_ok()
    }

    /// Submits a request of so many bytes, and notes what has to be told of it. Whether it was accepted.
    fn submit(
        &mut self,
        rt: &impl Abort,
        request: Request<'_>,
        asked: Asked,
        expected: Expected,
    ) -> Option<bool> {
        let Asked { port, spot, len } = asked;
        let answer = self.flat.answer_to_request(port, spot.channel, len)?;
        let accepted = self.step(rt, Event::Submit(port, request), answer);
        if accepted {
            self.flat.note_request(port, spot, expected)?;
        }
        Some(accepted)
    }

    /// A read of some bytes of a line, all, or none.
    fn read(&mut self, rt: &impl Abort) -> Option<()> {
        let (port, spot) = (self.port(), self.spot());
        let (start, end) = part(&mut self.chance);
        let addr = spot.addr.wrapping_add(start as u64);
        let expected = Expected {
            addr,
            line: [0; 64],
            start,
            end,
        };
        let len = end - start;
        let request = Request::read(addr, len as u32);
        self.submit(rt, request, Asked { port, spot, len }, expected)?;
        Some(())
    }

    /// A write of some bytes of a line, or of none.
    fn write(&mut self, rt: &impl Abort) -> Option<()> {
        let (port, spot) = (self.port(), self.spot());
        let line = self.chance.line();
        let (start, end) = part(&mut self.chance);
        let addr = spot.addr.wrapping_add(start as u64);
        let len = end - start;
        let request = Request::write(addr, &line[start..end]);
        if self.submit(rt, request, Asked { port, spot, len }, nothing_from(addr))? {
            self.flat.put(spot.line, start, end, &line)?;
        }
        Some(())
    }

    /// A write of a line with a data mask, by some address of the line.
    fn masked(&mut self, rt: &impl Abort) -> Option<()> {
        let (port, spot) = (self.port(), self.spot());
        let line = self.chance.line();
        let mask = self.chance.next();
        let addr = spot.addr.wrapping_add(self.chance.below(64));
        let request = Request::masked(addr, &line, mask);
        let asked = Asked {
            port,
            spot,
            len: 64,
        };
        if self.submit(rt, request, asked, nothing_from(spot.addr))? {
            self.flat.merge(spot.line, mask, &line)?;
        }
        Some(())
    }

    /// What it has to come to that the channel takes an item.
    fn answer_to_take(&self, number: u32) -> Option<Answer> {
        let room = self.world.channel(number)?.room();
        let queue = self.flat.queues.get(number as usize)?;
        Some(if queue.len() == 0 {
            Err(Refusal::Nothing)
        } else if !room {
            Err(Refusal::QueueFull)
        } else {
            Ok(Outcome::Taken)
        })
    }

    fn take(&mut self, rt: &impl Abort) -> Option<()> {
        let number = self.channel();
        let answer = self.answer_to_take(number)?;
        if self.step(rt, Event::Take(number), answer) {
            let queue = self.flat.queues.get_mut(number as usize);
            queue?.take()?;
        }
        Some(())
    }

    fn cycle(&mut self, rt: &impl Abort) {
        let number = self.channel();
        self.step(rt, Event::Cycle(number), Ok(Outcome::Cycled));
    }

    /// The port that the channel's oldest completion is for, if one is done.
    fn port_of_done(&self, number: u32) -> Option<Option<u32>> {
        let channel = self.world.channel(number)?;
        Some(match channel.next_done() {
            Some(done) => Some(done.port),
            None => None,
        })
    }

    fn deliver(&mut self, rt: &impl Abort) -> Option<()> {
        let number = self.channel();
        let Some(port) = self.port_of_done(number)? else {
            self.step(rt, Event::Deliver(number), Err(Refusal::Nothing));
            return Some(());
        };
        self.step(rt, Event::Deliver(number), Ok(Outcome::Delivered));
        let port = self.flat.ports.get_mut(port as usize)?;
        port.delivered = port.delivered.wrapping_add(1);
        Some(())
    }

    /// What was delivered is collected: some number that is outstanding.
    fn collect(&mut self, rt: &impl Abort) -> Option<()> {
        let number = self.port();
        let event = Event::Collect(number);
        let Some(port) = self.flat.ports.get_mut(number as usize) else {
            self.step(rt, event, Err(Refusal::NoSuch));
            return Some(());
        };
        if port.delivered == 0 {
            self.step(rt, event, Err(Refusal::Nothing));
            return Some(());
        }
        port.delivered = port.delivered.wrapping_sub(1);
        let (first, next) = (port.first(), port.next());
        let answer = self.world.step(event);
        assert!(rt; is_outstanding(answer, first, next), "{answer:?}");
        Some(())
    }

    /// The reply in front is the next one of the port, with the bytes of the flat map. Its number, if it is there.
    fn lent(&self, rt: &impl Abort, number: u32, port: &Port) -> Option<Option<u64>> {
        let Some(reply) = self.world.front(number) else {
            return Some(None);
        };
        let next = port.first();
        let expected = port.replies.get(port.taken)?;
        is_expected(rt, &reply, next, expected);
        Some(Some(next))
    }

    /// What it has to come to that the port gives up a reply.
    fn answer_to_release(&self, rt: &impl Abort, number: u32) -> Option<Answer> {
        let Some(port) = self.flat.ports.get(number as usize) else {
            assert!(rt; self.world.front(number).is_none());
            return Some(Err(Refusal::NoSuch));
        };
        Some(match self.lent(rt, number, port)? {
            Some(next) => Ok(Outcome::Released { number: next }),
            None => Err(Refusal::Nothing),
        })
    }

    fn release(&mut self, rt: &impl Abort) -> Option<()> {
        let number = self.port();
        let answer = self.answer_to_release(rt, number)?;
        if self.step(rt, Event::Release(number), answer) {
            let port = self.flat.ports.get_mut(number as usize)?;
            port.taken = port.taken.wrapping_add(1);
        }
        Some(())
    }

    /// A port's End on the queue of a channel.
    fn end(&mut self, rt: &impl Abort) -> Option<()> {
        let number = self.port();
        let channel = self.channel();
        let answer = self.flat.answer_to_end(number, channel)?;
        if self.step(rt, Event::End(number, channel), answer) {
            self.flat.note_end(number, channel)?;
        }
        Some(())
    }

    fn request(&mut self, rt: &impl Abort) -> Option<()> {
        match self.chance.below(6) {
            0..=2 => self.read(rt),
            3..=4 => self.write(rt),
            _ => self.masked(rt),
        }
    }

    /// One event by chance: of 100 so many are requests.
    fn event(&mut self, rt: &impl Abort, requests: u64) -> Option<()> {
        if self.chance.below(100) < requests {
            return self.request(rt);
        }
        match self.chance.below(16) {
            0..=2 => self.take(rt),
            3..=9 => {
                self.cycle(rt);
                Some(())
            }
            10..=11 => self.deliver(rt),
            12..=13 => self.collect(rt),
            _ => self.release(rt),
        }
    }

    /// The events of a run.
    fn events(&mut self, rt: &impl Abort) -> Option<()> {
        for nth in 0..EVENTS {
            let requests = if nth < EVENTS / 2 { 40 } else { 8 };
            self.event(rt, requests)?;
        }
        Some(())
    }

    /// An event without a request, or an End.
    fn last_event(&mut self, rt: &impl Abort) -> Option<()> {
        if self.chance.below(8) == 0 {
            self.end(rt)
        } else {
            self.event(rt, 0)
        }
    }
}

/// A number from the first one on, below the next one, was collected.
fn is_outstanding(answer: Answer, first: u64, next: u64) -> bool {
    match answer {
        Ok(Outcome::Collected { number }) => first <= number && number < next,
        _ => false,
    }
}

/// The reply has this number, and tells what is expected.
fn is_expected(rt: &impl Abort, reply: &Reply<'_>, number: u64, expected: &Expected) {
    assert_eq!(rt; (reply.number, reply.echo.addr), (number, expected.addr));
    let bytes = expected.line.get(expected.start..expected.end);
    assert_eq!(rt; Some(reply.bytes), bytes, "reply {number}");
}

/// A core that is not drained stays as it is.
fn stays_open(run: Run) -> Result<Run, Fail> {
    let Run {
        world,
        flat,
        chance,
        refused,
    } = run;
    Ok(Run {
        world: not_closed(world)?,
        flat,
        chance,
        refused,
    })
}

/// Events without requests until nothing is left, with Ends between them. Until then the core is not closed.
fn finish(rt: &impl Abort, run: Run) -> Result<Run, Fail> {
    let mut run = run;
    for _event in 0..40_000 {
        if run.flat.is_drained() {
            break;
        }
        run = stays_open(run)?;
        run.last_event(rt).ok_or("outside the model")?;
    }
    assert!(rt; run.flat.is_drained());
    Ok(run)
}

/// The core counted what the model counted.
fn has_counted(rt: &impl Abort, closed: &Closed, ports: &[Port]) {
    for (number, port) in ports.iter().enumerate() {
        let count = Some(port.replies.len() as u64);
        assert_eq!(rt; closed.accepted.as_slice().get(number).copied(), count);
        assert_eq!(rt; closed.taken.as_slice().get(number).copied(), count);
    }
}

/// The trace has no fault.
fn is_legal(rt: &impl Abort, config: &Config, trace: &Trace) {
    assert_eq!(rt; trace.start, CYCLE);
    let fault = checker::first_fault(trace.entries.as_slice(), config, CYCLE, trace.end);
    assert_eq!(rt; fault, None);
}

fn are_legal(rt: &impl Abort, config: &Config, traces: &[Option<Trace>]) -> Result<(), Fail> {
    for trace in traces {
        is_legal(rt, config, trace.as_ref().ok_or("no trace")?);
    }
    Ok(())
}

/// The core is closed exactly where the model has nothing left; it counts what the model counts, and no trace has a
/// fault.
fn close(rt: &impl Abort, run: Run) -> Result<(), Fail> {
    let Run { world, flat, .. } = run;
    let Ok(closed) = world.close() else {
        return Err("not closed".into());
    };
    has_counted(rt, &closed, &flat.ports);
    are_legal(rt, &flat.config, closed.traces.as_slice())
}

/// A run of profile S, but for the number of its channels and its limits.
fn runs_well(rt: &impl Abort, alloc: Global, channels: u32, limits: Limits) -> Result<(), Fail>
    requires { (1 ≤ channels) × (channels ≤ 4) }
{
    let mut config = config_with(alloc, limits)?;
    config.geometry.channels = channels;
    let mut run = Run::open(alloc, config)?;
    run.events(rt).ok_or("outside the model")?;
    let run = finish(rt, run)?;
    assert!(rt; run.refused > 100);
    close(rt, run)
}

#[test]
fn events_by_chance_in_profile_s(rt: HostRuntime) -> Result<(), Fail> {
    runs_well(&rt, rt.alloc(), 2, limits())
}

#[test]
fn events_by_chance_with_one_of_all(rt: HostRuntime) -> Result<(), Fail> {
    let mut limits = limits();
    limits.ports = 1;
    limits.window = 1;
    limits.intake = 1;
    limits.reads = 1;
    limits.done = 1;
    runs_well(&rt, rt.alloc(), 1, limits)
}

#[test]
fn events_by_chance_with_the_most_ports_and_channels(rt: HostRuntime) -> Result<(), Fail> {
    let mut limits = limits();
    limits.ports = 8;
    limits.window = 64;
    limits.intake = 64;
    limits.done = 64;
    runs_well(&rt, rt.alloc(), 4, limits)
}

#[test]
fn events_by_chance_with_narrow_queues(rt: HostRuntime) -> Result<(), Fail> {
    let mut limits = limits();
    limits.ports = 3;
    limits.intake = 1;
    limits.reads = 1;
    limits.done = 2;
    limits.cap = 1;
    runs_well(&rt, rt.alloc(), 2, limits)
}

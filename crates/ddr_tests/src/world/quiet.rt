//! For how long the core is quiet and still, after each of many events by chance: the least of what its channels tell, each of
//! which sleeps as the first one did; 0 where something waits in a queue, is done, or is to be collected.
use super::*;
use ddr_address_map::map::Map;
use ddr_address_map::place::Place;
use ddr_address_map::request::Kind;
use ddr_old_sleep::channel::OldChannel;
use ddr_samples::chance::Chance;
use ddr_timing::profile::PROFILE_S2;

/// The runs of a configuration, and the events of each.
const SEEDS: u64 = 4;

const EVENTS: u32 = 2500;

/// A channel that sleeps as the first one did, behind a queue of requests.
#[derive(Drop)]
struct Side {
    old: OldChannel,
    /// What was pushed and not taken, the oldest first.
    queue: Vec<(Kind, Place)>,
}

/// How often quiet cycles were told, and still ones where none is quiet.
#[derive(Clone, Copy, Debug)]
struct Seen {
    quiet: u32,
    waits: u32,
}

/// A core, and its channels beside it. The calls answer `None` where there is no such port or channel, or no memory.
#[derive(Drop)]
struct Pair {
    world: World,
    config: Config,
    sides: Vec<Side>,
    /// How many completions were delivered and not collected.
    delivered: u32,
    chance: Chance,
    seen: Seen,
}

impl Side {
    /// Makes so many cycles, in none of which a command is issued.
    fn make_still(&mut self, rt: &impl Abort, count: u64) -> Option<()> {
        for _ in 0..count {
            let issued = self.old.cycle()?;
            assert!(rt; issued.is_none());
        }
        Some(())
    }
}

fn open_sides(alloc: Global, config: &Config) -> Result<Vec<Side>, Fail> {
    let mut sides = Vec::new(alloc);
    for _ in 0..config.geometry.channels {
        sides.push(Side {
            old: OldChannel::open(alloc, config, 0)?,
            queue: Vec::new(alloc),
        })?;
    }
    Ok(sides)
}

impl Pair {
    fn open(alloc: Global, config: &Config, seed: u64, seen: Seen) -> Result<Pair, Fail> {
        Ok(Pair {
            world: World::open(alloc, config)?,
            config: *config,
            sides: open_sides(alloc, config)?,
            delivered: 0,
            chance: Chance::new(seed),
            seen,
        })
    }

    /// Whether something waits in a queue, is done, or is to be collected.
    fn is_busy(&self) -> bool {
        for side in self.sides.iter() {
            if !side.queue.is_empty() || side.old.done() > 0 {
                return true;
            }
        }
        self.delivered > 0
    }

    /// The least numbers of quiet and of still cycles of the channels.
    fn least(&self) -> (u64, u64) {
        let mut least = (u64::MAX, u64::MAX);
        for side in self.sides.iter() {
            least.0 = least.0.min(side.old.quiet());
            least.1 = least.1.min(side.old.still());
        }
        least
    }

    /// Compares what the core tells.
    fn compare(&mut self, rt: &impl Abort) {
        let found = (self.world.quiet(), self.world.still());
        let expected = if self.is_busy() { (0, 0) } else { self.least() };
        assert_eq!(rt; found, expected, "quiet and still cycles");
        if found.0 > 0 {
            self.seen.quiet = self.seen.quiet.saturating_add(1);
        } else if found.1 > 0 {
            self.seen.waits = self.seen.waits.saturating_add(1);
        }
    }

    fn port(&mut self) -> u32 {
        self.chance.below(2) as u32
    }

    fn channel(&mut self) -> Option<u32> {
        let count = self.sides.len() as u64;
        if count == 0 {
            return None;
        }
        u32::try_from(self.chance.below(count)).ok()
    }

    /// One of some lines of each channel and rank. In profile S they are two in each of two rows of two banks of two groups.
    fn address(&mut self) -> u64 {
        let geometry = self.config.geometry;
        let line = self.chance.below(2);
        let group = self.chance.below(2);
        let bank = self.chance.below(2);
        let row = self.chance.below(2);
        let channel = self.chance.below(u64::from(geometry.channels));
        let rank = self.chance.below(u64::from(geometry.ranks));
        64 * line + 512 * group + 2048 * bank + 8192 * row + 131_072 * channel + 262_144 * rank
    }

    /// Submits a read or a write of a byte.
    fn submit(&mut self) -> Option<()> {
        let port = self.port();
        let addr = self.address();
        let place = Map::new(&self.config).place(addr)?;
        let (kind, request) = if self.chance.below(2) == 0 {
            (Kind::Read, Request::read(addr, 1))
        } else {
            (Kind::Write, Request::write(addr, &[1]))
        };
        if self.world.step(Event::Submit(port, request)).is_ok() {
            let side = self.sides.get_mut(place.channel as usize)?;
            side.queue.push((kind, place)).ok()?;
        }
        Some(())
    }

    /// The channel takes an item of its queue, if there is one and both of its own have room.
    fn take(&mut self, rt: &impl Abort) -> Option<()> {
        let channel = self.channel()?;
        if self.world.step(Event::Take(channel)).is_err() {
            return Some(());
        }
        let side = self.sides.get_mut(channel as usize)?;
        if side.queue.is_empty() {
            return None;
        }
        let (kind, place) = side.queue.remove(0);
        assert_eq!(rt; side.old.admit(kind, place), Some(true));
        Some(())
    }

    fn cycle(&mut self, rt: &impl Abort) -> Option<()> {
        let channel = self.channel()?;
        let answer = self.world.step(Event::Cycle(channel));
        assert_eq!(rt; answer, Ok(Outcome::Cycled));
        self.sides.get_mut(channel as usize)?.old.cycle()?;
        Some(())
    }

    fn deliver(&mut self) -> Option<()> {
        let channel = self.channel()?;
        if self.world.step(Event::Deliver(channel)).is_ok() {
            self.sides.get_mut(channel as usize)?.old.pop_done()?;
            self.delivered = self.delivered.saturating_add(1);
        }
        Some(())
    }

    fn collect(&mut self) {
        let port = self.port();
        if self.world.step(Event::Collect(port)).is_ok() {
            self.delivered = self.delivered.saturating_sub(1);
        }
    }

    fn release(&mut self) {
        let port = self.port();
        let _ = self.world.step(Event::Release(port));
    }

    /// Makes all cycles at once that are told to be quiet.
    fn pass_quiet(&mut self) -> Option<()> {
        let count = self.world.quiet();
        self.world.pass(count);
        for side in self.sides.iter_mut() {
            side.old.pass(count)?;
        }
        Some(())
    }

    /// Makes all cycles at once that are told to be still.
    fn pass_still(&mut self, rt: &impl Abort) -> Option<()> {
        let count = self.world.still();
        self.world.pass(count);
        for side in self.sides.iter_mut() {
            side.make_still(rt, count)?;
        }
        Some(())
    }

    /// What is due is brought to its end: the channels take and deliver, and the ports collect and release.
    fn serve(&mut self, rt: &impl Abort) -> Option<()> {
        match self.chance.below(8) {
            0..=2 => self.take(rt),
            3 | 4 => self.deliver(),
            5 | 6 => {
                self.collect();
                Some(())
            }
            _ => {
                self.release();
                Some(())
            }
        }
    }

    /// One event by chance, or some cycles at once: of 64 so many are requests.
    fn event(&mut self, rt: &impl Abort, requests: u64) -> Option<()> {
        let chosen = self.chance.below(64);
        if chosen < requests {
            self.submit()
        } else if chosen < 32 {
            self.cycle(rt)
        } else if chosen < 35 {
            self.pass_quiet()
        } else if chosen < 38 {
            self.pass_still(rt)
        } else {
            self.serve(rt)
        }
    }

    /// The events of a run, with many requests, with few and with none.
    fn events(&mut self, rt: &impl Abort) -> Option<()> {
        self.compare(rt);
        let mut requests = 8;
        for nth in 0..EVENTS {
            if nth % 150 == 149 {
                requests = *[0, 1, 4, 16].get(self.chance.below(4) as usize)?;
            }
            self.event(rt, requests)?;
            self.compare(rt);
        }
        Some(())
    }
}

/// Runs of a configuration, in which quiet cycles and waits for a REF have to be met.
fn sleeps_well(rt: &impl Abort, alloc: Global, config: &Config) -> Result<(), Fail> {
    let mut seen = Seen { quiet: 0, waits: 0 };
    for seed in 0..SEEDS {
        let mut pair = Pair::open(alloc, config, seed, seen)?;
        pair.events(rt)
            .ok_or("no such port or channel, or no memory")?;
        seen = pair.seen;
    }
    assert!(rt; seen.quiet >= 200 && seen.waits >= 20, "{seen:?}");
    Ok(())
}

#[test]
fn sleep_of_one_channel(rt: HostRuntime) -> Result<(), Fail> {
    let mut config = config_with(rt.alloc(), limits())?;
    config.geometry.channels = 1;
    sleeps_well(&rt, rt.alloc(), &config)
}

#[test]
fn sleep_of_two_channels(rt: HostRuntime) -> Result<(), Fail> {
    let config = config_with(rt.alloc(), limits())?;
    sleeps_well(&rt, rt.alloc(), &config)
}

#[test]
fn sleep_of_four_channels_with_narrow_queues(rt: HostRuntime) -> Result<(), Fail> {
    let mut limits = limits();
    limits.intake = 2;
    limits.reads = 2;
    limits.done = 1;
    limits.cap = 20;
    let mut config = config_with(rt.alloc(), limits)?;
    config.geometry.channels = 4;
    sleeps_well(&rt, rt.alloc(), &config)
}

#[test]
fn sleep_of_two_ranks(rt: HostRuntime) -> Result<(), Fail> {
    let config = Config::read(rt.alloc(), PROFILE_S2)?;
    sleeps_well(&rt, rt.alloc(), &config)
}

#[test]
fn sleep_of_closed_rows_of_two_ranks(rt: HostRuntime) -> Result<(), Fail> {
    let text = PROFILE_S2.replace(rt.alloc(), "closed = false", "closed = true")?;
    let config = Config::read(rt.alloc(), &text)?;
    sleeps_well(&rt, rt.alloc(), &config)
}

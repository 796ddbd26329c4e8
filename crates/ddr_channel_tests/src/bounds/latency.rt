//! How long a request takes from its admission to its completion: a bound that is a law of `ddr_deadline`, and no contract of a call,
//! looked at for each request of runs by chance, in which all that is done is taken behind each cycle.
ghost use Rattle.std.specs.Prelude.{◌<◌};

use super::*;
use ddr_address_map::map::Map;
use ddr_address_map::place::Place;
use ddr_latency::bound::latency;
use ddr_samples::sample::changed;

/// The cycles of a run in which requests are admitted.
const ADMITTING: u64 = 2500;

/// The configurations that a test tries.
const TRIED: u64 = 40;

/// The longest refresh interval.
const LONGEST: u64 = 65_535;

/// The bound of a configuration, in clocks.
#[derive(Clone, Copy)]
struct Latency {
    /// For a request that is served alone.
    service: u64,
    /// For one that a refresh of its rank comes before.
    refreshed: u64,
    /// How many requests are pending at most.
    requests: u64,
    /// The age at which the oldest is served alone.
    cap: u64,
    /// From the column command to completion.
    burst: u64,
}

/// From the last command for another request to an ACT.
fn row_wait(config: &Config) -> u64 {
    let timing = &config.timing;
    let closed = Bounds::of(config).recovery.wrapping_add(timing.rp as u64);
    let acts = more(timing.rrd_l as u64, timing.faw as u64);
    more(more(closed, timing.rc as u64), acts)
}

/// From a column command to its completion.
fn burst(config: &Config) -> u64 {
    let timing = &config.timing;
    more(timing.cl as u64, timing.cwl as u64).wrapping_add(4)
}

/// From a column command for another request to one whose row is open, and for which there is room again.
fn column_wait(config: &Config) -> u64 {
    let timing = &config.timing;
    let turn = more(timing.wtr_s as u64, timing.wtr_l as u64);
    let write = (timing.cwl as u64).wrapping_add(4).wrapping_add(turn);
    let switch = if config.geometry.ranks == 2 {
        timing.rtrs as u64
    } else {
        1
    };
    let other = burst(config).wrapping_add(switch);
    let read = more(timing.ccd_l as u64, timing.rtw as u64);
    more(more(read, write), other)
}

/// How many commands the refreshes of the other rank may put before those of a request between two refreshes.
fn stolen(config: &Config) -> u64 {
    if config.geometry.ranks == 2 {
        (config.timing.postpone as u64)
            .wrapping_mul(2)
            .wrapping_add(5)
    } else {
        0
    }
}

impl Latency {
    fn of(config: &Config) -> Latency {
        let timing = &config.timing;
        let limits = &config.limits;
        let rcd = timing.rcd as u64;
        let row = row_wait(config);
        let column = column_wait(config);
        let refresh = Bounds::of(config)
            .refresh
            .wrapping_add(1)
            .wrapping_add(timing.rfc as u64);
        let refreshed = more(more(refresh, row).wrapping_add(rcd), column);
        Latency {
            service: more(row.wrapping_add(rcd), column),
            refreshed: refreshed.wrapping_add(stolen(config)),
            requests: (limits.reads as u64).wrapping_add(limits.writes as u64),
            cap: limits.cap as u64,
            burst: burst(config),
        }
    }

    /// How many refreshes may come before so many requests are served, where `spare` clocks of an interval are left behind
    /// one: at most one before each.
    fn refreshes(&self, spare: u64) -> u64
        requires { 0 < spare }
    {
        let busy = self.requests.wrapping_mul(self.service);
        let all = busy.wrapping_add(self.refreshed);
        let whole = all.wrapping_add(spare.wrapping_sub(1)) / spare;
        whole.min(self.requests)
    }

    /// The bound, where an interval is longer than a refresh and the request behind it ask for.
    fn most(&self, refi: u64) -> Option<u64> {
        if refi <= self.refreshed {
            return None;
        }
        let refreshes = self.refreshes(refi - self.refreshed).wrapping_add(1);
        let served = self.requests.wrapping_mul(self.service);
        let refreshed = refreshes.wrapping_mul(self.refreshed);
        let pending = self.cap.wrapping_add(served).wrapping_add(refreshed);
        Some(pending.wrapping_add(self.burst))
    }
}

/// Which lines are asked for.
#[derive(Clone, Copy)]
enum Stream {
    /// Any.
    Scattered,
    /// Those of one bank, of another row each time.
    OneBank,
    /// Those of one bank of each rank in turn, of another row each time.
    Ranks,
}

impl Stream {
    fn of(number: u64) -> Stream {
        match number % 3 {
            0 => Stream::Scattered,
            1 => Stream::OneBank,
            _ => Stream::Ranks,
        }
    }
}

/// A channel under a stream of requests, and how long the slowest took.
#[derive(Drop)]
struct Load {
    alloc: Global,
    channel: Channel,
    chance: Chance,
    stream: Stream,
    /// The cycles in which the requests were admitted, by their numbers.
    admitted: Vec<u64>,
    slowest: u64,
}

/// The first line of a row of bank 0.
fn row_place(rank: u32, row: u32) -> Place {
    Place {
        channel: 0,
        rank,
        group: 0,
        bank: 0,
        row,
        line: 0,
        offset: 0,
    }
}

impl Load {
    /// Some line.
    fn any_place(&mut self) -> Place {
        let ranks = self.channel.config().geometry.ranks;
        Place {
            channel: 0,
            rank: self.chance.pick(ranks.max(1)),
            group: self.chance.pick(2),
            bank: self.chance.pick(4),
            row: self.chance.pick(16),
            line: self.chance.pick(8),
            offset: 0,
        }
    }

    fn place(&mut self) -> Place {
        let turn = (self.admitted.len() % 64) as u32;
        let ranks = self.channel.config().geometry.ranks.max(1);
        match self.stream {
            Stream::Scattered => self.any_place(),
            Stream::OneBank => row_place(0, turn % 16),
            Stream::Ranks => row_place(turn % ranks, turn % 16),
        }
    }

    /// Offers a read or a write, by chance. One that is handed back isn't numbered.
    fn admit(&mut self) -> Result<(), Fail> {
        let place = self.place();
        let kind = if self.chance.coin() {
            Kind::Read
        } else {
            Kind::Write
        };
        let addr = Map::new(self.channel.config())
            .address(place)
            .ok_or("outside the memory")?;
        let echo = Echo {
            kind,
            addr,
            len: 64,
        };
        let number = self.admitted.len() as u64;
        let offered = request(self.alloc, self.channel.config(), number, echo)?;
        if self.channel.admit(offered).is_ok() {
            self.admitted.push(self.channel.now())?;
        }
        Ok(())
    }

    fn note_done(&mut self, done: &Done) -> Result<(), Fail> {
        let admitted = *self
            .admitted
            .get(done.number as usize)
            .ok_or("never admitted")?;
        let took = done.due.wrapping_sub(admitted);
        self.slowest = self.slowest.max(took);
        Ok(())
    }

    /// Makes a cycle, and takes all that is done.
    fn cycle(&mut self) -> Result<(), Fail> {
        self.channel.cycle()?;
        for _nth in 0..64u32 {
            let Some(done) = self.channel.pop_done() else {
                break;
            };
            self.note_done(&done)?;
        }
        Ok(())
    }

    /// Cycles before which requests are admitted: before each, before some, and before none.
    fn make_cycles(&mut self) -> Result<(), Fail> {
        let mut admissions = 64u64;
        for nth in 0..ADMITTING {
            if nth % 500 == 0 {
                admissions = match self.chance.below(4) {
                    0 => 0,
                    1 => 5,
                    _ => 64,
                };
            }
            if self.chance.below(64) < admissions {
                self.admit()?;
            }
            self.cycle()?;
        }
        Ok(())
    }

    /// Cycles until nothing is left, as many as the bound at most.
    fn finish(&mut self, most: u64) -> Result<(), Fail> {
        for _nth in 0..most {
            if self.channel.is_empty() {
                return Ok(());
            }
            self.cycle()?;
        }
        if self.channel.is_empty() {
            Ok(())
        } else {
            Err("a request that isn't served".into())
        }
    }
}

/// A longer refresh interval.
fn set_interval(config: &mut Config, refi: u32) {
    if config.timing.refi <= refi && refi <= 65_535 {
        config.timing.refi = refi;
    }
}

/// A refresh interval that the bound speaks of: the shortest, one that is little longer, or one in which all requests are served.
fn interval(chance: &mut Chance, latency: &Latency) -> u64 {
    let above = match chance.below(3) {
        0 => 1,
        1 => clocks(chance, 100),
        _ => latency
            .requests
            .wrapping_mul(latency.service)
            .wrapping_mul(2),
    };
    latency.refreshed.wrapping_add(above).min(LONGEST)
}

fn load_by_chance(alloc: Global, seed: u64, ranks: u64) -> Result<Load, Fail> {
    let mut chance = Chance::new(seed);
    let postpone = chance.below(8);
    let mut config = config_by_chance(alloc, &mut chance, ranks, postpone)?;
    let refi = interval(&mut chance, &Latency::of(&config));
    set_interval(&mut config, u32::try_from(refi).unwrap_or(u32::MAX));
    Ok(Load {
        alloc,
        channel: Channel::open(alloc, &config, START)?,
        chance,
        stream: Stream::of(seed),
        admitted: Vec::new(alloc),
        slowest: 0,
    })
}

/// The bound of a channel's configuration.
fn bound_of(channel: &Channel) -> Option<u64> {
    let config = channel.config();
    Latency::of(config).most(config.timing.refi as u64)
}

/// Looks at a run, and gives how many hundredths of the bound the slowest request took.
fn share_by_chance(rt: &impl Abort, alloc: Global, seed: u64, ranks: u64) -> Result<u64, Fail> {
    let mut load = load_by_chance(alloc, seed, ranks)?;
    let most = bound_of(&load.channel).ok_or("an interval that is too short")?;
    assert!(rt; latency(load.channel.config()) as u64 == most);
    load.make_cycles()?;
    load.finish(most)?;
    let slowest = load.slowest;
    assert!(rt; slowest <= most, "seed {seed}: {slowest} of {most}");
    Ok(slowest.wrapping_mul(100).checked_div(most).unwrap_or(0))
}

/// Looks at runs, and that the slowest request of all of them took so many hundredths of its bound.
fn keeps_latency(rt: &impl Abort, alloc: Global, ranks: u64, closest: u64) -> Result<(), Fail> {
    let mut found = 0;
    for seed in 0..TRIED {
        found = more(found, share_by_chance(rt, alloc, seed, ranks)?);
    }
    assert!(rt; closest <= found, "{found} hundredths");
    Ok(())
}

#[test]
fn latency_of_one_rank(rt: HostRuntime) -> Result<(), Fail> {
    keeps_latency(&rt, rt.alloc(), 1, 60)
}

#[test]
fn latency_of_two_ranks(rt: HostRuntime) -> Result<(), Fail> {
    keeps_latency(&rt, rt.alloc(), 2, 60)
}

/// Configurations whose refresh interval is too short for the bound: RCD is longer than what is left of an interval, and the
/// row that is opened behind a REF is closed for the next one.
const NEVER_SERVED: &[&[(&str, &str)]] = &[&[("rcd", "rcd = 1000")], &[("rcd", "rcd = 65535")]];

/// A channel of profile S with other lines, with a read pending.
fn with_read(alloc: Global, lines: &[(&str, &str)]) -> Result<Channel, Fail> {
    let text = changed(alloc, lines)?;
    let config = Config::read(alloc, text.as_str())?;
    let mut channel = Channel::open(alloc, &config, 0)?;
    let echo = Echo {
        kind: Kind::Read,
        addr: 0,
        len: 64,
    };
    let offered = request(alloc, channel.config(), 0, echo)?;
    if channel.admit(offered).is_err() {
        return Err("the queue is full".into());
    }
    Ok(channel)
}

/// Outside the bound's premise a request may wait for ever: none is served in a hundred intervals.
#[test]
fn rows_that_every_refresh_closes(rt: HostRuntime) -> Result<(), Fail> {
    for lines in NEVER_SERVED {
        let mut channel = with_read(rt.alloc(), lines)?;
        assert!(rt; bound_of(&channel).is_none());
        for _nth in 0..20_000u32 {
            channel.cycle()?;
        }
        assert!(rt; channel.next_done().is_none() && !channel.is_empty());
    }
    Ok(())
}

//! The bounds in cycles that `ddr_bounds` proves of a channel, looked at in each cycle of runs by chance.
//!
//! The configurations are by chance too: the refresh interval is the least one that is accepted, or little more. What is
//! expected is counted here from the commands of the trace alone. `streams` has one run that is worked out by hand, and
//! `latency` one that is a law of `ddr_deadline`, on how long a request takes.
ghost use Rattle.std.specs.Prelude.{◌≡◌, ◌<◌, IfOk};
ghost use Rattle.ddr_channel.specs.Sound.{IsServed};

use crate::requests::request_of;
use ddr_address_map::request::{Done, Echo, Kind, Req};
use ddr_channel::channel::Channel;
use ddr_legality::checker;
use ddr_samples::chance::Chance;
use ddr_timing::config::Config;
use ddr_trace::command::Command;
use std::alloc::Global;
use std::process::Abort;
use std::test::Fail;

mod latency;
mod streams;

/// The first cycle of a run.
const START: u64 = 77;

/// The cycles of a run.
const CYCLES: u32 = 2500;

/// The configurations that a test tries. Four tests make a million cycles together.
const CONFIGS: u64 = 100;

/// A count of clocks from 1 to this one.
fn clocks(chance: &mut Chance, most: u64) -> u64
    requires { 0 < most }
{
    chance.below(most).wrapping_add(1)
}

fn word(chance: &mut Chance) -> &'static str {
    if chance.coin() { "true" } else { "false" }
}

/// An order of the address digits.
fn map_order(chance: &mut Chance) -> &'static str {
    match chance.below(3) {
        0 => "column rank bank row group channel",
        1 => "rank group bank column row channel",
        _ => "column group bank row channel rank",
    }
}

fn more(one: u64, other: u64) -> u64 {
    if one < other { other } else { one }
}

/// The sizes and marks of a configuration.
fn limits_text(alloc: Global, chance: &mut Chance, ranks: u64) -> Result<String, Fail> {
    let queue = clocks(chance, 12).wrapping_add(2);
    let low = chance.below(2);
    let done = clocks(chance, 8);
    let cap = clocks(chance, 300);
    let map = map_order(chance);
    let closed = word(chance);
    let rtrs = clocks(chance, 4);
    Ok(format!(in alloc;
        "version = 2\nchannels = 1\nranks = {ranks}\nports = 1\nwindow = 4\nintake = 8\nreads = {queue}\nwrites = {queue}\ndone = {done}\nlow = {low}\nhigh = 3\ncap = {cap}\ngroups = 2\nrows = 16\ncolumns = 64\nmap = \"{map}\"\nbank_xor = false\nclosed = {closed}\nrtrs = {rtrs}\n"
    )?)
}

/// The timing behind it, with so many REFs that may be put off.
fn push_timing(
    alloc: Global,
    text: &mut String,
    chance: &mut Chance,
    postpone: u64,
) -> Result<(), Fail> {
    let cl = clocks(chance, 6);
    let cwl = clocks(chance, 6);
    let rp = clocks(chance, 8);
    let ras = clocks(chance, 20);
    let wr = clocks(chance, 10);
    let rtp = clocks(chance, 8);
    let rfc = clocks(chance, 40);
    let write = cwl.wrapping_add(4).wrapping_add(wr);
    let recovery = more(more(ras, write), rtp);
    let least = more(recovery.wrapping_add(rp), rfc).wrapping_add(4);
    let above = chance.below(2).wrapping_mul(chance.below(30));
    let refi = least.wrapping_add(above);
    let rtw = cl.wrapping_add(4);
    let rcd = clocks(chance, 5);
    let rc = clocks(chance, 30);
    let rrd = clocks(chance, 4);
    let faw = clocks(chance, 20);
    let wtr = clocks(chance, 5);
    let clocks = format!(in alloc;
        "cl = {cl}\ncwl = {cwl}\nrcd = {rcd}\nrp = {rp}\nras = {ras}\nrc = {rc}\nrrd_s = {rrd}\nrrd_l = {rrd}\nfaw = {faw}\nccd_s = 4\nccd_l = 5\nwtr_s = {wtr}\nwtr_l = {wtr}\nwr = {wr}\nrtp = {rtp}\nrtw = {rtw}\nrfc = {rfc}\nrefi = {refi}\npostpone = {postpone}\n"
    )?;
    Ok(text.push_str(clocks.as_str())?)
}

fn config_by_chance(
    alloc: Global,
    chance: &mut Chance,
    ranks: u64,
    postpone: u64,
) -> Result<Config, Fail> {
    let mut text = limits_text(alloc, chance, ranks)?;
    push_timing(alloc, &mut text, chance, postpone)?;
    Ok(Config::read(alloc, text.as_str())?)
}

/// What bounds the refreshes of a configuration, in clocks.
#[derive(Clone, Copy)]
struct Bounds {
    refi: u64,
    postpone: u64,
    /// From a command of a bank to its precharge.
    recovery: u64,
    /// From a command to a REF.
    refresh: u64,
}

impl Bounds {
    fn of(config: &Config) -> Bounds {
        let timing = &config.timing;
        let write = (timing.cwl as u64)
            .wrapping_add(4)
            .wrapping_add(timing.wr as u64);
        let recovery = more(more(timing.ras as u64, write), timing.rtp as u64);
        let closed = recovery.wrapping_add(timing.rp as u64);
        Bounds {
            refi: timing.refi as u64,
            postpone: timing.postpone as u64,
            recovery,
            refresh: more(closed, timing.rfc as u64),
        }
    }

    /// The cycle whose tick makes a rank overdue that had so many REFs.
    fn overdue_from(&self, issued: u64) -> u64 {
        let owed = issued.wrapping_add(self.postpone).wrapping_add(1);
        START.wrapping_add(owed.wrapping_mul(self.refi))
    }
}

/// What a rank has had.
#[derive(Clone, Copy)]
struct Watch {
    rank: u32,
    issued: u64,
    /// Whether it had a PREA since it is overdue.
    precharged: bool,
}

impl Watch {
    fn new(rank: u32) -> Watch {
        Watch {
            rank,
            issued: 0,
            precharged: false,
        }
    }

    /// Looks at the command of a cycle, if there is one.
    fn note(&mut self, rt: &impl Abort, bounds: &Bounds, cycle: u64, command: Option<Command>) {
        let from = bounds.overdue_from(self.issued);
        match command {
            Some(Command::Refresh { rank }) if rank == self.rank => {
                let last = from.wrapping_add(bounds.refresh).wrapping_add(1);
                assert!(rt; cycle <= last);
                self.issued = self.issued.wrapping_add(1);
                self.precharged = false;
            }
            Some(command) if command.rank() == self.rank && from <= cycle => {
                let last = from.wrapping_add(bounds.recovery).wrapping_add(1);
                assert!(rt; !self.precharged && cycle <= last);
                assert!(rt; is_precharge_of_all(command));
                self.precharged = true;
            }
            _ => (),
        }
        self.check(rt, bounds, cycle);
    }

    /// Looks at the debt after a cycle, and at how long the next REF is awaited.
    fn check(&self, rt: &impl Abort, bounds: &Bounds, cycle: u64) {
        let from = bounds.overdue_from(self.issued);
        assert!(rt; cycle < from.wrapping_add(bounds.refi));
        assert!(rt; cycle <= from.wrapping_add(bounds.refresh));
    }
}

fn is_precharge_of_all(command: Command) -> bool {
    match command {
        Command::PreAll { .. } => true,
        _ => false,
    }
}

/// A request to a line by chance.
fn request(alloc: Global, config: &Config, number: u64, echo: Echo) -> Result<Req, Fail>
    ensures { IfOk result (λ r. IsServed config.now r.place) }
{
    request_of(alloc, config, number, echo, (0, 0))
}

/// A channel under requests by chance.
#[derive(Drop)]
struct Run {
    alloc: Global,
    channel: Channel,
    chance: Chance,
    bounds: Bounds,
    watches: Vec<Watch>,
    /// The cycles of the column commands by the numbers of their requests, which are those of their admission.
    served: Vec<Option<u64>>,
}

impl Run {
    fn echo(&mut self) -> Echo {
        let lines = if self.chance.below(2) == 0 { 16 } else { 1024 };
        let kind = if self.chance.below(3) == 0 {
            Kind::Write
        } else {
            Kind::Read
        };
        Echo {
            kind,
            addr: self.chance.below(lines).wrapping_mul(64),
            len: 64,
        }
    }

    /// Offers a request. One that is handed back isn't numbered.
    fn admit(&mut self) -> Result<(), Fail> {
        let echo = self.echo();
        let number = self.served.len() as u64;
        let offered = request(self.alloc, self.channel.config(), number, echo)?;
        if self.channel.admit(offered).is_ok() {
            self.served.push(None)?;
        }
        Ok(())
    }

    /// Makes a cycle, and looks at its command.
    fn cycle(&mut self, rt: &impl Abort) -> Result<(), Fail> {
        let cycle = self.channel.now();
        let before = self.channel.trace().len();
        self.channel.cycle()?;
        let command = match self.channel.trace().get(before) {
            Some(entry) => Some(entry.command),
            None => None,
        };
        for watch in self.watches.iter_mut() {
            watch.note(rt, &self.bounds, cycle, command);
        }
        Ok(())
    }

    /// Takes what was done first, if anything is.
    fn take(&mut self) -> Result<(), Fail> {
        if let Some(done) = self.channel.pop_done() {
            self.note_done(&done)?;
        }
        Ok(())
    }

    fn note_done(&mut self, done: &Done) -> Result<(), Fail> {
        let served = self
            .served
            .get_mut(done.number as usize)
            .ok_or("never admitted")?;
        *served = Some(done.issued);
        Ok(())
    }

    /// One turn: of 64, so many have an admission.
    fn turn(&mut self, rt: &impl Abort, admissions: u64) -> Result<(), Fail> {
        if self.chance.below(64) < admissions {
            self.admit()?;
        }
        self.cycle(rt)?;
        self.take()
    }

    /// Turns with many requests, with few and with none.
    fn turns(&mut self, rt: &impl Abort) -> Result<(), Fail> {
        let mut admissions = 32u64;
        for nth in 0..CYCLES {
            if nth % 250 == 0 {
                admissions = match self.chance.below(4) {
                    0 => 0,
                    1 => 3,
                    2 => 10,
                    _ => 40,
                };
            }
            self.turn(rt, admissions)?;
        }
        Ok(())
    }

    /// How many requests with higher numbers were served before this cycle.
    fn overtakers(&self, number: usize, issued: u64) -> u64 {
        let mut count = 0u64;
        for later in self.served.iter().skip(number) {
            if let Some(cycle) = later {
                if *cycle < issued {
                    count = count.wrapping_add(1);
                }
            }
        }
        count
    }

    /// Looks at the overtakers of each served request.
    fn check_overtakers(&self, rt: &impl Abort) {
        let cap = self.channel.config().limits.cap as u64;
        let most = cap.wrapping_add(3) / 4;
        for (number, served) in self.served.iter().enumerate() {
            if let Some(issued) = served {
                assert!(rt; self.overtakers(number, *issued) <= most);
            }
        }
    }

    /// Looks at the whole trace, with the rules on refresh.
    fn check_trace(&self, rt: &impl Abort) -> Result<(), Fail> {
        let entries = self.channel.trace();
        let config = self.channel.config();
        let fault = checker::first_fault(self.alloc, entries, config, START, self.channel.now())?;
        assert!(rt; fault.is_none());
        Ok(())
    }
}

fn watches_of(alloc: Global, ranks: u32) -> Result<Vec<Watch>, Fail> {
    let mut watches = Vec::new(alloc);
    for rank in 0..ranks {
        watches.push(Watch::new(rank))?;
    }
    Ok(watches)
}

fn start(alloc: Global, seed: u64, ranks: u64, postpone: u64) -> Result<Run, Fail> {
    let mut chance = Chance::new(seed);
    let config = config_by_chance(alloc, &mut chance, ranks, postpone)?;
    Ok(Run {
        alloc,
        channel: Channel::open(alloc, &config, START)?,
        chance,
        bounds: Bounds::of(&config),
        watches: watches_of(alloc, config.geometry.ranks)?,
        served: Vec::new(alloc),
    })
}

/// Runs of configurations by chance with so many ranks, and so many REFs that may be put off.
fn keeps_bounds(rt: &impl Abort, alloc: Global, ranks: u64, postpone: u64) -> Result<(), Fail> {
    for seed in 0..CONFIGS {
        let mut run = start(alloc, seed, ranks, postpone)?;
        run.turns(rt)?;
        run.check_overtakers(rt);
        run.check_trace(rt)?;
    }
    Ok(())
}

#[test]
fn bounds_of_one_rank_with_no_refresh_postponed(rt: HostRuntime) -> Result<(), Fail> {
    keeps_bounds(&rt, rt.alloc(), 1, 0)
}

#[test]
fn bounds_of_one_rank_with_seven_refreshes_postponed(rt: HostRuntime) -> Result<(), Fail> {
    keeps_bounds(&rt, rt.alloc(), 1, 7)
}

#[test]
fn bounds_of_two_ranks_with_no_refresh_postponed(rt: HostRuntime) -> Result<(), Fail> {
    keeps_bounds(&rt, rt.alloc(), 2, 0)
}

#[test]
fn bounds_of_two_ranks_with_seven_refreshes_postponed(rt: HostRuntime) -> Result<(), Fail> {
    keeps_bounds(&rt, rt.alloc(), 2, 7)
}

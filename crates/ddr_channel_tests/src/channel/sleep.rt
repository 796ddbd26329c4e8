//! For how long a channel is quiet and still, after each of many calls by chance: the numbers of a channel that sleeps as the
//! first one did. In the cycles that are told nothing is issued and nothing completes.
use super::chance::{
    CAP_OF_ONE, CLOSED_ROWS, CLOSED_ROWS_OF_TWO_RANKS, DEEP, NONE_POSTPONED, SEVEN_POSTPONED,
    SMALLEST, TWO_RANKS,
};
use super::*;
use ddr_address_map::place::Place;
use ddr_channel::issued::Issued;
use ddr_old_sleep::channel::OldChannel;
use ddr_samples::chance::Chance;

/// The runs of a configuration, and the calls of each.
const SEEDS: u64 = 4;

const CALLS: u32 = 1000;

/// The first cycle of a run.
const START: u64 = 77;

/// How often quiet cycles were told, waits of a rank for its REF, and such waits whose last cycle was followed by a REF.
#[derive(Clone, Copy, Debug)]
struct Seen {
    quiet: u32,
    waits: u32,
    refreshes: u32,
}

/// A channel, and one that is given the same calls.
#[derive(Drop)]
struct Pair {
    alloc: Global,
    channel: Channel,
    old: OldChannel,
    chance: Chance,
    /// For how many cycles the channel is still, as it told behind the last call.
    still: u64,
    /// Whether a rank waits for its REF, as was told behind the last call or one before it.
    waits: bool,
    seen: Seen,
}

/// One of 16 lines. In profile S they are two in each of two rows of two banks of two groups, or of two ranks.
fn address(chance: &mut Chance) -> u64 {
    let line = chance.below(2);
    let group = chance.below(2);
    let bank = chance.below(2);
    let row = chance.below(2);
    64 * line + 512 * group + 2048 * bank + 8192 * row
}

fn access(chance: &mut Chance) -> Access {
    let addr = address(chance);
    if chance.coin() {
        Access::Read(addr)
    } else {
        Access::Write(addr, u64::MAX, 0)
    }
}

fn command_in(issued: Option<Issued>) -> Option<Command> {
    match issued {
        Some(issued) => Some(issued.entry.command),
        None => None,
    }
}

impl Pair {
    fn open(alloc: Global, lines: &[(&str, &str)], seed: u64, seen: Seen) -> Result<Pair, Fail> {
        let config = config_with(alloc, lines)?;
        Ok(Pair {
            alloc,
            channel: Channel::open(alloc, &config, START)?,
            old: OldChannel::open(alloc, &config, START)?,
            chance: Chance::new(seed),
            still: 0,
            waits: false,
            seen,
        })
    }

    /// Compares what both tell.
    fn compare(&mut self, rt: &impl Abort) {
        let now = self.channel.now();
        let (quiet, still) = (self.channel.quiet(), self.channel.still());
        let must_refresh = self.channel.must_refresh();
        let found = (now, quiet, still, must_refresh);
        let expected = (
            self.old.now(),
            self.old.quiet(),
            self.old.still(),
            self.old.must_refresh(),
        );
        assert_eq!(rt;
            found,
            expected,
            "cycle, quiet, still, whether a rank must be refreshed"
        );
        assert!(rt; quiet <= still && (must_refresh || quiet == still));
        self.still = still;
        self.waits = must_refresh && (still > 0 || self.waits);
        self.note(quiet);
    }

    fn note(&mut self, quiet: u64) {
        if quiet > 0 {
            self.seen.quiet = self.seen.quiet.saturating_add(1);
        } else if self.still > 0 {
            self.seen.waits = self.seen.waits.saturating_add(1);
        }
    }

    /// Offers a request by chance.
    fn admit(&mut self, rt: &impl Abort) -> Result<(), Fail> {
        let access = access(&mut self.chance);
        let offered = request(self.alloc, self.channel.config(), 0, access)?;
        let (kind, place): (Kind, Place) = (offered.echo.kind, offered.place);
        let admitted = self.channel.admit(offered).is_ok();
        let expected = self.old.admit(kind, place);
        assert_eq!(rt; Some(admitted), expected, "whether it is admitted");
        Ok(())
    }

    /// Makes a cycle. Where it was told to be still nothing is issued and nothing completes.
    fn cycle(&mut self, rt: &impl Abort) -> Result<(), Fail> {
        let done = self.old.done();
        let command = command_in(self.channel.cycle_observed()?);
        let expected = self.old.cycle().ok_or("no cycle")?;
        assert_eq!(rt; command, expected, "what is issued");
        if self.still > 0 {
            assert!(rt; command.is_none() && self.old.done() == done);
        }
        if let (true, 0, Some(Command::Refresh { .. })) = (self.waits, self.still, command) {
            self.seen.refreshes = self.seen.refreshes.saturating_add(1);
        }
        Ok(())
    }

    /// Takes a completion, if there is one.
    fn take(&mut self, rt: &impl Abort) -> Result<(), Fail> {
        let taken = self.channel.pop_done().is_some();
        assert_eq!(rt; taken, self.old.done() > 0, "whether a completion is done");
        if taken {
            self.old.pop_done().ok_or("no completion")?;
        }
        Ok(())
    }

    /// Makes all cycles at once that are told to be quiet.
    fn pass_quiet(&mut self) -> Result<(), Fail> {
        let count = self.channel.quiet();
        self.channel.pass(count);
        self.old.pass(count).ok_or("not so many cycles")?;
        Ok(())
    }

    /// Makes all cycles at once that are told to be still. The other channel makes one after another, and issues nothing.
    fn pass_still(&mut self, rt: &impl Abort) -> Result<(), Fail> {
        let count = self.channel.still();
        self.channel.pass(count);
        let done = self.old.done();
        for _ in 0..count {
            let issued = self.old.cycle().ok_or("no cycle")?;
            assert!(rt; issued.is_none() && self.old.done() == done);
        }
        Ok(())
    }

    /// One call by chance: of 64 calls so many are admissions.
    fn call(&mut self, rt: &impl Abort, admissions: u64) -> Result<(), Fail> {
        let chosen = self.chance.below(64);
        if chosen < admissions {
            self.admit(rt)
        } else if chosen < 48 {
            self.cycle(rt)
        } else if chosen < 51 {
            self.pass_quiet()
        } else if chosen < 54 {
            self.pass_still(rt)
        } else {
            self.take(rt)
        }
    }

    /// The calls of a run, with many requests, with few and with none.
    fn calls(&mut self, rt: &impl Abort) -> Result<(), Fail> {
        self.compare(rt);
        let mut admissions = 12;
        for nth in 0..CALLS {
            if nth % 100 == 99 {
                admissions = *[0, 1, 4, 12, 24]
                    .get(self.chance.below(5) as usize)
                    .ok_or("no such number")?;
            }
            self.call(rt, admissions)?;
            self.compare(rt);
        }
        Ok(())
    }
}

/// Runs of a channel of profile S with other lines, in which each kind of time has to be met.
fn sleeps_well(rt: &impl Abort, alloc: Global, lines: &[(&str, &str)]) -> Result<(), Fail> {
    let mut seen = Seen {
        quiet: 0,
        waits: 0,
        refreshes: 0,
    };
    for seed in 0..SEEDS {
        let mut pair = Pair::open(alloc, lines, seed, seen)?;
        pair.calls(rt)?;
        seen = pair.seen;
    }
    assert!(rt; seen.quiet >= 300, "{seen:?}");
    assert!(rt; seen.waits >= 10 && seen.refreshes >= 3, "{seen:?}");
    Ok(())
}

#[test]
fn sleep_in_profile_s(rt: HostRuntime) -> Result<(), Fail> {
    sleeps_well(&rt, rt.alloc(), &[])
}

#[test]
fn sleep_with_the_smallest_queues(rt: HostRuntime) -> Result<(), Fail> {
    sleeps_well(&rt, rt.alloc(), SMALLEST)
}

#[test]
fn sleep_with_deep_queues(rt: HostRuntime) -> Result<(), Fail> {
    sleeps_well(&rt, rt.alloc(), DEEP)
}

#[test]
fn sleep_with_a_cap_of_one(rt: HostRuntime) -> Result<(), Fail> {
    sleeps_well(&rt, rt.alloc(), CAP_OF_ONE)
}

#[test]
fn sleep_with_no_refresh_postponed(rt: HostRuntime) -> Result<(), Fail> {
    sleeps_well(&rt, rt.alloc(), NONE_POSTPONED)
}

#[test]
fn sleep_with_seven_refreshes_postponed(rt: HostRuntime) -> Result<(), Fail> {
    sleeps_well(&rt, rt.alloc(), SEVEN_POSTPONED)
}

#[test]
fn sleep_of_two_ranks(rt: HostRuntime) -> Result<(), Fail> {
    sleeps_well(&rt, rt.alloc(), TWO_RANKS)
}

#[test]
fn sleep_with_closed_rows(rt: HostRuntime) -> Result<(), Fail> {
    sleeps_well(&rt, rt.alloc(), CLOSED_ROWS)
}

#[test]
fn sleep_with_closed_rows_of_two_ranks(rt: HostRuntime) -> Result<(), Fail> {
    sleeps_well(&rt, rt.alloc(), CLOSED_ROWS_OF_TWO_RANKS)
}

/// Two ranks whose queues are small, whose requests get old soon, and whose refreshes come often.
const HURRIED: &[(&str, &str)] = &[
    (
        "version",
        "version = 2\nranks = 2\nrtrs = 2\nclosed = false",
    ),
    ("map", "map = \"column rank bank row group channel\""),
    ("reads", "reads = 3"),
    ("writes", "writes = 3"),
    ("done", "done = 2"),
    ("low", "low = 0"),
    ("high", "high = 2"),
    ("cap", "cap = 15"),
    ("refi", "refi = 120"),
    ("postpone", "postpone = 1"),
];

#[test]
fn sleep_of_two_ranks_in_a_hurry(rt: HostRuntime) -> Result<(), Fail> {
    sleeps_well(&rt, rt.alloc(), HURRIED)
}

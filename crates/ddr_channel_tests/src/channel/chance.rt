//! Calls of a channel by chance. Each completion is compared with a flat map of bytes in the order of admission, and
//! the whole trace is checked.
use super::*;
use ddr_legality::checker;
use ddr_samples::chance::Chance;
use ddr_trace::checker as plain;
use std::process::Abort;

/// The calls of a run. In the first half the requests come faster than they are served.
const CALLS: u32 = 8000;

/// The first cycle of a run.
const START: u64 = 77;

/// The lines among which the accesses fall: those below address 16,384.
const LINES: usize = 256;

/// One of 16 lines. In profile S they are two in each of two rows of two banks of two groups.
fn address(chance: &mut Chance) -> u64 {
    let line = chance.below(2);
    let group = chance.below(2);
    let bank = chance.below(2);
    let row = chance.below(2);
    64 * line + 512 * group + 2048 * bank + 8192 * row
}

/// No byte of a line, all, one or some.
fn mask(chance: &mut Chance) -> u64 {
    match chance.below(4) {
        0 => 0,
        1 => u64::MAX,
        2 => 1 << chance.below(64),
        _ => chance.next(),
    }
}

fn access(chance: &mut Chance) -> Access {
    let addr = address(chance);
    if chance.coin() {
        Access::Read(addr)
    } else {
        Access::Write(addr, mask(chance), 0)
    }
}

/// Puts a byte over another where it is enabled.
fn put(old: &mut u8, new: u8, enabled: bool) {
    if enabled {
        *old = new;
    }
}

/// Puts the bytes whose bit in the mask is set over those of the line.
fn merge(line: &mut Line, mask: u64, bytes: &Line) {
    let mut rest = mask;
    for (old, new) in line.iter_mut().zip(bytes.iter()) {
        put(old, *new, rest & 1 == 1);
        rest >>= 1;
    }
}

/// A request that was admitted.
#[derive(Clone, Copy)]
struct Admitted {
    echo: Echo,
    /// The line as it is then, with all requests before it.
    line: Line,
    came_back: bool,
}

/// A channel, and what has to come of the requests that it was given.
#[derive(Drop)]
struct Run {
    alloc: Global,
    channel: Channel,
    chance: Chance,
    /// Each line as the requests admitted so far leave it, in the order of their admission.
    memory: Vec<Line>,
    /// The requests that were admitted, by their numbers.
    admitted: Vec<Admitted>,
    /// The requests that were handed back.
    refused: u64,
    /// When the last one that came back was due.
    last_due: u64,
}

fn start(alloc: Global, lines: &[(&str, &str)]) -> Result<Run, Fail> {
    Ok(Run {
        alloc,
        channel: open_at(alloc, lines, START)?,
        chance: Chance::new(1),
        memory: vec![in alloc; ZEROS; LINES]?,
        admitted: Vec::new(alloc),
        refused: 0,
        last_due: 0,
    })
}

impl Run {
    /// Offers a request by chance.
    fn admit(&mut self, rt: &impl Abort) -> Result<(), Fail> {
        let number = self.admitted.len() as u64;
        let access = access(&mut self.chance);
        let line = self.chance.line();
        let mut offered = request(self.alloc, self.channel.config(), number, access)?;
        *offered.line = line;
        match self.channel.admit(offered) {
            Ok(()) => self.note(access, &line),
            Err(returned) => {
                self.refused = self.refused.wrapping_add(1);
                assert!(rt; !self.channel.room());
                check_returned(rt, &returned, number, access, &line);
                Ok(())
            }
        }
    }

    /// Notes a request that was admitted, with its line: a write changes the memory.
    fn note(&mut self, access: Access, bytes: &Line) -> Result<(), Fail> {
        let echo = access.echo();
        let (mask, _) = access.mask_and_byte();
        let number = (echo.addr / 64) as usize;
        let line = self.memory.get_mut(number).ok_or("outside the lines")?;
        merge(line, mask, bytes);
        self.admitted.push(Admitted {
            echo,
            line: *line,
            came_back: false,
        })?;
        Ok(())
    }

    /// Takes what was done first, if anything is, and checks it.
    fn take(&mut self, rt: &impl Abort) -> Result<(), Fail> {
        let Some(done) = self.channel.pop_done() else {
            return Ok(());
        };
        let admitted = self.note_return(rt, done.number)?;
        check_done(rt, &done, &admitted);
        assert!(rt; self.last_due < done.due && done.due < self.channel.now());
        self.last_due = done.due;
        Ok(())
    }

    /// Notes that the request of a number came back, and gives what was noted at its admission.
    fn note_return(&mut self, rt: &impl Abort, number: u64) -> Result<Admitted, Fail> {
        let admitted = self
            .admitted
            .get_mut(number as usize)
            .ok_or("never admitted")?;
        check_eq(
            rt,
            "coming twice",
            (number, admitted.came_back),
            (number, false),
        );
        admitted.came_back = true;
        Ok(*admitted)
    }

    /// One call by chance: of 64 calls so many are admissions.
    fn call(&mut self, rt: &impl Abort, admissions: u64) -> Result<(), Fail> {
        let chosen = self.chance.below(64);
        if chosen < admissions {
            self.admit(rt)
        } else if chosen < 54 {
            Ok(self.channel.cycle()?)
        } else {
            self.take(rt)
        }
    }

    /// The calls of a run.
    fn calls(&mut self, rt: &impl Abort) -> Result<(), Fail> {
        for nth in 0..CALLS {
            let admissions = if nth < CALLS / 2 { 24 } else { 2 };
            self.call(rt, admissions)?;
        }
        Ok(())
    }

    /// Makes cycles until nothing is left.
    fn finish(&mut self, rt: &impl Abort) -> Result<(), Fail> {
        for _cycle in 0..5000 {
            if self.channel.is_empty() {
                break;
            }
            self.channel.cycle()?;
            self.take(rt)?;
        }
        assert!(rt; self.channel.is_empty());
        Ok(())
    }

    /// Makes the calls of a run, and checks what comes of them.
    fn runs_well(&mut self, rt: &impl Abort) -> Result<(), Fail> {
        self.calls(rt)?;
        self.finish(rt)?;
        self.check_whole(rt)
    }

    /// Checks that all came back, each by a column command of its own, and that the trace is legal.
    fn check_whole(&self, rt: &impl Abort) -> Result<(), Fail> {
        let count = self.admitted.len();
        check_eq(
            rt,
            "what came back",
            (self.all_came_back(), self.columns()),
            (true, count),
        );
        assert!(rt; count > 100 && self.refused > 100);
        check_legal(rt, self.alloc, &self.channel)
    }

    /// Whether each admitted request came back.
    fn all_came_back(&self) -> bool {
        for admitted in self.admitted.iter() {
            if !admitted.came_back {
                return false;
            }
        }
        true
    }

    /// The column commands of the trace.
    fn columns(&self) -> usize {
        let mut columns = 0usize;
        for entry in self.channel.trace() {
            if let Command::Rd { .. }
            | Command::Wr { .. }
            | Command::RdAuto { .. }
            | Command::WrAuto { .. } = entry.command
            {
                columns = columns.wrapping_add(1);
            }
        }
        columns
    }
}

/// Compares a request that was handed back with what was offered.
fn check_returned(rt: &impl Abort, returned: &Req, number: u64, access: Access, line: &Line) {
    let (mask, _) = access.mask_and_byte();
    check_eq(
        rt,
        "the number",
        (returned.port, returned.number),
        (0, number),
    );
    check_eq(rt, "the echo", returned.echo, access.echo());
    check_eq(rt, "the mask", returned.mask, mask);
    check_eq(rt, "the line", *returned.line, *line);
}

/// Compares what is done with the request that was admitted. Nothing is said of the line of a write.
fn check_done(rt: &impl Abort, done: &Done, admitted: &Admitted) {
    let (latency, line) = match admitted.echo.kind {
        Kind::Read => (8, admitted.line),
        Kind::Write => (7, *done.line),
    };
    let due = done.issued.wrapping_add(latency);
    check_eq(rt, "the echo", done.echo, admitted.echo);
    check_eq(rt, "when it is due", done.due, due);
    check_eq(rt, "the line", *done.line, line);
}

/// Checks a whole trace by both checkers.
fn check_legal(rt: &impl Abort, alloc: Global, channel: &Channel) -> Result<(), Fail> {
    let config = channel.config();
    let entries = channel.trace();
    let end = channel.now();
    let fault = checker::first_fault(alloc, entries, config, START, end)?;
    check_eq(rt, "the first fault", fault, None);
    let fault = plain::first_fault(entries, config, START, end);
    check_eq(rt, "the first fault told by the plain checker", fault, None);
    Ok(())
}

/// Calls by chance of a channel of profile S with other lines.
fn runs_well(rt: &impl Abort, alloc: Global, lines: &[(&str, &str)]) -> Result<(), Fail> {
    let mut run = start(alloc, lines)?;
    run.runs_well(rt)
}

#[test]
fn calls_by_chance_in_profile_s(rt: HostRuntime) -> Result<(), Fail> {
    runs_well(&rt, rt.alloc(), &[])
}

pub const SMALLEST: &[(&str, &str)] = &[
    ("reads", "reads = 1"),
    ("writes", "writes = 1"),
    ("done", "done = 1"),
    ("low", "low = 0"),
    ("high", "high = 1"),
];

#[test]
fn calls_by_chance_in_the_smallest_queues(rt: HostRuntime) -> Result<(), Fail> {
    runs_well(&rt, rt.alloc(), SMALLEST)
}

pub const DEEP: &[(&str, &str)] = &[
    ("reads", "reads = 32"),
    ("writes", "writes = 32"),
    ("done", "done = 64"),
    ("high", "high = 32"),
    ("cap", "cap = 100"),
];

#[test]
fn calls_by_chance_in_deep_queues(rt: HostRuntime) -> Result<(), Fail> {
    runs_well(&rt, rt.alloc(), DEEP)
}

const NEXT_TO_EACH_OTHER: &[(&str, &str)] = &[("low", "low = 3"), ("high", "high = 4")];

#[test]
fn calls_by_chance_with_marks_next_to_each_other(rt: HostRuntime) -> Result<(), Fail> {
    runs_well(&rt, rt.alloc(), NEXT_TO_EACH_OTHER)
}

pub const CAP_OF_ONE: &[(&str, &str)] = &[("cap", "cap = 1")];

#[test]
fn calls_by_chance_with_a_cap_of_one(rt: HostRuntime) -> Result<(), Fail> {
    runs_well(&rt, rt.alloc(), CAP_OF_ONE)
}

pub const NONE_POSTPONED: &[(&str, &str)] = &[("postpone", "postpone = 0")];

#[test]
fn calls_by_chance_with_no_refresh_postponed(rt: HostRuntime) -> Result<(), Fail> {
    runs_well(&rt, rt.alloc(), NONE_POSTPONED)
}

pub const SEVEN_POSTPONED: &[(&str, &str)] = &[("postpone", "postpone = 7")];

#[test]
fn calls_by_chance_with_seven_refreshes_postponed(rt: HostRuntime) -> Result<(), Fail> {
    runs_well(&rt, rt.alloc(), SEVEN_POSTPONED)
}

const TWO_GROUPS: &[(&str, &str)] = &[("groups", "groups = 2"), ("bank_xor", "bank_xor = true")];

#[test]
fn calls_by_chance_in_two_groups(rt: HostRuntime) -> Result<(), Fail> {
    runs_well(&rt, rt.alloc(), TWO_GROUPS)
}

/// Two ranks: the 16 lines are two in each of two rows of two banks of two ranks.
pub const TWO_RANKS: &[(&str, &str)] = &[
    (
        "version",
        "version = 2\nranks = 2\nrtrs = 2\nclosed = false",
    ),
    ("map", "map = \"column rank bank row group channel\""),
];

#[test]
fn calls_by_chance_on_two_ranks(rt: HostRuntime) -> Result<(), Fail> {
    runs_well(&rt, rt.alloc(), TWO_RANKS)
}

pub const CLOSED_ROWS: &[(&str, &str)] = &[
    ("version", "version = 2\nranks = 1\nrtrs = 1\nclosed = true"),
    ("map", "map = \"column group bank row channel rank\""),
];

#[test]
fn calls_by_chance_with_closed_rows(rt: HostRuntime) -> Result<(), Fail> {
    runs_well(&rt, rt.alloc(), CLOSED_ROWS)
}

pub const CLOSED_ROWS_OF_TWO_RANKS: &[(&str, &str)] = &[
    ("version", "version = 2\nranks = 2\nrtrs = 2\nclosed = true"),
    ("map", "map = \"column rank bank row group channel\""),
];

#[test]
fn calls_by_chance_with_closed_rows_of_two_ranks(rt: HostRuntime) -> Result<(), Fail> {
    runs_well(&rt, rt.alloc(), CLOSED_ROWS_OF_TWO_RANKS)
}

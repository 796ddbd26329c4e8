//! Runs of a channel. Those of `rows`, `closed`, `ranks`, `refreshes`, `drain`, `refusals`, `quiet` and `told` are worked out by
//! hand, their cycles and their bytes, and what each cycle tells; those of `chance` are compared with a flat map of
//! bytes and with the checkers of a whole trace, and those of `sleep` with a channel that sleeps as the first one did.
ghost use Rattle.std.specs.Prelude.{◌≡◌, ◌≤◌, IfOk};
ghost use Rattle.ddr_timing.specs.declared.units.TheConstants.{CLOCK_STOP};
ghost use Rattle.ddr_channel.specs.Sound.{IsServed};

use crate::requests::request_of;
use ddr_address_map::request::{Done, Echo, Kind, Line, Req};
use ddr_channel::channel::{Channel, CycleError};
use ddr_samples::sample::changed;
use ddr_samples::steps::Step;
use ddr_timing::config::Config;
use ddr_trace::checker as reference;
use ddr_trace::command::{Command, Entry};
use ddr_trace::trace::Trace;
use std::alloc::{AllocError, Global};
use std::fmt::Debug;
use std::process::Abort;
use std::test::Fail;

mod chance;
mod closed;
mod drain;
mod quiet;
mod ranks;
mod refreshes;
mod refusals;
mod rows;
mod sleep;
mod told;

/// The bytes of a line that was never written.
const ZEROS: Line = [0; 64];

/// Compares what is found with what is expected. A failure names this line, so it is told what was compared.
fn check_eq<T: Copy + PartialEq + Debug>(rt: &impl Abort, what: &str, found: T, expected: T) {
    assert_eq!(rt; found, expected, "{what}");
}

/// Profile S with other lines: each pair is a key and what stands for its line.
fn config_with(alloc: Global, lines: &[(&str, &str)]) -> Result<Config, Fail> {
    let text = changed(alloc, lines)?;
    Ok(Config::read(alloc, text.as_str())?)
}

/// What is asked of a line. All bytes of a write are the same.
#[derive(Clone, Copy)]
enum Access {
    Read(u64),
    /// The address, the mask and the byte.
    Write(u64, u64, u8),
}

impl Access {
    fn echo(self) -> Echo {
        let (kind, addr) = match self {
            Access::Read(addr) => (Kind::Read, addr),
            Access::Write(addr, ..) => (Kind::Write, addr),
        };
        Echo {
            kind,
            addr,
            len: 64,
        }
    }

    /// The mask and the byte. The line of a read comes with other bytes than the memory has.
    fn mask_and_byte(self) -> (u64, u8) {
        match self {
            Access::Read(_) => (0, 0xee),
            Access::Write(_, mask, byte) => (mask, byte),
        }
    }
}

/// The request for an access, with its number.
fn request(alloc: Global, config: &Config, number: u64, access: Access) -> Result<Req, Fail>
    ensures { IfOk result (λ r. IsServed config.now r.place) }
{
    let written = access.mask_and_byte();
    request_of(alloc, config, number, access.echo(), written)
}

/// A channel of profile S with other lines, before this cycle.
fn open_at(alloc: Global, lines: &[(&str, &str)], first: u64) -> Result<Channel, Fail>
    requires { first ≤ CLOCK_STOP }
{
    let config = config_with(alloc, lines)?;
    Ok(Channel::open(alloc, &config, first)?)
}

/// A channel of profile S with other lines, before cycle 0.
fn open(alloc: Global, lines: &[(&str, &str)]) -> Result<Channel, Fail> {
    open_at(alloc, lines, 0)
}

/// Admits a request for each access, with numbers from `first` on.
fn admit_all(
    alloc: Global,
    channel: &mut Channel,
    first: u64,
    accesses: &[Access],
) -> Result<(), Fail>
    ensures { channel.new.config ≡ channel.old.config }
{
    for (number, access) in (first..).zip(accesses.iter()) {
        let next = request(alloc, channel.config(), number, *access)?;
        if channel.admit(next).is_err() {
            return Err("the queue is full".into());
        }
    }
    Ok(())
}

/// Makes so many cycles.
fn make_cycles(channel: &mut Channel, count: u32) -> Result<(), CycleError> {
    for _nth in 0..count {
        channel.cycle()?;
    }
    Ok(())
}

/// Takes turns: makes so many cycles, and then admits a request for each access. The requests are numbered from 0.
fn admit_in_turns(
    alloc: Global,
    channel: &mut Channel,
    turns: &[(u32, &[Access])],
) -> Result<(), Fail> {
    let mut first = 0u64;
    for (cycles, accesses) in turns {
        make_cycles(channel, *cycles)?;
        admit_all(alloc, channel, first, accesses)?;
        first = first.wrapping_add(accesses.len() as u64);
    }
    Ok(())
}

/// Makes cycles until nothing is left, 100 at most, and takes the completions.
fn finish(alloc: Global, channel: &mut Channel) -> Result<Vec<Done>, Fail> {
    let mut taken = Vec::new(alloc);
    for _nth in 0..100 {
        if channel.is_empty() {
            break;
        }
        channel.cycle()?;
        if let Some(done) = channel.pop_done() {
            taken.push(done)?;
        }
    }
    Ok(taken)
}

/// What comes of requests.
#[derive(Drop)]
struct Outcome {
    /// The commands of the trace.
    commands: &'static [Step],
    /// The first cycle that was not made.
    end: u64,
    /// The number of each request that came back, the cycle of its column command and that of its completion.
    times: &'static [(u64, u64, u64)],
    /// Numbers, each with the bytes with which the line that came back begins. All bytes behind them are zero.
    lines: &'static [(u64, &'static [u8])],
}

/// Requests in turns, and what comes of them.
#[derive(Drop)]
struct Case {
    /// What is changed in profile S: each pair is a key and what stands for its line.
    lines: &'static [(&'static str, &'static str)],
    /// How many cycles are made, and which requests are admitted then. The requests are numbered from 0.
    turns: &'static [(u32, &'static [Access])],
    outcome: Outcome,
}

/// What a channel is given, and what is looked at in the meantime.
#[derive(Drop)]
enum Scene {
    /// The turns of a case.
    Turns(&'static [(u32, &'static [Access])]),
    FirstRefresh,
    Ten,
    OneByOne,
    RoomForOne,
    TwoPorts,
}

fn push_step(entries: &mut Vec<Entry>, step: &Step) -> Result<(), AllocError> {
    entries.push(step.entry())?;
    Ok(())
}

fn push_steps(entries: &mut Vec<Entry>, steps: &[Step]) -> Result<(), AllocError> {
    for step in steps {
        push_step(entries, step)?;
    }
    Ok(())
}

/// Compares the trace so far, and the next cycle.
fn check_entries(rt: &impl Abort, channel: &Channel, commands: &[Entry], now: u64) {
    check_eq(rt, "the commands so far", channel.trace(), commands);
    check_eq(rt, "the next cycle", channel.now(), now);
}

/// Compares a whole trace from cycle 0 on.
fn check_whole(rt: &impl Abort, trace: &Trace, commands: &[Entry], end: u64) {
    check_eq(rt, "all commands", trace.entries.as_slice(), commands);
    check_eq(rt, "the ends", (trace.start, trace.end), (0, end));
}

/// Looks at the whole trace of a channel from cycle 0 on with the reference checker, and so at both rules on refresh.
fn check_faultless(rt: &impl Abort, channel: &Channel) {
    let fault = reference::first_fault(channel.trace(), channel.config(), 0, channel.now());
    check_eq(rt, "the first fault", fault, None);
}

/// Compares the trace and its end. The channel is given up.
fn check_trace(rt: &impl Abort, channel: Channel, commands: &[Entry], end: u64) {
    check_entries(rt, &channel, commands, end);
    check_faultless(rt, &channel);
    check_whole(rt, &channel.into_trace(), commands, end);
}

/// Compares the number of each request that came back, the cycle of its column command and that of its completion.
fn check_times(
    rt: &impl Abort,
    alloc: Global,
    taken: &[Done],
    expected: &[(u64, u64, u64)],
) -> Result<(), Fail> {
    let mut times = Vec::new(alloc);
    for done in taken {
        times.push((done.number, done.issued, done.due))?;
    }
    check_eq(rt, "the times", times.as_slice(), expected);
    Ok(())
}

/// A line that begins with these bytes. All behind them are zero.
fn line_with(bytes: &[u8]) -> Line {
    let mut line = ZEROS;
    for (old, new) in line.iter_mut().zip(bytes.iter()) {
        *old = *new;
    }
    line
}

/// The line that came back with a number.
fn line_of(taken: &[Done], number: u64) -> Option<Line> {
    for done in taken {
        if done.number == number {
            return Some(*done.line);
        }
    }
    None
}

/// Compares lines that came back, each of a number, with the bytes with which they begin.
fn check_lines(rt: &impl Abort, taken: &[Done], expected: &[(u64, &[u8])]) {
    for (number, bytes) in expected {
        let line = line_of(taken, *number);
        assert_eq!(rt;
            line,
            Some(line_with(bytes)),
            "the line of request {number}"
        );
    }
}

/// Makes cycles until nothing is left, and compares what comes back.
fn check_rest(
    rt: &impl Abort,
    alloc: Global,
    channel: &mut Channel,
    outcome: &Outcome,
) -> Result<(), Fail> {
    let taken = finish(alloc, channel)?;
    check_times(rt, alloc, &taken, outcome.times)?;
    check_lines(rt, &taken, outcome.lines);
    Ok(())
}

/// Admits requests in turns, and compares what comes of them.
fn serve_turns(
    rt: &impl Abort,
    alloc: Global,
    channel: &mut Channel,
    turns: &[(u32, &[Access])],
    outcome: &Outcome,
) -> Result<(), Fail> {
    admit_in_turns(alloc, channel, turns)?;
    check_rest(rt, alloc, channel, outcome)
}

/// Has the channel serve what the scene gives it.
fn serve(
    rt: &impl Abort,
    alloc: Global,
    channel: &mut Channel,
    scene: &Scene,
    outcome: &Outcome,
) -> Result<(), Fail> {
    match scene {
        Scene::Turns(turns) => serve_turns(rt, alloc, channel, turns, outcome),
        Scene::FirstRefresh => refreshes::make_first_refresh(rt, channel),
        Scene::Ten => refusals::serve_ten(rt, alloc, channel),
        Scene::OneByOne => refusals::serve_one_by_one(rt, alloc, channel),
        Scene::RoomForOne => refusals::serve_with_room_for_one(rt, alloc, channel),
        Scene::TwoPorts => rows::serve_two_ports(rt, alloc, channel),
    }
}

/// Plays a scene with a channel of profile S with other lines, and compares all that comes of it.
fn play(
    rt: &impl Abort,
    alloc: Global,
    lines: &[(&str, &str)],
    scene: &Scene,
    outcome: &Outcome,
) -> Result<(), Fail> {
    let mut commands = Vec::new(alloc);
    push_steps(&mut commands, outcome.commands)?;
    play_for(rt, alloc, lines, scene, outcome, &commands)
}

/// Plays a scene, and compares all that comes of it, where the commands of the trace are these.
fn play_for(
    rt: &impl Abort,
    alloc: Global,
    lines: &[(&str, &str)],
    scene: &Scene,
    outcome: &Outcome,
    commands: &[Entry],
) -> Result<(), Fail> {
    let mut channel = open(alloc, lines)?;
    serve(rt, alloc, &mut channel, scene, outcome)?;
    check_trace(rt, channel, commands, outcome.end);
    Ok(())
}

/// Opens a channel, admits the requests of a case in their turns, and compares all that comes of them.
fn check(rt: &impl Abort, alloc: Global, case: &Case) -> Result<(), Fail> {
    let scene = Scene::Turns(case.turns);
    play(rt, alloc, case.lines, &scene, &case.outcome)
}

//! What the command line asks for.
//!
//! `command`, `options`, `misuse`, `help` and `clap` stand below, and the program above.
ghost use Rattle.std.specs.Prelude.{◌≡◌, ◌≤◌, IfOk, IsTrue, None, Ok, codes, false, length, map, true};
ghost use Rattle.clap.specs.Words.{app_of, found_of, rows_of, rule_of, with_rule, with_subcommand};
ghost use Rattle.clap.specs.declared.Command.TheViews.{out-Command as settings_of};
ghost use Rattle.ddr_words.specs.Job.{Answers, AreTaken, Reads, check_app, check_job, cycle_rule, ddr_app, draw_app, faults_job, flag_rule, format_of, is_subcommand, job_of, job_with, lint_app, lint_job, name_alone, number_rule, picture_of, reading_of, replay_app, replay_job, said_by, told_of, trace_rule, value_rule, with_capture, with_faults, with_numbers, with_reading, with_sample, with_telling};

use crate::command::{Job, Picture};
use crate::help;
use crate::misuse::{Misuse, misuse_of};
use crate::options::{
    channel_of, clock_of, drampower_of, every_of, from_of, is_all, is_explained, is_fair,
    is_from_first, is_of_bound, is_of_dramsim3, is_of_numbers, is_of_ramulator2, is_of_requests,
    is_progress, is_sample, is_spread, is_streamed, is_svg, is_wrapped, most_of, skip_of, start_of,
    to_of, trace_of,
};
use clap::{Arg, ArgAction, ArgMatches, Command, Error, value_parser};
use ddr_text::command::{Format, Reading, Told};
use std::alloc::{AllocError, Global};

/// Why words state no job.
#[derive(Debug, Drop)]
pub enum JobError {
    /// The words are of another form, they ask for help, or memory ran out. The `Display` is the text for the user.
    Words(Error),
    /// An option would have no effect.
    Misuse(Misuse),
}

/// The job that the words of a command line state, of which the first is the program's name.
///
/// The subcommands are `sim`, `run`, `replay`, `check`, `draw`, `map` and `lint`. Each has the flag `--sample`, `sim` the option `--trace
/// C` with the number of a channel, a `u32`, and `check` the flags `--explain` and `--all` and the option `--most N` with a `u32`, which
/// asks for all faults too. `replay` has the flags `--dramsim3`, `--ramulator2`, `--spread`, `--wrap`, `--from-first`, `--fair`,
/// `--requests`, `--progress` and `--numbers`, and `--trace C`, `--drampower C`, `--skip N`, `--tck PICOSECONDS` and `--every CYCLES`, each
/// with a `u32`. `check` has the flags `--stream`, `--dramsim3` and `--ramulator2` and the options `--start CYCLE` with a `u64` and
/// `--channel C` with a `u32` too: each of them asks for captured commands. `draw` has the flag `--svg` and the options `--from CYCLE` and
/// `--to CYCLE`, and `lint` the flag `--bound`. No words, or the name alone, are read as `sim --sample`.
///
/// Fails as `Words` where the words are of another form, where they ask for help, and where memory runs out, and else as `Misuse`
/// where an option would have no effect.
pub fn job(alloc: Global, words: &[&str]) -> Result<Job, JobError>
    ensures said { Answers result (job_of (map (λ word. word.now) words.now)) }
    ensures alone { length words.now ≤ 1 → result ≡ Ok (Job.Sim true None) }
{
    match stated(alloc, words) {
        Ok(Ok(job)) => Ok(job),
        Ok(Err(misuse)) => Err(JobError::Misuse(misuse)),
        Err(error) => Err(JobError::Words(error)),
    }
}

/// The job that the words state, or the option that would have no effect.
fn stated(alloc: Global, words: &[&str]) -> Result<Result<Job, Misuse>, Error>
    ensures said { Reads result (job_of (map (λ word. word.now) words.now)) }
    ensures alone { length words.now ≤ 1 → result ≡ Ok (Ok (Job.Sim true None)) }
{
    if words.len() <= 1 {
        return Ok(Ok(Job::Sim {
            sample: true,
            trace: None,
        }));
    }
    let matches = command(alloc)?.try_get_matches_from(words)?;
    let Some((name, options)) = matches.subcommand() else {
        unreachable!()
    };
    Ok(said_by(name, options))
}

/// What a subcommand with these options says: its job, or the option that would have no effect.
fn said_by(name: &str, options: &ArgMatches<'_>) -> Result<Job, Misuse>
    requires named { IsTrue (is_subcommand name.now) }
    requires taken { AreTaken (rows_of (found_of options.now)) }
    ensures { result ≡ said_by name.now (rows_of (found_of options.now)) }
{
    match misuse_of(name, options) {
        Some(misuse) => Err(misuse),
        None => Ok(job_with(name, options)),
    }
}

/// The job of a subcommand with these options.
fn job_with(name: &str, options: &ArgMatches<'_>) -> Job
    requires named { IsTrue (is_subcommand name.now) }
    requires taken { AreTaken (rows_of (found_of options.now)) }
    ensures { result ≡ job_with name.now (rows_of (found_of options.now)) }
{
    let sample = is_sample(options);
    match name {
        "sim" => Job::Sim {
            sample,
            trace: trace_of(options),
        },
        "run" => Job::Run { sample },
        "replay" => replay_job(options, sample),
        "check" => check_job(options, sample),
        "draw" => Job::Draw {
            sample,
            picture: picture_of(options),
        },
        "map" => Job::Map { sample },
        "lint" => lint_job(options, sample),
        _ => unreachable!(),
    }
}

/// The job of the subcommand `replay` with these options.
fn replay_job(options: &ArgMatches<'_>, sample: bool) -> Job
    requires { AreTaken (rows_of (found_of options.now)) }
    ensures { result ≡ replay_job (rows_of (found_of options.now)) sample }
{
    if is_of_numbers(options) {
        Job::Measure {
            sample,
            reading: reading_of(options),
            from_first: is_from_first(options),
            fair: is_fair(options),
            skip: skip_of(options).unwrap_or(0),
            clock: clock_of(options),
            every: every_of(options),
            progress: is_progress(options),
        }
    } else {
        Job::Replay {
            sample,
            reading: reading_of(options),
            from_first: is_from_first(options),
            fair: is_fair(options),
            told: told_of(options),
            progress: is_progress(options),
        }
    }
}

/// The job of the subcommand `check` with these options.
fn check_job(options: &ArgMatches<'_>, sample: bool) -> Job
    requires { AreTaken (rows_of (found_of options.now)) }
    ensures { result ≡ check_job (rows_of (found_of options.now)) sample }
{
    if is_streamed(options) {
        Job::Stream {
            sample,
            format: format_of(options),
            start: start_of(options).unwrap_or(0),
            channel: channel_of(options),
        }
    } else {
        faults_job(options, sample)
    }
}

/// The job of the subcommand `check` on a whole trace, with these options.
fn faults_job(options: &ArgMatches<'_>, sample: bool) -> Job
    requires { AreTaken (rows_of (found_of options.now)) }
    ensures { result ≡ faults_job (rows_of (found_of options.now)) sample }
{
    let most = most_of(options);
    if is_all(options) || most.is_some() {
        Job::All { sample, most }
    } else if is_explained(options) {
        Job::Explain { sample }
    } else {
        Job::Check { sample }
    }
}

/// The job of the subcommand `lint` with these options.
fn lint_job(options: &ArgMatches<'_>, sample: bool) -> Job
    requires { AreTaken (rows_of (found_of options.now)) }
    ensures { result ≡ lint_job (rows_of (found_of options.now)) sample }
{
    if is_of_bound(options) {
        Job::Bound { sample }
    } else {
        Job::Lint { sample }
    }
}

/// What the options ask `draw` for.
fn picture_of(options: &ArgMatches<'_>) -> Picture
    requires { AreTaken (rows_of (found_of options.now)) }
    ensures { result ≡ picture_of (rows_of (found_of options.now)) }
{
    if is_svg(options) {
        Picture::Lanes {
            from: from_of(options),
            to: to_of(options),
        }
    } else {
        Picture::Waves
    }
}

/// How the options say that a stream is read.
fn reading_of(options: &ArgMatches<'_>) -> Reading
    requires { AreTaken (rows_of (found_of options.now)) }
    ensures { result ≡ reading_of (rows_of (found_of options.now)) }
{
    Reading {
        format: format_of(options),
        spread: is_spread(options),
        wrap: is_wrapped(options),
    }
}

/// The format that the flags name, or the program's own.
fn format_of(options: &ArgMatches<'_>) -> Format
    requires { AreTaken (rows_of (found_of options.now)) }
    ensures { result ≡ format_of (rows_of (found_of options.now)) }
{
    if is_of_dramsim3(options) {
        Format::Dramsim3
    } else if is_of_ramulator2(options) {
        Format::Ramulator2
    } else {
        Format::Own
    }
}

/// What the options ask a replay for.
fn told_of(options: &ArgMatches<'_>) -> Told
    requires { AreTaken (rows_of (found_of options.now)) }
    ensures { result ≡ told_of (rows_of (found_of options.now)) }
{
    if let Some(channel) = trace_of(options) {
        Told::Trace { channel }
    } else if let Some(channel) = drampower_of(options) {
        Told::Drampower { channel }
    } else if is_of_requests(options) {
        Told::Requests
    } else {
        Told::Statistics
    }
}

/// The command line as `clap` reads it: the program with its subcommands.
fn command<'a>(alloc: Global) -> Result<Command<'a>, AllocError>
    ensures app { IfOk result (λ command. app_of command ≡ ddr_app) }
    ensures local { IfOk result (λ command. (settings_of command).has_globals ≡ false) }
{
    let sim = with_sim(alloc, program(alloc)?)?;
    let run = with_one(
        alloc,
        sim,
        "run",
        "Runs a script with a thread for each port and each channel",
        help::RUN,
    )?;
    let replay = with_replay(alloc, run)?;
    let check = with_check(alloc, replay)?;
    let draw = with_draw(alloc, check)?;
    let map = with_one(alloc, draw, "map", "Says where addresses lie", help::MAP)?;
    with_lint(alloc, map)
}

/// The program before its subcommands, one of which has to follow. It has no subcommand `help`: help is asked for by
/// `--help`. Its texts say `ddr`, whatever the first word is.
fn program<'a>(alloc: Global) -> Result<Command<'a>, AllocError>
    ensures app { IfOk result (λ command. app_of command ≡ name_alone) }
    ensures local { IfOk result (λ command. (settings_of command).has_globals ≡ false) }
{
    let named = Command::new(alloc, "ddr").bin_name("ddr")?;
    Ok(
        named
            .about("A model of a DDR4 memory controller")
            .after_help(help::PROGRAM)
            .subcommand_required(true)
            .disable_help_subcommand(true),
    )
}

/// The command with the subcommand that runs a script, which has the option `--trace` too.
fn with_sim<'a>(alloc: Global, command: Command<'a>) -> Result<Command<'a>, AllocError>
    requires local { (settings_of command).has_globals ≡ false }
    ensures app { IfOk result (λ all. app_of all ≡ with_subcommand (app_of command.entry) (with_rule (with_sample (codes "sim")) trace_rule).top) }
    ensures local { IfOk result (λ all. (settings_of all).has_globals ≡ false) }
{
    let sim = subcommand(alloc, "sim", "Runs a script of reads and writes", help::SIM)?;
    let about = "Writes the trace of this channel in place of the replies";
    command.subcommand(sim.arg(number_option(alloc, "trace", "CHANNEL", about))?)
}

/// The command with the subcommand that replays a stream, which has options of its own.
fn with_replay<'a>(alloc: Global, command: Command<'a>) -> Result<Command<'a>, AllocError>
    requires local { (settings_of command).has_globals ≡ false }
    ensures app { IfOk result (λ all. app_of all ≡ with_subcommand (app_of command.entry) replay_app.top) }
    ensures local { IfOk result (λ all. (settings_of all).has_globals ≡ false) }
{
    let about = "Replays a stream of requests, and tells its statistics";
    let replay = subcommand(alloc, "replay", about, help::REPLAY)?;
    let reading = with_reading(alloc, replay)?;
    let telling = with_telling(alloc, reading)?;
    command.subcommand(with_numbers(alloc, telling)?)
}

/// The command with the options that say how a stream is taken.
fn with_reading<'a>(alloc: Global, command: Command<'a>) -> Result<Command<'a>, AllocError>
    requires local { (settings_of command).has_globals ≡ false }
    ensures app { IfOk result (λ all. app_of all ≡ with_reading (app_of command.entry)) }
    ensures local { IfOk result (λ all. (settings_of all).has_globals ≡ false) }
{
    let about = "Reads lines `ADDR READ CYCLE` and `ADDR WRITE CYCLE`, as DRAMSim3 does";
    let with_dramsim3 = command.arg(flag(alloc, "dramsim3", about))?;
    let about = "Reads lines `LD ADDR` and `ST ADDR`, as Ramulator 2 does";
    let with_ramulator2 = with_dramsim3.arg(flag(alloc, "ramulator2", about))?;
    let about = "Sends requests that name no port round the ports, and not all to port 0";
    let with_spread = with_ramulator2.arg(flag(alloc, "spread", about))?;
    let about = "Takes an address modulo the capacity";
    let with_wrap = with_spread.arg(flag(alloc, "wrap", about))?;
    let about = "Takes the first cycle of the stream as cycle 0";
    let with_from_first = with_wrap.arg(flag(alloc, "from-first", about))?;
    let about = "Lets the ports submit first in turn, and not port 0 always";
    with_from_first.arg(flag(alloc, "fair", about))
}

/// The command with the options that say what is told of a replay.
fn with_telling<'a>(alloc: Global, command: Command<'a>) -> Result<Command<'a>, AllocError>
    requires local { (settings_of command).has_globals ≡ false }
    ensures app { IfOk result (λ all. app_of all ≡ with_telling (app_of command.entry)) }
    ensures local { IfOk result (λ all. (settings_of all).has_globals ≡ false) }
{
    let about = "Tells of each request when it was accepted and served, as CSV";
    let listing = command.arg(flag(alloc, "requests", about))?;
    let about = "Writes the trace of this channel in place of the statistics";
    let tracing = listing.arg(number_option(alloc, "trace", "CHANNEL", about))?;
    let about = "Writes the commands of this channel as DRAMPower reads them";
    let exporting = tracing.arg(number_option(alloc, "drampower", "CHANNEL", about))?;
    let about = "Says on standard error how far it is, about each second";
    exporting.arg(flag(alloc, "progress", about))
}

/// The command with the options that say which numbers are told of a replay.
fn with_numbers<'a>(alloc: Global, command: Command<'a>) -> Result<Command<'a>, AllocError>
    requires local { (settings_of command).has_globals ≡ false }
    ensures app { IfOk result (λ all. app_of all ≡ with_numbers (app_of command.entry)) }
    ensures local { IfOk result (λ all. (settings_of all).has_globals ≡ false) }
{
    let about = "Tells numbers of the requests in place of the statistics: times and bandwidth";
    let counting = command.arg(flag(alloc, "numbers", about))?;
    let about = "Leaves out the first N requests that are served, with --numbers";
    let skipping = counting.arg(number_option(alloc, "skip", "N", about))?;
    let about =
        "Tells times in nanoseconds too, where a clock takes so many picoseconds, with --numbers";
    let timing = skipping.arg(number_option(alloc, "tck", "PICOSECONDS", about))?;
    let about = "Tells the numbers of each interval of so many cycles, as CSV, with --numbers";
    timing.arg(number_option(alloc, "every", "CYCLES", about))
}

/// The command with the subcommand that checks a trace, which has options of its own.
fn with_check<'a>(alloc: Global, command: Command<'a>) -> Result<Command<'a>, AllocError>
    requires local { (settings_of command).has_globals ≡ false }
    ensures app { IfOk result (λ all. app_of all ≡ with_subcommand (app_of command.entry) check_app.top) }
    ensures local { IfOk result (λ all. (settings_of all).has_globals ≡ false) }
{
    let check = subcommand(alloc, "check", "Checks a trace of commands", help::CHECK)?;
    let telling = with_faults(alloc, check)?;
    command.subcommand(with_capture(alloc, telling)?)
}

/// The command with the options that say which faults are told.
fn with_faults<'a>(alloc: Global, command: Command<'a>) -> Result<Command<'a>, AllocError>
    requires local { (settings_of command).has_globals ≡ false }
    ensures app { IfOk result (λ all. app_of all ≡ with_faults (app_of command.entry)) }
    ensures local { IfOk result (λ all. (settings_of all).has_globals ≡ false) }
{
    let about = "Says what the first fault rests on, in a sentence behind the verdict";
    let explaining = command.arg(flag(alloc, "explain", about))?;
    let about = "Tells every fault as a line of CSV, and counts each rule";
    let telling = explaining.arg(flag(alloc, "all", about))?;
    let about = "Tells the first N faults alone, and counts all; means --all too";
    telling.arg(number_option(alloc, "most", "N", about))
}

/// The command with the options that say how captured commands are read.
fn with_capture<'a>(alloc: Global, command: Command<'a>) -> Result<Command<'a>, AllocError>
    requires local { (settings_of command).has_globals ≡ false }
    ensures app { IfOk result (λ all. app_of all ≡ with_capture (app_of command.entry)) }
    ensures local { IfOk result (λ all. (settings_of all).has_globals ≡ false) }
{
    let about = "Checks captured commands of each channel, however many, in one pass";
    let streaming = command.arg(flag(alloc, "stream", about))?;
    let about = "Reads the command trace that DRAMSim3 writes; means --stream too";
    let with_dramsim3 = streaming.arg(flag(alloc, "dramsim3", about))?;
    let about = "Reads that of Ramulator 2's trace recorder; means --stream too";
    let with_ramulator2 = with_dramsim3.arg(flag(alloc, "ramulator2", about))?;
    let about = "Begins in this cycle, and not in cycle 0; means --stream too";
    let with_start = with_ramulator2.arg(cycle_option(alloc, "start", about))?;
    let about = "Judges this channel alone, whose capture it is; means --stream too";
    with_start.arg(number_option(alloc, "channel", "CHANNEL", about))
}

/// The command with the subcommand that draws a trace, which has options of its own.
fn with_draw<'a>(alloc: Global, command: Command<'a>) -> Result<Command<'a>, AllocError>
    requires local { (settings_of command).has_globals ≡ false }
    ensures app { IfOk result (λ all. app_of all ≡ with_subcommand (app_of command.entry) draw_app.top) }
    ensures local { IfOk result (λ all. (settings_of all).has_globals ≡ false) }
{
    let draw = subcommand(alloc, "draw", "Draws a trace of commands", help::DRAW)?;
    let about = "Draws a timeline as SVG, in place of a value change dump";
    let with_svg = draw.arg(flag(alloc, "svg", about))?;
    let about = "Draws the commands from this cycle on, with --svg";
    let with_from = with_svg.arg(cycle_option(alloc, "from", about))?;
    let about = "Draws the commands before this cycle, with --svg";
    command.subcommand(with_from.arg(cycle_option(alloc, "to", about))?)
}

/// The command with the subcommand that looks through a configuration, which has a flag of its own.
fn with_lint<'a>(alloc: Global, command: Command<'a>) -> Result<Command<'a>, AllocError>
    requires local { (settings_of command).has_globals ≡ false }
    ensures app { IfOk result (λ all. app_of all ≡ with_subcommand (app_of command.entry) lint_app.top) }
    ensures local { IfOk result (λ all. (settings_of all).has_globals ≡ false) }
{
    let lint = subcommand(alloc, "lint", "Looks through a configuration", help::LINT)?;
    let about = "Tells how long a request takes at most, as TOML, in place of findings";
    command.subcommand(lint.arg(flag(alloc, "bound", about))?)
}

/// The command with one more subcommand.
fn with_one<'a>(
    alloc: Global,
    command: Command<'a>,
    name: &'a str,
    about: &'a str,
    after_help: &'a str,
) -> Result<Command<'a>, AllocError>
    requires local { (settings_of command).has_globals ≡ false }
    ensures app { IfOk result (λ all. app_of all ≡ with_subcommand (app_of command.entry) (with_sample name.entry.now).top) }
    ensures local { IfOk result (λ all. (settings_of all).has_globals ≡ false) }
{
    command.subcommand(subcommand(alloc, name, about, after_help)?)
}

/// A flag of this name.
fn flag<'a>(alloc: Global, name: &'a str, about: &'a str) -> Arg<'a>
    ensures rule { rule_of result ≡ flag_rule name.entry.now }
    ensures local { result.global ≡ false }
{
    Arg::new(alloc, name)
        .long(name)
        .action(ArgAction::SetTrue)
        .help(about)
}

/// An option of this name, whose value is a `u32`.
fn number_option<'a>(alloc: Global, name: &'a str, value: &'a str, about: &'a str) -> Arg<'a>
    ensures rule { rule_of result ≡ number_rule name.entry.now }
    ensures local { result.global ≡ false }
{
    value_option(alloc, name, value, about).value_parser(value_parser!(u32))
}

/// An option of this name, whose value is a cycle, a `u64`.
fn cycle_option<'a>(alloc: Global, name: &'a str, about: &'a str) -> Arg<'a>
    ensures rule { rule_of result ≡ cycle_rule name.entry.now }
    ensures local { result.global ≡ false }
{
    value_option(alloc, name, "CYCLE", about).value_parser(value_parser!(u64))
}

/// An option of this name, with a value of this name.
fn value_option<'a>(alloc: Global, name: &'a str, value: &'a str, about: &'a str) -> Arg<'a>
    ensures rule { rule_of result ≡ value_rule name.entry.now }
    ensures local { result.global ≡ false }
{
    Arg::new(alloc, name)
        .long(name)
        .value_name(value)
        .help(about)
}

/// A subcommand with the flag `--sample`, and with what its help says first and last.
fn subcommand<'a>(
    alloc: Global,
    name: &'a str,
    about: &'a str,
    after_help: &'a str,
) -> Result<Command<'a>, AllocError>
    ensures app { IfOk result (λ command. app_of command ≡ with_sample name.entry.now) }
    ensures local { IfOk result (λ command. (settings_of command).has_globals ≡ false) }
{
    let sample = Arg::new(alloc, "sample")
        .long("sample")
        .action(ArgAction::SetTrue)
        .help("Takes the sample configuration, and the whole input as the body");
    Command::new(alloc, name)
        .about(about)
        .after_help(after_help)
        .arg(sample)
}

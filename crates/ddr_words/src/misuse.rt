//! Options that have no effect where they stand.
//!
//! `options` stands below, and `job` and `ending` above.
ghost use Rattle.std.specs.Prelude.{◌≡◌};
ghost use Rattle.clap.specs.Words.{found_of, rows_of};
ghost use Rattle.ddr_words.specs.Job.{AreTaken, check_misuse, draw_misuse, misuse_of, numbers_misuse, replay_misuse, tells_faults, tells_others, tells_part};

use crate::options::{
    channel_of, clock_of, drampower_of, every_of, from_of, is_all, is_explained, is_from_first,
    is_of_numbers, is_of_ramulator2, is_of_requests, is_spread, is_streamed, is_svg, most_of,
    names_form, names_two_forms, skip_of, to_of, trace_of,
};
use clap::ArgMatches;
use thiserror::Error;

/// An option that would have no effect. The texts are what the program prints on standard error, behind `ddr: `.
#[derive(Clone, Copy, Debug, PartialEq, Eq, Error)]
pub enum Misuse {
    /// Both other forms are named, and the lines of an input are of one.
    #[error("--dramsim3 and --ramulator2 each name a form, and the input has one")]
    TwoForms,
    /// A line of this program's own form names its port.
    #[error("--spread needs --dramsim3 or --ramulator2: a line of this program's own form names its port")]
    SpreadOfOwnForm,
    /// A request of Ramulator 2's form comes as soon as possible.
    #[error("--from-first needs lines with cycles, and those of --ramulator2 have none")]
    FirstOfNoCycles,
    /// A replay tells one of the two.
    #[error("--requests and --trace each say what is told, and one of them can be")]
    RequestsBesideTrace,
    /// The commands are told in the place of requests and of a trace.
    #[error("--drampower says what is told, and so does --requests or --trace: one of them can be")]
    DrampowerBesideOthers,
    /// Numbers are told in the place of requests and of commands.
    #[error("--numbers says what is told, and so does --requests, --trace or --drampower: one of them can be")]
    NumbersBesideOthers,
    /// Statistics, requests and traces are those of the whole run, in clocks.
    #[error("--skip, --tck and --every need --numbers: all else is told of the whole run, in clocks")]
    PartOfNumbers,
    /// A clock takes time.
    #[error("--tck 0 is no clock: it is how many picoseconds one takes")]
    ClockOfNoTime,
    /// An interval has a cycle.
    #[error("--every 0 is no interval: it is how many cycles each one has")]
    IntervalOfNoCycle,
    /// The numbers of intervals are told in clocks.
    #[error("--tck says how times are told in nanoseconds, and --every tells them in clocks: one of them can be")]
    ClockOfIntervals,
    /// Captured commands are judged as they come, and their first faults alone are told.
    #[error("--explain, --all and --most need a whole trace: captured commands are judged as they come")]
    FaultsOfCapture,
    /// Captured commands of this program's own form are those of one channel.
    #[error("--channel needs --dramsim3 or --ramulator2: this program's own form has one channel")]
    ChannelOfOwnForm,
    /// Waves are drawn of the whole trace.
    #[error("--from and --to need --svg: waves are drawn of the whole trace")]
    PartOfWaves,
}

/// The first misuse of the options of this subcommand, if there is one.
pub(crate) fn misuse_of(name: &str, options: &ArgMatches<'_>) -> Option<Misuse>
    requires { AreTaken (rows_of (found_of options.now)) }
    ensures { result ≡ misuse_of name.now (rows_of (found_of options.now)) }
{
    match name {
        "replay" => replay_misuse(options),
        "check" => check_misuse(options),
        "draw" => draw_misuse(options),
        _ => None,
    }
}

/// The first misuse of the options of `replay`.
fn replay_misuse(options: &ArgMatches<'_>) -> Option<Misuse>
    requires { AreTaken (rows_of (found_of options.now)) }
    ensures { result ≡ replay_misuse (rows_of (found_of options.now)) }
{
    if names_two_forms(options) {
        Some(Misuse::TwoForms)
    } else if is_spread(options) && !names_form(options) {
        Some(Misuse::SpreadOfOwnForm)
    } else if is_from_first(options) && is_of_ramulator2(options) {
        Some(Misuse::FirstOfNoCycles)
    } else if is_of_requests(options) && trace_of(options).is_some() {
        Some(Misuse::RequestsBesideTrace)
    } else if drampower_of(options).is_some()
        && (is_of_requests(options) || trace_of(options).is_some())
    {
        Some(Misuse::DrampowerBesideOthers)
    } else {
        numbers_misuse(options)
    }
}

/// The first misuse of the options of `replay` that say which numbers are told.
fn numbers_misuse(options: &ArgMatches<'_>) -> Option<Misuse>
    requires { AreTaken (rows_of (found_of options.now)) }
    ensures { result ≡ numbers_misuse (rows_of (found_of options.now)) }
{
    if is_of_numbers(options) && tells_others(options) {
        Some(Misuse::NumbersBesideOthers)
    } else if !is_of_numbers(options) && tells_part(options) {
        Some(Misuse::PartOfNumbers)
    } else if clock_of(options) == Some(0) {
        Some(Misuse::ClockOfNoTime)
    } else if every_of(options) == Some(0) {
        Some(Misuse::IntervalOfNoCycle)
    } else if clock_of(options).is_some() && every_of(options).is_some() {
        Some(Misuse::ClockOfIntervals)
    } else {
        None
    }
}

/// Whether an option is used that says which numbers are told, or how.
fn tells_part(options: &ArgMatches<'_>) -> bool
    requires { AreTaken (rows_of (found_of options.now)) }
    ensures { result ≡ tells_part (rows_of (found_of options.now)) }
{
    skip_of(options).is_some() || clock_of(options).is_some() || every_of(options).is_some()
}

/// Whether the options ask a replay for its requests or for the commands of a channel.
fn tells_others(options: &ArgMatches<'_>) -> bool
    requires { AreTaken (rows_of (found_of options.now)) }
    ensures { result ≡ tells_others (rows_of (found_of options.now)) }
{
    is_of_requests(options) || trace_of(options).is_some() || drampower_of(options).is_some()
}

/// The first misuse of the options of `check`.
fn check_misuse(options: &ArgMatches<'_>) -> Option<Misuse>
    requires { AreTaken (rows_of (found_of options.now)) }
    ensures { result ≡ check_misuse (rows_of (found_of options.now)) }
{
    if names_two_forms(options) {
        Some(Misuse::TwoForms)
    } else if is_streamed(options) && tells_faults(options) {
        Some(Misuse::FaultsOfCapture)
    } else if channel_of(options).is_some() && !names_form(options) {
        Some(Misuse::ChannelOfOwnForm)
    } else {
        None
    }
}

/// Whether the options ask for more than the first fault.
fn tells_faults(options: &ArgMatches<'_>) -> bool
    requires { AreTaken (rows_of (found_of options.now)) }
    ensures { result ≡ tells_faults (rows_of (found_of options.now)) }
{
    is_explained(options) || is_all(options) || most_of(options).is_some()
}

/// The first misuse of the options of `draw`.
fn draw_misuse(options: &ArgMatches<'_>) -> Option<Misuse>
    requires { AreTaken (rows_of (found_of options.now)) }
    ensures { result ≡ draw_misuse (rows_of (found_of options.now)) }
{
    if (from_of(options).is_some() || to_of(options).is_some()) && !is_svg(options) {
        Some(Misuse::PartOfWaves)
    } else {
        None
    }
}

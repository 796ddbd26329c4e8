//! The options of a subcommand, as `clap` found them.
//!
//! `clap` stands below; `misuse` and `job` stand above. A text that an option has is one that its parser takes.
ghost use Rattle.std.specs.Prelude.{◌≡◌, codes};
ghost use Rattle.clap.specs.Words.{found_of, rows_of};
ghost use Rattle.ddr_words.specs.Job.{AreTaken, channel_of, drampower_of, is_streamed, is_used, most_of, names_form, names_two_forms, number_in, start_of, trace_of};

use clap::ArgMatches;

/// Whether the options ask for captured commands to be checked.
pub(crate) fn is_streamed(options: &ArgMatches<'_>) -> bool
    requires { AreTaken (rows_of (found_of options.now)) }
    ensures { result ≡ is_streamed (rows_of (found_of options.now)) }
{
    is_stream(options)
        || is_of_dramsim3(options)
        || is_of_ramulator2(options)
        || start_of(options).is_some()
        || channel_of(options).is_some()
}

/// Whether the form of another simulator is named.
pub(crate) fn names_form(options: &ArgMatches<'_>) -> bool
    requires { AreTaken (rows_of (found_of options.now)) }
    ensures { result ≡ names_form (rows_of (found_of options.now)) }
{
    is_of_dramsim3(options) || is_of_ramulator2(options)
}

/// Whether the flag `--stream` was used.
pub(crate) fn is_stream(options: &ArgMatches<'_>) -> bool
    requires { AreTaken (rows_of (found_of options.now)) }
    ensures { result ≡ is_used (codes "stream") (rows_of (found_of options.now)) }
{
    options.get_flag("stream")
}

/// The cycle of the option `--start`, if that was used.
pub(crate) fn start_of(options: &ArgMatches<'_>) -> Option<u64>
    requires { AreTaken (rows_of (found_of options.now)) }
    ensures { result ≡ start_of (rows_of (found_of options.now)) }
{
    options.get_one::<u64>("start")
}

/// Whether the forms of both other simulators are named.
pub(crate) fn names_two_forms(options: &ArgMatches<'_>) -> bool
    requires { AreTaken (rows_of (found_of options.now)) }
    ensures { result ≡ names_two_forms (rows_of (found_of options.now)) }
{
    is_of_dramsim3(options) && is_of_ramulator2(options)
}

/// The channel of the option `--channel`, if that was used.
pub(crate) fn channel_of(options: &ArgMatches<'_>) -> Option<u32>
    requires { AreTaken (rows_of (found_of options.now)) }
    ensures { result ≡ channel_of (rows_of (found_of options.now)) }
{
    options.get_one::<u32>("channel")
}

/// Whether the flag `--svg` was used.
pub(crate) fn is_svg(options: &ArgMatches<'_>) -> bool
    requires { AreTaken (rows_of (found_of options.now)) }
    ensures { result ≡ is_used (codes "svg") (rows_of (found_of options.now)) }
{
    options.get_flag("svg")
}

/// The cycle of the option `--from`, if that was used.
pub(crate) fn from_of(options: &ArgMatches<'_>) -> Option<u64>
    requires { AreTaken (rows_of (found_of options.now)) }
    ensures { result ≡ number_in (codes "from") (rows_of (found_of options.now)) }
{
    options.get_one::<u64>("from")
}

/// The cycle of the option `--to`, if that was used.
pub(crate) fn to_of(options: &ArgMatches<'_>) -> Option<u64>
    requires { AreTaken (rows_of (found_of options.now)) }
    ensures { result ≡ number_in (codes "to") (rows_of (found_of options.now)) }
{
    options.get_one::<u64>("to")
}

/// Whether the flag `--progress` was used.
pub(crate) fn is_progress(options: &ArgMatches<'_>) -> bool
    requires { AreTaken (rows_of (found_of options.now)) }
    ensures { result ≡ is_used (codes "progress") (rows_of (found_of options.now)) }
{
    options.get_flag("progress")
}

/// Whether the flag `--dramsim3` was used.
pub(crate) fn is_of_dramsim3(options: &ArgMatches<'_>) -> bool
    requires { AreTaken (rows_of (found_of options.now)) }
    ensures { result ≡ is_used (codes "dramsim3") (rows_of (found_of options.now)) }
{
    options.get_flag("dramsim3")
}

/// Whether the flag `--ramulator2` was used.
pub(crate) fn is_of_ramulator2(options: &ArgMatches<'_>) -> bool
    requires { AreTaken (rows_of (found_of options.now)) }
    ensures { result ≡ is_used (codes "ramulator2") (rows_of (found_of options.now)) }
{
    options.get_flag("ramulator2")
}

/// Whether the flag `--spread` was used.
pub(crate) fn is_spread(options: &ArgMatches<'_>) -> bool
    requires { AreTaken (rows_of (found_of options.now)) }
    ensures { result ≡ is_used (codes "spread") (rows_of (found_of options.now)) }
{
    options.get_flag("spread")
}

/// Whether the flag `--wrap` was used.
pub(crate) fn is_wrapped(options: &ArgMatches<'_>) -> bool
    requires { AreTaken (rows_of (found_of options.now)) }
    ensures { result ≡ is_used (codes "wrap") (rows_of (found_of options.now)) }
{
    options.get_flag("wrap")
}

/// Whether the flag `--from-first` was used.
pub(crate) fn is_from_first(options: &ArgMatches<'_>) -> bool
    requires { AreTaken (rows_of (found_of options.now)) }
    ensures { result ≡ is_used (codes "from-first") (rows_of (found_of options.now)) }
{
    options.get_flag("from-first")
}

/// Whether the flag `--fair` was used.
pub(crate) fn is_fair(options: &ArgMatches<'_>) -> bool
    requires { AreTaken (rows_of (found_of options.now)) }
    ensures { result ≡ is_used (codes "fair") (rows_of (found_of options.now)) }
{
    options.get_flag("fair")
}

/// Whether the flag `--requests` was used.
pub(crate) fn is_of_requests(options: &ArgMatches<'_>) -> bool
    requires { AreTaken (rows_of (found_of options.now)) }
    ensures { result ≡ is_used (codes "requests") (rows_of (found_of options.now)) }
{
    options.get_flag("requests")
}

/// Whether the flag `--numbers` was used.
pub(crate) fn is_of_numbers(options: &ArgMatches<'_>) -> bool
    requires { AreTaken (rows_of (found_of options.now)) }
    ensures { result ≡ is_used (codes "numbers") (rows_of (found_of options.now)) }
{
    options.get_flag("numbers")
}

/// The number of the option `--skip`, if that was used.
pub(crate) fn skip_of(options: &ArgMatches<'_>) -> Option<u32>
    requires { AreTaken (rows_of (found_of options.now)) }
    ensures { result ≡ number_in (codes "skip") (rows_of (found_of options.now)) }
{
    options.get_one::<u32>("skip")
}

/// The picoseconds of the option `--tck`, if that was used.
pub(crate) fn clock_of(options: &ArgMatches<'_>) -> Option<u32>
    requires { AreTaken (rows_of (found_of options.now)) }
    ensures { result ≡ number_in (codes "tck") (rows_of (found_of options.now)) }
{
    options.get_one::<u32>("tck")
}

/// The cycles of the option `--every`, if that was used.
pub(crate) fn every_of(options: &ArgMatches<'_>) -> Option<u32>
    requires { AreTaken (rows_of (found_of options.now)) }
    ensures { result ≡ number_in (codes "every") (rows_of (found_of options.now)) }
{
    options.get_one::<u32>("every")
}

/// Whether the flag `--all` was used.
pub(crate) fn is_all(options: &ArgMatches<'_>) -> bool
    requires { AreTaken (rows_of (found_of options.now)) }
    ensures { result ≡ is_used (codes "all") (rows_of (found_of options.now)) }
{
    options.get_flag("all")
}

/// The number of the option `--most`, if that was used.
pub(crate) fn most_of(options: &ArgMatches<'_>) -> Option<u32>
    requires { AreTaken (rows_of (found_of options.now)) }
    ensures { result ≡ most_of (rows_of (found_of options.now)) }
{
    options.get_one::<u32>("most")
}

/// Whether the flag `--explain` was used.
pub(crate) fn is_explained(options: &ArgMatches<'_>) -> bool
    requires { AreTaken (rows_of (found_of options.now)) }
    ensures { result ≡ is_used (codes "explain") (rows_of (found_of options.now)) }
{
    options.get_flag("explain")
}

/// Whether the flag `--bound` was used.
pub(crate) fn is_of_bound(options: &ArgMatches<'_>) -> bool
    requires { AreTaken (rows_of (found_of options.now)) }
    ensures { result ≡ is_used (codes "bound") (rows_of (found_of options.now)) }
{
    options.get_flag("bound")
}

/// Whether the flag `--sample` was used.
pub(crate) fn is_sample(options: &ArgMatches<'_>) -> bool
    requires { AreTaken (rows_of (found_of options.now)) }
    ensures { result ≡ is_used (codes "sample") (rows_of (found_of options.now)) }
{
    options.get_flag("sample")
}

/// The channel of the option `--trace`, if that was used.
pub(crate) fn trace_of(options: &ArgMatches<'_>) -> Option<u32>
    requires { AreTaken (rows_of (found_of options.now)) }
    ensures { result ≡ trace_of (rows_of (found_of options.now)) }
{
    options.get_one::<u32>("trace")
}

/// The channel of the option `--drampower`, if that was used.
pub(crate) fn drampower_of(options: &ArgMatches<'_>) -> Option<u32>
    requires { AreTaken (rows_of (found_of options.now)) }
    ensures { result ≡ drampower_of (rows_of (found_of options.now)) }
{
    options.get_one::<u32>("drampower")
}

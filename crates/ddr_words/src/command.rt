//! The commands of the program.
//!
//! The types that the commands themselves take stand below, in `ddr_text`; `job` reads one off the command line, and the program
//! performs it.

use ddr_text::command::{Format, Reading, Told};

/// What the program is to do. Where `sample` is true, its configuration is the sample, and else the input has it.
#[derive(Clone, Copy, Debug, PartialEq, Eq)]
pub enum Job {
    /// Runs a script. Where `trace` names a channel, the trace of that channel is written in place of the replies.
    Sim {
        sample: bool,
        trace: Option<u32>,
    },
    /// Runs a script with a thread for each port and each channel.
    Run {
        sample: bool,
    },
    /// Replays a request stream, which is read so, and tells of it what is asked for.
    Replay {
        sample: bool,
        reading: Reading,
        /// Whether the first cycle of the stream is taken as cycle 0.
        from_first: bool,
        /// Whether the ports submit first in turn, and not port 0 always.
        fair: bool,
        told: Told,
        /// Whether a line on standard error tells how far it is, about each second.
        progress: bool,
    },
    /// Replays a request stream, which is read so, and tells numbers of the requests behind the first `skip` ones. `clock` is how many
    /// picoseconds a clock has, where that is known. Where `every` is there the numbers are those of each interval of so many cycles.
    Measure {
        sample: bool,
        reading: Reading,
        from_first: bool,
        fair: bool,
        skip: u32,
        clock: Option<u32>,
        every: Option<u32>,
        /// Whether a line on standard error tells how far it is, about each second.
        progress: bool,
    },
    /// Checks a trace.
    Check {
        sample: bool,
    },
    /// Checks a trace, and says what its first fault rests on.
    Explain {
        sample: bool,
    },
    /// Checks a trace, and tells all its faults, or the first `most` of them.
    All {
        sample: bool,
        most: Option<u32>,
    },
    /// Checks captured commands of each channel in one pass, from cycle `start` on, read in this form. Where `channel` names one,
    /// they are those of that channel alone.
    Stream {
        sample: bool,
        format: Format,
        start: u64,
        channel: Option<u32>,
    },
    /// Draws a trace.
    Draw {
        sample: bool,
        picture: Picture,
    },
    /// Says where addresses lie.
    Map {
        sample: bool,
    },
    /// Tells what is at fault in a configuration, and what is strange.
    Lint {
        sample: bool,
    },
    /// Tells how long a request takes at most, or what is at fault in a configuration.
    Bound {
        sample: bool,
    },
}

/// What a trace is drawn as.
#[derive(Clone, Copy, Debug, PartialEq, Eq)]
pub enum Picture {
    /// A value change dump (IEEE 1364), which a wave viewer shows.
    Waves,
    /// A timeline as SVG, of the commands from cycle `from` on and before cycle `to`; one that is not said bounds nothing.
    Lanes { from: Option<u64>, to: Option<u64> },
}

//! Command lines, and the jobs that they state.
use clap::error::ErrorKind;
use ddr_text::command::{Format, Reading, Told};
use ddr_words::command::{Job, Picture};
use ddr_words::job::{JobError, job};
use ddr_words::misuse::Misuse;
use std::alloc::{AllocError, Global};
use std::process::Abort;
use std::test::Fail;

/// The words of a command line, between spaces.
fn words_of(alloc: Global, line: &str) -> Result<Vec<&str>, AllocError> {
    let mut words = Vec::new(alloc);
    for word in line.split(' ') {
        words.push(word)?;
    }
    Ok(words)
}

/// That a command line states a job.
fn states(rt: &impl Abort, alloc: Global, line: &str, wanted: Job) -> Result<(), Fail> {
    let words = words_of(alloc, line)?;
    assert_eq!(rt; job(alloc, words.as_slice())?, wanted, "{line:?}");
    Ok(())
}

/// That a command line gives an error of this kind.
fn gives(rt: &impl Abort, alloc: Global, line: &str, kind: ErrorKind) -> Result<(), Fail> {
    let words = words_of(alloc, line)?;
    let given = match job(alloc, words.as_slice()) {
        Err(JobError::Words(error)) => Some(error.kind()),
        _ => None,
    };
    assert_eq!(rt; given, Some(kind), "{line:?}");
    Ok(())
}

/// That a command line has an option that would have no effect.
fn misuses(rt: &impl Abort, alloc: Global, line: &str, misuse: Misuse) -> Result<(), Fail> {
    let words = words_of(alloc, line)?;
    let given = match job(alloc, words.as_slice()) {
        Err(JobError::Misuse(misuse)) => Some(misuse),
        _ => None,
    };
    assert_eq!(rt; given, Some(misuse), "{line:?}");
    Ok(())
}

/// Command lines, and the jobs that they state.
const JOBS: &[(&str, Job)] = &[
    ("ddr run", Job::Run { sample: false }),
    ("ddr run --sample", Job::Run { sample: true }),
    ("ddr check", Job::Check { sample: false }),
    ("ddr check --sample", Job::Check { sample: true }),
    ("ddr check --explain", Job::Explain { sample: false }),
    (
        "ddr check --explain --sample",
        Job::Explain { sample: true },
    ),
    ("ddr map", Job::Map { sample: false }),
    ("ddr map --sample", Job::Map { sample: true }),
    ("ddr lint", Job::Lint { sample: false }),
    ("ddr lint --sample", Job::Lint { sample: true }),
    ("ddr lint --bound", Job::Bound { sample: false }),
    ("ddr lint --bound --sample", Job::Bound { sample: true }),
    ("ddr lint --sample --bound", Job::Bound { sample: true }),
    // The program may have another name.
    ("/bin/model map", Job::Map { sample: false }),
];

/// Command lines, whether each asks for the sample, and which trace.
const SIMS: &[(&str, bool, Option<u32>)] = &[
    ("ddr", true, None),
    ("ddr sim", false, None),
    ("ddr sim --sample", true, None),
    ("ddr sim --trace 1", false, Some(1)),
    ("ddr sim --trace 0 --sample", true, Some(0)),
    (
        "ddr sim --sample --trace=4294967295",
        true,
        Some(4_294_967_295),
    ),
];

#[test]
fn sims(rt: HostRuntime) -> Result<(), Fail> {
    for (line, sample, trace) in SIMS {
        let wanted = Job::Sim {
            sample: *sample,
            trace: *trace,
        };
        states(&rt, rt.alloc(), line, wanted)?;
    }
    Ok(())
}

#[test]
fn no_words(rt: HostRuntime) -> Result<(), Fail> {
    let sample = Job::Sim {
        sample: true,
        trace: None,
    };
    assert_eq!(rt; job(rt.alloc(), [].as_slice())?, sample);
    Ok(())
}

#[test]
fn subcommands(rt: HostRuntime) -> Result<(), Fail> {
    for (line, wanted) in JOBS {
        states(&rt, rt.alloc(), line, *wanted)?;
    }
    Ok(())
}

/// Command lines, and the kinds of their errors.
const ERRORS: &[(&str, ErrorKind)] = &[
    ("ddr --sample", ErrorKind::UnknownArgument),
    ("ddr map --other", ErrorKind::UnknownArgument),
    ("ddr map -s", ErrorKind::UnknownArgument),
    ("ddr map more", ErrorKind::UnknownArgument),
    ("ddr check --trace 0", ErrorKind::UnknownArgument),
    ("ddr map --trace=0", ErrorKind::UnknownArgument),
    ("ddr run --trace 1", ErrorKind::UnknownArgument),
    ("ddr lint --trace 1", ErrorKind::UnknownArgument),
    ("ddr replay --most 1", ErrorKind::UnknownArgument),
    ("ddr sim --wrap", ErrorKind::UnknownArgument),
    ("ddr check --requests", ErrorKind::UnknownArgument),
    ("ddr check --progress", ErrorKind::UnknownArgument),
    ("ddr check --svg", ErrorKind::UnknownArgument),
    ("ddr replay --stream", ErrorKind::UnknownArgument),
    ("ddr draw --start 1", ErrorKind::UnknownArgument),
    ("ddr replay --channel 1", ErrorKind::UnknownArgument),
    ("ddr check --numbers", ErrorKind::UnknownArgument),
    ("ddr sim --from-first", ErrorKind::UnknownArgument),
    ("ddr sim --fair", ErrorKind::UnknownArgument),
    ("ddr sim --skip 1", ErrorKind::UnknownArgument),
    ("ddr draw --tck 1", ErrorKind::UnknownArgument),
    ("ddr sim --drampower 0", ErrorKind::UnknownArgument),
    ("ddr trace", ErrorKind::InvalidSubcommand),
    ("ddr SIM", ErrorKind::InvalidSubcommand),
    ("ddr ", ErrorKind::InvalidSubcommand),
    // Values.
    ("ddr sim --trace x", ErrorKind::ValueValidation),
    ("ddr sim --trace=-1", ErrorKind::ValueValidation),
    ("ddr sim --trace=4294967296", ErrorKind::ValueValidation),
    ("ddr sim --trace", ErrorKind::InvalidValue),
    ("ddr replay --trace x", ErrorKind::ValueValidation),
    ("ddr replay --drampower x", ErrorKind::ValueValidation),
    (
        "ddr replay --drampower 4294967296",
        ErrorKind::ValueValidation,
    ),
    ("ddr replay --drampower", ErrorKind::InvalidValue),
    ("ddr replay --numbers --skip=-1", ErrorKind::ValueValidation),
    (
        "ddr replay --numbers --tck 4294967296",
        ErrorKind::ValueValidation,
    ),
    ("ddr replay --numbers --skip", ErrorKind::InvalidValue),
    ("ddr check --most x", ErrorKind::ValueValidation),
    ("ddr check --all --most", ErrorKind::InvalidValue),
    ("ddr check --start x", ErrorKind::ValueValidation),
    ("ddr check --start=-1", ErrorKind::ValueValidation),
    (
        "ddr check --start 18446744073709551616",
        ErrorKind::ValueValidation,
    ),
    ("ddr check --channel x", ErrorKind::ValueValidation),
    ("ddr check --channel 4294967296", ErrorKind::ValueValidation),
    ("ddr draw --from 0x1", ErrorKind::ValueValidation),
    ("ddr draw --svg --to", ErrorKind::InvalidValue),
    ("ddr sim --all", ErrorKind::UnknownArgument),
    ("ddr check --bound", ErrorKind::UnknownArgument),
    ("ddr lint --explain", ErrorKind::UnknownArgument),
    ("ddr lint --bound 9", ErrorKind::UnknownArgument),
    ("ddr lint --bound=true", ErrorKind::TooManyValues),
    ("ddr lint --bound --bound", ErrorKind::ArgumentConflict),
    ("ddr sim --sample=true", ErrorKind::TooManyValues),
    ("ddr map --sample --sample", ErrorKind::ArgumentConflict),
    // Requests for help.
    ("ddr --help", ErrorKind::DisplayHelp),
    ("ddr -h", ErrorKind::DisplayHelp),
    ("ddr sim --help", ErrorKind::DisplayHelp),
];

const OWN: Reading = Reading {
    format: Format::Own,
    spread: false,
    wrap: false,
};

/// Words behind `ddr replay`, how they say that a stream is read, and what they ask for.
const REPLAYS: &[(&str, Reading, Told)] = &[
    ("--sample", OWN, Told::Statistics),
    (
        "--sample --dramsim3",
        Reading {
            format: Format::Dramsim3,
            ..OWN
        },
        Told::Statistics,
    ),
    (
        "--ramulator2 --sample --spread",
        Reading {
            format: Format::Ramulator2,
            spread: true,
            wrap: false,
        },
        Told::Statistics,
    ),
    (
        "--dramsim3 --wrap --sample --requests",
        Reading {
            format: Format::Dramsim3,
            spread: false,
            wrap: true,
        },
        Told::Requests,
    ),
    ("--trace 3 --sample", OWN, Told::Trace { channel: 3 }),
    (
        "--drampower 3 --sample",
        OWN,
        Told::Drampower { channel: 3 },
    ),
    (
        "--ramulator2 --sample --drampower=4294967295 --spread",
        Reading {
            format: Format::Ramulator2,
            spread: true,
            wrap: false,
        },
        Told::Drampower {
            channel: 4_294_967_295,
        },
    ),
    (
        "--sample --spread --wrap --trace=0 --dramsim3",
        Reading {
            format: Format::Dramsim3,
            spread: true,
            wrap: true,
        },
        Told::Trace { channel: 0 },
    ),
];

#[test]
fn replays(rt: HostRuntime) -> Result<(), Fail> {
    let alloc = rt.alloc();
    for (words, reading, told) in REPLAYS {
        let wanted = Job::Replay {
            sample: true,
            reading: *reading,
            from_first: false,
            fair: false,
            told: *told,
            progress: false,
        };
        let line = format!(in alloc; "ddr replay {words}")?;
        states(&rt, alloc, line.as_str(), wanted)?;
    }
    let shifted = Job::Replay {
        sample: false,
        reading: OWN,
        from_first: true,
        fair: false,
        told: Told::Requests,
        progress: false,
    };
    states(&rt, alloc, "ddr replay --requests --from-first", shifted)?;
    let in_turn = Job::Replay {
        sample: false,
        reading: OWN,
        from_first: false,
        fair: true,
        told: Told::Statistics,
        progress: false,
    };
    states(&rt, alloc, "ddr replay --fair", in_turn)?;
    let plain = Job::Replay {
        sample: false,
        reading: OWN,
        from_first: false,
        fair: false,
        told: Told::Statistics,
        progress: false,
    };
    states(&rt, alloc, "ddr replay", plain)
}

/// Words behind `ddr replay --sample --numbers`, how many requests are left out, how long a clock takes, and how many cycles an interval
/// has.
const NUMBERS: &[(&str, u32, Option<u32>, Option<u32>)] = &[
    ("", 0, None, None),
    (" --skip 0", 0, None, None),
    (" --skip=4294967295", 4_294_967_295, None, None),
    (" --tck 833", 0, Some(833), None),
    (" --tck=1 --skip 12", 12, Some(1), None),
    (" --every 1", 0, None, Some(1)),
    (" --every=4294967295 --skip 3", 3, None, Some(4_294_967_295)),
];

#[test]
fn numbers(rt: HostRuntime) -> Result<(), Fail> {
    let alloc = rt.alloc();
    for (words, skip, clock, every) in NUMBERS {
        let (skip, clock, every) = (*skip, *clock, *every);
        let wanted = Job::Measure {
            sample: true,
            reading: OWN,
            from_first: false,
            fair: false,
            skip,
            clock,
            every,
            progress: false,
        };
        let line = format!(in alloc; "ddr replay --sample --numbers{words}")?;
        states(&rt, alloc, line.as_str(), wanted)?;
    }
    let watched = Job::Measure {
        sample: false,
        reading: Reading {
            format: Format::Dramsim3,
            spread: true,
            wrap: true,
        },
        from_first: true,
        fair: true,
        skip: 3,
        clock: Some(625),
        every: None,
        progress: true,
    };
    let line =
        "ddr replay --tck 625 --dramsim3 --fair --spread --progress --from-first --wrap --skip 3 --numbers";
    states(&rt, alloc, line, watched)
}

#[test]
fn progress(rt: HostRuntime) -> Result<(), Fail> {
    let told = Job::Replay {
        sample: false,
        reading: OWN,
        from_first: false,
        fair: false,
        told: Told::Requests,
        progress: true,
    };
    states(&rt, rt.alloc(), "ddr replay --progress --requests", told)
}

/// Words behind `ddr check` that ask for captured commands, their format, their first cycle, and the channel whose they are. Each of the
/// five asks for that by itself.
const STREAMS: &[(&str, Format, u64, Option<u32>)] = &[
    ("--stream", Format::Own, 0, None),
    ("--dramsim3", Format::Dramsim3, 0, None),
    ("--ramulator2", Format::Ramulator2, 0, None),
    ("--stream --dramsim3", Format::Dramsim3, 0, None),
    ("--start 12", Format::Own, 12, None),
    ("--start=0", Format::Own, 0, None),
    ("--start 007", Format::Own, 7, None),
    (
        "--ramulator2 --start=18446744073709551615",
        Format::Ramulator2,
        18_446_744_073_709_551_615,
        None,
    ),
    ("--channel 0 --dramsim3", Format::Dramsim3, 0, Some(0)),
    (
        "--ramulator2 --start 3 --channel=4294967295",
        Format::Ramulator2,
        3,
        Some(4_294_967_295),
    ),
];

#[test]
fn streams(rt: HostRuntime) -> Result<(), Fail> {
    let alloc = rt.alloc();
    for (words, format, start, channel) in STREAMS {
        let (format, start, channel) = (*format, *start, *channel);
        let line = format!(in alloc; "ddr check {words}")?;
        let wanted = Job::Stream {
            sample: false,
            format,
            start,
            channel,
        };
        states(&rt, alloc, line.as_str(), wanted)?;
        let line = format!(in alloc; "ddr check {words} --sample")?;
        let wanted = Job::Stream {
            sample: true,
            format,
            start,
            channel,
        };
        states(&rt, alloc, line.as_str(), wanted)?;
    }
    Ok(())
}

/// Words behind `ddr draw`, and what is drawn.
const PICTURES: &[(&str, Picture)] = &[
    ("--sample", Picture::Waves),
    (
        "--sample --svg",
        Picture::Lanes {
            from: None,
            to: None,
        },
    ),
    (
        "--from 100 --svg --sample",
        Picture::Lanes {
            from: Some(100),
            to: None,
        },
    ),
    (
        "--svg --to=18446744073709551615 --from=0 --sample",
        Picture::Lanes {
            from: Some(0),
            to: Some(18_446_744_073_709_551_615),
        },
    ),
];

#[test]
fn pictures(rt: HostRuntime) -> Result<(), Fail> {
    let alloc = rt.alloc();
    for (words, picture) in PICTURES {
        let wanted = Job::Draw {
            sample: true,
            picture: *picture,
        };
        let line = format!(in alloc; "ddr draw {words}")?;
        states(&rt, alloc, line.as_str(), wanted)?;
    }
    let plain = Job::Draw {
        sample: false,
        picture: Picture::Waves,
    };
    states(&rt, alloc, "ddr draw", plain)
}

/// Words behind `ddr check`, and how many faults they ask for. Beside `--all` `--explain` adds nothing, and `--most` asks for it.
const ALL_FAULTS: &[(&str, Option<u32>)] = &[
    ("--all", None),
    ("--explain --all", None),
    ("--all --most 3", Some(3)),
    ("--most 0 --all", Some(0)),
    ("--most=4294967295", Some(4_294_967_295)),
    ("--explain --most 1", Some(1)),
];

#[test]
fn all_faults(rt: HostRuntime) -> Result<(), Fail> {
    let alloc = rt.alloc();
    for (words, most) in ALL_FAULTS {
        let most = *most;
        let line = format!(in alloc; "ddr check {words}")?;
        let wanted = Job::All {
            sample: false,
            most,
        };
        states(&rt, alloc, line.as_str(), wanted)?;
        let line = format!(in alloc; "ddr check --sample {words}")?;
        let wanted = Job::All { sample: true, most };
        states(&rt, alloc, line.as_str(), wanted)?;
    }
    Ok(())
}

/// Command lines with an option that would have no effect, the first one of each.
const MISUSES: &[(&str, Misuse)] = &[
    ("ddr replay --dramsim3 --ramulator2", Misuse::TwoForms),
    (
        "ddr replay --ramulator2 --trace 0 --dramsim3 --requests",
        Misuse::TwoForms,
    ),
    ("ddr replay --sample --spread", Misuse::SpreadOfOwnForm),
    (
        "ddr replay --spread --wrap --trace 0 --requests",
        Misuse::SpreadOfOwnForm,
    ),
    (
        "ddr replay --requests --trace 1 --ramulator2",
        Misuse::RequestsBesideTrace,
    ),
    (
        "ddr replay --from-first --ramulator2",
        Misuse::FirstOfNoCycles,
    ),
    (
        "ddr replay --ramulator2 --requests --trace 0 --from-first",
        Misuse::FirstOfNoCycles,
    ),
    (
        "ddr replay --drampower 0 --requests",
        Misuse::DrampowerBesideOthers,
    ),
    (
        "ddr replay --trace 1 --sample --drampower 1",
        Misuse::DrampowerBesideOthers,
    ),
    (
        "ddr replay --drampower 0 --trace 0 --requests",
        Misuse::RequestsBesideTrace,
    ),
    (
        "ddr replay --numbers --drampower 0 --trace 0",
        Misuse::DrampowerBesideOthers,
    ),
    (
        "ddr replay --numbers --drampower 0",
        Misuse::NumbersBesideOthers,
    ),
    (
        "ddr replay --numbers --requests",
        Misuse::NumbersBesideOthers,
    ),
    (
        "ddr replay --trace 0 --tck 0 --numbers",
        Misuse::NumbersBesideOthers,
    ),
    (
        "ddr replay --numbers --requests --trace 0",
        Misuse::RequestsBesideTrace,
    ),
    ("ddr replay --skip 1", Misuse::PartOfNumbers),
    ("ddr replay --drampower 0 --skip 1", Misuse::PartOfNumbers),
    ("ddr replay --requests --tck 0", Misuse::PartOfNumbers),
    ("ddr replay --every 7", Misuse::PartOfNumbers),
    ("ddr replay --trace 1 --every 0", Misuse::PartOfNumbers),
    ("ddr replay --numbers --every 0", Misuse::IntervalOfNoCycle),
    (
        "ddr replay --numbers --every 0 --tck 5",
        Misuse::IntervalOfNoCycle,
    ),
    (
        "ddr replay --numbers --every 0 --tck 0",
        Misuse::ClockOfNoTime,
    ),
    (
        "ddr replay --numbers --tck 1 --every 1",
        Misuse::ClockOfIntervals,
    ),
    ("ddr replay --numbers --tck 0", Misuse::ClockOfNoTime),
    ("ddr check --dramsim3 --ramulator2 --all", Misuse::TwoForms),
    ("ddr check --stream --explain", Misuse::FaultsOfCapture),
    ("ddr check --all --ramulator2", Misuse::FaultsOfCapture),
    ("ddr check --most 3 --start 0", Misuse::FaultsOfCapture),
    ("ddr check --most=0 --dramsim3", Misuse::FaultsOfCapture),
    ("ddr check --channel 1 --explain", Misuse::FaultsOfCapture),
    ("ddr check --channel 0", Misuse::ChannelOfOwnForm),
    (
        "ddr check --sample --stream --start 5 --channel 1",
        Misuse::ChannelOfOwnForm,
    ),
    ("ddr draw --from 1 --sample --to 9", Misuse::PartOfWaves),
    ("ddr draw --from 0", Misuse::PartOfWaves),
    ("ddr draw --to=7", Misuse::PartOfWaves),
];

#[test]
fn misused(rt: HostRuntime) -> Result<(), Fail> {
    for (line, misuse) in MISUSES {
        misuses(&rt, rt.alloc(), line, *misuse)?;
    }
    Ok(())
}

#[test]
fn errors(rt: HostRuntime) -> Result<(), Fail> {
    for (line, kind) in ERRORS {
        gives(&rt, rt.alloc(), line, *kind)?;
    }
    Ok(())
}

const BAD_CHANNELS: &[&str] = &["x", "", "-1", "1.0", "0x1", " 1", "4294967296"];

#[test]
fn bad_channels(rt: HostRuntime) {
    for channel in BAD_CHANNELS {
        let words = ["ddr", "sim", "--sample", "--trace", *channel];
        let read = job(rt.alloc(), words.as_slice());
        assert!(rt; read.is_err(), "{channel:?}");
    }
}

/// Command lines, and the first lines of the texts of their errors.
const TEXTS: &[(&str, &str)] = &[
    (
        "ddr sim --trace=x",
        "error: invalid value 'x' for '--trace <CHANNEL>': invalid digit found in string",
    ),
    (
        "ddr map --trace=0",
        "error: unexpected argument '--trace' found",
    ),
    (
        "ddr erase --sample",
        "error: unrecognized subcommand 'erase'",
    ),
];

/// That a command line gives an error whose text begins with this line.
fn says(rt: &impl Abort, alloc: Global, line: &str, text: &str) -> Result<(), Fail> {
    let words = words_of(alloc, line)?;
    let Err(JobError::Words(error)) = job(alloc, words.as_slice()) else {
        return Err(Fail::new("no error"));
    };
    let whole = error.to_string(alloc)?;
    assert_eq!(rt; whole.as_str().lines().next(), Some(text), "{line:?}");
    Ok(())
}

#[test]
fn texts(rt: HostRuntime) -> Result<(), Fail> {
    for (line, text) in TEXTS {
        says(&rt, rt.alloc(), line, text)?;
    }
    Ok(())
}

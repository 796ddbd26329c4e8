//! The two versions of a configuration's text: which keys and which words each has.
use super::{MAP, refusal, refusal_with};
use ddr_samples::sample::with_lines;
use ddr_timing::config::Config;
use ddr_timing::error::ConfigError;
use ddr_timing::geometry::Digit;
use ddr_timing::key::Key;
use ddr_timing::profile::PROFILE_S2;
use std::alloc::Global;
use std::test::Fail;

/// Profile S2 with other lines, where it is accepted.
fn second(alloc: Global, lines: &[(&str, &str)]) -> Option<Config> {
    match with_lines(alloc, PROFILE_S2, lines) {
        Ok(text) => Config::read(alloc, text.as_str()).ok(),
        Err(_) => None,
    }
}

#[test]
fn reads_profile_s2(rt: HostRuntime) -> Result<(), Fail> {
    let config = Config::read(rt.alloc(), PROFILE_S2)?;
    let g = config.geometry;
    assert_eq!(rt;
        [g.version, g.channels, g.ranks, g.groups, g.rows, g.columns],
        [2, 2, 2, 4, 16, 64]
    );
    assert_eq!(rt; g.map, MAP);
    assert!(rt; !config.limits.closed);
    let t = config.timing;
    assert_eq!(rt; [t.cl, t.refi, t.postpone, t.rtrs], [4, 200, 2, 2]);
    Ok(())
}

/// The values at the ends of their ranges: ranks, RTRS and whether rows are closed.
const ENDS: [(&str, &str, &str, u32, u32, bool); 2] = [
    ("ranks = 1", "rtrs = 1", "closed = false", 1, 1, false),
    ("ranks = 2", "rtrs = 65535", "closed = true", 2, 65535, true),
];

#[test]
fn takes_the_new_values(rt: HostRuntime) -> Result<(), Fail> {
    for (ranks, rtrs, closed, want_ranks, want_rtrs, want_closed) in ENDS {
        let lines = [("ranks", ranks), ("rtrs", rtrs), ("closed", closed)];
        let config = second(rt.alloc(), &lines).ok_or("refused")?;
        let got = [config.geometry.ranks, config.timing.rtrs];
        assert_eq!(rt; got, [want_ranks, want_rtrs]);
        assert_eq!(rt; config.limits.closed, want_closed);
    }
    Ok(())
}

/// The word `rank` at each place, and the digits.
const ORDERS: [(&str, [Digit; 6]); 6] = [
    (
        "map = 'rank column group bank row channel'",
        [
            Digit::Rank,
            Digit::Column,
            Digit::Group,
            Digit::Bank,
            Digit::Row,
            Digit::Channel,
        ],
    ),
    (
        "map = 'column rank group bank row channel'",
        [
            Digit::Column,
            Digit::Rank,
            Digit::Group,
            Digit::Bank,
            Digit::Row,
            Digit::Channel,
        ],
    ),
    (
        "map = 'row column rank bank channel group'",
        [
            Digit::Row,
            Digit::Column,
            Digit::Rank,
            Digit::Bank,
            Digit::Channel,
            Digit::Group,
        ],
    ),
    (
        "map = 'column group bank rank row channel'",
        [
            Digit::Column,
            Digit::Group,
            Digit::Bank,
            Digit::Rank,
            Digit::Row,
            Digit::Channel,
        ],
    ),
    (
        "map = 'channel group bank row rank column'",
        [
            Digit::Channel,
            Digit::Group,
            Digit::Bank,
            Digit::Row,
            Digit::Rank,
            Digit::Column,
        ],
    ),
    (
        "map = 'channel group bank column row rank'",
        [
            Digit::Channel,
            Digit::Group,
            Digit::Bank,
            Digit::Column,
            Digit::Row,
            Digit::Rank,
        ],
    ),
];

#[test]
fn takes_the_rank_at_any_place(rt: HostRuntime) -> Result<(), Fail> {
    for (line, order) in ORDERS {
        let config = second(rt.alloc(), &[("map", line)]).ok_or("refused")?;
        assert_eq!(rt; config.geometry.map, order, "{line}");
    }
    Ok(())
}

#[test]
fn each_key_of_version_2_is_wanted(rt: HostRuntime) -> Result<(), Fail> {
    let alloc = rt.alloc();
    for key in Key::all(2) {
        let want = Some(ConfigError::Missing { key: *key });
        let told = refusal_with(alloc, PROFILE_S2, &[(key.name(), "")])?;
        assert_eq!(rt; told, want, "without {key}");
    }
    Ok(())
}

/// The first lines of profile S2 alone: the key of the next line is missing.
#[test]
fn a_text_of_version_2_that_is_cut_off_misses_the_next_key(rt: HostRuntime) -> Result<(), Fail> {
    let alloc = rt.alloc();
    let mut text = String::new(alloc);
    for (line, key) in PROFILE_S2.lines().zip(Key::all(2)) {
        let told = Config::read(alloc, text.as_str()).err();
        let want = Some(ConfigError::Missing { key: *key });
        assert_eq!(rt; told, want, "before {line}");
        text.push_str(line)?;
        text.push('\n')?;
    }
    assert!(rt; Config::read(alloc, text.as_str()).is_ok());
    Ok(())
}

/// Lines in the place of those of profile S2, with the first refusal.
const SECOND: &[(&[(&str, &str)], ConfigError)] = &[
    (&[("rtrs", "rtrs = ")], ConfigError::Syntax),
    (
        &[("closed", ""), ("postpone", "")],
        ConfigError::Missing { key: Key::Postpone },
    ),
    (
        &[("rtrs", ""), ("closed", "speed = 1")],
        ConfigError::Missing { key: Key::Closed },
    ),
    (
        &[("rtrs", ""), ("ranks", "ranks = 3")],
        ConfigError::Missing { key: Key::Rtrs },
    ),
    (
        &[("ranks", "ranks = 3\nspeed = 1")],
        ConfigError::UnknownKey,
    ),
    (
        &[("ranks", "ranks = 0")],
        ConfigError::Range { key: Key::Ranks },
    ),
    (
        &[("ranks", "ranks = 3")],
        ConfigError::Range { key: Key::Ranks },
    ),
    (
        &[("rtrs", "rtrs = 0")],
        ConfigError::Range { key: Key::Rtrs },
    ),
    (
        &[("rtrs", "rtrs = 65536")],
        ConfigError::Range { key: Key::Rtrs },
    ),
    (
        &[("closed", "closed = 0")],
        ConfigError::Range { key: Key::Closed },
    ),
    (
        &[("closed", "closed = 'true'")],
        ConfigError::Range { key: Key::Closed },
    ),
    (
        &[
            ("rtrs", "rtrs = 0"),
            ("closed", "closed = 1"),
            ("ranks", "ranks = 3"),
        ],
        ConfigError::Range { key: Key::Closed },
    ),
    (
        &[("rtrs", "rtrs = 0"), ("postpone", "postpone = 8")],
        ConfigError::Range { key: Key::Postpone },
    ),
    (
        &[("map", "map = 'column group bank row channel'")],
        ConfigError::Range { key: Key::Map },
    ),
    (
        &[("map", "map = 'column group bank row rank'")],
        ConfigError::Range { key: Key::Map },
    ),
    (
        &[("map", "map = 'column group bank row rank rank'")],
        ConfigError::Range { key: Key::Map },
    ),
    (
        &[("map", "map = 'column group bank row channel rank rank'")],
        ConfigError::Range { key: Key::Map },
    ),
    (
        &[("rows", "rows = 24"), ("rtrs", "rtrs = 0")],
        ConfigError::Range { key: Key::Rtrs },
    ),
    (
        &[("rows", "rows = 24"), ("low", "low = 6")],
        ConfigError::NotPowerOfTwo { key: Key::Rows },
    ),
    (
        &[("low", "low = 6"), ("closed", "closed = true")],
        ConfigError::Relation { n: 6 },
    ),
    // Checked with the keys of version 1.
    (&[("version", "version = 1")], ConfigError::UnknownKey),
    (&[("version", "version = 3")], ConfigError::UnknownKey),
    (&[("version", "version = '2'")], ConfigError::UnknownKey),
    (&[("version", "version = 2.0")], ConfigError::UnknownKey),
];

#[test]
fn the_first_refusal_of_version_2_is_answered(rt: HostRuntime) -> Result<(), Fail> {
    for (lines, error) in SECOND {
        let told = refusal_with(rt.alloc(), PROFILE_S2, lines)?;
        assert_eq!(rt; told, Some(*error), "{lines:?}");
    }
    Ok(())
}

/// The keys that version 2 has beside those of version 1, behind the last line of profile S.
const MORE: (&str, &str) = (
    "postpone",
    "postpone = 2\nclosed = false\nranks = 2\nrtrs = 2",
);

/// Lines in the place of those of profile S, with the first refusal.
const FIRST: &[(&[(&str, &str)], ConfigError)] = &[
    (
        &[("version", "version = 2")],
        ConfigError::Missing { key: Key::Closed },
    ),
    (
        &[("version", "version = 2"), ("cap", "cap = 0")],
        ConfigError::Missing { key: Key::Closed },
    ),
    (
        &[("version", "version = 2"), ("cap", "")],
        ConfigError::Missing { key: Key::Cap },
    ),
    (
        &[("version", "version = 2"), MORE],
        ConfigError::Range { key: Key::Map },
    ),
    (&[MORE], ConfigError::UnknownKey),
    (
        &[("postpone", "postpone = 2\nclosed = false")],
        ConfigError::UnknownKey,
    ),
    (
        &[("postpone", "postpone = 2\nranks = 1")],
        ConfigError::UnknownKey,
    ),
    (
        &[("postpone", "postpone = 2\nrtrs = 1")],
        ConfigError::UnknownKey,
    ),
    (
        &[("map", "map = 'column group bank row channel rank'")],
        ConfigError::Range { key: Key::Map },
    ),
    (
        &[("version", "version = 0")],
        ConfigError::Range { key: Key::Version },
    ),
    (
        &[("version", "version = 3"), ("cap", "cap = 0")],
        ConfigError::Range { key: Key::Version },
    ),
    (
        &[("version", "version = -2")],
        ConfigError::Range { key: Key::Version },
    ),
    (
        &[("version", "version = 4294967298")],
        ConfigError::Range { key: Key::Version },
    ),
    (
        &[("version", "version = '2'")],
        ConfigError::Range { key: Key::Version },
    ),
    (
        &[("version", "version = true")],
        ConfigError::Range { key: Key::Version },
    ),
];

#[test]
fn a_text_is_checked_by_its_version(rt: HostRuntime) -> Result<(), Fail> {
    for (lines, error) in FIRST {
        let told = refusal(rt.alloc(), lines)?;
        assert_eq!(rt; told, Some(*error), "{lines:?}");
    }
    Ok(())
}

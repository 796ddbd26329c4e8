//! The refusals that are not of one number's range.
use super::refusal;
use ddr_timing::config::Config;
use ddr_timing::error::ConfigError;
use ddr_timing::key::Key;
use ddr_timing::profile::PROFILE_S;
use std::test::Fail;

#[test]
fn each_key_is_wanted(rt: HostRuntime) -> Result<(), Fail> {
    let alloc = rt.alloc();
    for key in Key::all(1) {
        let want = Some(ConfigError::Missing { key: *key });
        assert_eq!(rt; refusal(alloc, &[(key.name(), "")])?, want, "without {key}");
    }
    Ok(())
}

/// The first lines of profile S alone: the key of the next line is missing.
#[test]
fn a_text_that_is_cut_off_misses_the_next_key(rt: HostRuntime) -> Result<(), Fail> {
    let alloc = rt.alloc();
    let mut text = String::new(alloc);
    for (line, key) in PROFILE_S.lines().zip(Key::all(1)) {
        let answer = Config::read(alloc, text.as_str()).err();
        assert_eq!(rt;
            answer,
            Some(ConfigError::Missing { key: *key }),
            "before {line}"
        );
        text.push_str(line)?;
        text.push('\n')?;
    }
    assert!(rt; Config::read(alloc, text.as_str()).is_ok());
    Ok(())
}

/// Lines in the place of those of profile S, and the relation that they break.
const BROKEN: &[(&[(&str, &str)], u32)] = &[
    (&[("ccd_s", "ccd_s = 3")], 1),
    (&[("ccd_l", "ccd_l = 3")], 2),
    (&[("rrd_l", "rrd_l = 1")], 3),
    (&[("rtw", "rtw = 4")], 4),
    (&[("rtw", "rtw = 3"), ("cwl", "cwl = 5")], 4),
    (&[("refi", "refi = 23")], 5),
    (&[("refi", "refi = 24"), ("rfc", "rfc = 21")], 5),
    (&[("refi", "refi = 24"), ("ras", "ras = 17")], 5),
    (&[("refi", "refi = 24"), ("wr", "wr = 10")], 5),
    (&[("refi", "refi = 24"), ("cwl", "cwl = 8")], 5),
    (&[("refi", "refi = 24"), ("rtp", "rtp = 17")], 5),
    (&[("refi", "refi = 24"), ("rp", "rp = 9")], 5),
    (&[("low", "low = 6")], 6),
    (&[("high", "high = 9")], 7),
    (&[("ccd_s", "ccd_s = 3"), ("refi", "refi = 23")], 1),
];

#[test]
fn each_relation_is_tested(rt: HostRuntime) -> Result<(), Fail> {
    for (lines, n) in BROKEN {
        let told = refusal(rt.alloc(), lines)?;
        assert_eq!(rt; told, Some(ConfigError::Relation { n: *n }), "{lines:?}");
    }
    Ok(())
}

/// Lines that break none: in each the relation just holds.
const KEPT: &[&[(&str, &str)]] = &[
    &[("ccd_l", "ccd_l = 4")],
    &[("rrd_l", "rrd_l = 2")],
    &[("rtw", "rtw = 5")],
    &[("rtw", "rtw = 4"), ("cwl", "cwl = 5")],
    &[("refi", "refi = 24")],
    &[("refi", "refi = 24"), ("ras", "ras = 16")],
    &[("refi", "refi = 24"), ("wr", "wr = 9")],
    &[("refi", "refi = 24"), ("rtp", "rtp = 16")],
    &[("refi", "refi = 24"), ("rp", "rp = 8")],
    &[("low", "low = 5")],
    &[("high", "high = 8")],
];

#[test]
fn what_just_fits_is_accepted(rt: HostRuntime) -> Result<(), Fail> {
    for lines in KEPT {
        assert_eq!(rt; refusal(rt.alloc(), lines)?, None, "{lines:?}");
    }
    Ok(())
}

/// Lines whose value is of another type than their key takes, or no order.
const OTHERS: &[(&str, &str, Key)] = &[
    ("version", "version = \"1\"", Key::Version),
    ("channels", "channels = 2.0", Key::Channels),
    ("ports", "ports = true", Key::Ports),
    ("window", "window = [4]", Key::Window),
    ("intake", "intake = { n = 8 }", Key::Intake),
    ("groups", "groups = 1979-05-27", Key::Groups),
    ("rows", "rows = '16'", Key::Rows),
    ("map", "map = 5", Key::Map),
    ("map", "map = ''", Key::Map),
    ("map", "map = 'column group bank row'", Key::Map),
    ("map", "map = 'column group bank row row'", Key::Map),
    ("map", "map = 'column group bank row channel row'", Key::Map),
    ("map", "map = 'column group bank row rank'", Key::Map),
    ("map", "map = 'column  group bank row channel'", Key::Map),
    ("map", "map = ' column group bank row channel'", Key::Map),
    ("map", "map = 'column group bank row channel '", Key::Map),
    ("map", "map = 'column\tgroup bank row channel'", Key::Map),
    ("map", "map = 'Column group bank row channel'", Key::Map),
    ("bank_xor", "bank_xor = 0", Key::BankXor),
    ("bank_xor", "bank_xor = 'false'", Key::BankXor),
];

#[test]
fn other_types_and_orders_are_out_of_range(rt: HostRuntime) -> Result<(), Fail> {
    for (name, line, key) in OTHERS {
        let told = refusal(rt.alloc(), &[(*name, *line)])?;
        assert_eq!(rt; told, Some(ConfigError::Range { key: *key }), "{line}");
    }
    Ok(())
}

/// Lines at which several refusals apply, or a syntax that is none, with the refusal that comes first.
const FIRST: &[(&[(&str, &str)], ConfigError)] = &[
    (&[("cap", "cap = "), ("refi", "")], ConfigError::Syntax),
    (
        &[("cap", "cap = 1000\ncap = 1000"), ("refi", "")],
        ConfigError::Syntax,
    ),
    (
        &[("cap", "cap = 1000 \0"), ("refi", "")],
        ConfigError::Syntax,
    ),
    (
        &[("refi", ""), ("cap", "speed = 1")],
        ConfigError::Missing { key: Key::Cap },
    ),
    (
        &[("cap", "cap = 0\nspeed = 1"), ("refi", "refi = 0")],
        ConfigError::UnknownKey,
    ),
    (
        &[("postpone", "postpone = 2\n[speed]")],
        ConfigError::UnknownKey,
    ),
    (
        &[("postpone", "postpone = 2\nclosed = false")],
        ConfigError::UnknownKey,
    ),
    (
        &[("rows", "rows = 24"), ("refi", "refi = 0")],
        ConfigError::Range { key: Key::Refi },
    ),
    (
        &[("refi", "refi = 0"), ("cap", "cap = 0")],
        ConfigError::Range { key: Key::Cap },
    ),
    (
        &[("columns", "columns = 96"), ("rows", "rows = 24")],
        ConfigError::NotPowerOfTwo { key: Key::Rows },
    ),
    (
        &[("columns", "columns = 96"), ("low", "low = 6")],
        ConfigError::NotPowerOfTwo { key: Key::Columns },
    ),
];

#[test]
fn the_first_refusal_is_answered(rt: HostRuntime) -> Result<(), Fail> {
    for (lines, error) in FIRST {
        assert_eq!(rt; refusal(rt.alloc(), lines)?, Some(*error), "{lines:?}");
    }
    Ok(())
}

#[test]
fn a_blank_text_misses_the_first_key(rt: HostRuntime) {
    let told = Config::read(rt.alloc(), "# nothing\n").err();
    let missing = ConfigError::Missing { key: Key::Version };
    assert_eq!(rt; told, Some(missing));
}

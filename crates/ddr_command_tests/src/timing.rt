//! What the contract of `Config::read` means at worked texts. Ranges, relations and values are written
//! out here by hand, from the table that a configuration follows.
use ddr_samples::sample::{changed, with_lines};
use ddr_timing::config::Config;
use ddr_timing::error::ConfigError;
use ddr_timing::geometry::Digit;
use ddr_timing::key::Key;
use ddr_timing::profile::PROFILE_S;
use std::alloc::{AllocError, Global};
use std::test::Fail;

mod banks;
mod refusals;
mod second;

/// Why profile S with these lines is refused, if it is.
fn refusal(alloc: Global, lines: &[(&str, &str)]) -> Result<Option<ConfigError>, AllocError> {
    refusal_with(alloc, PROFILE_S, lines)
}

/// Why a profile with these lines is refused, if it is.
fn refusal_with(
    alloc: Global,
    profile: &str,
    lines: &[(&str, &str)],
) -> Result<Option<ConfigError>, AllocError> {
    let text = with_lines(alloc, profile, lines)?;
    match Config::read(alloc, text.as_str()) {
        Ok(_) => Ok(None),
        Err(ConfigError::OutOfMemory) => Err(AllocError),
        Err(error) => Ok(Some(error)),
    }
}

#[test]
fn reads_the_timing_of_profile_s(rt: HostRuntime) -> Result<(), Fail> {
    let t = Config::read(rt.alloc(), PROFILE_S)?.timing;
    let columns = [
        t.cl, t.cwl, t.rcd, t.ccd_s, t.ccd_l, t.wtr_s, t.wtr_l, t.rtw,
    ];
    assert_eq!(rt; columns, [4, 3, 4, 4, 5, 2, 4, 7]);
    let rows = [t.rp, t.ras, t.rc, t.rrd_s, t.rrd_l, t.faw, t.wr, t.rtp];
    assert_eq!(rt; rows, [4, 10, 14, 2, 3, 12, 5, 3]);
    assert_eq!(rt; [t.rfc, t.refi, t.postpone, t.rtrs], [20, 200, 2, 1]);
    Ok(())
}

/// The map of both profiles, whose lowest digit comes first.
const MAP: [Digit; 6] = [
    Digit::Column,
    Digit::Group,
    Digit::Bank,
    Digit::Row,
    Digit::Channel,
    Digit::Rank,
];

#[test]
fn reads_the_shape_and_the_limits_of_profile_s(rt: HostRuntime) -> Result<(), Fail> {
    let config = Config::read(rt.alloc(), PROFILE_S)?;
    let g = config.geometry;
    assert_eq!(rt;
        [g.version, g.channels, g.ranks, g.groups, g.rows, g.columns],
        [1, 2, 1, 4, 16, 64]
    );
    assert_eq!(rt; g.map, MAP);
    assert!(rt; !g.bank_xor);
    let l = config.limits;
    assert_eq!(rt;
        [l.ports, l.window, l.intake, l.reads, l.writes],
        [2, 4, 8, 8, 8]
    );
    assert_eq!(rt; [l.done, l.low, l.high, l.cap], [8, 2, 6, 1000]);
    assert!(rt; !l.closed);
    Ok(())
}

/// Profile S, its last line first.
fn reversed(alloc: Global) -> Result<String, AllocError> {
    let mut text = String::new(alloc);
    for line in PROFILE_S.lines().rev() {
        text.push_str(line)?;
        text.push('\n')?;
    }
    Ok(text)
}

/// The configuration that a text gives, where it is accepted.
fn read_of(alloc: Global, text: Result<String, AllocError>) -> Option<Config> {
    match text {
        Ok(text) => Config::read(alloc, text.as_str()).ok(),
        Err(_) => None,
    }
}

#[test]
fn takes_keys_in_any_order(rt: HostRuntime) -> Result<(), Fail> {
    let alloc = rt.alloc();
    let config = read_of(alloc, reversed(alloc)).ok_or("accepted")?;
    assert_eq!(rt; [config.timing.refi, config.limits.cap], [200, 1000]);
    Ok(())
}

/// Profile S behind a byte order mark and a comment.
fn with_mark(alloc: Global) -> Result<String, AllocError> {
    let mut text = String::from_str(alloc, "\u{feff}# a byte order mark and a comment\r\n")?;
    text.push_str(PROFILE_S)?;
    Ok(text)
}

#[test]
fn takes_a_byte_order_mark_and_a_comment(rt: HostRuntime) -> Result<(), Fail> {
    let alloc = rt.alloc();
    let config = read_of(alloc, with_mark(alloc)).ok_or("accepted")?;
    assert_eq!(rt; config.timing.refi, 200);
    Ok(())
}

/// Lines that spell keys and values in other ways.
const SPELLED: &[(&str, &str)] = &[
    ("rows", "rows = 0x20 # in base 16"),
    ("refi", "\"refi\"=+1_000\r"),
    ("bank_xor", "bank_xor = true"),
    ("map", "map = 'row column bank group channel'"),
];

#[test]
fn takes_keys_and_values_in_any_spelling(rt: HostRuntime) -> Result<(), Fail> {
    let alloc = rt.alloc();
    let config = read_of(alloc, changed(alloc, SPELLED)).ok_or("accepted")?;
    assert_eq!(rt; [config.geometry.rows, config.timing.refi], [32, 1000]);
    assert!(rt; config.geometry.bank_xor);
    let order = [
        Digit::Row,
        Digit::Column,
        Digit::Bank,
        Digit::Group,
        Digit::Channel,
        Digit::Rank,
    ];
    assert_eq!(rt; config.geometry.map, order);
    Ok(())
}

/// The keys of version 1 that take integers, each with the least and the greatest that it takes. The version
/// itself is not among them: it says by which keys a text is checked.
const RANGES: [(&str, Key, u32, u32); 31] = [
    ("channels", Key::Channels, 1, 4),
    ("ports", Key::Ports, 1, 8),
    ("window", Key::Window, 1, 64),
    ("intake", Key::Intake, 1, 64),
    ("reads", Key::Reads, 1, 32),
    ("writes", Key::Writes, 1, 32),
    ("done", Key::Done, 1, 64),
    ("low", Key::Low, 0, 31),
    ("high", Key::High, 1, 32),
    ("cap", Key::Cap, 1, 65535),
    ("rows", Key::Rows, 16, 131072),
    ("columns", Key::Columns, 64, 1024),
    ("cl", Key::Cl, 1, 65535),
    ("cwl", Key::Cwl, 1, 65535),
    ("rcd", Key::Rcd, 1, 65535),
    ("rp", Key::Rp, 1, 65535),
    ("ras", Key::Ras, 1, 65535),
    ("rc", Key::Rc, 1, 65535),
    ("rrd_s", Key::RrdS, 1, 65535),
    ("rrd_l", Key::RrdL, 1, 65535),
    ("faw", Key::Faw, 1, 65535),
    ("ccd_s", Key::CcdS, 1, 65535),
    ("ccd_l", Key::CcdL, 1, 65535),
    ("wtr_s", Key::WtrS, 1, 65535),
    ("wtr_l", Key::WtrL, 1, 65535),
    ("wr", Key::Wr, 1, 65535),
    ("rtp", Key::Rtp, 1, 65535),
    ("rtw", Key::Rtw, 1, 65535),
    ("rfc", Key::Rfc, 1, 65535),
    ("refi", Key::Refi, 1, 65535),
    ("postpone", Key::Postpone, 0, 7),
];

/// Why profile S with this value of a key is refused, if it is.
fn refusal_of(alloc: Global, name: &str, value: i64) -> Result<Option<ConfigError>, AllocError> {
    let line = format!(in alloc; "{name} = {value}")?;
    refusal(alloc, &[(name, line.as_str())])
}

/// Whether a value of a key is refused as out of its range.
fn is_beyond(alloc: Global, name: &str, key: Key, value: i64) -> Result<bool, AllocError> {
    match refusal_of(alloc, name, value)? {
        Some(ConfigError::Range { key: told }) => Ok(told == key),
        _ => Ok(false),
    }
}

#[test]
fn a_number_beyond_its_range_is_refused(rt: HostRuntime) -> Result<(), Fail> {
    let alloc = rt.alloc();
    for (name, key, low, high) in RANGES {
        let (low, high) = (i64::from(low), i64::from(high));
        assert!(rt; is_beyond(alloc, name, key, low - 1)?, "{name}");
        assert!(rt; !is_beyond(alloc, name, key, low)?, "{name}");
        assert!(rt; !is_beyond(alloc, name, key, high)?, "{name}");
        assert!(rt; is_beyond(alloc, name, key, high + 1)?, "{name}");
    }
    Ok(())
}

/// Counts of bank groups, and whether one is accepted.
const GROUPS: [(i64, bool); 5] = [(1, false), (2, true), (3, false), (4, true), (5, false)];

#[test]
fn groups_are_2_or_4(rt: HostRuntime) -> Result<(), Fail> {
    for (groups, is_accepted) in GROUPS {
        let is_beyond = is_beyond(rt.alloc(), "groups", Key::Groups, groups)?;
        assert_eq!(rt; !is_beyond, is_accepted, "{groups}");
    }
    Ok(())
}

//! The sample configuration: as a value that takes no memory and whose numbers a proof knows, and as a text with other lines.
ghost use Rattle.std.specs.Prelude.{◌≡◌, false};

use ddr_timing::config::Config;
use ddr_timing::geometry::{Digit, Geometry};
use ddr_timing::limits::Limits;
use ddr_timing::profile::PROFILE_S;
use ddr_timing::timing::Timing;
use std::alloc::{AllocError, Global};

fn timing() -> Timing
    ensures { result.rtrs ≡ 1 }
{
    Timing {
        cl: 4,
        cwl: 3,
        rcd: 4,
        rp: 4,
        ras: 10,
        rc: 14,
        rrd_s: 2,
        rrd_l: 3,
        faw: 12,
        ccd_s: 4,
        ccd_l: 5,
        wtr_s: 2,
        wtr_l: 4,
        wr: 5,
        rtp: 3,
        rtw: 7,
        rfc: 20,
        refi: 200,
        postpone: 2,
        rtrs: 1,
    }
}

fn geometry() -> Geometry
    ensures version { result.version ≡ 1 }
    ensures channels { result.channels ≡ 2 }
    ensures ranks { result.ranks ≡ 1 }
    ensures groups { result.groups ≡ 4 }
    ensures rows { result.rows ≡ 16 }
{
    Geometry {
        version: 1,
        channels: 2,
        ranks: 1,
        groups: 4,
        rows: 16,
        columns: 64,
        map: [
            Digit::Column,
            Digit::Group,
            Digit::Bank,
            Digit::Row,
            Digit::Channel,
            Digit::Rank,
        ],
        bank_xor: false,
    }
}

/// The limits of profile S.
pub fn limits() -> Limits
    ensures closed { result.closed ≡ false }
    ensures ports { result.ports ≡ 2 }
{
    Limits {
        ports: 2,
        window: 4,
        intake: 8,
        reads: 8,
        writes: 8,
        done: 8,
        low: 2,
        high: 6,
        cap: 1000,
        closed: false,
    }
}

/// Profile S. Its rank has 16 banks of 16 rows, each of 8 lines.
pub fn sample() -> Config
    ensures channels { result.geometry.channels ≡ 2 }
    ensures ranks { result.geometry.ranks ≡ 1 }
    ensures groups { result.geometry.groups ≡ 4 }
    ensures rows { result.geometry.rows ≡ 16 }
    ensures ports { result.limits.ports ≡ 2 }
{
    Config {
        timing: timing(),
        geometry: geometry(),
        limits: limits(),
    }
}

/// Profile S2, which is profile S with a second rank.
pub fn two_ranks() -> Config
    ensures ranks { result.geometry.ranks ≡ 2 }
    ensures groups { result.geometry.groups ≡ 4 }
    ensures rows { result.geometry.rows ≡ 16 }
{
    let mut config = sample();
    config.geometry.version = 2;
    config.geometry.ranks = 2;
    config.timing.rtrs = 2;
    config
}

/// Profile S with other lines.
pub fn changed(alloc: Global, lines: &[(&str, &str)]) -> Result<String, AllocError> {
    with_lines(alloc, PROFILE_S, lines)
}

/// A profile with other lines: a pair names a key and gives what stands for its line. A pair whose key the
/// profile lacks changes nothing.
pub fn with_lines(
    alloc: Global,
    profile: &str,
    lines: &[(&str, &str)],
) -> Result<String, AllocError> {
    let mut text = String::new(alloc);
    for line in profile.lines() {
        push_line(&mut text, line, lines)?;
        text.push('\n')?;
    }
    Ok(text)
}

fn push_line(text: &mut String, line: &str, lines: &[(&str, &str)]) -> Result<(), AllocError> {
    let name = match line.split_once(' ') {
        Some((name, _)) => name,
        None => line,
    };
    for (key, other) in lines {
        if name == *key {
            return text.push_str(other);
        }
    }
    text.push_str(line)
}

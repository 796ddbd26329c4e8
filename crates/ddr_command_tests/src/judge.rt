//! Captures of a few commands, whose verdicts are told by hand from profile S: two channels, RCD 4 and REFI 200.
ghost use Rattle.std.specs.Prelude.{◌≡◌, ◌<◌};
ghost use Rattle.ddr_judge.specs.Judged.{channels_of};

use ddr_judge::fault::Fault;
use ddr_judge::judge::Judge;
use ddr_timing::config::Config;
use ddr_timing::profile::PROFILE_S;
use ddr_trace::command::{Command, Entry};
use ddr_trace::rule::Rule;
use std::process::Abort;
use std::test::Fail;

const START: u64 = 100;

const ACT: Command = Command::Act {
    rank: 0,
    group: 1,
    bank: 2,
    row: 3,
};

const RD: Command = Command::Rd {
    rank: 0,
    group: 1,
    bank: 2,
    row: 3,
    line: 0,
};

/// A command of the channel, in that cycle and that line.
fn pass(rt: &impl Abort, judge: &mut Judge, channel: u32, cycle: u64, command: Command, line: u64)
    requires { channel < channels_of judge.old }
    ensures { channels_of judge.new ≡ channels_of judge.old }
{
    assert!(rt; cycle < u64::MAX);
    assert!(rt; judge.commands(channel) < u64::MAX);
    judge.pass(channel, &Entry { cycle, command }, line);
}

// Channel 0 reads 3 clocks behind its ACT, in line 4; channel 1 reads a bank that no ACT opened, in line 3. What comes
// behind a fault changes nothing, and the last command stands in cycle 120.
#[test]
fn channels_are_judged_apart(rt: HostRuntime) -> Result<(), Fail> {
    let config = Config::read(rt.alloc(), PROFILE_S)?;
    assert!(rt; config.geometry.channels == 2);
    let mut judge = Judge::open(rt.alloc(), &config, START)?;
    pass(&rt, &mut judge, 0, 110, ACT, 2);
    pass(&rt, &mut judge, 1, 110, RD, 3);
    pass(&rt, &mut judge, 0, 113, RD, 4);
    pass(&rt, &mut judge, 1, 120, ACT, 5);
    pass(&rt, &mut judge, 0, 112, RD, 6);
    assert!(rt; judge.commands(0) == 3);
    assert!(rt; judge.commands(1) == 2);
    let end = judge.end();
    assert!(rt; end == 121);
    let late = Fault {
        place: 1,
        rule: Rule::Rcd,
        line: Some(4),
    };
    assert!(rt; judge.verdict(0, end) == Some(late));
    let closed = Fault {
        place: 0,
        rule: Rule::State,
        line: Some(3),
    };
    assert!(rt; judge.verdict(1, end) == Some(closed));
    Ok(())
}

// With no REF a trace from cycle 100 on may end up to 9 REFI later, in cycle 1,900. The commands of channel 0 are 4 clocks
// apart, and channel 1 has none.
#[test]
fn trace_ends_late(rt: HostRuntime) -> Result<(), Fail> {
    let config = Config::read(rt.alloc(), PROFILE_S)?;
    assert!(rt; config.geometry.channels == 2);
    let mut judge = Judge::open(rt.alloc(), &config, START)?;
    assert!(rt; judge.end() == START);
    pass(&rt, &mut judge, 0, 110, ACT, 2);
    pass(&rt, &mut judge, 0, 114, RD, 3);
    assert!(rt; judge.end() == 115);
    assert!(rt; judge.verdict(0, 1_900).is_none());
    assert!(rt; judge.verdict(1, 1_900).is_none());
    let without_refresh = Fault {
        place: 2,
        rule: Rule::RefLate,
        line: None,
    };
    assert!(rt; judge.verdict(0, 1_901) == Some(without_refresh));
    let empty = Fault {
        place: 0,
        rule: Rule::RefLate,
        line: None,
    };
    assert!(rt; judge.verdict(1, 1_901) == Some(empty));
    Ok(())
}

//! What a rank answers one clock before a rule is kept, and from then on; each bound is worked out by hand.
ghost use Rattle.std.specs.Prelude.{◌≡◌, IfOk, IsTrue};
ghost use Rattle.ddr_trace.specs.Rules.{is_in};

mod allowed;

use ddr_rank::rank::Rank;
use ddr_samples::sample::changed;
use ddr_samples::steps::Step;
use ddr_timing::config::Config;
use ddr_timing::profile::PROFILE_S;
use ddr_trace::command::Command;
use ddr_trace::rule::Rule;
use std::alloc::Global;
use std::process::Abort;
use std::test::Fail;

fn profile_s(alloc: Global) -> Result<Config, Fail> {
    Ok(Config::read(alloc, PROFILE_S)?)
}

/// That a command is one of the geometry.
fn is_of(rt: &impl Abort, config: &Config, command: Command)
    ensures { IsTrue (is_in config.now.geometry command) }
{
    assert!(rt; command.is_in(&config.geometry));
}

/// That the rank says so of a command of the geometry.
fn tells(rt: &impl Abort, rank: &Rank, cycle: u64, command: Command, rule: Option<Rule>)
    requires { IsTrue (is_in rank.now.config.geometry command) }
{
    let fault = rank.fault(cycle, command);
    assert_eq!(rt; fault, rule, "{command:?} at {cycle}");
    assert_eq!(rt; rank.may(cycle, command), fault.is_none(), "at {cycle}");
}

/// Issues a command of the geometry, which the rank allows.
fn issue(rt: &impl Abort, config: &Config, rank: &mut Rank, step: Step) -> Result<(), Fail>
    requires { rank.old.config ≡ config.now }
    ensures { rank.new.config ≡ config.now }
{
    let cycle = step.cycle();
    let command = step.command();
    is_of(rt, config, command);
    tells(rt, rank, cycle, command, None);
    rank.reserve()?;
    rank.issue(cycle, command);
    Ok(())
}

/// A rank to which these commands were issued, each of which it allowed.
fn issued(rt: &impl Abort, alloc: Global, config: &Config, steps: &[Step]) -> Result<Rank, Fail>
    ensures { IfOk result (λ r. r.config ≡ config.now) }
{
    let mut rank = Rank::open(alloc, config)?;
    for step in steps {
        issue(rt, config, &mut rank, *step)?;
    }
    Ok(rank)
}

/// Commands, the next one with its cycle, and the rule that it breaks until just before that cycle. From then on it
/// breaks none.
type Bound = (&'static [Step], Step, Rule);

fn bound(rt: &impl Abort, config: &Config, rank: &Rank, next: Step, rule: Rule)
    requires { rank.now.config ≡ config.now }
{
    let cycle = next.cycle();
    let command = next.command();
    assert!(rt; 0 < cycle);
    is_of(rt, config, command);
    tells(rt, rank, cycle - 1, command, Some(rule));
    tells(rt, rank, cycle, command, None);
}

fn bounds(rt: &impl Abort, alloc: Global, config: &Config, cases: &[Bound]) -> Result<(), Fail> {
    for (steps, next, rule) in cases {
        let rank = issued(rt, alloc, config, steps)?;
        bound(rt, config, &rank, *next, *rule);
    }
    Ok(())
}

const READ: &[Step] = &[Step::Act(0, 0, 0, 0), Step::Rd(4, 0, 0, 0, 0)];

const CLOSED: &[Step] = &[
    Step::Act(0, 0, 0, 0),
    Step::Rd(4, 0, 0, 0, 0),
    Step::Pre(10, 0, 0),
];

const OPENED_AGAIN: &[Step] = &[
    Step::Act(0, 0, 0, 0),
    Step::Rd(4, 0, 0, 0, 0),
    Step::Pre(10, 0, 0),
    Step::Act(14, 0, 0, 1),
];

const READ_AGAIN: &[Step] = &[
    Step::Act(0, 0, 0, 0),
    Step::Rd(4, 0, 0, 0, 0),
    Step::Pre(10, 0, 0),
    Step::Act(14, 0, 0, 1),
    Step::Rd(18, 0, 0, 1, 0),
];

const TWO_ROWS: &[Bound] = &[
    (OPENED, Step::Rd(4, 0, 0, 0, 0), Rule::Rcd),
    (READ, Step::Pre(10, 0, 0), Rule::Ras),
    (CLOSED, Step::Act(14, 0, 0, 1), Rule::Rc),
    (OPENED_AGAIN, Step::Rd(18, 0, 0, 1, 0), Rule::Rcd),
];

#[test]
fn reads_of_two_rows_of_a_bank(rt: HostRuntime) -> Result<(), Fail> {
    let config = profile_s(rt.alloc())?;
    bounds(&rt, rt.alloc(), &config, TWO_ROWS)
}

const ACTIVATIONS: &[Bound] = &[
    (
        &[
            Step::Act(0, 0, 0, 0),
            Step::Act(2, 1, 0, 0),
            Step::Act(4, 2, 0, 0),
            Step::Act(6, 3, 0, 0),
        ],
        Step::Act(12, 0, 1, 0),
        Rule::Faw,
    ),
    (
        &[
            Step::Act(0, 0, 0, 0),
            Step::Act(2, 1, 0, 0),
            Step::Act(5, 2, 0, 0),
            Step::Act(7, 3, 0, 0),
        ],
        Step::Act(12, 0, 1, 0),
        Rule::Faw,
    ),
    // The sixth is measured from the second.
    (
        &[
            Step::Act(0, 0, 0, 0),
            Step::Act(3, 1, 0, 0),
            Step::Act(5, 2, 0, 0),
            Step::Act(7, 3, 0, 0),
            Step::Act(12, 0, 1, 0),
        ],
        Step::Act(15, 1, 1, 0),
        Rule::Faw,
    ),
];

#[test]
fn five_activations(rt: HostRuntime) -> Result<(), Fail> {
    let config = profile_s(rt.alloc())?;
    bounds(&rt, rt.alloc(), &config, ACTIVATIONS)
}

const ACTIVE: &[Step] = &[Step::Act(0, 1, 2, 3)];

const IDLE_AGAIN: &[Step] = &[Step::Act(0, 1, 2, 3), Step::PreAll(50)];

/// Commands, the next one, and the rule that it breaks.
type State = (&'static [Step], Step, Option<Rule>);

fn state(rt: &impl Abort, config: &Config, rank: &Rank, next: Step, rule: Option<Rule>)
    requires { rank.now.config ≡ config.now }
{
    let command = next.command();
    is_of(rt, config, command);
    tells(rt, rank, next.cycle(), command, rule);
}

fn states(rt: &impl Abort, alloc: Global, config: &Config, cases: &[State]) -> Result<(), Fail> {
    for (steps, next, rule) in cases {
        let rank = issued(rt, alloc, config, steps)?;
        state(rt, config, &rank, *next, *rule);
    }
    Ok(())
}

const STATES: &[State] = &[
    (&[], Step::Rd(0, 0, 0, 0, 0), Some(Rule::State)),
    (&[], Step::Refresh(0), None),
    (ACTIVE, Step::Act(50, 1, 2, 4), Some(Rule::State)),
    (ACTIVE, Step::Wr(50, 0, 2, 3, 0), Some(Rule::State)),
    (ACTIVE, Step::Rd(50, 1, 2, 4, 0), Some(Rule::Row)),
    (ACTIVE, Step::Refresh(50), Some(Rule::State)),
    (IDLE_AGAIN, Step::Wr(60, 1, 2, 3, 0), Some(Rule::State)),
    (IDLE_AGAIN, Step::Refresh(60), None),
];

#[test]
fn state_and_row(rt: HostRuntime) -> Result<(), Fail> {
    let config = profile_s(rt.alloc())?;
    states(&rt, rt.alloc(), &config, STATES)
}

/// Commands, the cycle, the group and the bank that are asked for, and the open row.
type Row = (&'static [Step], u64, u32, u32, Option<u32>);

fn row_of(rt: &impl Abort, rank: &Rank, cycle: u64, group: u32, bank: u32, row: Option<u32>) {
    let found = rank.open_row(cycle, group, bank);
    assert_eq!(rt; found, row, "of {group} and {bank} at {cycle}");
}

fn rows(rt: &impl Abort, alloc: Global, config: &Config, cases: &[Row]) -> Result<(), Fail> {
    for (steps, cycle, group, bank, row) in cases {
        let rank = issued(rt, alloc, config, steps)?;
        row_of(rt, &rank, *cycle, *group, *bank, *row);
    }
    Ok(())
}

/// An RDA in cycle 4 begins to close its bank in cycle 10, by RAS.
const ROWS: &[Row] = &[
    (READ_AGAIN, 19, 0, 0, Some(1)),
    (READ_AGAIN, 19, 0, 1, None),
    (READ_AGAIN, 19, 4, 0, None),
    (READ_AGAIN, 19, 0, 4, None),
    (CLOSED, 11, 0, 0, None),
    (ACTIVE, 9, 1, 2, Some(3)),
    (IDLE_AGAIN, 51, 1, 2, None),
    (READ_AUTO, 9, 0, 0, Some(0)),
    (READ_AUTO, 10, 0, 0, None),
    (READ_AUTO, 9, 0, 1, None),
];

#[test]
fn open_rows(rt: HostRuntime) -> Result<(), Fail> {
    let config = profile_s(rt.alloc())?;
    rows(&rt, rt.alloc(), &config, ROWS)
}

const READ_AUTO: &[Step] = &[Step::Act(0, 0, 0, 0), Step::RdAuto(4, 0, 0, 0, 0)];

const WRITTEN_AUTO: &[Step] = &[Step::Act(0, 0, 0, 0), Step::WrAuto(4, 0, 0, 0, 0)];

/// Of two open banks of a group one is read, or written, and to close.
const ONE_READ_AUTO: &[Step] = &[
    Step::Act(0, 0, 0, 0),
    Step::Act(3, 0, 1, 0),
    Step::RdAuto(7, 0, 0, 0, 0),
];

const ONE_WRITTEN_AUTO: &[Step] = &[
    Step::Act(0, 0, 0, 0),
    Step::Act(3, 0, 1, 0),
    Step::WrAuto(7, 0, 0, 0, 0),
];

/// A WRA in cycle 4 begins to close its bank in cycle 16, by CWL + 4 + WR.
const AUTO: &[Bound] = &[
    (WRITTEN_AUTO, Step::Act(20, 0, 0, 1), Rule::Rp),
    (WRITTEN_AUTO, Step::Pre(16, 0, 0), Rule::Wr),
    (READ_AUTO, Step::Act(14, 0, 0, 1), Rule::Rc),
    (READ_AUTO, Step::Refresh(14), Rule::RpRef),
    (WRITTEN_AUTO, Step::Refresh(20), Rule::RpRef),
    (ONE_READ_AUTO, Step::Rd(12, 0, 1, 0, 0), Rule::CcdL),
    (ONE_READ_AUTO, Step::WrAuto(14, 0, 1, 0, 0), Rule::Rtw),
    (ONE_WRITTEN_AUTO, Step::WrAuto(12, 0, 1, 0, 0), Rule::CcdL),
    (ONE_WRITTEN_AUTO, Step::RdAuto(18, 0, 1, 0, 0), Rule::WtrL),
];

const AUTO_STATES: &[State] = &[
    (WRITTEN_AUTO, Step::Act(15, 0, 0, 1), Some(Rule::State)),
    (READ_AUTO, Step::Rd(9, 0, 0, 0, 0), Some(Rule::State)),
    (READ_AUTO, Step::RdAuto(9, 0, 0, 0, 0), Some(Rule::State)),
    (READ_AUTO, Step::Rd(30, 0, 0, 0, 0), Some(Rule::State)),
    (READ_AUTO, Step::Refresh(9), Some(Rule::State)),
];

#[test]
fn rows_that_close_by_themselves(rt: HostRuntime) -> Result<(), Fail> {
    let config = profile_s(rt.alloc())?;
    bounds(&rt, rt.alloc(), &config, AUTO)?;
    states(&rt, rt.alloc(), &config, AUTO_STATES)
}

/// With WTR_L of 1 and WR of 30. The RDA closes its bank from cycle 15 on, though the write before it is in recovery
/// until cycle 41, over the next ACT.
const LONG_RECOVERY: &[Bound] = &[
    (WRITTEN_THEN_AUTO, Step::Act(19, 0, 0, 1), Rule::Rp),
    (OPENED_IN_RECOVERY, Step::Pre(41, 0, 0), Rule::Wr),
    (OPENED_IN_RECOVERY, Step::PreAll(41), Rule::Wr),
];

const WRITTEN_THEN_AUTO: &[Step] = &[
    Step::Act(0, 0, 0, 0),
    Step::Wr(4, 0, 0, 0, 0),
    Step::RdAuto(12, 0, 0, 0, 0),
];

const OPENED_IN_RECOVERY: &[Step] = &[
    Step::Act(0, 0, 0, 0),
    Step::Wr(4, 0, 0, 0, 0),
    Step::RdAuto(12, 0, 0, 0, 0),
    Step::Act(19, 0, 0, 1),
];

#[test]
fn recovery_outlives_an_auto_precharge(rt: HostRuntime) -> Result<(), Fail> {
    let text = changed(rt.alloc(), &[("wtr_l", "wtr_l = 1"), ("wr", "wr = 30")])?;
    let config = Config::read(rt.alloc(), text.as_str())?;
    bounds(&rt, rt.alloc(), &config, LONG_RECOVERY)
}

const OPENED: &[Step] = &[Step::Act(0, 0, 0, 0)];

const READ_AT_8: &[Step] = &[Step::Act(0, 0, 0, 0), Step::Rd(8, 0, 0, 0, 0)];

const WRITTEN: &[Step] = &[Step::Act(0, 0, 0, 0), Step::Wr(4, 0, 0, 0, 0)];

const CLOSED_AT_10: &[Step] = &[Step::Act(0, 0, 0, 0), Step::Pre(10, 0, 0)];

const CLOSED_AT_11: &[Step] = &[Step::Act(0, 0, 0, 0), Step::Pre(11, 0, 0)];

const ALL_CLOSED: &[Step] = &[Step::PreAll(5)];

const ONE_BANK: &[Bound] = &[
    (OPENED, Step::Wr(4, 0, 0, 0, 0), Rule::Rcd),
    (OPENED, Step::PreAll(10), Rule::Ras),
    (CLOSED_AT_11, Step::Act(15, 0, 0, 1), Rule::Rp),
    (&[Step::Pre(5, 0, 0)], Step::Act(9, 0, 0, 0), Rule::Rp),
    (ALL_CLOSED, Step::Act(9, 1, 1, 0), Rule::Rp),
    (READ_AT_8, Step::Pre(11, 0, 0), Rule::Rtp),
    (READ_AT_8, Step::PreAll(11), Rule::Rtp),
    (WRITTEN, Step::Pre(16, 0, 0), Rule::Wr),
    (WRITTEN, Step::PreAll(16), Rule::Wr),
];

#[test]
fn distances_of_one_bank(rt: HostRuntime) -> Result<(), Fail> {
    let config = profile_s(rt.alloc())?;
    bounds(&rt, rt.alloc(), &config, ONE_BANK)
}

/// With RC of 20, which is more than RAS + RP.
const LONGER_CYCLE: &[Bound] = &[(CLOSED_AT_10, Step::Act(20, 0, 0, 1), Rule::Rc)];

/// With RC of 12, which is less than RAS + RP.
const SHORTER_CYCLE: &[Bound] = &[(CLOSED_AT_10, Step::Act(14, 0, 0, 1), Rule::Rp)];

#[test]
fn another_cycle_of_a_row(rt: HostRuntime) -> Result<(), Fail> {
    let mut config = profile_s(rt.alloc())?;
    config.timing.rc = 20;
    bounds(&rt, rt.alloc(), &config, LONGER_CYCLE)?;
    config.timing.rc = 12;
    bounds(&rt, rt.alloc(), &config, SHORTER_CYCLE)
}

const TWO_OPENED: &[Bound] = &[
    (OPENED, Step::Act(3, 0, 1, 0), Rule::RrdL),
    (OPENED, Step::Act(2, 1, 0, 0), Rule::RrdS),
];

const AGAIN: &[Step] = &[
    Step::Act(0, 0, 0, 0),
    Step::Pre(10, 0, 0),
    Step::Act(14, 0, 0, 1),
];

/// With RRD_L of 30 and RRD_S of 20. An ACT of the same bank is not counted: ACT 0, PRE 10, ACT 14.
const FAR_APART: &[Bound] = &[
    (CLOSED_AT_10, Step::Act(14, 0, 0, 1), Rule::Rc),
    (AGAIN, Step::Act(34, 1, 0, 0), Rule::RrdS),
    (AGAIN, Step::Act(44, 0, 1, 0), Rule::RrdL),
];

#[test]
fn distances_of_activations(rt: HostRuntime) -> Result<(), Fail> {
    let mut config = profile_s(rt.alloc())?;
    bounds(&rt, rt.alloc(), &config, TWO_OPENED)?;
    assert_eq!(rt; config.timing.rrd_s, 2);
    config.timing.rrd_l = 30;
    config.timing.rrd_s = 20;
    bounds(&rt, rt.alloc(), &config, FAR_APART)
}

/// Three banks open: the first one is read.
const ONE_READ: &[Step] = &[
    Step::Act(0, 0, 0, 0),
    Step::Act(3, 0, 1, 0),
    Step::Act(5, 1, 0, 0),
    Step::Rd(9, 0, 0, 0, 0),
];

/// Three banks open: the first one is written.
const ONE_WRITTEN: &[Step] = &[
    Step::Act(0, 0, 0, 0),
    Step::Act(3, 0, 1, 0),
    Step::Act(5, 1, 0, 0),
    Step::Wr(9, 0, 0, 0, 0),
];

const COLUMNS: &[Bound] = &[
    (ONE_READ, Step::Rd(14, 0, 1, 0, 0), Rule::CcdL),
    (ONE_READ, Step::Rd(13, 1, 0, 0, 0), Rule::CcdS),
    (ONE_READ, Step::Wr(16, 0, 0, 0, 0), Rule::Rtw),
    (ONE_READ, Step::Wr(16, 1, 0, 0, 0), Rule::Rtw),
    (ONE_WRITTEN, Step::Wr(14, 0, 1, 0, 0), Rule::CcdL),
    (ONE_WRITTEN, Step::Wr(13, 1, 0, 0, 0), Rule::CcdS),
    (ONE_WRITTEN, Step::Rd(20, 0, 1, 0, 0), Rule::WtrL),
    (ONE_WRITTEN, Step::Rd(18, 1, 0, 0, 0), Rule::WtrS),
];

/// With WTR_L of 1 and WTR_S of 6: the own group sooner than the others.
const OWN_GROUP_SOONER: &[Bound] = &[
    (ONE_WRITTEN, Step::Rd(17, 0, 0, 0, 0), Rule::WtrL),
    (ONE_WRITTEN, Step::Rd(22, 1, 0, 0, 0), Rule::WtrS),
];

#[test]
fn distances_of_columns(rt: HostRuntime) -> Result<(), Fail> {
    let mut config = profile_s(rt.alloc())?;
    bounds(&rt, rt.alloc(), &config, COLUMNS)?;
    config.timing.wtr_l = 1;
    config.timing.wtr_s = 6;
    bounds(&rt, rt.alloc(), &config, OWN_GROUP_SOONER)
}

const REFRESHED: &[Step] = &[Step::Refresh(5)];

const REFRESHES: &[Bound] = &[
    (
        &[Step::Act(0, 1, 3, 0), Step::Pre(11, 1, 3)],
        Step::Refresh(15),
        Rule::RpRef,
    ),
    (ALL_CLOSED, Step::Refresh(9), Rule::RpRef),
    (REFRESHED, Step::Act(25, 0, 0, 0), Rule::Rfc),
    (REFRESHED, Step::Pre(25, 0, 0), Rule::Rfc),
    (REFRESHED, Step::PreAll(25), Rule::Rfc),
    (REFRESHED, Step::Refresh(25), Rule::Rfc),
];

#[test]
fn distances_of_refresh(rt: HostRuntime) -> Result<(), Fail> {
    let config = profile_s(rt.alloc())?;
    bounds(&rt, rt.alloc(), &config, REFRESHES)
}

//! Traces on two ranks: the switch between their bursts, and the rules that each rank keeps by itself. The timing is that of
//! profile S2 where a test doesn't say otherwise.
use super::entries::{act, pre, pre_all, rd, rda, refresh, wr, wra};
use super::{Case, Ending, check, check_last, config_with};
use ddr_samples::sample::sample;
use ddr_timing::profile::PROFILE_S2;
use ddr_trace::command::Entry;
use ddr_trace::rule::Rule;
use std::alloc::Global;
use std::process::Abort;
use std::test::Fail;

/// Checks the last commands of these traces in profile S2 with other lines.
fn check_with(
    rt: &impl Abort,
    alloc: Global,
    lines: &[(&str, &str)],
    endings: &[Ending],
) -> Result<(), Fail> {
    check_last(rt, &config_with(alloc, PROFILE_S2, lines)?, endings);
    Ok(())
}

const OPENED: Entry = act!(0, 0, 0, 0);

const OTHER: Entry = act!(1; 1, 0, 0, 0);

/// RTRS is 2: 6 clocks between commands of one kind, 7 from a read to a write, and 5 from a write to a read.
const SWITCHES: &[Ending] = &[
    (
        &[OPENED, OTHER, rd!(5, 0, 0, 0), rd!(1; 10, 0, 0, 0)],
        Some(Rule::Rtrs),
    ),
    (&[OPENED, OTHER, rd!(5, 0, 0, 0), rd!(1; 11, 0, 0, 0)], None),
    (
        &[OPENED, OTHER, rd!(1; 5, 0, 0, 0), rd!(10, 0, 0, 0)],
        Some(Rule::Rtrs),
    ),
    (&[OPENED, OTHER, rd!(1; 5, 0, 0, 0), rd!(11, 0, 0, 0)], None),
    (
        &[OPENED, OTHER, wr!(4, 0, 0, 0), wr!(1; 9, 0, 0, 0)],
        Some(Rule::Rtrs),
    ),
    (&[OPENED, OTHER, wr!(4, 0, 0, 0), wr!(1; 10, 0, 0, 0)], None),
    (
        &[OPENED, OTHER, rd!(4, 0, 0, 0), wr!(1; 10, 0, 0, 0)],
        Some(Rule::Rtrs),
    ),
    (&[OPENED, OTHER, rd!(4, 0, 0, 0), wr!(1; 11, 0, 0, 0)], None),
    (
        &[OPENED, OTHER, wr!(4, 0, 0, 0), rd!(1; 8, 0, 0, 0)],
        Some(Rule::Rtrs),
    ),
    (&[OPENED, OTHER, wr!(4, 0, 0, 0), rd!(1; 9, 0, 0, 0)], None),
    (
        &[OPENED, OTHER, rda!(4, 0, 0, 0), rd!(1; 9, 0, 0, 0)],
        Some(Rule::Rtrs),
    ),
    (
        &[OPENED, OTHER, rda!(4, 0, 0, 0), rd!(1; 10, 0, 0, 0)],
        None,
    ),
    (
        &[OPENED, OTHER, rd!(4, 0, 0, 0), wra!(1; 10, 0, 0, 0)],
        Some(Rule::Rtrs),
    ),
    (
        &[OPENED, OTHER, rd!(4, 0, 0, 0), wra!(1; 11, 0, 0, 0)],
        None,
    ),
    (
        &[OPENED, OTHER, wra!(4, 0, 0, 0), rda!(1; 8, 0, 0, 0)],
        Some(Rule::Rtrs),
    ),
    (
        &[OPENED, OTHER, wra!(4, 0, 0, 0), rda!(1; 9, 0, 0, 0)],
        None,
    ),
];

#[test]
fn rank_switches(rt: HostRuntime) -> Result<(), Fail> {
    check_with(&rt, rt.alloc(), &[], SWITCHES)
}

/// RTRS is 5: 9 clocks between commands of one kind, 10 from a read to a write, and 8 from a write to a read.
const LONG_SWITCHES: &[Ending] = &[
    (
        &[OPENED, OTHER, rd!(4, 0, 0, 0), rd!(1; 12, 0, 0, 0)],
        Some(Rule::Rtrs),
    ),
    (&[OPENED, OTHER, rd!(4, 0, 0, 0), rd!(1; 13, 0, 0, 0)], None),
    (
        &[OPENED, OTHER, rd!(4, 0, 0, 0), wr!(1; 13, 0, 0, 0)],
        Some(Rule::Rtrs),
    ),
    (&[OPENED, OTHER, rd!(4, 0, 0, 0), wr!(1; 14, 0, 0, 0)], None),
    (
        &[OPENED, OTHER, wr!(4, 0, 0, 0), rd!(1; 11, 0, 0, 0)],
        Some(Rule::Rtrs),
    ),
    (&[OPENED, OTHER, wr!(4, 0, 0, 0), rd!(1; 12, 0, 0, 0)], None),
];

#[test]
fn longer_rank_switches(rt: HostRuntime) -> Result<(), Fail> {
    check_with(&rt, rt.alloc(), &[("rtrs", "rtrs = 5")], LONG_SWITCHES)
}

/// A read's data come so late that a write's would be over long before; the commands stand a burst apart all the same.
const LATE_READ_DATA: &[Ending] = &[
    (
        &[OPENED, OTHER, wr!(5, 0, 0, 0), rd!(1; 8, 0, 0, 0)],
        Some(Rule::Rtrs),
    ),
    (&[OPENED, OTHER, wr!(5, 0, 0, 0), rd!(1; 9, 0, 0, 0)], None),
];

/// The same of a write's data.
const LATE_WRITE_DATA: &[Ending] = &[
    (
        &[OPENED, OTHER, rd!(5, 0, 0, 0), wr!(1; 8, 0, 0, 0)],
        Some(Rule::Rtrs),
    ),
    (&[OPENED, OTHER, rd!(5, 0, 0, 0), wr!(1; 9, 0, 0, 0)], None),
];

#[test]
fn commands_stand_a_burst_apart(rt: HostRuntime) -> Result<(), Fail> {
    let alloc = rt.alloc();
    // CWL + 4 + RTRS - CL is 3 here, below 0 in the next one, and so is CL + 4 + RTRS - CWL in the last.
    check_with(&rt, alloc, &[("cl", "cl = 6")], LATE_READ_DATA)?;
    let late = [("cl", "cl = 12"), ("rtw", "rtw = 13")];
    check_with(&rt, alloc, &late, LATE_READ_DATA)?;
    check_with(&rt, alloc, &[("cwl", "cwl = 12")], LATE_WRITE_DATA)
}

/// Four ACTs of each rank by turns, and a fifth one of rank 0 at a cycle.
macro_rules! fifth_at {
    ($cycle:expr) => {
        &[
            OPENED,
            act!(1; 1, 0, 0, 0),
            act!(2, 1, 0, 0),
            act!(1; 3, 1, 0, 0),
            act!(4, 2, 0, 0),
            act!(1; 5, 2, 0, 0),
            act!(6, 3, 0, 0),
            act!(1; 7, 3, 0, 0),
            act!($cycle, 0, 1, 0),
        ]
    };
}

/// ACTs of one rank stand 2 clocks apart, where the groups differ, and a fifth one 12 clocks behind the first.
const ACTIVATIONS: &[Ending] = &[
    (&[OPENED, act!(1; 1, 0, 0, 0)], None),
    (&[OPENED, act!(1; 1, 0, 1, 0)], None),
    (&[OPENED, act!(1; 1, 1, 0, 0)], None),
    (
        &[
            OPENED,
            act!(2, 1, 0, 0),
            act!(4, 2, 0, 0),
            act!(6, 3, 0, 0),
            act!(1; 7, 0, 0, 0),
        ],
        None,
    ),
    (fifth_at!(11), Some(Rule::Faw)),
    (fifth_at!(12), None),
];

/// Commands of one rank that come too soon behind another of the same rank, and behind one of the other rank do not.
const OTHERS: &[Ending] = &[
    (&[OPENED, rd!(1; 4, 0, 0, 0)], Some(Rule::State)),
    (
        &[act!(0, 0, 0, 1), OTHER, rd!(1; 5, 0, 0, 1)],
        Some(Rule::Row),
    ),
    (&[OPENED, pre!(1; 1, 0, 0)], None),
    (&[OPENED, pre!(10, 0, 0), act!(1; 11, 0, 0, 0)], None),
    (&[OPENED, pre_all!(10), act!(1; 11, 0, 0, 0)], None),
    (&[OPENED, rd!(4, 0, 0, 0), pre_all!(1; 5)], None),
    (&[OPENED, wr!(4, 0, 0, 0), pre_all!(1; 5)], None),
    (&[OPENED, refresh!(1; 1)], None),
    (
        &[OPENED, OTHER, rda!(4, 0, 0, 0), refresh!(1; 11)],
        Some(Rule::State),
    ),
    (&[OPENED, rda!(4, 0, 0, 0), refresh!(1; 10)], None),
    (&[pre!(0, 0, 0), refresh!(1; 1)], None),
    (&[pre_all!(0), refresh!(1; 1)], None),
    (&[refresh!(0), act!(19, 0, 0, 0)], Some(Rule::Rfc)),
    (&[refresh!(0), act!(1; 1, 0, 0, 0)], None),
    (&[refresh!(0), refresh!(1; 1)], None),
    (
        &[refresh!(0), refresh!(1; 1), refresh!(1; 20)],
        Some(Rule::Rfc),
    ),
];

#[test]
fn each_rank_keeps_the_rules(rt: HostRuntime) -> Result<(), Fail> {
    check_with(&rt, rt.alloc(), &[], ACTIVATIONS)?;
    check_with(&rt, rt.alloc(), &[], OTHERS)
}

/// The data bus alone stands between the ranks.
const COLUMNS: &[Ending] = &[
    (&[OPENED, OTHER, rd!(5, 0, 0, 0), rd!(1; 11, 0, 0, 0)], None),
    (&[OPENED, OTHER, rd!(5, 0, 0, 0), wr!(1; 12, 0, 0, 0)], None),
    (&[OPENED, OTHER, wr!(5, 0, 0, 0), wr!(1; 11, 0, 0, 0)], None),
    (&[OPENED, OTHER, wr!(5, 0, 0, 0), rd!(1; 10, 0, 0, 0)], None),
];

#[test]
fn column_distances_of_one_rank_do_not_count(rt: HostRuntime) -> Result<(), Fail> {
    let lines = [
        ("ccd_s", "ccd_s = 40"),
        ("ccd_l", "ccd_l = 40"),
        ("wtr_s", "wtr_s = 40"),
        ("wtr_l", "wtr_l = 40"),
        ("rtw", "rtw = 40"),
    ];
    check_with(&rt, rt.alloc(), &lines, COLUMNS)
}

/// A precharge or a refresh of one rank, and what the banks of the two are then.
const LEFT_ALONE: &[Ending] = &[
    (&[OPENED, OTHER, pre_all!(10), rd!(1; 11, 0, 0, 0)], None),
    (
        &[OPENED, OTHER, pre_all!(10), rd!(11, 0, 0, 0)],
        Some(Rule::State),
    ),
    (&[OPENED, OTHER, pre!(10, 0, 0), rd!(1; 11, 0, 0, 0)], None),
    (&[OPENED, OTHER, pre_all!(1; 11), rd!(12, 0, 0, 0)], None),
    (
        &[OPENED, OTHER, pre_all!(1; 11), rd!(1; 12, 0, 0, 0)],
        Some(Rule::State),
    ),
    (
        &[OPENED, OTHER, rda!(4, 0, 0, 0), rd!(1; 20, 0, 0, 0)],
        None,
    ),
    (&[OPENED, refresh!(1; 1), rd!(4, 0, 0, 0)], None),
    (
        &[OPENED, refresh!(1; 1), act!(1; 20, 0, 0, 0)],
        Some(Rule::Rfc),
    ),
    (&[OPENED, refresh!(1; 1), act!(1; 21, 0, 0, 0)], None),
];

#[test]
fn the_other_rank_is_left_alone(rt: HostRuntime) -> Result<(), Fail> {
    check_with(&rt, rt.alloc(), &[], LEFT_ALONE)
}

/// Commands of ranks 1 and 2 with no rule broken but PLACE, or with no lower one.
const OF_RANK_1: &[Ending] = &[
    (&[act!(1; 0, 0, 0, 0)], Some(Rule::Place)),
    (&[rd!(1; 0, 0, 0, 0)], Some(Rule::Place)),
    (&[wra!(1; 0, 0, 0, 0)], Some(Rule::Place)),
    (&[pre!(1; 0, 0, 0)], Some(Rule::Place)),
    (&[pre_all!(1; 0)], Some(Rule::Place)),
    (&[refresh!(1; 0)], Some(Rule::Place)),
];

const OF_RANK_2: &[Ending] = &[
    (&[act!(2; 0, 0, 0, 0)], Some(Rule::Place)),
    (&[rda!(2; 0, 0, 0, 0)], Some(Rule::Place)),
    (&[wr!(2; 0, 0, 0, 0)], Some(Rule::Place)),
    (&[pre!(2; 0, 0, 0)], Some(Rule::Place)),
    (&[pre_all!(2; 0)], Some(Rule::Place)),
    (&[refresh!(2; 0)], Some(Rule::Place)),
    (&[act!(1; 0, 3, 3, 15)], None),
    (&[act!(1; 0, 4, 0, 0)], Some(Rule::Place)),
];

#[test]
fn ranks_that_are_none(rt: HostRuntime) -> Result<(), Fail> {
    check_last(&rt, &sample(), OF_RANK_1);
    check_with(&rt, rt.alloc(), &[("ranks", "ranks = 1")], OF_RANK_1)?;
    check_with(&rt, rt.alloc(), &[], OF_RANK_2)
}

/// REFI is 200: of each rank the first REF is due by 1800 and the second by 2000.
const DEADLINES: &[Case] = &[
    (Rule::RefLate, &[], 1801, Some(0)),
    (Rule::RefLate, &[], 1800, None),
    (Rule::RefLate, &[refresh!(1700)], 1801, Some(1)),
    (Rule::RefLate, &[refresh!(1; 1700)], 1801, Some(1)),
    (
        Rule::RefLate,
        &[refresh!(1700), refresh!(1; 1701)],
        2000,
        None,
    ),
    (
        Rule::RefLate,
        &[refresh!(1700), refresh!(1; 1701)],
        2001,
        Some(2),
    ),
    (
        Rule::RefLate,
        &[refresh!(20), refresh!(60), refresh!(1; 1800)],
        1801,
        None,
    ),
    (
        Rule::RefLate,
        &[refresh!(20), refresh!(60), refresh!(1; 1801)],
        1802,
        Some(2),
    ),
    (
        Rule::RefLate,
        &[refresh!(1; 20), refresh!(1; 60), refresh!(1801)],
        1802,
        Some(2),
    ),
];

/// Two REFs of one rank stand at most 1800 apart, whatever stands between them.
const GAPS: &[Case] = &[
    (
        Rule::RefGap,
        &[refresh!(20), refresh!(1; 1000), refresh!(1820)],
        1821,
        None,
    ),
    (
        Rule::RefGap,
        &[refresh!(20), refresh!(1; 1000), refresh!(1821)],
        1822,
        Some(2),
    ),
    (
        Rule::RefGap,
        &[refresh!(1; 20), refresh!(1000), refresh!(1; 1821)],
        1822,
        Some(2),
    ),
];

#[test]
fn each_rank_is_refreshed(rt: HostRuntime) -> Result<(), Fail> {
    let config = config_with(rt.alloc(), PROFILE_S2, &[])?;
    check(&rt, &config, 0, DEADLINES);
    check(&rt, &config, 0, GAPS);
    Ok(())
}

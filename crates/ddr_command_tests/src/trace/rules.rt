//! The first fault of traces on either side of each rule.
use super::entries::{act, pre, pre_all, rd, refresh, wr};
use super::{Case, check};
use ddr_samples::sample::sample;
use ddr_trace::command::{Command, Entry};
use ddr_trace::rule::Rule;

const ORDER: &[Case] = &[
    (Rule::Order, &[act!(0, 0, 0, 0), refresh!(0)], 5, Some(1)),
    (Rule::Order, &[act!(5, 0, 0, 0)], 5, Some(0)),
    (Rule::Order, &[act!(4, 0, 0, 0)], 5, None),
];

const ORDER_FROM_10: &[Case] = &[
    (Rule::Order, &[refresh!(9)], 20, Some(0)),
    (Rule::Order, &[refresh!(10)], 20, None),
];

#[test]
fn order(rt: HostRuntime) {
    check(&rt, &sample(), 0, ORDER);
    check(&rt, &sample(), 10, ORDER_FROM_10);
}

const OTHER_RANK: Entry = Entry {
    cycle: 0,
    command: Command::PreAll { rank: 1 },
};

const BEYOND: Entry = Entry {
    cycle: 4,
    command: Command::Rd {
        rank: 0,
        group: 0,
        bank: 0,
        row: 0,
        line: 8,
    },
};

const PLACE: &[Case] = &[
    (Rule::Place, &[OTHER_RANK], 100, Some(0)),
    (Rule::Place, &[act!(0, 4, 0, 0)], 100, Some(0)),
    (Rule::Place, &[act!(0, 0, 4, 0)], 100, Some(0)),
    (Rule::Place, &[act!(0, 0, 0, 16)], 100, Some(0)),
    (Rule::Place, &[act!(0, 0, 0, 0), BEYOND], 100, Some(1)),
    (Rule::Place, &[act!(0, 3, 3, 15)], 100, None),
];

#[test]
fn place(rt: HostRuntime) {
    check(&rt, &sample(), 0, PLACE);
}

const STATE: &[Case] = &[
    (Rule::State, &[rd!(0, 0, 0, 0)], 1, Some(0)),
    (
        Rule::State,
        &[act!(0, 0, 0, 0), act!(14, 0, 0, 0)],
        100,
        Some(1),
    ),
    (Rule::State, &[act!(0, 0, 1, 0), refresh!(50)], 100, Some(1)),
    (
        Rule::State,
        &[act!(0, 0, 0, 0), pre!(10, 0, 0), rd!(15, 0, 0, 0)],
        100,
        Some(2),
    ),
    (
        Rule::Row,
        &[act!(0, 0, 0, 1), rd!(4, 0, 0, 0)],
        100,
        Some(1),
    ),
    (
        Rule::State,
        &[act!(0, 0, 1, 0), pre_all!(10), refresh!(14)],
        100,
        None,
    ),
    (Rule::Row, &[act!(0, 0, 0, 1), rd!(4, 0, 0, 1)], 100, None),
];

#[test]
fn bank_state(rt: HostRuntime) {
    check(&rt, &sample(), 0, STATE);
}

const OPENED: Entry = act!(0, 0, 0, 0);

const ONE_BANK: &[Case] = &[
    (Rule::Rcd, &[OPENED, rd!(3, 0, 0, 0)], 100, Some(1)),
    (Rule::Rcd, &[OPENED, rd!(4, 0, 0, 0)], 100, None),
    (Rule::Ras, &[OPENED, pre!(9, 0, 0)], 100, Some(1)),
    (Rule::Ras, &[OPENED, pre!(10, 0, 0)], 100, None),
    (
        Rule::Rp,
        &[OPENED, pre!(11, 0, 0), act!(14, 0, 0, 0)],
        100,
        Some(2),
    ),
    (
        Rule::Rp,
        &[OPENED, pre!(11, 0, 0), act!(15, 0, 0, 0)],
        100,
        None,
    ),
    (
        Rule::Rp,
        &[OPENED, pre_all!(11), act!(14, 0, 0, 0)],
        100,
        Some(2),
    ),
    (
        Rule::Rp,
        &[OPENED, pre_all!(11), act!(15, 0, 0, 0)],
        100,
        None,
    ),
    (
        Rule::Rtp,
        &[OPENED, rd!(8, 0, 0, 0), pre!(10, 0, 0)],
        100,
        Some(2),
    ),
    (
        Rule::Rtp,
        &[OPENED, rd!(8, 0, 0, 0), pre!(11, 0, 0)],
        100,
        None,
    ),
    (
        Rule::Wr,
        &[OPENED, wr!(4, 0, 0, 0), pre_all!(15)],
        100,
        Some(2),
    ),
    (
        Rule::Wr,
        &[OPENED, wr!(4, 0, 0, 0), pre_all!(16)],
        100,
        None,
    ),
];

#[test]
fn distances_of_one_bank(rt: HostRuntime) {
    check(&rt, &sample(), 0, ONE_BANK);
}

/// RAS and RP allow 14 here, and RC asks for 16.
const LONGER_CYCLE: &[Case] = &[
    (
        Rule::Rc,
        &[OPENED, pre!(10, 0, 0), act!(15, 0, 0, 0)],
        100,
        Some(2),
    ),
    (
        Rule::Rc,
        &[OPENED, pre!(10, 0, 0), act!(16, 0, 0, 0)],
        100,
        None,
    ),
];

#[test]
fn activations_of_one_bank(rt: HostRuntime) {
    let mut config = sample();
    config.timing.rc = 16;
    check(&rt, &config, 0, LONGER_CYCLE);
}

/// 13 breaks both RC, which asks for 14, and RP, which asks for 4 after the PRE at 10.
const TWO_BROKEN: &[Case] = &[(
    Rule::Rc,
    &[OPENED, pre!(10, 0, 0), act!(13, 0, 0, 0)],
    100,
    Some(2),
)];

#[test]
fn lower_rule_first(rt: HostRuntime) {
    check(&rt, &sample(), 0, TWO_BROKEN);
}

/// An ACT of each of the other groups, behind the first one.
const SECOND: Entry = act!(2, 1, 0, 0);

const THIRD: Entry = act!(4, 2, 0, 0);

const FOURTH: Entry = act!(6, 3, 0, 0);

const ACTIVATIONS: &[Case] = &[
    (
        Rule::RrdL,
        &[act!(0, 0, 0, 0), act!(2, 0, 1, 0)],
        100,
        Some(1),
    ),
    (Rule::RrdL, &[act!(0, 0, 0, 0), act!(3, 0, 1, 0)], 100, None),
    (
        Rule::RrdS,
        &[act!(0, 0, 0, 0), act!(1, 1, 0, 0)],
        100,
        Some(1),
    ),
    (Rule::RrdS, &[act!(0, 0, 0, 0), act!(2, 1, 0, 0)], 100, None),
    (
        Rule::Faw,
        &[OPENED, SECOND, THIRD, FOURTH, act!(11, 0, 1, 0)],
        30,
        Some(4),
    ),
    (
        Rule::Faw,
        &[OPENED, SECOND, THIRD, FOURTH, act!(12, 0, 1, 0)],
        30,
        None,
    ),
];

#[test]
fn activations_of_the_rank(rt: HostRuntime) {
    check(&rt, &sample(), 0, ACTIVATIONS);
}

const DATA_BUS: &[Case] = &[
    (
        Rule::CcdL,
        &[OPENED, rd!(4, 0, 0, 0), rd!(8, 0, 0, 0)],
        100,
        Some(2),
    ),
    (
        Rule::CcdL,
        &[OPENED, rd!(4, 0, 0, 0), rd!(9, 0, 0, 0)],
        100,
        None,
    ),
    (
        Rule::CcdL,
        &[OPENED, wr!(4, 0, 0, 0), wr!(8, 0, 0, 0)],
        100,
        Some(2),
    ),
    (
        Rule::CcdL,
        &[OPENED, wr!(4, 0, 0, 0), wr!(9, 0, 0, 0)],
        100,
        None,
    ),
    (
        Rule::CcdS,
        &[OPENED, SECOND, rd!(6, 0, 0, 0), rd!(9, 1, 0, 0)],
        100,
        Some(3),
    ),
    (
        Rule::CcdS,
        &[OPENED, SECOND, rd!(6, 0, 0, 0), rd!(10, 1, 0, 0)],
        100,
        None,
    ),
    (
        Rule::CcdS,
        &[OPENED, SECOND, wr!(6, 0, 0, 0), wr!(9, 1, 0, 0)],
        100,
        Some(3),
    ),
    (
        Rule::CcdS,
        &[OPENED, SECOND, wr!(6, 0, 0, 0), wr!(10, 1, 0, 0)],
        100,
        None,
    ),
];

#[test]
fn data_bus(rt: HostRuntime) {
    check(&rt, &sample(), 0, DATA_BUS);
}

const BUS_TURNS: &[Case] = &[
    (
        Rule::WtrL,
        &[OPENED, wr!(4, 0, 0, 0), rd!(14, 0, 0, 0)],
        20,
        Some(2),
    ),
    (
        Rule::WtrL,
        &[OPENED, wr!(4, 0, 0, 0), rd!(15, 0, 0, 0)],
        20,
        None,
    ),
    (
        Rule::WtrS,
        &[OPENED, SECOND, wr!(6, 0, 0, 0), rd!(14, 1, 0, 0)],
        100,
        Some(3),
    ),
    (
        Rule::WtrS,
        &[OPENED, SECOND, wr!(6, 0, 0, 0), rd!(15, 1, 0, 0)],
        100,
        None,
    ),
    (
        Rule::Rtw,
        &[OPENED, rd!(4, 0, 0, 0), wr!(10, 0, 0, 0)],
        100,
        Some(2),
    ),
    (
        Rule::Rtw,
        &[OPENED, rd!(4, 0, 0, 0), wr!(11, 0, 0, 0)],
        100,
        None,
    ),
    (
        Rule::Rtw,
        &[OPENED, SECOND, rd!(6, 0, 0, 0), wr!(12, 1, 0, 0)],
        100,
        Some(3),
    ),
    (
        Rule::Rtw,
        &[OPENED, SECOND, rd!(6, 0, 0, 0), wr!(13, 1, 0, 0)],
        100,
        None,
    ),
];

#[test]
fn bus_turns(rt: HostRuntime) {
    check(&rt, &sample(), 0, BUS_TURNS);
}

const REFRESHED: &[Case] = &[
    (Rule::RpRef, &[pre!(0, 0, 0), refresh!(3)], 100, Some(1)),
    (Rule::RpRef, &[pre!(0, 0, 0), refresh!(4)], 100, None),
    (Rule::RpRef, &[pre_all!(0), refresh!(3)], 100, Some(1)),
    (Rule::Rfc, &[refresh!(0), act!(19, 0, 0, 0)], 100, Some(1)),
    (Rule::Rfc, &[refresh!(0), act!(20, 0, 0, 0)], 100, None),
    (Rule::Rfc, &[refresh!(0), pre_all!(19)], 100, Some(1)),
    (Rule::Rfc, &[refresh!(0), pre_all!(20)], 100, None),
];

#[test]
fn refresh_and_others(rt: HostRuntime) {
    check(&rt, &sample(), 0, REFRESHED);
}

const DEADLINES: &[Case] = &[
    (Rule::RefLate, &[], 1800, None),
    (Rule::RefLate, &[], 1801, Some(0)),
    (Rule::RefLate, &[refresh!(1800)], 1801, None),
    (Rule::RefLate, &[refresh!(1801)], 1802, Some(0)),
    (
        Rule::RefGap,
        &[refresh!(20), refresh!(40), refresh!(1840)],
        1842,
        None,
    ),
    (
        Rule::RefGap,
        &[refresh!(20), refresh!(40), refresh!(1841)],
        1842,
        Some(2),
    ),
];

#[test]
fn refresh_deadlines(rt: HostRuntime) {
    check(&rt, &sample(), 0, DEADLINES);
}

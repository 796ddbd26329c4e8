//! Rows that are closed behind the last column command that wants them, on one rank of the timing of profile S.
use super::*;

const CLOSED: &[(&str, &str)] = &[
    ("version", "version = 2\nranks = 1\nrtrs = 1\nclosed = true"),
    ("map", "map = \"column group bank row channel rank\""),
];

/// The precharge starts at 10, RAS behind the ACT; then RP and RC.
const ANOTHER_ROW: Case = Case {
    lines: CLOSED,
    turns: &[(0, &[Access::Read(0), Access::Read(8192)])],
    outcome: Outcome {
        commands: &[
            Step::Act(0, 0, 0, 0),
            Step::RdAuto(4, 0, 0, 0, 0),
            Step::Act(14, 0, 0, 1),
            Step::RdAuto(18, 0, 0, 1, 0),
        ],
        end: 27,
        times: &[(0, 4, 12), (1, 18, 26)],
        lines: &[(0, &[]), (1, &[])],
    },
};

#[test]
fn another_row_is_opened_without_a_precharge(rt: HostRuntime) -> Result<(), Fail> {
    check(&rt, rt.alloc(), &ANOTHER_ROW)
}

const READ_BEHIND_A_WRITE: Case = Case {
    lines: CLOSED,
    turns: &[(0, &[Access::Write(0, 0b1111, 0xab), Access::Read(0)])],
    outcome: Outcome {
        commands: &[
            Step::Act(0, 0, 0, 0),
            Step::Wr(4, 0, 0, 0, 0),
            Step::RdAuto(15, 0, 0, 0, 0),
        ],
        end: 24,
        times: &[(0, 4, 11), (1, 15, 23)],
        lines: &[(1, &[0xab; 4])],
    },
};

/// The read wants the row that the write has open.
#[test]
fn the_last_that_wants_a_row_closes_it(rt: HostRuntime) -> Result<(), Fail> {
    check(&rt, rt.alloc(), &READ_BEHIND_A_WRITE)
}

const READ_FIRST: Case = Case {
    lines: CLOSED,
    turns: &[(0, &[Access::Write(0, 1, 0xff), Access::Read(8192)])],
    outcome: Outcome {
        commands: &[
            Step::Act(0, 0, 0, 1),
            Step::RdAuto(4, 0, 0, 1, 0),
            Step::Act(14, 0, 0, 0),
            Step::WrAuto(18, 0, 0, 0, 0),
        ],
        end: 26,
        times: &[(1, 4, 12), (0, 18, 25)],
        lines: &[(1, &[])],
    },
};

#[test]
fn read_closes_its_row_before_an_older_write(rt: HostRuntime) -> Result<(), Fail> {
    check(&rt, rt.alloc(), &READ_FIRST)
}

//! Requests that all stand before the first cycle. In profile S an address is
//! 64 * line + 512 * group + 2048 * bank + 8192 * row + offset.
use super::*;
use ddr_samples::steps;

const ONE_READ: Case = Case {
    lines: &[],
    turns: &[(0, &[Access::Read(0)])],
    outcome: Outcome {
        commands: &[Step::Act(0, 0, 0, 0), Step::Rd(4, 0, 0, 0, 0)],
        end: 13,
        times: &[(0, 4, 12)],
        lines: &[(0, &[])],
    },
};

#[test]
fn a_read_of_what_was_never_written(rt: HostRuntime) -> Result<(), Fail> {
    check(&rt, rt.alloc(), &ONE_READ)
}

/// WL + 4 + WTR_L behind the write.
const READ_BEHIND_A_WRITE: Case = Case {
    lines: &[],
    turns: &[(0, &[Access::Write(0, 0b1111, 0xab), Access::Read(0)])],
    outcome: Outcome {
        commands: &[
            Step::Act(0, 0, 0, 0),
            Step::Wr(4, 0, 0, 0, 0),
            Step::Rd(15, 0, 0, 0, 0),
        ],
        end: 24,
        times: &[(0, 4, 11), (1, 15, 23)],
        lines: &[(1, &[0xab; 4])],
    },
};

#[test]
fn a_read_behind_a_write(rt: HostRuntime) -> Result<(), Fail> {
    check(&rt, rt.alloc(), &READ_BEHIND_A_WRITE)
}

/// RAS, then RP and RC.
const ANOTHER_ROW: Case = Case {
    lines: &[],
    turns: &[(0, &[Access::Read(0), Access::Read(8192)])],
    outcome: Outcome {
        commands: &[
            Step::Act(0, 0, 0, 0),
            Step::Rd(4, 0, 0, 0, 0),
            Step::Pre(10, 0, 0),
            Step::Act(14, 0, 0, 1),
            Step::Rd(18, 0, 0, 1, 0),
        ],
        end: 27,
        times: &[(0, 4, 12), (1, 18, 26)],
        lines: &[(0, &[]), (1, &[])],
    },
};

#[test]
fn another_row_is_opened(rt: HostRuntime) -> Result<(), Fail> {
    check(&rt, rt.alloc(), &ANOTHER_ROW)
}

/// RRD_S between the rows, CCD_S between the reads.
const TWO_GROUPS: Case = Case {
    lines: &[],
    turns: &[(0, &[Access::Read(0), Access::Read(512)])],
    outcome: Outcome {
        commands: &[
            Step::Act(0, 0, 0, 0),
            Step::Act(2, 1, 0, 0),
            Step::Rd(4, 0, 0, 0, 0),
            Step::Rd(8, 1, 0, 0, 0),
        ],
        end: 17,
        times: &[(0, 4, 12), (1, 8, 16)],
        lines: &[(0, &[]), (1, &[])],
    },
};

#[test]
fn reads_in_two_groups(rt: HostRuntime) -> Result<(), Fail> {
    check(&rt, rt.alloc(), &TWO_GROUPS)
}

/// Each request comes in the first cycle that the rules and the command bus leave to it.
const FIVE_BANKS: Case = Case {
    lines: &[],
    turns: &[(
        0,
        &[
            Access::Read(0),
            Access::Read(512),
            Access::Read(1024),
            Access::Read(1536),
            Access::Read(2048),
        ],
    )],
    outcome: Outcome {
        commands: steps::FIVE_BANKS,
        end: 29,
        times: &[
            (0, 4, 12),
            (1, 8, 16),
            (2, 12, 20),
            (3, 16, 24),
            (4, 20, 28),
        ],
        lines: &[(0, &[]), (1, &[]), (2, &[]), (3, &[]), (4, &[])],
    },
};

#[test]
fn reads_in_five_banks(rt: HostRuntime) -> Result<(), Fail> {
    check(&rt, rt.alloc(), &FIVE_BANKS)
}

/// CCD_L, and RTP behind the second read.
const YOUNGER_FIRST: Case = Case {
    lines: &[],
    turns: &[(0, &[Access::Read(0), Access::Read(8192), Access::Read(64)])],
    outcome: Outcome {
        commands: &[
            Step::Act(0, 0, 0, 0),
            Step::Rd(4, 0, 0, 0, 0),
            Step::Rd(9, 0, 0, 0, 1),
            Step::Pre(12, 0, 0),
            Step::Act(16, 0, 0, 1),
            Step::Rd(20, 0, 0, 1, 0),
        ],
        end: 29,
        times: &[(0, 4, 12), (2, 9, 17), (1, 20, 28)],
        lines: &[(0, &[]), (1, &[]), (2, &[])],
    },
};

#[test]
fn younger_row_hit_first(rt: HostRuntime) -> Result<(), Fail> {
    check(&rt, rt.alloc(), &YOUNGER_FIRST)
}

const OLDEST_FIRST: Case = Case {
    lines: &[("cap", "cap = 1")],
    turns: &[(0, &[Access::Read(0), Access::Read(8192), Access::Read(64)])],
    outcome: Outcome {
        commands: &[
            Step::Act(0, 0, 0, 0),
            Step::Rd(4, 0, 0, 0, 0),
            Step::Pre(10, 0, 0),
            Step::Act(14, 0, 0, 1),
            Step::Rd(18, 0, 0, 1, 0),
            Step::Pre(24, 0, 0),
            Step::Act(28, 0, 0, 0),
            Step::Rd(32, 0, 0, 0, 1),
        ],
        end: 41,
        times: &[(0, 4, 12), (1, 18, 26), (2, 32, 40)],
        lines: &[(0, &[]), (1, &[]), (2, &[])],
    },
};

/// With a cap of one clock the oldest request is served alone.
#[test]
fn oldest_request_first_at_the_cap(rt: HostRuntime) -> Result<(), Fail> {
    check(&rt, rt.alloc(), &OLDEST_FIRST)
}

const MASKED_WRITES: Case = Case {
    lines: &[],
    turns: &[(
        0,
        &[
            Access::Write(0, 0b00_1111, 0x11),
            Access::Write(0, 0b11_1100, 0x22),
            Access::Read(0),
        ],
    )],
    outcome: Outcome {
        commands: &[
            Step::Act(0, 0, 0, 0),
            Step::Wr(4, 0, 0, 0, 0),
            Step::Wr(9, 0, 0, 0, 0),
            Step::Rd(20, 0, 0, 0, 0),
        ],
        end: 29,
        times: &[(0, 4, 11), (1, 9, 16), (2, 20, 28)],
        lines: &[(2, &[0x11, 0x11, 0x22, 0x22, 0x22, 0x22])],
    },
};

#[test]
fn masked_writes_keep_the_other_bytes(rt: HostRuntime) -> Result<(), Fail> {
    check(&rt, rt.alloc(), &MASKED_WRITES)
}

/// The write's request has number 0 too, and comes back first.
const TWO_PORTS: Outcome = Outcome {
    commands: &[
        Step::Act(0, 0, 0, 0),
        Step::Wr(4, 0, 0, 0, 0),
        Step::Rd(15, 0, 0, 0, 0),
    ],
    end: 24,
    times: &[(0, 4, 11), (0, 15, 23)],
    lines: &[],
};

/// Admits a write of port 1 and a read of port 0, both of the first line and both of number 0.
fn admit_of_two_ports(rt: &impl Abort, alloc: Global, channel: &mut Channel) -> Result<(), Fail> {
    let mut first = request(alloc, channel.config(), 0, Access::Write(0, 1, 0xff))?;
    first.port = 1;
    check_eq(
        rt,
        "whether it is admitted",
        channel.admit(first).is_ok(),
        true,
    );
    admit_all(alloc, channel, 0, &[Access::Read(0)])
}

/// Compares the ports of the two completions, and the line that was read.
fn check_ports(rt: &impl Abort, taken: &[Done]) -> Result<(), Fail> {
    let [write, read] = taken else {
        return Err("not two completions".into());
    };
    check_eq(rt, "the ports", (write.port, read.port), (1, 0));
    check_eq(rt, "the line", *read.line, line_with(&[0xff]));
    Ok(())
}

/// Serves both, and compares what comes of them.
pub fn serve_two_ports(rt: &impl Abort, alloc: Global, channel: &mut Channel) -> Result<(), Fail> {
    admit_of_two_ports(rt, alloc, channel)?;
    let taken = finish(alloc, channel)?;
    check_times(rt, alloc, &taken, TWO_PORTS.times)?;
    check_ports(rt, &taken)
}

#[test]
fn a_read_of_another_port_behind_a_write(rt: HostRuntime) -> Result<(), Fail> {
    play(&rt, rt.alloc(), &[], &Scene::TwoPorts, &TWO_PORTS)
}

/// RTW behind the read, whose row is opened first, though the write is older.
const READ_FIRST: Case = Case {
    lines: &[],
    turns: &[(0, &[Access::Write(0, 1, 0xff), Access::Read(512)])],
    outcome: Outcome {
        commands: &[
            Step::Act(0, 1, 0, 0),
            Step::Rd(4, 1, 0, 0, 0),
            Step::Act(5, 0, 0, 0),
            Step::Wr(11, 0, 0, 0, 0),
        ],
        end: 19,
        times: &[(1, 4, 12), (0, 11, 18)],
        lines: &[(1, &[])],
    },
};

#[test]
fn read_passes_older_write(rt: HostRuntime) -> Result<(), Fail> {
    check(&rt, rt.alloc(), &READ_FIRST)
}

//! Whole traces: legal ones, of which each command comes in the first cycle that the rules leave to it.
use ddr_samples::steps::{FIVE_BANKS, Step};

/// Two rows of a bank, one after the other: RCD, RAS, RP with RC, RCD.
const TWO_ROWS: &[Step] = &[
    Step::Act(0, 0, 0, 0),
    Step::Rd(4, 0, 0, 0, 0),
    Step::Pre(10, 0, 0),
    Step::Act(14, 0, 0, 1),
    Step::Rd(18, 0, 0, 1, 0),
];

/// Two reads of the open row before a row of the same bank.
const HITS_FIRST: &[Step] = &[
    Step::Act(0, 0, 0, 0),
    Step::Rd(4, 0, 0, 0, 0),
    Step::Rd(9, 0, 0, 0, 0),
    Step::Pre(12, 0, 0),
    Step::Act(16, 0, 0, 1),
    Step::Rd(20, 0, 0, 1, 0),
];

/// Two rows of a bank, and the first one again.
const OLDEST_FIRST: &[Step] = &[
    Step::Act(0, 0, 0, 0),
    Step::Rd(4, 0, 0, 0, 0),
    Step::Pre(10, 0, 0),
    Step::Act(14, 0, 0, 1),
    Step::Rd(18, 0, 0, 1, 0),
    Step::Pre(24, 0, 0),
    Step::Act(28, 0, 0, 0),
    Step::Rd(32, 0, 0, 0, 0),
];

/// Two writes and a read of a row: CCD_L, and WTR_L behind the last write's data.
const READ_AFTER_WRITES: &[Step] = &[
    Step::Act(0, 0, 0, 0),
    Step::Wr(4, 0, 0, 0, 0),
    Step::Wr(9, 0, 0, 0, 0),
    Step::Rd(20, 0, 0, 0, 0),
];

/// A write behind a read of the row: RTW.
const WRITE_AFTER_READ: &[Step] = &[
    Step::Act(0, 0, 0, 0),
    Step::Rd(4, 0, 0, 0, 0),
    Step::Wr(11, 0, 0, 0, 0),
];

const ONE: &[(u32, u32)] = &[(0, 0)];

const FIVE: &[(u32, u32)] = &[(0, 0), (1, 0), (2, 0), (3, 0), (0, 1)];

/// Legal traces, each with the first cycle behind it and the banks that it names, group and bank.
pub const LEGAL: &[(&[Step], u64, &[(u32, u32)])] = &[
    (TWO_ROWS, 27, ONE),
    (FIVE_BANKS, 29, FIVE),
    (HITS_FIRST, 29, ONE),
    (OLDEST_FIRST, 41, ONE),
    (READ_AFTER_WRITES, 29, ONE),
    (WRITE_AFTER_READ, 19, ONE),
];

//! The configurations of the inputs: DDR4-2400 (JESD79-4, CL 17, devices of 8 Gb and x8).
//!
//! `text` stands below; `scripts` and `traces` begin their inputs by them.
use crate::text::word;
use std::alloc::{AllocError, Global};

/// The timing of both, but for how many refreshes may be postponed.
const TIMING: &str = "cl = 17
cwl = 12
rcd = 17
rp = 17
ras = 39
rc = 56
rrd_s = 4
rrd_l = 6
faw = 26
ccd_s = 4
ccd_l = 6
wtr_s = 3
wtr_l = 9
wr = 18
rtp = 9
rtw = 11
rfc = 420
refi = 9363
";

/// Two channels of one rank, for four ports. Neighbouring lines go to both channels and round the bank groups.
const ONE_RANK: [&str; 3] = [
    "version = 1
channels = 2
ports = 4
window = 16
intake = 16
reads = 32
writes = 32
done = 32
low = 8
high = 24
cap = 2000
groups = 4
rows = 65536
columns = 1024
map = \"channel group column bank row\"
bank_xor = true
",
    TIMING,
    "postpone = 4
---
",
];

/// Four channels of two ranks, for eight ports, with rows that are closed and small queues.
const TWO_RANKS: [&str; 3] = [
    "version = 2
channels = 4
ports = 8
window = 64
intake = 8
reads = 32
writes = 32
done = 16
low = 0
high = 32
cap = 400
groups = 4
rows = 65536
columns = 1024
map = \"channel column rank group bank row\"
bank_xor = false
",
    TIMING,
    "postpone = 0
closed = true
ranks = 2
rtrs = 2
---
",
];

/// An input that begins by the configuration of one rank.
pub(crate) fn of_one_rank(alloc: Global) -> Result<Vec<u8>, AllocError> {
    joined(alloc, &ONE_RANK)
}

/// An input that begins by the configuration of two ranks.
pub(crate) fn of_two_ranks(alloc: Global) -> Result<Vec<u8>, AllocError> {
    joined(alloc, &TWO_RANKS)
}

/// These texts, one behind the other.
fn joined(alloc: Global, parts: &[&str]) -> Result<Vec<u8>, AllocError> {
    let mut text = Vec::new(alloc);
    for part in parts {
        word(&mut text, part)?;
    }
    Ok(text)
}

//! What one command makes of a bank, and what the bank then answers, with the timing of the sample configuration.
use super::entries::{act, pre, pre_all, rd, rda, wra};
use ddr_samples::sample::sample;
use ddr_trace::bank::{OpenBank, changed_by};
use ddr_trace::command::Entry;

/// Row 7 is open since 0.
const OPENED: OpenBank = OpenBank {
    row: 7,
    since: 0,
    auto: None,
};

/// An RDA at 4 is to close it, from 10 on.
const CLOSING: OpenBank = OpenBank {
    row: 7,
    since: 0,
    auto: Some(rda!(4, 0, 0, 7)),
};

#[test]
fn an_open_row(rt: HostRuntime) {
    let timing = sample().timing;
    assert_eq!(rt; OPENED.open_row(1000, &timing), Some(7));
    assert_eq!(rt; CLOSING.open_row(9, &timing), Some(7));
    assert_eq!(rt; CLOSING.open_row(10, &timing), None);
}

#[test]
fn a_row_for_reads_and_writes(rt: HostRuntime) {
    assert_eq!(rt; OPENED.ready_row(), Some(7));
    assert_eq!(rt; CLOSING.ready_row(), None);
}

#[test]
fn rp_of_an_auto_precharge(rt: HostRuntime) {
    let timing = sample().timing;
    assert!(rt; !OPENED.is_auto_within(0, &timing));
    assert!(rt; CLOSING.is_auto_within(13, &timing));
    assert!(rt; !CLOSING.is_auto_within(14, &timing));
}

/// A command, the bank before it, and the bank after it.
const CHANGES: &[(Entry, Option<OpenBank>, Option<OpenBank>)] = &[
    (act!(0, 0, 0, 7), None, Some(OPENED)),
    (act!(0, 0, 0, 7), Some(CLOSING), Some(OPENED)),
    (rd!(4, 0, 0, 7), Some(OPENED), Some(OPENED)),
    (rda!(4, 0, 0, 7), Some(OPENED), Some(CLOSING)),
    (wra!(4, 0, 0, 7), None, None),
    (pre!(10, 0, 0), Some(OPENED), None),
    (pre_all!(10), Some(CLOSING), None),
];

#[test]
fn changes(rt: HostRuntime) {
    for (entry, before, after) in CHANGES {
        assert_eq!(rt; changed_by(entry, *before), *after, "{entry:?}");
    }
}

//! Reads and writes with auto-precharge: the first fault of traces on either side of each rule that they take part in, and
//! their text. The distances are those of the sample configuration where a test doesn't say otherwise.
use super::entries::{act, pre, pre_all, rd, rda, refresh, wr, wra};
use super::{Ending, check_last, config_with};
use ddr_samples::sample::sample;
use ddr_timing::profile::PROFILE_S;
use ddr_trace::command::{Command, Entry};
use ddr_trace::rule::Rule;
use ddr_trace_text::reader::read_trace;
use ddr_trace_text::text::write_trace;
use std::test::Fail;

const OPENED: Entry = act!(0, 0, 0, 0);

/// The write's data end at 11, and WR later, at 16, its precharge starts.
const AFTER_WRITE: &[Ending] = &[
    (
        &[OPENED, wra!(4, 0, 0, 0), act!(15, 0, 0, 0)],
        Some(Rule::State),
    ),
    (
        &[OPENED, wra!(4, 0, 0, 0), act!(16, 0, 0, 0)],
        Some(Rule::Rp),
    ),
    (
        &[OPENED, wra!(4, 0, 0, 0), act!(19, 0, 0, 0)],
        Some(Rule::Rp),
    ),
    (&[OPENED, wra!(4, 0, 0, 0), act!(20, 0, 0, 0)], None),
    (&[OPENED, wra!(4, 0, 0, 0), pre!(15, 0, 0)], Some(Rule::Wr)),
    (&[OPENED, wra!(4, 0, 0, 0), pre!(16, 0, 0)], None),
    (&[OPENED, wra!(4, 0, 0, 0), refresh!(15)], Some(Rule::State)),
    (&[OPENED, wra!(4, 0, 0, 0), refresh!(19)], Some(Rule::RpRef)),
    (&[OPENED, wra!(4, 0, 0, 0), refresh!(20)], None),
];

#[test]
fn a_write_closes_its_row(rt: HostRuntime) {
    check_last(&rt, &sample(), AFTER_WRITE);
}

/// RTP allows the precharge at 7, and RAS at 10.
const UP_TO_RAS: &[Ending] = &[
    (&[OPENED, rda!(4, 0, 0, 0), refresh!(9)], Some(Rule::State)),
    (&[OPENED, rda!(4, 0, 0, 0), refresh!(10)], Some(Rule::RpRef)),
    (&[OPENED, rda!(4, 0, 0, 0), refresh!(13)], Some(Rule::RpRef)),
    (&[OPENED, rda!(4, 0, 0, 0), refresh!(14)], None),
    (
        &[OPENED, rda!(4, 0, 0, 0), act!(9, 0, 0, 1)],
        Some(Rule::State),
    ),
    (
        &[OPENED, rda!(4, 0, 0, 0), act!(13, 0, 0, 1)],
        Some(Rule::Rc),
    ),
    (&[OPENED, rda!(4, 0, 0, 0), act!(14, 0, 0, 1)], None),
    (&[OPENED, rda!(4, 0, 0, 0), pre!(9, 0, 0)], Some(Rule::Ras)),
    (&[OPENED, rda!(4, 0, 0, 0), pre!(10, 0, 0)], None),
];

/// RAS allows the precharge at 10, and RTP at 11.
const UP_TO_RTP: &[Ending] = &[
    (
        &[OPENED, rda!(8, 0, 0, 0), act!(10, 0, 0, 1)],
        Some(Rule::State),
    ),
    (
        &[OPENED, rda!(8, 0, 0, 0), act!(14, 0, 0, 1)],
        Some(Rule::Rp),
    ),
    (&[OPENED, rda!(8, 0, 0, 0), act!(15, 0, 0, 1)], None),
    (&[OPENED, rda!(8, 0, 0, 0), pre_all!(10)], Some(Rule::Rtp)),
    (&[OPENED, rda!(8, 0, 0, 0), pre_all!(11)], None),
];

#[test]
fn a_read_closes_its_row(rt: HostRuntime) {
    check_last(&rt, &sample(), UP_TO_RAS);
    check_last(&rt, &sample(), UP_TO_RTP);
}

/// The precharge starts at 10, and not at 7: 4 clocks later the next row may be opened.
const SHORT_CYCLE: &[Ending] = &[
    (
        &[OPENED, rda!(4, 0, 0, 0), act!(9, 0, 0, 1)],
        Some(Rule::State),
    ),
    (
        &[OPENED, rda!(4, 0, 0, 0), act!(10, 0, 0, 1)],
        Some(Rule::Rp),
    ),
    (
        &[OPENED, rda!(4, 0, 0, 0), act!(13, 0, 0, 1)],
        Some(Rule::Rp),
    ),
    (&[OPENED, rda!(4, 0, 0, 0), act!(14, 0, 0, 1)], None),
];

#[test]
fn rp_counts_from_the_start_where_rc_does_not_matter(rt: HostRuntime) {
    let mut config = sample();
    config.timing.rc = 1;
    check_last(&rt, &config, SHORT_CYCLE);
}

/// The second command's precharge starts at 10, or at 16.
const ABOUT_TO_CLOSE: &[Ending] = &[
    (
        &[OPENED, rda!(4, 0, 0, 0), rd!(9, 0, 0, 0)],
        Some(Rule::State),
    ),
    (
        &[OPENED, rda!(4, 0, 0, 0), rda!(9, 0, 0, 0)],
        Some(Rule::State),
    ),
    (
        &[OPENED, rda!(4, 0, 0, 0), wr!(11, 0, 0, 0)],
        Some(Rule::State),
    ),
    (
        &[OPENED, rda!(4, 0, 0, 0), wra!(11, 0, 0, 0)],
        Some(Rule::State),
    ),
    (
        &[OPENED, wra!(4, 0, 0, 0), wr!(9, 0, 0, 0)],
        Some(Rule::State),
    ),
    (
        &[OPENED, wra!(4, 0, 0, 0), wra!(9, 0, 0, 0)],
        Some(Rule::State),
    ),
    (
        &[OPENED, wra!(4, 0, 0, 0), rd!(15, 0, 0, 0)],
        Some(Rule::State),
    ),
    (
        &[OPENED, wra!(4, 0, 0, 0), rda!(15, 0, 0, 0)],
        Some(Rule::State),
    ),
    (&[OPENED, rda!(4, 0, 0, 1)], Some(Rule::Row)),
    (&[rda!(4, 0, 0, 0)], Some(Rule::State)),
    (&[act!(0, 0, 1, 0), wra!(4, 0, 0, 0)], Some(Rule::State)),
];

#[test]
fn no_read_or_write_follows_in_the_row(rt: HostRuntime) {
    check_last(&rt, &sample(), ABOUT_TO_CLOSE);
}

/// Legal traces: the next row is opened, and read or written.
const NEXT_ROW: &[Ending] = &[
    (&[OPENED, wr!(4, 0, 0, 0), rda!(15, 0, 0, 0)], None),
    (
        &[
            OPENED,
            rda!(4, 0, 0, 0),
            act!(14, 0, 0, 1),
            rda!(18, 0, 0, 1),
        ],
        None,
    ),
    (
        &[
            act!(0, 0, 0, 1),
            rda!(4, 0, 0, 1),
            act!(14, 0, 0, 0),
            wra!(18, 0, 0, 0),
        ],
        None,
    ),
    (
        &[OPENED, wra!(4, 0, 0, 0), pre!(20, 0, 0), act!(23, 0, 0, 1)],
        Some(Rule::Rp),
    ),
    (
        &[
            OPENED,
            wra!(4, 0, 0, 0),
            pre!(20, 0, 0),
            act!(24, 0, 0, 1),
            rd!(28, 0, 0, 1),
        ],
        None,
    ),
];

#[test]
fn the_next_row_is_opened(rt: HostRuntime) {
    check_last(&rt, &sample(), NEXT_ROW);
}

/// The first bank's precharge starts at 10, that of the second at 23.
const TWO_BANKS: &[Entry] = &[
    OPENED,
    act!(3, 0, 1, 0),
    rda!(4, 0, 0, 0),
    wra!(11, 0, 1, 0),
];

const REFRESHES: &[(Entry, Option<Rule>)] = &[
    (refresh!(22), Some(Rule::State)),
    (refresh!(23), Some(Rule::RpRef)),
    (refresh!(26), Some(Rule::RpRef)),
    (refresh!(27), None),
];

#[test]
fn a_refresh_waits_for_every_bank(rt: HostRuntime) -> Result<(), Fail> {
    for (refresh, rule) in REFRESHES {
        let mut entries = TWO_BANKS.to_vec(rt.alloc())?;
        entries.push(*refresh)?;
        check_last(&rt, &sample(), &[(&entries, *rule)]);
    }
    Ok(())
}

/// A write's data end at 11, and its recovery at 31. The read behind it closes the bank at 18.
const IN_RECOVERY: &[Ending] = &[
    (
        &[OPENED, wr!(4, 0, 0, 0), rda!(15, 0, 0, 0), pre_all!(17)],
        Some(Rule::Rtp),
    ),
    (
        &[OPENED, wr!(4, 0, 0, 0), rda!(15, 0, 0, 0), pre_all!(18)],
        Some(Rule::Wr),
    ),
    (
        &[OPENED, wr!(4, 0, 0, 0), rda!(15, 0, 0, 0), pre_all!(30)],
        Some(Rule::Wr),
    ),
    (
        &[OPENED, wr!(4, 0, 0, 0), rda!(15, 0, 0, 0), pre_all!(31)],
        None,
    ),
    (
        &[OPENED, wr!(4, 0, 0, 0), rda!(15, 0, 0, 0), pre!(30, 0, 0)],
        Some(Rule::Wr),
    ),
    (
        &[OPENED, wr!(4, 0, 0, 0), rda!(15, 0, 0, 0), pre!(30, 0, 1)],
        None,
    ),
    (
        &[
            OPENED,
            wr!(4, 0, 0, 0),
            rda!(15, 0, 0, 0),
            act!(17, 0, 0, 1),
        ],
        Some(Rule::State),
    ),
    (
        &[
            OPENED,
            wr!(4, 0, 0, 0),
            rda!(15, 0, 0, 0),
            act!(21, 0, 0, 1),
        ],
        Some(Rule::Rp),
    ),
    (
        &[
            OPENED,
            wr!(4, 0, 0, 0),
            rda!(15, 0, 0, 0),
            act!(22, 0, 0, 1),
        ],
        None,
    ),
    (
        &[OPENED, wr!(4, 0, 0, 0), rda!(15, 0, 0, 0), refresh!(22)],
        None,
    ),
    (
        &[
            OPENED,
            wr!(4, 0, 0, 0),
            rda!(15, 0, 0, 0),
            act!(22, 0, 0, 1),
            pre!(30, 0, 0),
        ],
        Some(Rule::Wr),
    ),
    (
        &[
            OPENED,
            wr!(4, 0, 0, 0),
            rda!(15, 0, 0, 0),
            act!(22, 0, 0, 1),
            pre!(31, 0, 0),
        ],
        None,
    ),
];

#[test]
fn the_recovery_of_an_earlier_write_goes_on(rt: HostRuntime) -> Result<(), Fail> {
    let lines = [("ras", "ras = 5"), ("wr", "wr = 20")];
    let config = config_with(rt.alloc(), PROFILE_S, &lines)?;
    check_last(&rt, &config, IN_RECOVERY);
    Ok(())
}

/// RTP of the read ends at 64. The write behind it closes the bank at 23.
const AFTER_A_READ: &[Ending] = &[
    (
        &[
            OPENED,
            rd!(4, 0, 0, 0),
            wra!(11, 0, 0, 0),
            act!(22, 0, 0, 1),
        ],
        Some(Rule::State),
    ),
    (
        &[
            OPENED,
            rd!(4, 0, 0, 0),
            wra!(11, 0, 0, 0),
            act!(26, 0, 0, 1),
        ],
        Some(Rule::Rp),
    ),
    (
        &[
            OPENED,
            rd!(4, 0, 0, 0),
            wra!(11, 0, 0, 0),
            act!(27, 0, 0, 1),
        ],
        None,
    ),
    (
        &[OPENED, rd!(4, 0, 0, 0), wra!(11, 0, 0, 0), pre_all!(63)],
        Some(Rule::Rtp),
    ),
    (
        &[OPENED, rd!(4, 0, 0, 0), wra!(11, 0, 0, 0), pre_all!(64)],
        None,
    ),
    (
        &[
            OPENED,
            rd!(4, 0, 0, 0),
            wra!(11, 0, 0, 0),
            act!(27, 0, 0, 1),
            pre!(63, 0, 0),
        ],
        Some(Rule::Rtp),
    ),
];

#[test]
fn the_rtp_of_an_earlier_read_goes_on(rt: HostRuntime) -> Result<(), Fail> {
    let config = config_with(rt.alloc(), PROFILE_S, &[("rtp", "rtp = 60")])?;
    check_last(&rt, &config, AFTER_A_READ);
    Ok(())
}

const SAME_GROUP: Entry = act!(3, 0, 1, 0);

const OTHER_GROUP: Entry = act!(2, 1, 0, 0);

const SAME_KIND: &[Ending] = &[
    (
        &[OPENED, SAME_GROUP, rda!(7, 0, 0, 0), rd!(11, 0, 1, 0)],
        Some(Rule::CcdL),
    ),
    (
        &[OPENED, SAME_GROUP, rda!(7, 0, 0, 0), rd!(12, 0, 1, 0)],
        None,
    ),
    (
        &[OPENED, SAME_GROUP, rd!(7, 0, 0, 0), rda!(11, 0, 1, 0)],
        Some(Rule::CcdL),
    ),
    (
        &[OPENED, SAME_GROUP, rd!(7, 0, 0, 0), rda!(12, 0, 1, 0)],
        None,
    ),
    (
        &[OPENED, SAME_GROUP, wra!(7, 0, 0, 0), wra!(11, 0, 1, 0)],
        Some(Rule::CcdL),
    ),
    (
        &[OPENED, SAME_GROUP, wra!(7, 0, 0, 0), wra!(12, 0, 1, 0)],
        None,
    ),
    (
        &[OPENED, OTHER_GROUP, rda!(6, 0, 0, 0), rda!(9, 1, 0, 0)],
        Some(Rule::CcdS),
    ),
    (
        &[OPENED, OTHER_GROUP, rda!(6, 0, 0, 0), rda!(10, 1, 0, 0)],
        None,
    ),
    (
        &[OPENED, OTHER_GROUP, wra!(6, 0, 0, 0), wr!(9, 1, 0, 0)],
        Some(Rule::CcdS),
    ),
    (
        &[OPENED, OTHER_GROUP, wra!(6, 0, 0, 0), wr!(10, 1, 0, 0)],
        None,
    ),
    (
        &[OPENED, OTHER_GROUP, wr!(6, 0, 0, 0), wra!(9, 1, 0, 0)],
        Some(Rule::CcdS),
    ),
    (
        &[OPENED, OTHER_GROUP, wr!(6, 0, 0, 0), wra!(10, 1, 0, 0)],
        None,
    ),
    (&[OPENED, rda!(3, 0, 0, 0)], Some(Rule::Rcd)),
    (&[OPENED, wra!(3, 0, 0, 0)], Some(Rule::Rcd)),
];

const BUS_TURNS: &[Ending] = &[
    (
        &[OPENED, SAME_GROUP, wra!(7, 0, 0, 0), rd!(17, 0, 1, 0)],
        Some(Rule::WtrL),
    ),
    (
        &[OPENED, SAME_GROUP, wra!(7, 0, 0, 0), rd!(18, 0, 1, 0)],
        None,
    ),
    (
        &[OPENED, SAME_GROUP, wr!(7, 0, 0, 0), rda!(17, 0, 1, 0)],
        Some(Rule::WtrL),
    ),
    (
        &[OPENED, SAME_GROUP, wr!(7, 0, 0, 0), rda!(18, 0, 1, 0)],
        None,
    ),
    (
        &[OPENED, OTHER_GROUP, wra!(6, 0, 0, 0), rda!(14, 1, 0, 0)],
        Some(Rule::WtrS),
    ),
    (
        &[OPENED, OTHER_GROUP, wra!(6, 0, 0, 0), rda!(15, 1, 0, 0)],
        None,
    ),
    (
        &[OPENED, OTHER_GROUP, rda!(6, 0, 0, 0), wr!(12, 1, 0, 0)],
        Some(Rule::Rtw),
    ),
    (
        &[OPENED, OTHER_GROUP, rda!(6, 0, 0, 0), wr!(13, 1, 0, 0)],
        None,
    ),
    (
        &[OPENED, OTHER_GROUP, rd!(6, 0, 0, 0), wra!(12, 1, 0, 0)],
        Some(Rule::Rtw),
    ),
    (
        &[OPENED, OTHER_GROUP, rd!(6, 0, 0, 0), wra!(13, 1, 0, 0)],
        None,
    ),
];

#[test]
fn they_are_reads_and_writes(rt: HostRuntime) {
    check_last(&rt, &sample(), SAME_KIND);
    check_last(&rt, &sample(), BUS_TURNS);
}

const LAST_LINE: Entry = Entry {
    cycle: 18,
    command: Command::WrAuto {
        rank: 1,
        group: 3,
        bank: 2,
        row: 15,
        line: 7,
    },
};

const COMMANDS: &[Entry] = &[act!(0, 0, 0, 1), rda!(4, 0, 0, 1), LAST_LINE];

const TEXT: &[u8] = b"cycle,cmd,rank,group,bank,row,col
0,ACT,0,0,0,1,
4,RDA,0,0,0,1,0
18,WRA,1,3,2,15,56
26,END,,,,,
";

#[test]
fn they_are_written(rt: HostRuntime) -> Result<(), Fail> {
    let mut text = Vec::new(rt.alloc());
    write_trace(rt.alloc(), COMMANDS, 26, &mut text)?;
    assert_eq!(rt; text.as_slice(), TEXT);
    Ok(())
}

#[test]
fn they_are_read(rt: HostRuntime) -> Result<(), Fail> {
    let trace = read_trace(rt.alloc(), TEXT)?;
    assert_eq!(rt; (trace.start, trace.end), (0, 26));
    assert_eq!(rt; trace.entries.as_slice(), COMMANDS);
    Ok(())
}

//! What `lint` writes of worked configurations, without and with `--bound`: profile S, or S2, with other lines in the place of some. The
//! numbers are worked out by hand.
use crate::bound::bound;
use crate::lint::lint;
use crate::verdict::Verdict;
use ddr_text::fault::Fault;
use ddr_timing::profile::{PROFILE_S, PROFILE_S2};
use std::alloc::{AllocError, Global};
use std::process::Abort;
use std::str;
use std::test::Fail;

/// The lines that have others in their place, the verdict, and what is written.
type Case<'a> = (&'a [(&'a str, &'a str)], Verdict, &'a str);

/// A configuration with other lines in the place of some.
fn with_lines(alloc: Global, config: &str, lines: &[(&str, &str)]) -> Result<String, AllocError> {
    let mut text = String::from_str(alloc, config)?;
    for (old, new) in lines {
        text = text.replace(alloc, old, new)?;
    }
    Ok(text)
}

/// That the command ends so on an input, and writes this text.
fn is_so(
    rt: &impl Abort,
    alloc: Global,
    sample: bool,
    input: &[u8],
    wanted: Result<Verdict, Fault>,
    text: &str,
) {
    let mut reader = input;
    let mut bytes = Vec::new(alloc);
    let end = lint(alloc, sample, &mut reader, &mut bytes);
    assert_eq!(rt; str::from_utf8(bytes.as_slice()).ok(), Some(text));
    assert_eq!(rt; end, wanted, "{text:?}");
}

/// That of a configuration with other lines these findings are written.
fn all_found(
    rt: &impl Abort,
    alloc: Global,
    config: &str,
    cases: &[Case],
) -> Result<(), AllocError> {
    for (lines, verdict, text) in cases {
        let input = with_lines(alloc, config, lines)?;
        is_so(rt, alloc, false, input.as_bytes(), Ok(*verdict), text);
    }
    Ok(())
}

#[test]
fn nothing_is_found_in_the_samples(rt: HostRuntime) {
    let alloc = rt.alloc();
    is_so(&rt, alloc, true, b"cl = 0", Ok(Verdict::Clean), "");
    let profiles = [PROFILE_S, PROFILE_S2];
    for profile in profiles {
        is_so(
            &rt,
            alloc,
            false,
            profile.as_bytes(),
            Ok(Verdict::Clean),
            "",
        );
    }
}

#[test]
fn what_stands_behind_the_mark_is_not_looked_at(rt: HostRuntime) -> Result<(), Fail> {
    let alloc = rt.alloc();
    let input = with_lines(
        alloc,
        PROFILE_S,
        &[("postpone = 2\n", "---\npostpone = 9\n")],
    )?;
    is_so(
        &rt,
        alloc,
        false,
        input.as_bytes(),
        Ok(Verdict::AtFault),
        "missing: there is no key postpone\n",
    );
    Ok(())
}

#[test]
fn inputs_that_are_no_text_are_refused(rt: HostRuntime) {
    let alloc = rt.alloc();
    is_so(&rt, alloc, false, &[0xff], Err(Fault::InputNotUtf8), "");
    let wanted = "syntax: the configuration is no TOML text\n";
    is_so(&rt, alloc, false, b"cl", Ok(Verdict::AtFault), wanted);
}

/// Relation 5 has 12 + 4 + 18 = 34, then 39 + 17 = 56, and 420 + 4.
const RELATIONS: &[Case] = &[
    (
        &[("ccd_s = 4", "ccd_s = 3"), ("ccd_l = 5", "ccd_l = 2")],
        Verdict::AtFault,
        "relation 1: ccd_s 3 is below 4\nrelation 2: ccd_l 2 is below ccd_s 3\n",
    ),
    (
        &[("rrd_l = 3", "rrd_l = 1")],
        Verdict::AtFault,
        "relation 3: rrd_l 1 is below rrd_s 2\n",
    ),
    (
        &[("rtw = 7", "rtw = 4")],
        Verdict::AtFault,
        "relation 4: max(4, 4 + 4 - 3) = 5 is above rtw 4
warning: rtw + cwl = 7 is below cl + 6 = 10: fewer than 2 clocks lie on the data bus between the data of a read and of a write
",
    ),
    (
        &[("rtw = 7", "rtw = 3"), ("cwl = 3", "cwl = 20")],
        Verdict::AtFault,
        "relation 4: max(4, 4 + 4 - 20) = 4 is above rtw 3
warning: cl + 1 = 5 is below cwl = 20: in DDR4's speed bins the write latency is at most one clock longer
",
    ),
    (
        &[
            ("cl = 4", "cl = 16"),
            ("cwl = 3", "cwl = 12"),
            ("rp = 4", "rp = 17"),
            ("ras = 10", "ras = 39"),
            ("rc = 14", "rc = 56"),
            ("wr = 5", "wr = 18"),
            ("rtp = 3", "rtp = 9"),
            ("rtw = 7", "rtw = 10"),
            ("rfc = 20", "rfc = 420"),
            ("refi = 200", "refi = 420"),
        ],
        Verdict::AtFault,
        "relation 5: max(max(39, 12 + 4 + 18, 9) + 17, 420) + 4 = 424 is above refi 420
warning: refi = 420 is below 4 * rfc = 1680: a rank would spend more than a quarter of its time on REFs
warning: refi = 420 is below a refresh and a request = 845: a request may wait for ever, since each refresh may close its row before it is read
",
    ),
    (
        &[("low = 2", "low = 6")],
        Verdict::AtFault,
        "relation 6: low 6 is not below high 6
warning: high = 6 is below low + 2 = 8: a drain may end behind a single write, and the data bus turns around for it
",
    ),
    (
        &[("high = 6", "high = 9")],
        Verdict::AtFault,
        "relation 7: high 9 is above writes 8
warning: ports * window = 8 is below high = 9: so many writes are never pending, so no drain begins
",
    ),
];

#[test]
fn broken_relations_are_told_with_both_sides(rt: HostRuntime) -> Result<(), Fail> {
    all_found(&rt, rt.alloc(), PROFILE_S, RELATIONS)?;
    Ok(())
}

/// `cll` is one letter from `cl` and from `cwl`, of which `cl` is the first. Of the keys that share no letter with three
/// signs, `low` is the first that is no longer.
const KEYS: &[Case] = &[
    (
        &[("cl = 4\n", "cll = 4\n")],
        Verdict::AtFault,
        "missing: there is no key cl\nunknown key: cll, the nearest known one is cl\n",
    ),
    (
        &[("wtr_l = 4\n", "wtrl = 4\nranks = 1\n\"a\\tb\" = 0\n")],
        Verdict::AtFault,
        "missing: there is no key wtr_l
unknown key: a?b, the nearest known one is low
unknown key: ranks, which version 2 alone has
unknown key: wtrl, the nearest known one is wtr_l
",
    ),
    (
        &[
            ("channels = 2\n", "channels = 5\n"),
            ("high = 6\n", "high = -1\n"),
            ("rows = 16", "rows = 17"),
            ("rc = 14\n", ""),
        ],
        Verdict::AtFault,
        "range: channels = 5 is no integer from 1 to 4
range: high = -1 is no integer from 1 to 32
power of two: rows = 17 is none
missing: there is no key rc
",
    ),
    (
        &[
            ("groups = 4", "groups = 3"),
            ("rows = 16", "rows = 8"),
            (
                "\"column group bank row channel\"",
                "\"column group bank row\"",
            ),
            ("bank_xor = false", "bank_xor = 1"),
            ("cl = 4", "cl = \"four\""),
            ("rcd = 4", "rcd = 4.0"),
        ],
        Verdict::AtFault,
        "range: groups = 3 is neither 2 nor 4
range: rows = 8 is no power of two from 16 to 131072
range: map = \"column group bank row\" is no text of the words channel, group, bank, column and row, each once with one space between two
range: bank_xor = 1 is neither true nor false
range: cl = \"four\" is no integer from 1 to 65535
range: rcd = a float is no integer from 1 to 65535
",
    ),
];

#[test]
fn each_key_at_fault_is_told(rt: HostRuntime) -> Result<(), Fail> {
    all_found(&rt, rt.alloc(), PROFILE_S, KEYS)?;
    Ok(())
}

/// A request that meets a refresh takes max(max(10, 3 + 4 + 5, 3) + 4, 20) + 1 + 20 + 4 = 45 clocks in profile S, and with two ranks no
/// fewer than 4 + 4 + rtrs. In the last case one that is served alone takes 188 + 181 clocks.
const TIMINGS: &[Case] = &[
    (
        &[("rc = 14", "rc = 13")],
        Verdict::Strange,
        "warning: rc = 13 is below ras + rp = 14: a bank that is active for ras and precharged for rp is never activated sooner, so rc has no effect\n",
    ),
    (
        &[("ras = 10", "ras = 6")],
        Verdict::Strange,
        "warning: ras = 6 is below rcd + rtp = 7: a row that is read is precharged no sooner than that, so ras has no effect on it\n",
    ),
    (
        &[("rrd_l = 3", "rrd_l = 15")],
        Verdict::Strange,
        "warning: rc = 14 is below rrd_l = 15: activates of two banks of a group would stand further apart than those of one bank\n",
    ),
    (
        &[("faw = 12", "faw = 7")],
        Verdict::Strange,
        "warning: faw = 7 is below 4 * rrd_s = 8: four activates of different banks take longer anyway, where in DDR4 tFAW is no less than that\n",
    ),
    (
        &[("wtr_l = 4", "wtr_l = 1")],
        Verdict::Strange,
        "warning: wtr_l = 1 is below wtr_s = 2: a read of the group just written would be allowed sooner than one of another group\n",
    ),
    (
        &[("rtw = 7", "rtw = 6")],
        Verdict::Strange,
        "warning: rtw + cwl = 9 is below cl + 6 = 10: fewer than 2 clocks lie on the data bus between the data of a read and of a write\n",
    ),
    (
        &[("cwl = 3", "cwl = 6")],
        Verdict::Strange,
        "warning: cl + 1 = 5 is below cwl = 6: in DDR4's speed bins the write latency is at most one clock longer\n",
    ),
    (
        &[("wr = 5", "wr = 2")],
        Verdict::Strange,
        "warning: wr = 2 is below rtp = 3: a write would hold up a precharge less than a read does, where in DDR4 wr is twice rtp\n",
    ),
    (
        &[("ccd_s = 4", "ccd_s = 5")],
        Verdict::Strange,
        "warning: the clocks of a burst = 4 is below ccd_s = 5: bursts of one kind would leave the data bus idle between them, where in DDR4 tCCD_S is 4\n",
    ),
    (
        &[("rfc = 20", "rfc = 13")],
        Verdict::Strange,
        "warning: rfc = 13 is below rc = 14: a REF, which opens and closes rows of every bank, would take less than one row of one bank\n",
    ),
    (
        &[("rfc = 20", "rfc = 51")],
        Verdict::Strange,
        "warning: refi = 200 is below 4 * rfc = 204: a rank would spend more than a quarter of its time on REFs\n",
    ),
    (
        &[("refi = 200", "refi = 45")],
        Verdict::Strange,
        "warning: refi = 45 is below 4 * rfc = 80: a rank would spend more than a quarter of its time on REFs\n",
    ),
    (
        &[("refi = 200", "refi = 44")],
        Verdict::Strange,
        "warning: refi = 44 is below 4 * rfc = 80: a rank would spend more than a quarter of its time on REFs
warning: refi = 44 is below a refresh and a request = 45: a request may wait for ever, since each refresh may close its row before it is read
",
    ),
    (&[("cwl = 3", "cwl = 5")], Verdict::Clean, ""),
    (
        &[
            ("rcd = 4", "rcd = 181"),
            ("ras = 10", "ras = 184"),
            ("rc = 14", "rc = 188"),
            ("rfc = 20", "rfc = 50"),
            ("refi = 200", "refi = 230"),
        ],
        Verdict::Strange,
        "warning: rfc = 50 is below rc = 188: a REF, which opens and closes rows of every bank, would take less than one row of one bank
warning: refi = 230 is below a refresh and a request = 420: a request may wait for ever, since each refresh may close its row before it is read
warning: cap = 1000 is below all pending requests one by one = 5904: under load every pending request may reach the age cap, and from then on each is served alone
",
    ),
];

#[test]
fn strange_timings_are_told(rt: HostRuntime) -> Result<(), Fail> {
    all_found(&rt, rt.alloc(), PROFILE_S, TIMINGS)?;
    Ok(())
}

/// A request that is served alone takes max(max(10, 3 + 4 + 5, 3) + 4, 14, 3, 12) + 4 = 20 clocks in profile S, and sixteen may be
/// pending.
const SIZES: &[Case] = &[
    (
        &[("cap = 1000", "cap = 8")],
        Verdict::Strange,
        "warning: cap = 8 is below rp + rcd + 1 = 9: a request that has to close another row reaches the age cap before it can be served
warning: cap = 8 is below rfc + 1 = 21: each request that waits through a REF reaches the age cap
warning: cap = 8 is below all pending requests one by one = 320: under load every pending request may reach the age cap, and from then on each is served alone
",
    ),
    (&[("cap = 1000", "cap = 320")], Verdict::Clean, ""),
    (
        &[("cap = 1000", "cap = 319")],
        Verdict::Strange,
        "warning: cap = 319 is below all pending requests one by one = 320: under load every pending request may reach the age cap, and from then on each is served alone\n",
    ),
    (
        &[("high = 6", "high = 3")],
        Verdict::Strange,
        "warning: high = 3 is below low + 2 = 4: a drain may end behind a single write, and the data bus turns around for it\n",
    ),
    (
        &[("window = 4", "window = 2")],
        Verdict::Strange,
        "warning: ports * window = 4 is below high = 6: so many writes are never pending, so no drain begins
warning: ports * window = 4 is below intake = 8: so many requests are never on their way to a channel
warning: ports * window = 4 is below reads = 8: so many reads are never pending
warning: ports * window = 4 is below writes = 8: so many writes are never pending
warning: ports * window = 4 is below done = 8: so many requests are never in flight or done
",
    ),
    (
        &[("done = 8", "done = 1")],
        Verdict::Strange,
        "warning: done * ccd_s = 4 is below cl + 4 = 8: too few requests may be in flight to keep the data bus busy\n",
    ),
    (
        &[
            ("window = 4", "window = 64"),
            ("intake = 8", "intake = 1"),
            ("reads = 8", "reads = 1"),
        ],
        Verdict::Strange,
        "warning: channels * (intake + reads + writes + done) = 36 is below window = 64: a port may have more requests outstanding than all queues hold\n",
    ),
];

#[test]
fn strange_sizes_are_told(rt: HostRuntime) -> Result<(), Fail> {
    all_found(&rt, rt.alloc(), PROFILE_S, SIZES)?;
    Ok(())
}

const SECOND: &[Case] = &[
    (
        &[("rtrs = 2", "rtrs = 5")],
        Verdict::Strange,
        "warning: the clocks of a burst = 4 is below rtrs = 5: a change of ranks would cost more than a whole burst\n",
    ),
    (
        &[("rtrs = 2", "rtrs = 192")],
        Verdict::Strange,
        "warning: the clocks of a burst = 4 is below rtrs = 192: a change of ranks would cost more than a whole burst
warning: cap = 1000 is below all pending requests one by one = 3200: under load every pending request may reach the age cap, and from then on each is served alone
",
    ),
    (
        &[("rtrs = 2", "rtrs = 193")],
        Verdict::Strange,
        "warning: the clocks of a burst = 4 is below rtrs = 193: a change of ranks would cost more than a whole burst
warning: refi = 200 is below a refresh and a request = 201: a request may wait for ever, since each refresh may close its row before it is read
warning: cap = 1000 is below all pending requests one by one = 3216: under load every pending request may reach the age cap, and from then on each is served alone
",
    ),
    (
        &[("rtrs = 2", "rtrs = 193"), ("ranks = 2", "ranks = 1")],
        Verdict::Strange,
        "warning: the clocks of a burst = 4 is below rtrs = 193: a change of ranks would cost more than a whole burst\n",
    ),
    (
        &[
            ("ranks = 2", "ranks = 3"),
            (" channel rank\"", " channel\""),
            ("closed = false\n", ""),
        ],
        Verdict::AtFault,
        "range: map = \"column group bank row channel\" is no text of the words channel, group, bank, column, row and rank, each once with one space between two
missing: there is no key closed
range: ranks = 3 is no integer from 1 to 2
",
    ),
];

#[test]
fn the_second_version_is_looked_through_by_its_keys(rt: HostRuntime) -> Result<(), Fail> {
    all_found(&rt, rt.alloc(), PROFILE_S2, SECOND)?;
    Ok(())
}

/// That of a configuration with other lines this is written where its bound is asked for.
fn all_bounded(
    rt: &impl Abort,
    alloc: Global,
    config: &str,
    cases: &[Case],
) -> Result<(), AllocError> {
    for (lines, verdict, text) in cases {
        let input = with_lines(alloc, config, lines)?;
        let mut reader = input.as_bytes();
        let mut bytes = Vec::new(alloc);
        let end = bound(alloc, false, &mut reader, &mut bytes);
        assert_eq!(rt; str::from_utf8(bytes.as_slice()).ok(), Some(*text));
        assert_eq!(rt; end, Ok(*verdict), "{text:?}");
    }
    Ok(())
}

/// The bound of profile S: of sixteen requests each takes 20 clocks, and 45 where it meets a refresh, so an interval has 155 clocks left.
/// The 16 * 20 + 45 = 365 clocks are those of three intervals, and 1000 + 320 + 4 * 45 + 8 = 1508.
const SAMPLE_BOUND: &str = "[bound]
proved = true
leaves_time = true
clocks = 1508
cap = 1000
pending = 16
service = 20
refreshes = 3
refreshed = 45
burst = 8
";

/// 365 clocks are five times 118 - 45 = 73, and 1000 + 320 + 6 * 45 + 8 = 1598. Where nothing is left over, each request meets a refresh:
/// 1000 + 320 + 17 * 45 + 8 = 2093. Nine requests have 9 * 20 + 45 = 225 clocks, more than 155, and 1000 + 180 + 3 * 45 + 8 = 1323. With
/// CWL 5 a bank is closed 5 + 4 + 5 + 4 = 18 clocks behind a write, a request takes 22, and sixteen of them 352 + 45 = 397 clocks: three
/// intervals, and 1 + 352 + 4 * 45 + 9 = 542.
const BOUNDS: &[Case] = &[
    (&[], Verdict::Clean, SAMPLE_BOUND),
    (&[("faw = 12", "faw = 7")], Verdict::Clean, SAMPLE_BOUND),
    (
        &[("refi = 200", "refi = 118")],
        Verdict::Clean,
        "[bound]
proved = true
leaves_time = true
clocks = 1598
cap = 1000
pending = 16
service = 20
refreshes = 5
refreshed = 45
burst = 8
",
    ),
    (
        &[("refi = 200", "refi = 45")],
        Verdict::Clean,
        "[bound]
proved = true
leaves_time = true
clocks = 2093
cap = 1000
pending = 16
service = 20
refreshes = 16
refreshed = 45
burst = 8
",
    ),
    (
        &[("refi = 200", "refi = 44")],
        Verdict::Strange,
        "[bound]
proved = false
leaves_time = false
cap = 1000
pending = 16
service = 20
refreshes = 16
refreshed = 45
burst = 8
",
    ),
    (
        &[("reads = 8", "reads = 1")],
        Verdict::Clean,
        "[bound]
proved = true
leaves_time = true
clocks = 1323
cap = 1000
pending = 9
service = 20
refreshes = 2
refreshed = 45
burst = 8
",
    ),
    (
        &[("cwl = 3", "cwl = 5"), ("cap = 1000", "cap = 1")],
        Verdict::Clean,
        "[bound]
proved = true
leaves_time = true
clocks = 542
cap = 1
pending = 16
service = 22
refreshes = 3
refreshed = 45
burst = 9
",
    ),
    (
        &[("rrd_l = 3", "rrd_l = 1")],
        Verdict::AtFault,
        "relation 3: rrd_l 1 is below rrd_s 2
",
    ),
];

/// With two ranks their refresh commands may take 2 * 2 + 5 = 9 clocks beside the 45: 146 are left of an interval, the 16 * 20 + 54 = 374
/// clocks are those of three, and 1000 + 320 + 4 * 54 + 8 = 1544. With 54 clocks an interval nothing is left, and each request meets a
/// refresh: 1000 + 320 + 17 * 54 + 8 = 2246. A read takes 4 + 4 + 193 clocks where it waits for another rank's.
const SECOND_BOUNDS: &[Case] = &[
    (
        &[],
        Verdict::Clean,
        "[bound]
proved = true
leaves_time = true
clocks = 1544
cap = 1000
pending = 16
service = 20
refreshes = 3
refreshed = 54
burst = 8
",
    ),
    (&[("ranks = 2", "ranks = 1")], Verdict::Clean, SAMPLE_BOUND),
    (
        &[("refi = 200", "refi = 54")],
        Verdict::Clean,
        "[bound]
proved = true
leaves_time = true
clocks = 2246
cap = 1000
pending = 16
service = 20
refreshes = 16
refreshed = 54
burst = 8
",
    ),
    (
        &[("refi = 200", "refi = 53")],
        Verdict::Strange,
        "[bound]
proved = false
leaves_time = true
cap = 1000
pending = 16
service = 20
refreshes = 16
refreshed = 54
burst = 8
",
    ),
    (
        &[("rtrs = 2", "rtrs = 193")],
        Verdict::Strange,
        "[bound]
proved = false
leaves_time = false
cap = 1000
pending = 16
service = 201
refreshes = 16
refreshed = 210
burst = 8
",
    ),
];

#[test]
fn bounds_are_told_with_their_parts(rt: HostRuntime) -> Result<(), Fail> {
    all_bounded(&rt, rt.alloc(), PROFILE_S, BOUNDS)?;
    all_bounded(&rt, rt.alloc(), PROFILE_S2, SECOND_BOUNDS)?;
    Ok(())
}

#[test]
fn the_bound_of_the_sample_is_told(rt: HostRuntime) {
    let alloc = rt.alloc();
    let mut reader: &[u8] = b"cl = 0";
    let mut bytes = Vec::new(alloc);
    let end = bound(alloc, true, &mut reader, &mut bytes);
    assert_eq!(rt; end, Ok(Verdict::Clean));
    assert_eq!(rt; str::from_utf8(bytes.as_slice()).ok(), Some(SAMPLE_BOUND));
}

#[test]
fn no_bound_is_told_of_what_is_no_text(rt: HostRuntime) {
    let alloc = rt.alloc();
    let mut reader: &[u8] = &[0xff];
    let mut bytes = Vec::new(alloc);
    let end = bound(alloc, false, &mut reader, &mut bytes);
    assert_eq!(rt; end, Err(Fault::InputNotUtf8));
    assert!(rt; bytes.is_empty());
}

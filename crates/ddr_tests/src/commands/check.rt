//! Verdicts on traces, with the faults that hand calculation gives for the sample configuration.
use super::{Command, ends_so, is_refused, is_so, perform};
use ddr_text::fault::Fault;
use std::test::Fail;

const HEADER: &str = "cycle,cmd,rank,group,bank,row,col\n";

/// The records of traces, and their verdicts.
const VERDICTS: &[(&str, &str)] = &[
    // The read comes 3 + 4 + 4 clocks after the write at the earliest.
    (
        "0,ACT,0,0,0,0,\n4,WR,0,0,0,0,0\n14,RD,0,0,0,0,0\n20,END,,,,,\n",
        "fault 2 WTR_L\n",
    ),
    (
        "0,ACT,0,0,0,0,\n4,WR,0,0,0,0,0\n15,RD,0,0,0,0,0\n20,END,,,,,\n",
        "legal\n",
    ),
    // The first REF is due at 9 * 200, and a further one 9 * 200 after one.
    ("1800,END,,,,,\n", "legal\n"),
    ("1801,END,,,,,\n", "fault 0 REF_LATE\n"),
    (
        "20,REF,0,,,,\n40,REF,0,,,,\n1840,REF,0,,,,\n1842,END,,,,,\n",
        "legal\n",
    ),
    (
        "20,REF,0,,,,\n40,REF,0,,,,\n1841,REF,0,,,,\n1842,END,,,,,\n",
        "fault 2 REF_GAP\n",
    ),
    // The fifth ACT comes 12 clocks after the first at the earliest.
    (
        "0,ACT,0,0,0,0,
2,ACT,0,1,0,0,
4,ACT,0,2,0,0,
6,ACT,0,3,0,0,
11,ACT,0,0,1,0,
30,END,,,,,
",
        "fault 4 FAW\n",
    ),
    (
        "0,ACT,0,0,0,0,
2,ACT,0,1,0,0,
4,ACT,0,2,0,0,
6,ACT,0,3,0,0,
12,ACT,0,0,1,0,
30,END,,,,,
",
        "legal\n",
    ),
    ("0,RD,0,0,0,0,0\n1,END,,,,,\n", "fault 0 STATE\n"),
    (
        "0,ACT,0,0,0,0,\n0,REF,0,,,,\n5,END,,,,,\n",
        "fault 1 ORDER\n",
    ),
    ("0,PREA,1,,,,\n5,END,,,,,\n", "fault 0 PLACE\n"),
];

#[test]
fn verdicts(rt: HostRuntime) -> Result<(), Fail> {
    for (records, verdict) in VERDICTS {
        let text = format!(in rt.alloc(); "{HEADER}{records}")?;
        let ran = perform(rt.alloc(), Command::Check, true, text.as_bytes());
        let is_legal = *verdict == "legal\n";
        is_so(&rt, ran, Ok(is_legal), verdict, records);
    }
    Ok(())
}

/// A trace that is a read 11 clocks behind a write.
const LATE_READ: &str = "cycle,cmd,rank,group,bank,row,col
0,ACT,0,0,0,0,
4,WR,0,0,0,0,0
15,RD,0,0,0,0,0
20,END,,,,,
";

/// Lines of the sample that have others in their place, and the mark. Then whether the late read is legal.
const CONFIGURED: &[(&[(&str, &str)], &str, bool, &str)] = &[
    (
        &[("wtr_l = 4", "wtr_l = 5")],
        "---\n",
        false,
        "fault 2 WTR_L\n",
    ),
    (&[], "---\r\n", true, "legal\n"),
];

#[test]
fn another_configuration(rt: HostRuntime) -> Result<(), Fail> {
    for (lines, mark, is_legal, verdict) in CONFIGURED {
        let rest = format!(in rt.alloc(); "{mark}{LATE_READ}")?;
        let case = (*lines, Command::Check, rest.as_str());
        ends_so(&rt, rt.alloc(), case, Ok(*is_legal), verdict)?;
    }
    Ok(())
}

const FAULTS: &[(&str, Fault)] = &[
    ("", Fault::TraceHeader),
    ("cycle,cmd\n", Fault::TraceHeader),
    (HEADER, Fault::TraceTruncated),
    (
        "cycle,cmd,rank,group,bank,row,col\n0,NOP,0,,,,\n",
        Fault::TraceRow { line: 2 },
    ),
    (
        "cycle,cmd,rank,group,bank,row,col\n5,END,,,,,\n5,END,,,,,\n",
        Fault::TraceOrder { line: 3 },
    ),
];

#[test]
fn faults(rt: HostRuntime) {
    for (trace, fault) in FAULTS {
        is_refused(
            &rt,
            rt.alloc(),
            Command::Check,
            true,
            trace.as_bytes(),
            *fault,
        );
    }
}

#[test]
fn a_command_too_many(rt: HostRuntime) -> Result<(), Fail> {
    let records = "7,REF,0,,,,\n".repeat(rt.alloc(), 65_537)?;
    let text = format!(in rt.alloc(); "{HEADER}{records}")?;
    let ran = perform(rt.alloc(), Command::Check, true, text.as_bytes());
    is_so(&rt, ran, Err(Fault::TraceTooLong), "", "65,537 commands");
    Ok(())
}

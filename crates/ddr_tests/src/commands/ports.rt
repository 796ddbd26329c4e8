//! Scripts of several ports and channels, refusals, masks and rounds, with what hand calculation gives.
use super::{Command, Configured, all_write, all_write_in, ends_so, is_so, perform};
use ddr_text::fault::Fault;
use std::alloc::Global;
use std::test::Fail;

/// The later mask replaces the bytes that it enables and no others.
const MASKS: &str =
    "mask 0 0 000000000000000f 1111111111111111111111111111111111111111111111111111111111111111\
1111111111111111111111111111111111111111111111111111111111111111
mask 0 0 000000000000003C 2222222222222222222222222222222222222222222222222222222222222222\
2222222222222222222222222222222222222222222222222222222222222222
read 0 3 7
";

/// The refresh falls due in cycle 200, and all banks are idle.
const REFRESHED: &str = "cycle,cmd,rank,group,bank,row,col\n200,REF,0,,,,\n201,END,,,,,\n";

const RUNS: &[(Command, &str, &str)] = &[
    (
        Command::Sim,
        MASKS,
        "0 0 write 0\n0 1 write 0\n0 2 read 3 22222200000000\n",
    ),
    (
        Command::Trace(0),
        MASKS,
        "cycle,cmd,rank,group,bank,row,col
0,ACT,0,0,0,0,
4,WR,0,0,0,0,0
9,WR,0,0,0,0,0
20,RD,0,0,0,0,0
29,END,,,,,
",
    ),
    // Two ports share a line.
    (
        Command::Sim,
        "write 1 0 ff\nread 0 0 1\n",
        "1 0 write 0\n0 0 read 0 ff\n",
    ),
    // Rounds without requests.
    (Command::Sim, "cycle 201\n", ""),
    (Command::Trace(0), "cycle 201\n", REFRESHED),
    (Command::Trace(1), "cycle 201\n", REFRESHED),
    // The second channel serves what lies in it, and the first one nothing.
    (
        Command::Trace(1),
        "read 0 131072 1\n",
        "cycle,cmd,rank,group,bank,row,col
0,ACT,0,0,0,0,
4,RD,0,0,0,0,0
13,END,,,,,
",
    ),
    (
        Command::Trace(0),
        "read 0 131072 1\n",
        "cycle,cmd,rank,group,bank,row,col\n13,END,,,,,\n",
    ),
    // Requests that are refused, and their edges.
    (
        Command::Sim,
        "read 0 262143 1\nread 0 262144 0\nread 0 0 0\nread 0 60 8\nread 0 60 4\n",
        "refused 0 OutOfRange\nrefused 0 EmptyLength\nrefused 0 CrossesLine\n\
0 0 read 262143 00\n0 1 read 60 00000000\n",
    ),
    (
        Command::Sim,
        "write 0 60 0102030405\nread 1 18446744073709551615 1\nread 1 18446744073709551615 0\n\
read 0 0 65535\nwrite 1 18446744073709551615 00\n",
        "refused 0 CrossesLine\nrefused 1 OutOfRange\nrefused 1 OutOfRange\n\
refused 0 CrossesLine\nrefused 1 OutOfRange\n",
    ),
    // The last address that a script can name, and the most bytes of a write, which no line holds.
    (
        Command::Sim,
        "read 0 18446744073709551615 1\nwrite 0 0 \
00000000000000000000000000000000000000000000000000000000000000000000000000000000000000000000000000000000000000000000000000000000\
00000000000000000000000000000000000000000000000000000000000000000000000000000000000000000000000000000000000000000000000000000000\n",
        "refused 0 OutOfRange\nrefused 0 CrossesLine\n",
    ),
];

#[test]
fn replies_and_traces(rt: HostRuntime) {
    all_write(&rt, rt.alloc(), RUNS);
}

const SMALL_DRAIN: &[(&str, &str)] = &[("low = 2\nhigh = 6", "low = 0\nhigh = 1")];

const WRITE_BEHIND_READ: &str = "---\nread 0 0 1\nwrite 0 0 ff\n";

const WINDOW_OF_ONE: &[(&str, &str)] = &[("window = 4", "window = 1")];

const THREE_READS: &str = "---\nread 0 0 1\nread 0 0 1\ncycle 20\nread 0 0 1\n";

const CONFIGURED: &[Configured] = &[
    // With an age cap of 1 the oldest is served alone, so the younger hit waits.
    (
        &[("cap = 1000", "cap = 1")],
        Command::Trace(0),
        "---\nread 0 0 1\nread 0 8192 1\nread 0 64 1\n",
        "cycle,cmd,rank,group,bank,row,col
0,ACT,0,0,0,0,
4,RD,0,0,0,0,0
10,PRE,0,0,0,,
14,ACT,0,0,0,1,
18,RD,0,0,0,1,0
24,PRE,0,0,0,,
28,ACT,0,0,0,0,
32,RD,0,0,0,0,8
41,END,,,,,
",
    ),
    // In drain mode a write still waits for the older read of its line.
    (
        SMALL_DRAIN,
        Command::Trace(0),
        WRITE_BEHIND_READ,
        "cycle,cmd,rank,group,bank,row,col
0,ACT,0,0,0,0,
4,RD,0,0,0,0,0
11,WR,0,0,0,0,0
19,END,,,,,
",
    ),
    (
        SMALL_DRAIN,
        Command::Sim,
        WRITE_BEHIND_READ,
        "0 0 read 0 00\n0 1 write 0\n",
    ),
    (
        WINDOW_OF_ONE,
        Command::Sim,
        THREE_READS,
        "refused 0 WindowFull\n0 0 read 0 00\n0 1 read 0 00\n",
    ),
    (
        WINDOW_OF_ONE,
        Command::Trace(0),
        THREE_READS,
        "cycle,cmd,rank,group,bank,row,col
0,ACT,0,0,0,0,
4,RD,0,0,0,0,0
20,RD,0,0,0,0,0
29,END,,,,,
",
    ),
    // An intake of one.
    (
        &[("intake = 8", "intake = 1")],
        Command::Sim,
        "---\nread 0 0 1\nread 0 0 1\n",
        "refused 0 Busy\n0 0 read 0 00\n",
    ),
];

#[test]
fn other_configurations(rt: HostRuntime) -> Result<(), Fail> {
    Ok(all_write_in(&rt, rt.alloc(), CONFIGURED)?)
}

/// A refusal, and then the replies to 64 reads.
fn refusal_and_replies(alloc: Global) -> Result<String, Fail> {
    let mut text = String::from_str(alloc, "refused 0 WindowFull\n")?;
    for number in 0..64 {
        let line = format!(in alloc; "0 {number} read 0 00\n")?;
        text.push_str(line.as_str())?;
    }
    Ok(text)
}

const WIDE_WINDOW: &[(&str, &str)] = &[
    ("window = 4", "window = 64"),
    ("intake = 8", "intake = 64"),
];

/// Of 65 requests the window takes 64, whose replies come in the order of their numbers.
#[test]
fn a_full_window(rt: HostRuntime) -> Result<(), Fail> {
    let script = "read 0 0 1\n".repeat(rt.alloc(), 65)?;
    let rest = format!(in rt.alloc(); "---\n{script}")?;
    let replies = refusal_and_replies(rt.alloc())?;
    let case = (WIDE_WINDOW, Command::Sim, rest.as_str());
    ends_so(&rt, rt.alloc(), case, Ok(true), replies.as_str())?;
    Ok(())
}

/// The most requests that are read.
fn most_requests(alloc: Global) -> Result<String, Fail> {
    Ok("read 0 0 1\n".repeat(alloc, 10_000)?)
}

#[test]
fn most_requests_are_read(rt: HostRuntime) -> Result<(), Fail> {
    let script = most_requests(rt.alloc())?;
    let (bytes, end) = perform(rt.alloc(), Command::Sim, true, script.as_bytes());
    assert_eq!(rt; end, Ok(true));
    assert!(rt; bytes.as_slice().starts_with(b"refused 0 WindowFull\n"));
    Ok(())
}

/// What stands behind the most requests, and the fault.
const BEHIND_MOST: &[(&str, Fault)] = &[
    ("cycle 1\n#\nread 0 0 1\nnone\n", Fault::ScriptLimit),
    ("read 2 0 1\n", Fault::ScriptLine { line: 10_001 }),
];

/// 10,000 request lines are read, and the next one is one too many, unless it is of no form that is read.
#[test]
fn requests_too_many(rt: HostRuntime) -> Result<(), Fail> {
    let most = most_requests(rt.alloc())?;
    for (last, fault) in BEHIND_MOST {
        let script = format!(in rt.alloc(); "{most}{last}")?;
        let ran = perform(rt.alloc(), Command::Sim, true, script.as_bytes());
        is_so(&rt, ran, Err(*fault), "", last);
    }
    Ok(())
}

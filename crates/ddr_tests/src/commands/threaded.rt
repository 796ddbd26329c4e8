//! Runs in threads: what they write, and their faults.
use super::is_so;
use ddr_run::run::run;
use ddr_text::fault::{Fault, RequestError};
use std::alloc::Global;
use std::sync::Wait;
use std::test::Fail;
use std::thread::Threads;

/// What a run of a script writes, and how it ends.
fn ran<R: Threads + Wait + Sync>(
    rt: &R,
    alloc: Global,
    script: &str,
) -> (Vec<u8>, Result<bool, Fault>) {
    let mut reader = script.as_bytes();
    let mut bytes = Vec::new(alloc);
    let end = run(rt, alloc, true, &mut reader, &mut bytes);
    (bytes, end)
}

const RUNS: &[(&str, &str)] = &[
    // A write and a read on each channel of the sample, each by a port of its own.
    (
        "write 0 0 01\nread 0 0 1\nwrite 1 131072 02\nread 1 131072 1\n",
        "0 0 write 0
0 1 read 0 01
1 0 write 131072
1 1 read 131072 02
channel 0 legal
channel 1 legal
",
    ),
    // An empty script has no replies.
    ("# nothing\n\n", "channel 0 legal\nchannel 1 legal\n"),
];

#[test]
fn each_port_has_its_replies(rt: HostRuntime) {
    for (script, text) in RUNS {
        is_so(&rt, ran(&rt, rt.alloc(), script), Ok(true), text, script);
    }
}

const FAULTS: &[(&str, Fault)] = &[
    ("read 0 0 1\n\ncycle 1\n", Fault::ScriptLine { line: 3 }),
    ("cycle 1\nread 0 0\n", Fault::ScriptLine { line: 1 }),
    ("read 0 0\ncycle 1\n", Fault::ScriptLine { line: 1 }),
    ("read 2 0 1\n", Fault::ScriptLine { line: 1 }),
    // Before any request that no port takes.
    ("read 0 63 2\nread 0 0\n", Fault::ScriptLine { line: 2 }),
];

/// Scripts, with the line of the first request that no port takes, and why.
const REFUSED: &[(&str, u64, RequestError)] = &[
    ("read 0 262144 1\n", 1, RequestError::OutOfRange),
    ("# a\n\nread 1 262144 0\n", 3, RequestError::OutOfRange),
    ("read 0 0 1\nread 0 0 0\n", 2, RequestError::EmptyLength),
    ("read 0 63 2\n", 1, RequestError::CrossesLine),
    ("write 0 63 0102\n", 1, RequestError::CrossesLine),
    // The first of two is told.
    ("read 0 63 2\nread 0 0 0\n", 1, RequestError::CrossesLine),
];

#[test]
fn lines_at_fault(rt: HostRuntime) {
    for (script, fault) in FAULTS {
        is_so(&rt, ran(&rt, rt.alloc(), script), Err(*fault), "", script);
    }
}

#[test]
fn requests_that_no_port_takes(rt: HostRuntime) {
    for (script, line, cause) in REFUSED {
        let fault = Fault::RequestLine {
            line: *line,
            cause: *cause,
        };
        is_so(&rt, ran(&rt, rt.alloc(), script), Err(fault), "", script);
    }
}

#[test]
fn too_many_requests(rt: HostRuntime) -> Result<(), Fail> {
    let script = "read 0 0 0\n".repeat(rt.alloc(), 10_001)?;
    let ran = ran(&rt, rt.alloc(), script.as_str());
    is_so(&rt, ran, Err(Fault::ScriptLimit), "", "10,001 requests");
    Ok(())
}

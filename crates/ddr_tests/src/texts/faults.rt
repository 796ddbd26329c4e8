//! The texts of the faults, and the statuses that they end the program with.
use ddr_text::fault::{Fault, LineFault, RequestError};
use ddr_timing::key::Key;
use ddr_words::ending::Ending;
use ddr_words::job::job;
use ddr_words::misuse::Misuse;
use std::alloc::{AllocError, Global};
use std::process::Abort;
use std::test::Fail;

/// That a fault has this text and this status.
fn is_told(
    rt: &impl Abort,
    alloc: Global,
    fault: Fault,
    text: &str,
    status: u8,
) -> Result<(), Fail> {
    let written = format!(in alloc; "{fault}")?;
    assert_eq!(rt; written.as_str(), text);
    assert_eq!(rt; fault.status(), status, "{text}");
    Ok(())
}

const KEY: Key = Key::Rows;

/// The faults but those of requests and of a trace's records, with their texts and statuses.
const TOLD: &[(Fault, &str, u8)] = &[
    // Of the configuration.
    (Fault::ConfigSyntax, "config Syntax", 2),
    (Fault::ConfigMissing { key: KEY }, "config Missing rows", 2),
    (Fault::ConfigUnknownKey, "config UnknownKey", 2),
    (Fault::ConfigRange { key: KEY }, "config Range rows", 2),
    (
        Fault::ConfigNotPowerOfTwo { key: KEY },
        "config NotPowerOfTwo rows",
        2,
    ),
    (Fault::ConfigRelation { n: 7 }, "config Relation 7", 2),
    // Of the input.
    (Fault::InputTooLong, "input too long", 2),
    (Fault::InputNotUtf8, "input not UTF-8", 2),
    (Fault::InputHasNoMark, "input has no ---", 2),
    (Fault::ScriptLine { line: 12 }, "script line 12", 2),
    (Fault::ScriptLimit, "script limit", 2),
    (Fault::MapLine { line: 12 }, "map line 12", 2),
    (
        Fault::ReplayRange { line: 12 },
        "replay line 12 OutOfRange",
        2,
    ),
    (Fault::ReplayLimit, "replay limit", 2),
    (Fault::CaptureOrder { line: 12 }, "capture line 12 Order", 2),
    // Of a trace.
    (Fault::TraceHeader, "trace Header", 2),
    (Fault::TraceTruncated, "trace Truncated", 2),
    (Fault::TraceTooLong, "trace TooLong", 2),
    (Fault::TraceNoSuch, "trace NoSuch", 2),
    (
        Fault::DrawTooLong,
        "trace TooLong, draw a part with --from and --to",
        2,
    ),
    // Of the device.
    (Fault::Read, "read failed", 3),
    (Fault::Write, "write failed", 3),
    (Fault::OutOfMemory, "out of memory", 3),
    (
        Fault::ReplayStuck { cycle: 12 },
        "replay stuck at cycle 12",
        3,
    ),
    (Fault::RunStuck { cycle: 12 }, "run stuck at cycle 12", 3),
    (Fault::ClockSpent, "clock spent", 3),
    (Fault::PortBroken, "port broken", 3),
    (Fault::ThreadsRefused, "threads refused", 3),
];

#[test]
fn faults(rt: HostRuntime) -> Result<(), Fail> {
    for (fault, text, status) in TOLD {
        is_told(&rt, rt.alloc(), *fault, text, *status)?;
    }
    Ok(())
}

/// The faults of a trace's records, with their texts before the record's number.
const RECORDS: &[(Fault, &str)] = &[
    (Fault::TraceRow { line: 12 }, "trace Row"),
    (Fault::TraceOrder { line: 12 }, "trace Order"),
];

/// That a fault of an input's line has this text, with the line's number behind it.
fn is_told_of_line(
    rt: &impl Abort,
    alloc: Global,
    fault: Fault,
    text: &str,
    line: u64,
) -> Result<(), Fail> {
    let whole = format!(in alloc; "{text} {line}")?;
    is_told(rt, alloc, fault, whole.as_str(), 2)
}

#[test]
fn faults_of_a_traces_records(rt: HostRuntime) -> Result<(), Fail> {
    for (fault, text) in RECORDS {
        is_told_of_line(&rt, rt.alloc(), *fault, text, 12)?;
    }
    Ok(())
}

const CAUSES: &[(RequestError, &str)] = &[
    (RequestError::OutOfRange, "request line 12 OutOfRange"),
    (RequestError::EmptyLength, "request line 12 EmptyLength"),
    (RequestError::CrossesLine, "request line 12 CrossesLine"),
];

#[test]
fn faults_of_requests(rt: HostRuntime) -> Result<(), Fail> {
    for (cause, text) in CAUSES {
        let cause = *cause;
        let fault = Fault::RequestLine { line: 12, cause };
        is_told(&rt, rt.alloc(), fault, text, 2)?;
    }
    Ok(())
}

/// What is wrong with a line, and its text.
const LINE_FAULTS: &[(LineFault, &str)] = &[
    (LineFault::TooLong, "TooLong"),
    (LineFault::NotUtf8, "NotUtf8"),
    (LineFault::Spaces, "Spaces"),
    (LineFault::Fields, "Fields"),
    (LineFault::Word, "Word"),
    (LineFault::Number, "Number"),
    (LineFault::NoSuch, "NoSuch"),
];

#[test]
fn faults_of_lines(rt: HostRuntime) -> Result<(), Fail> {
    let alloc = rt.alloc();
    for (cause, text) in LINE_FAULTS {
        let cause = *cause;
        let replay = format!(in alloc; "replay line 12 {text}")?;
        let fault = Fault::ReplayLine { line: 12, cause };
        is_told(&rt, alloc, fault, replay.as_str(), 2)?;
        let capture = format!(in alloc; "capture line 12 {text}")?;
        let fault = Fault::CaptureLine { line: 12, cause };
        is_told(&rt, alloc, fault, capture.as_str(), 2)?;
    }
    Ok(())
}

#[test]
fn statuses_of_what_ends_the_program(rt: HostRuntime) {
    assert_eq!(rt; Ending::NotText.status(), 2);
    assert_eq!(rt; Ending::from(Fault::TraceHeader).status(), 2);
    assert_eq!(rt; Ending::from(Fault::Read).status(), 3);
    assert_eq!(rt; Ending::from(AllocError).status(), 3);
    let unknown = job(rt.alloc(), ["ddr", "erase"].as_slice());
    let status = unknown.err().map(|error| Ending::from(error).status());
    assert_eq!(rt; status, Some(2));
    assert_eq!(rt; Ending::Misuse(Misuse::TwoForms).status(), 2);
}

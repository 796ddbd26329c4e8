//! Readers and writers over memory: one that never ends, and ones that fail at a call.
use super::{Command, REPLIES, TRACE, WRITE_THEN_READ, end_of, input_of, is_so};
use ddr_capture::form::Form;
use ddr_run::run::run;
use ddr_text::command::Format;
use ddr_text::fault::{Fault, LineFault};
use ddr_text::source::Device;
use std::alloc::{AllocError, Global};
use std::io;
use std::io::{ErrorKind, Read, Write};
use std::process::Abort;
use std::sync::Wait;
use std::test::Fail;
use std::thread::Threads;

/// A reader of 8 bytes at a time that fails once, where no call is left.
#[derive(Drop)]
struct Failing<'a> {
    text: &'a [u8],
    calls: u32,
    kind: ErrorKind,
}

impl Read for Failing<'_> {
    fn read(&mut self, buf: &mut [u8]) -> io::Result<usize> {
        let calls = self.calls;
        self.calls = calls.wrapping_sub(1);
        if calls == 0 {
            return Err(io::Error::from(self.kind));
        }
        let count = buf.len().min(8).min(self.text.len());
        let (now, later) = self.text.split_at(count);
        buf[..count].copy_from_slice(now);
        self.text = later;
        Ok(count)
    }
}

/// How a command ends whose reader fails so where no call is left, and what it writes.
fn read_in(
    alloc: Global,
    (command, sample): (Command, bool),
    input: &str,
    (calls, kind): (u32, ErrorKind),
) -> (Vec<u8>, Result<bool, Fault>) {
    let reader = Failing {
        text: input.as_bytes(),
        calls,
        kind,
    };
    let mut bytes = Vec::new(alloc);
    let end = end_of(alloc, command, sample, &mut Device(reader), &mut bytes);
    (bytes, end)
}

/// That a run with so many calls ended so, and wrote this text of the whole one.
fn is_so_in(
    rt: &impl Abort,
    alloc: Global,
    ran: (Vec<u8>, Result<bool, Fault>),
    (wanted, text): (Result<bool, Fault>, &str),
    (calls, whole): (u32, &str),
) -> Result<(), AllocError> {
    let case = format!(in alloc; "{calls} calls, {whole}")?;
    is_so(rt, ran, wanted, text, case.as_str());
    Ok(())
}

/// How a run ends that reads in so many calls, of those that are needed, and what it writes.
fn end_in(calls: u32, needed: u32, text: &str) -> (Result<bool, Fault>, &str) {
    if calls < needed {
        (Err(Fault::Read), "")
    } else {
        (Ok(true), text)
    }
}

/// Captured commands in this project's own form.
const OWN: Command = Command::Capture(Form {
    format: Format::Own,
    channel: None,
});

/// Those of channel 1 in DRAMSim3's.
const OF_CHANNEL_1: Command = Command::Capture(Form {
    format: Format::Dramsim3,
    channel: Some(1),
});

/// Commands, with what they read and what they write, and in how many calls each.
const CALLS: &[(Command, &str, &str, u32, u32)] = &[
    // 30 bytes are read in 4 calls, and their end by one more. The replies are two lines of 12 and 20 bytes, written in
    // 3 and 4 calls, and flushed by one more.
    (Command::Sim, WRITE_THEN_READ, REPLIES, 5, 8),
    // 11 bytes are read in 2 calls, and the refusal's 22 are written in 5.
    (
        Command::Sim,
        "read 0 0 0\n",
        "refused 0 EmptyLength\n",
        3,
        6,
    ),
    // The trace is 92 bytes, written in 19 calls, and flushed by one more.
    (Command::Trace(0), WRITE_THEN_READ, TRACE, 5, 20),
    // 12 bytes are read in 2 calls, and 40 written in 8.
    (
        Command::Map,
        "0\n64\n262144\n",
        "0 0 0 0 0 0 0\n64 0 0 0 0 8 0\n262144 out\n",
        3,
        9,
    ),
    // 92 bytes are read in 12 calls, and 6 written in 2.
    (Command::Check, TRACE, "legal\n", 13, 3),
    // The same, line by line.
    (OWN, TRACE, "legal\n", 13, 3),
    // 32 bytes are read in 4 calls, and their end by one more, and once more behind the line, which lacks its own. 16 are written
    // in 4.
    (
        OF_CHANNEL_1,
        "200 refresh -1 0 -1 -1 -0x1 -0x1",
        "channel 1 legal\n",
        6,
        5,
    ),
];

/// That a command fails where one of the calls that it needs to read its input does.
fn fails_unless_all_is_read(
    rt: &impl Abort,
    alloc: Global,
    (command, input, text): (Command, &str, &str),
    needed: u32,
) -> Result<(), AllocError> {
    for calls in 0..needed.saturating_add(3) {
        let ran = read_in(alloc, (command, true), input, (calls, ErrorKind::Other));
        is_so_in(rt, alloc, ran, end_in(calls, needed, text), (calls, text))?;
    }
    Ok(())
}

#[test]
fn each_read_fails(rt: HostRuntime) -> Result<(), Fail> {
    for (command, input, text, needed, _) in CALLS {
        fails_unless_all_is_read(&rt, rt.alloc(), (*command, *input, *text), *needed)?;
    }
    Ok(())
}

#[test]
fn each_read_of_a_configuration_and_a_capture_fails(rt: HostRuntime) -> Result<(), Fail> {
    let alloc = rt.alloc();
    let rest = format!(in alloc; "---\n{TRACE}")?;
    let input = input_of(alloc, &[], rest.as_str())?;
    // 376 bytes of the sample configuration, 4 of the mark and 92 are read in 59 calls, and their end by one more.
    for calls in 0..63 {
        let ran = read_in(
            alloc,
            (OWN, false),
            input.as_str(),
            (calls, ErrorKind::Other),
        );
        let wanted = end_in(calls, 60, "legal\n");
        is_so_in(&rt, alloc, ran, wanted, (calls, "configuration"))?;
    }
    Ok(())
}

/// That a command reads on where one of the calls that it needs to read its input is interrupted.
fn reads_on(
    rt: &impl Abort,
    alloc: Global,
    (command, input, text): (Command, &str, &str),
    needed: u32,
) -> Result<(), AllocError> {
    for calls in 0..needed.saturating_add(3) {
        let ran = read_in(
            alloc,
            (command, true),
            input,
            (calls, ErrorKind::Interrupted),
        );
        is_so_in(rt, alloc, ran, (Ok(true), text), (calls, text))?;
    }
    Ok(())
}

#[test]
fn each_read_is_interrupted(rt: HostRuntime) -> Result<(), Fail> {
    for (command, input, text, needed, _) in CALLS {
        reads_on(&rt, rt.alloc(), (*command, *input, *text), *needed)?;
    }
    Ok(())
}

/// The most bytes of an input.
const LONGEST: u64 = 16_777_216;

/// A reader that gives comments without end, or only so many bytes of them.
#[derive(Drop)]
struct Comments {
    left: u64,
    given: u64,
    // How often it was asked once it had given more than the longest input.
    asked_beyond: u64,
}

impl Read for Comments {
    fn read(&mut self, buf: &mut [u8]) -> io::Result<usize> {
        if self.given > LONGEST {
            self.asked_beyond = self.asked_beyond.wrapping_add(1);
        }
        let most = usize::try_from(self.left).unwrap_or(usize::MAX);
        let count = buf.len().min(most);
        buf[..count].fill(b'#');
        self.left = self.left.saturating_sub(count as u64);
        self.given = self.given.saturating_add(count as u64);
        Ok(count)
    }
}

/// The line of the comments is longer than one that is read of captured commands.
const TOO_LONG: Fault = Fault::CaptureLine {
    line: 1,
    cause: LineFault::TooLong,
};

/// Commands, how many bytes of comments each is given, and how it ends.
const COMMENTS: &[(Command, u64, Result<bool, Fault>)] = &[
    (Command::Sim, 16_777_216, Ok(true)),
    (Command::Sim, 16_777_217, Err(Fault::InputTooLong)),
    (Command::Sim, u64::MAX, Err(Fault::InputTooLong)),
    (Command::Trace(0), u64::MAX, Err(Fault::InputTooLong)),
    (Command::Check, 16_777_217, Err(Fault::InputTooLong)),
    (Command::Check, u64::MAX, Err(Fault::InputTooLong)),
    (OWN, u64::MAX, Err(TOO_LONG)),
    (Command::Map, 16_777_217, Err(Fault::InputTooLong)),
    (Command::Map, u64::MAX, Err(Fault::InputTooLong)),
];

/// That a command on so many bytes of comments ends so, writes nothing, and asks for nothing more once the input is too
/// long.
fn ends_so_in_comments(
    rt: &impl Abort,
    alloc: Global,
    command: Command,
    left: u64,
    wanted: Result<bool, Fault>,
) {
    let mut reader = Device(Comments {
        left,
        given: 0,
        asked_beyond: 0,
    });
    let mut bytes = Vec::new(alloc);
    let end = end_of(alloc, command, true, &mut reader, &mut bytes);
    assert_eq!(rt; (end, bytes.len()), (wanted, 0), "{left} bytes");
    assert_eq!(rt; reader.0.asked_beyond, 0, "{left} bytes");
}

#[test]
fn inputs_that_are_too_long(rt: HostRuntime) {
    for (command, left, wanted) in COMMENTS {
        ends_so_in_comments(&rt, rt.alloc(), *command, *left, *wanted);
    }
}

/// What a writer does once, in place of a call.
#[derive(Clone, Copy, Debug, PartialEq, Eq)]
enum Trouble {
    Fails,
    IsInterrupted,
    /// Takes no byte, though there are some.
    TakesNothing,
}

/// A writer that takes at most 5 bytes at a time, and is in trouble once, where no call is left.
#[derive(Drop)]
struct Full {
    text: Vec<u8>,
    calls: u32,
    trouble: Trouble,
}

impl Full {
    /// Counts a call, and gives what happens in its place, if anything.
    fn trouble_at_call(&mut self) -> Option<Trouble> {
        let calls = self.calls;
        self.calls = calls.wrapping_sub(1);
        if calls == 0 { Some(self.trouble) } else { None }
    }
}

impl Write for Full {
    fn write(&mut self, buf: &[u8]) -> io::Result<usize> {
        match self.trouble_at_call() {
            None => {}
            Some(Trouble::Fails) => return Err(io::Error::from(ErrorKind::Other)),
            Some(Trouble::IsInterrupted) => return Err(io::Error::from(ErrorKind::Interrupted)),
            Some(Trouble::TakesNothing) => return Ok(0),
        }
        let taken = buf.len().min(5);
        self.text.extend_from_slice(&buf[..taken])?;
        Ok(taken)
    }

    fn flush(&mut self) -> io::Result<()> {
        match self.trouble_at_call() {
            None | Some(Trouble::TakesNothing) => Ok(()),
            Some(Trouble::Fails | Trouble::IsInterrupted) => Err(io::Error::from(ErrorKind::Other)),
        }
    }
}

/// How a command ends whose writer is in trouble where no call is left, and what it writes.
fn write_in(
    alloc: Global,
    command: Command,
    input: &str,
    (calls, trouble): (u32, Trouble),
) -> (Vec<u8>, Result<bool, Fault>) {
    let mut reader = input.as_bytes();
    let mut writer = Device(Full {
        text: Vec::new(alloc),
        calls,
        trouble,
    });
    let end = end_of(alloc, command, true, &mut reader, &mut writer);
    (writer.0.text, end)
}

/// That a run which writes in so many calls, of those that are needed, writes a beginning of the text, or all of it.
fn is_cut_off(
    rt: &impl Abort,
    (bytes, end): (Vec<u8>, Result<bool, Fault>),
    text: &str,
    calls: u32,
    needed: u32,
) {
    let is_whole = calls >= needed;
    let wanted = if is_whole {
        Ok(true)
    } else {
        Err(Fault::Write)
    };
    assert_eq!(rt; end, wanted, "{calls} calls, {text}");
    let has_begun = text.as_bytes().starts_with(bytes.as_slice());
    let has_all = bytes.len() == text.len();
    assert!(rt;
        has_begun && (has_all || !is_whole),
        "{calls} calls, {text}"
    );
}

/// That a command fails where one of the calls that it needs to write its text does.
fn fails_unless_all_is_written(
    rt: &impl Abort,
    alloc: Global,
    (command, input, text): (Command, &str, &str),
    needed: u32,
) {
    for calls in 0..needed.saturating_add(3) {
        let ran = write_in(alloc, command, input, (calls, Trouble::Fails));
        is_cut_off(rt, ran, text, calls, needed);
    }
}

/// That a command fails where one of the calls that it needs to write its text takes nothing; the last call is a flush.
fn fails_where_nothing_is_taken(
    rt: &impl Abort,
    alloc: Global,
    (command, input, text): (Command, &str, &str),
    needed: u32,
) {
    for calls in 0..needed.saturating_add(3) {
        let ran = write_in(alloc, command, input, (calls, Trouble::TakesNothing));
        is_cut_off(rt, ran, text, calls, needed.saturating_sub(1));
    }
}

/// That a command writes on where one of the calls that it needs to write its text is interrupted; the last call is a flush.
fn writes_on(
    rt: &impl Abort,
    alloc: Global,
    (command, input, text): (Command, &str, &str),
    needed: u32,
) -> Result<(), AllocError> {
    for calls in 0..needed.saturating_sub(1) {
        let ran = write_in(alloc, command, input, (calls, Trouble::IsInterrupted));
        is_so_in(rt, alloc, ran, (Ok(true), text), (calls, text))?;
    }
    Ok(())
}

#[test]
fn each_write_fails(rt: HostRuntime) {
    for (command, input, text, _, needed) in CALLS {
        fails_unless_all_is_written(&rt, rt.alloc(), (*command, *input, *text), *needed);
    }
}

#[test]
fn each_write_takes_nothing(rt: HostRuntime) {
    for (command, input, text, _, needed) in CALLS {
        fails_where_nothing_is_taken(&rt, rt.alloc(), (*command, *input, *text), *needed);
    }
}

#[test]
fn each_write_is_interrupted(rt: HostRuntime) -> Result<(), Fail> {
    for (command, input, text, _, needed) in CALLS {
        writes_on(&rt, rt.alloc(), (*command, *input, *text), *needed)?;
    }
    Ok(())
}

/// What a run in threads writes of the write and the read.
const RAN: &str = "0 0 write 0\n0 1 read 0 0a0b0c0d\nchannel 0 legal\nchannel 1 legal\n";

/// How a run ends whose reader fails so where no call is left, and what it writes.
fn run_from<R: Threads + Wait + Sync>(
    rt: &R,
    alloc: Global,
    (calls, kind): (u32, ErrorKind),
) -> (Vec<u8>, Result<bool, Fault>) {
    let mut reader = Device(Failing {
        text: WRITE_THEN_READ.as_bytes(),
        calls,
        kind,
    });
    let mut bytes = Vec::new(alloc);
    let end = run(rt, alloc, true, &mut reader, &mut bytes);
    (bytes, end)
}

/// How a run ends whose writer fails once, where no call is left, and what it writes.
fn run_to<R: Threads + Wait + Sync>(
    rt: &R,
    alloc: Global,
    calls: u32,
) -> (Vec<u8>, Result<bool, Fault>) {
    let mut reader = WRITE_THEN_READ.as_bytes();
    let mut writer = Device(Full {
        text: Vec::new(alloc),
        calls,
        trouble: Trouble::Fails,
    });
    let end = run(rt, alloc, true, &mut reader, &mut writer);
    (writer.0.text, end)
}

#[test]
fn each_read_of_a_run_fails(rt: HostRuntime) -> Result<(), Fail> {
    // 30 bytes are read in 4 calls, and their end by one more.
    for calls in 0..7 {
        let ran = run_from(&rt, rt.alloc(), (calls, ErrorKind::Other));
        is_so_in(&rt, rt.alloc(), ran, end_in(calls, 5, RAN), (calls, RAN))?;
    }
    Ok(())
}

#[test]
fn each_read_of_a_run_is_interrupted(rt: HostRuntime) -> Result<(), Fail> {
    for calls in 0..7 {
        let ran = run_from(&rt, rt.alloc(), (calls, ErrorKind::Interrupted));
        is_so_in(&rt, rt.alloc(), ran, (Ok(true), RAN), (calls, RAN))?;
    }
    Ok(())
}

/// How a run ends on comments without end, how many bytes it writes, and how often it asks once its input is too long.
fn run_on_comments<R: Threads + Wait + Sync>(
    rt: &R,
    alloc: Global,
) -> (Result<bool, Fault>, usize, u64) {
    let mut reader = Device(Comments {
        left: u64::MAX,
        given: 0,
        asked_beyond: 0,
    });
    let mut bytes = Vec::new(alloc);
    let end = run(rt, alloc, true, &mut reader, &mut bytes);
    (end, bytes.len(), reader.0.asked_beyond)
}

#[test]
fn an_input_of_a_run_without_end(rt: HostRuntime) {
    let ran = run_on_comments(&rt, rt.alloc());
    assert_eq!(rt; ran, (Err(Fault::InputTooLong), 0, 0));
}

/// How a run ends that writes in so many calls, and what it writes.
fn end_out(calls: u32) -> (Result<bool, Fault>, &'static str) {
    // 64 bytes are written in 13 calls, and flushed by one more.
    let end = if calls < 14 {
        Err(Fault::Write)
    } else {
        Ok(true)
    };
    let count = RAN.len().min(5 * calls as usize);
    (end, RAN.get(..count).unwrap_or(RAN))
}

#[test]
fn each_write_of_a_run_fails(rt: HostRuntime) -> Result<(), Fail> {
    for calls in 0..16u32 {
        let ran = run_to(&rt, rt.alloc(), calls);
        is_so_in(&rt, rt.alloc(), ran, end_out(calls), (calls, RAN))?;
    }
    Ok(())
}

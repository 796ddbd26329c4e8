//! Runs on other configurations than the sample, and traces of channels.
use super::{Command, Configured, all_write, all_write_in, ends_so, is_refused};
use ddr_capture::form::Form;
use ddr_text::command::Format;
use ddr_text::fault::Fault;
use std::test::Fail;

/// The write waits 7 for RCD, the read 3 + 4 + 4 for the write's data and the turn, and is complete 6 + 4 later.
const SLOWER: &str = "cycle,cmd,rank,group,bank,row,col
0,ACT,0,0,0,0,
7,WR,0,0,0,0,0
18,RD,0,0,0,0,0
29,END,,,,,
";

const SLOWER_LINES: &[(&str, &str)] = &[
    ("rcd = 4", "rcd = 7"),
    ("\ncl = 4", "\ncl = 6"),
    ("rtw = 7", "rtw = 9"),
];

/// The mark, a write and a read of its bytes.
const MARKED: &str = "---\nwrite 0 0 0a0b0c0d\nread 0 0 4\n";

const WRITTEN_OUT: &[Configured] = &[
    (&[], Command::Sim, MARKED, super::REPLIES),
    (&[], Command::Trace(0), MARKED, super::TRACE),
    (SLOWER_LINES, Command::Trace(0), MARKED, SLOWER),
];

#[test]
fn the_sample_written_out_and_a_slower_memory(rt: HostRuntime) -> Result<(), Fail> {
    Ok(all_write_in(&rt, rt.alloc(), WRITTEN_OUT)?)
}

/// The rounds are those of the first channel.
const IDLE: &[(Command, &str, &str)] = &[(
    Command::Trace(1),
    super::WRITE_THEN_READ,
    "cycle,cmd,rank,group,bank,row,col\n24,END,,,,,\n",
)];

#[test]
fn the_idle_channel(rt: HostRuntime) {
    all_write(&rt, rt.alloc(), IDLE);
}

/// Commands, with what stands behind the sample configuration, and the fault that comes first.
const FAULTS: &[(Command, &str, Fault)] = &[
    (
        Command::Trace(2),
        "speed = 1\nnone\n",
        Fault::InputHasNoMark,
    ),
    (
        Command::Trace(2),
        "speed = 1\n---\nnone\n",
        Fault::ConfigUnknownKey,
    ),
    (Command::Trace(2), "---\n\nnone\n", Fault::TraceNoSuch),
    (
        Command::Trace(u32::MAX),
        "---\n\nnone\n",
        Fault::TraceNoSuch,
    ),
    (
        Command::Trace(1),
        "---\n\nnone\n",
        Fault::ScriptLine { line: 2 },
    ),
    (Command::Sim, "---\n\nnone\n", Fault::ScriptLine { line: 2 }),
    (Command::Check, "speed = 1\nnone\n", Fault::InputHasNoMark),
    (
        Command::Check,
        "speed = 1\n---\nnone\n",
        Fault::ConfigUnknownKey,
    ),
    (Command::Check, "---\nnone\n", Fault::TraceHeader),
];

#[test]
fn the_first_fault_is_told(rt: HostRuntime) -> Result<(), Fail> {
    for (command, rest, fault) in FAULTS {
        ends_so(&rt, rt.alloc(), (&[], *command, rest), Err(*fault), "")?;
    }
    Ok(())
}

/// Captured commands in this project's own form.
const CAPTURE: Command = Command::Capture(Form {
    format: Format::Own,
    channel: None,
});

/// Inputs that are at fault before their configuration is read, or by it.
const UNREAD: &[(Command, &[u8], Fault)] = &[
    (Command::Trace(2), b"\xff\n---\n", Fault::InputNotUtf8),
    (Command::Check, b"\xff\n---\n", Fault::InputNotUtf8),
    (Command::Map, b"0\n", Fault::InputHasNoMark),
    // The configuration's refusal comes before the body's.
    (Command::Map, b"[\n---\nbad\n", Fault::ConfigSyntax),
    (CAPTURE, b"[\n---\nbad\n", Fault::ConfigSyntax),
    (CAPTURE, b"\xff\n---\n", Fault::InputNotUtf8),
    // A line of 4,097 bytes is too long, and so is an input of which it is all, without a mark.
    (CAPTURE, &[b'#'; 4096], Fault::InputHasNoMark),
    (CAPTURE, &[b'#'; 4097], Fault::InputTooLong),
    (CAPTURE, &[b'#'; 4098], Fault::InputTooLong),
    (CAPTURE, &[0xff; 4097], Fault::InputTooLong),
];

#[test]
fn inputs_without_a_configuration(rt: HostRuntime) {
    for (command, input, fault) in UNREAD {
        is_refused(&rt, rt.alloc(), *command, false, input, *fault);
    }
}

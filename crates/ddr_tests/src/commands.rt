//! Whole runs of commands, their faults, readers and writers that fail, and how the threads of a run stop. Most are tables
//! of inputs, with what a command writes of each and how it ends.
mod chance;
mod check;
mod configurations;
mod devices;
mod faults;
mod map;
mod ports;
mod rows;
mod stopping;
mod threaded;
mod version_2;

use ddr_capture::capture::capture;
use ddr_capture::form::Form;
use ddr_sim::sim::sim;
use ddr_text::check::check;
use ddr_text::fault::Fault;
use ddr_text::map::map;
use ddr_text::sink::Sink;
use ddr_text::source::Source;
use ddr_timing::profile::PROFILE_S;
use std::alloc::{AllocError, Global};
use std::process::Abort;
use std::str;

/// A write and a read of its bytes.
const WRITE_THEN_READ: &str = "write 0 0 0a0b0c0d\nread 0 0 4\n";

const REPLIES: &str = "0 0 write 0\n0 1 read 0 0a0b0c0d\n";

/// The read waits for RCD, the write latency, the burst and WTR_L: 4 + 3 + 4 + 4.
const TRACE: &str = "cycle,cmd,rank,group,bank,row,col
0,ACT,0,0,0,0,
4,WR,0,0,0,0,0
15,RD,0,0,0,0,0
24,END,,,,,
";

/// A command that starts no threads.
#[derive(Clone, Copy)]
enum Command {
    /// `sim` with its replies.
    Sim,
    /// `sim` with the trace of a channel.
    Trace(u32),
    Check,
    /// `check` of captured commands in this form, from cycle 0 on.
    Capture(Form),
    Map,
}

/// How a command ends. Answers false where it is a check, and the trace is not legal.
fn end_of<R: Source, W: Sink>(
    alloc: Global,
    command: Command,
    sample: bool,
    reader: &mut R,
    writer: &mut W,
) -> Result<bool, Fault> {
    let end = match command {
        Command::Sim => sim(alloc, sample, None, reader, writer),
        Command::Trace(channel) => sim(alloc, sample, Some(channel), reader, writer),
        Command::Check => return check(alloc, sample, reader, writer),
        Command::Capture(form) => return capture(alloc, sample, form, 0, reader, writer),
        Command::Map => map(alloc, sample, reader, writer),
    };
    match end {
        Ok(()) => Ok(true),
        Err(fault) => Err(fault),
    }
}

/// What a command writes of an input, and how it ends.
fn perform(
    alloc: Global,
    command: Command,
    sample: bool,
    input: &[u8],
) -> (Vec<u8>, Result<bool, Fault>) {
    let mut reader = input;
    let mut bytes = Vec::new(alloc);
    let end = end_of(alloc, command, sample, &mut reader, &mut bytes);
    (bytes, end)
}

/// That a command ended so, and wrote this text.
fn is_so(
    rt: &impl Abort,
    (bytes, end): (Vec<u8>, Result<bool, Fault>),
    wanted: Result<bool, Fault>,
    text: &str,
    case: &str,
) {
    assert_eq!(rt; end, wanted, "{case:?}");
    assert_eq!(rt;
        str::from_utf8(bytes.as_slice()).ok(),
        Some(text),
        "{case:?}"
    );
}

/// That commands without a fault write these texts of inputs on the sample configuration.
fn all_write(rt: &impl Abort, alloc: Global, cases: &[(Command, &str, &str)]) {
    for (command, input, text) in cases {
        let ran = perform(alloc, *command, true, input.as_bytes());
        is_so(rt, ran, Ok(true), text, input);
    }
}

/// That a command has this fault, and writes nothing.
fn is_refused(
    rt: &impl Abort,
    alloc: Global,
    command: Command,
    sample: bool,
    input: &[u8],
    fault: Fault,
) {
    let case = str::from_utf8(input).unwrap_or("no text");
    let ran = perform(alloc, command, sample, input);
    is_so(rt, ran, Err(fault), "", case);
}

/// A configuration with other lines in the place of some.
fn with_lines(alloc: Global, config: &str, lines: &[(&str, &str)]) -> Result<String, AllocError> {
    let mut text = String::from_str(alloc, config)?;
    for (old, new) in lines {
        text = text.replace(alloc, old, new)?;
    }
    Ok(text)
}

/// The sample configuration with other lines in the place of some, and what stands behind it.
fn input_of(alloc: Global, lines: &[(&str, &str)], rest: &str) -> Result<String, AllocError> {
    let mut text = with_lines(alloc, PROFILE_S, lines)?;
    text.push_str(rest)?;
    Ok(text)
}

/// That a command ends so, and writes this text, of the sample configuration with other lines in the place of some,
/// and of what stands behind it.
fn ends_so(
    rt: &impl Abort,
    alloc: Global,
    (lines, command, rest): (&[(&str, &str)], Command, &str),
    wanted: Result<bool, Fault>,
    text: &str,
) -> Result<(), AllocError> {
    let input = input_of(alloc, lines, rest)?;
    let ran = perform(alloc, command, false, input.as_bytes());
    is_so(rt, ran, wanted, text, rest);
    Ok(())
}

/// An input with a configuration: the lines of the sample that have others in their place, the command, and what
/// stands behind the configuration. Then what the command writes.
type Configured<'a> = (&'a [(&'a str, &'a str)], Command, &'a str, &'a str);

/// That commands without a fault write these texts.
fn all_write_in(rt: &impl Abort, alloc: Global, cases: &[Configured]) -> Result<(), AllocError> {
    for (lines, command, rest, text) in cases {
        ends_so(rt, alloc, (lines, *command, rest), Ok(true), text)?;
    }
    Ok(())
}

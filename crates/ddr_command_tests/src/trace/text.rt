//! The text of a trace, and writers that fail.
use super::entries::{act, pre, pre_all, rd, refresh, wr};
use ddr_trace::command::{Command, Entry};
use ddr_trace::rule::Rule;
use ddr_trace_text::text::{TraceError, write_trace};
use std::alloc::Global;
use std::io;
use std::io::{ErrorKind, Write};
use std::process::Abort;
use std::test::Fail;

pub const WRITE_THEN_READ: &[u8] = b"cycle,cmd,rank,group,bank,row,col
0,ACT,0,0,0,0,
4,WR,0,0,0,0,0
15,RD,0,0,0,0,0
24,END,,,,,
";

const EACH_COMMAND: &[u8] = b"cycle,cmd,rank,group,bank,row,col
1,ACT,0,3,2,15,
5,RD,0,3,2,15,56
18446744073709551615,PRE,0,1,3,,
7,PREA,0,,,,
8,REF,0,,,,
4611686018427387904,END,,,,,
";

const WRITE_AND_READ: &[Entry] = &[act!(0, 0, 0, 0), wr!(4, 0, 0, 0), rd!(15, 0, 0, 0)];

const LAST_LINE: Entry = Entry {
    cycle: 5,
    command: Command::Rd {
        rank: 0,
        group: 3,
        bank: 2,
        row: 15,
        line: 7,
    },
};

const COMMANDS: &[Entry] = &[
    act!(1, 3, 2, 15),
    LAST_LINE,
    pre!(u64::MAX, 1, 3),
    pre_all!(7),
    refresh!(8),
];

/// That the trace of these entries and this end has this text.
fn writes(
    rt: &impl Abort,
    alloc: Global,
    entries: &[Entry],
    end: u64,
    wanted: &[u8],
) -> Result<(), Fail> {
    let mut text = Vec::new(alloc);
    write_trace(alloc, entries, end, &mut text)?;
    assert_eq!(rt; text.as_slice(), wanted);
    Ok(())
}

#[test]
fn write_then_read(rt: HostRuntime) -> Result<(), Fail> {
    writes(&rt, rt.alloc(), WRITE_AND_READ, 24, WRITE_THEN_READ)
}

#[test]
fn each_command(rt: HostRuntime) -> Result<(), Fail> {
    writes(&rt, rt.alloc(), COMMANDS, 1 << 62, EACH_COMMAND)
}

/// A writer that takes at most 16 bytes at a time, and fails where no call is left.
#[derive(Drop)]
struct Failing {
    text: Vec<u8>,
    calls: u32,
}

impl Failing {
    fn call(&mut self) -> io::Result<()> {
        match self.calls.checked_sub(1) {
            Some(left) => {
                self.calls = left;
                Ok(())
            }
            None => Err(io::Error::from(ErrorKind::Other)),
        }
    }
}

impl Write for Failing {
    fn write(&mut self, buf: &[u8]) -> io::Result<usize> {
        self.call()?;
        let taken = buf.len().min(16);
        self.text.extend_from_slice(&buf[..taken])?;
        Ok(taken)
    }

    fn flush(&mut self) -> io::Result<()> {
        self.call()
    }
}

/// What writing to a writer gives, which then has a part of this text.
fn write_part(
    rt: &impl Abort,
    alloc: Global,
    mut writer: Failing,
    text: &[u8],
) -> Result<(), TraceError> {
    let result = write_trace(alloc, WRITE_AND_READ, 24, &mut writer);
    assert!(rt; text.starts_with(writer.text.as_slice()));
    result
}

#[test]
fn each_call_fails(rt: HostRuntime) {
    // 92 bytes are written in 6 calls, and flushed by one more.
    for calls in 0..8 {
        let text = Vec::new(rt.alloc());
        let result = write_part(&rt, rt.alloc(), Failing { text, calls }, WRITE_THEN_READ);
        let wanted = if calls < 7 {
            Err(TraceError::Write)
        } else {
            Ok(())
        };
        assert_eq!(rt; result, wanted, "{calls} calls");
    }
}

#[test]
fn names(rt: HostRuntime) {
    assert_eq!(rt; Rule::WtrL.name(), "WTR_L");
    assert_eq!(rt; Rule::RefGap.name(), "REF_GAP");
}

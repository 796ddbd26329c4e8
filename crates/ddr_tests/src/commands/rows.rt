//! Scripts with the replies and traces that hand calculation gives for the sample configuration.
use super::{Command, REPLIES, TRACE, WRITE_THEN_READ, all_write};

const ONE_READ: &str = "read 0 0 64\n";

const TWO_ROWS: &str = "read 0 0 1\nread 0 8192 1\n";

const TWO_BANKS: &str = "read 0 0 1\nread 0 512 1\n";

const YOUNGER_ROW_HIT: &str = "read 0 0 1\nread 0 8192 1\nread 0 64 1\n";

const READ_BEHIND_WRITE: &str = "write 0 0 ff\nread 0 512 1\n";

const RUNS: &[(Command, &str, &str)] = &[
    (
        Command::Sim,
        ONE_READ,
        "0 0 read 0 0000000000000000000000000000000000000000000000000000000000000000\
0000000000000000000000000000000000000000000000000000000000000000\n",
    ),
    // The read is complete at 4 + 4 + 4.
    (
        Command::Trace(0),
        ONE_READ,
        "cycle,cmd,rank,group,bank,row,col
0,ACT,0,0,0,0,
4,RD,0,0,0,0,0
13,END,,,,,
",
    ),
    (Command::Sim, WRITE_THEN_READ, REPLIES),
    (Command::Trace(0), WRITE_THEN_READ, TRACE),
    (Command::Sim, TWO_ROWS, "0 0 read 0 00\n0 1 read 8192 00\n"),
    // PRE waits for RAS, ACT for RP and RC; the second read is complete at 18 + 4 + 4.
    (
        Command::Trace(0),
        TWO_ROWS,
        "cycle,cmd,rank,group,bank,row,col
0,ACT,0,0,0,0,
4,RD,0,0,0,0,0
10,PRE,0,0,0,,
14,ACT,0,0,0,1,
18,RD,0,0,0,1,0
27,END,,,,,
",
    ),
    (Command::Sim, TWO_BANKS, "0 0 read 0 00\n0 1 read 512 00\n"),
    // The second ACT waits for RRD_S alone, and its read for CCD_S behind the first.
    (
        Command::Trace(0),
        TWO_BANKS,
        "cycle,cmd,rank,group,bank,row,col
0,ACT,0,0,0,0,
2,ACT,0,1,0,0,
4,RD,0,0,0,0,0
8,RD,0,1,0,0,0
17,END,,,,,
",
    ),
    // The third read finds its row open and passes the second, whose reply is still the second.
    (
        Command::Sim,
        YOUNGER_ROW_HIT,
        "0 0 read 0 00\n0 1 read 8192 00\n0 2 read 64 00\n",
    ),
    (
        Command::Trace(0),
        YOUNGER_ROW_HIT,
        "cycle,cmd,rank,group,bank,row,col
0,ACT,0,0,0,0,
4,RD,0,0,0,0,0
9,RD,0,0,0,0,8
12,PRE,0,0,0,,
16,ACT,0,0,0,1,
20,RD,0,0,0,1,0
29,END,,,,,
",
    ),
    // Reads come first while writes aren't drained.
    (
        Command::Sim,
        READ_BEHIND_WRITE,
        "0 0 write 0\n0 1 read 512 00\n",
    ),
    (
        Command::Trace(0),
        READ_BEHIND_WRITE,
        "cycle,cmd,rank,group,bank,row,col
0,ACT,0,1,0,0,
4,RD,0,1,0,0,0
5,ACT,0,0,0,0,
11,WR,0,0,0,0,0
19,END,,,,,
",
    ),
    // Writes of parts of a line.
    (
        Command::Sim,
        "write 0 3 aabb\nwrite 0 0 01020304\nread 0 0 8\nread 0 4 2\n",
        "0 0 write 3\n0 1 write 0\n0 2 read 0 01020304bb000000\n0 3 read 4 bb00\n",
    ),
    (
        Command::Sim,
        "write 0 0 000102030405060708090a0b0c0d0e0f101112131415161718191a1b1c1d1e1f\
202122232425262728292a2b2c2d2e2f303132333435363738393a3b3c3d3e3f\nread 0 62 2\n",
        "0 0 write 0\n0 1 read 62 3e3f\n",
    ),
];

#[test]
fn replies_and_traces(rt: HostRuntime) {
    all_write(&rt, rt.alloc(), RUNS);
}

const NO_COMMANDS: &str = "cycle,cmd,rank,group,bank,row,col\n0,END,,,,,\n";

/// Scripts, with their replies and traces.
const SPELLINGS: &[(&str, &str, &str)] = &[
    // Nothing to do.
    ("", "", NO_COMMANDS),
    ("\n", "", NO_COMMANDS),
    ("# nothing\n", "", NO_COMMANDS),
    ("\r\n#\r\n\n", "", NO_COMMANDS),
    // The write and the read, spelled otherwise.
    ("write 0 0 0a0b0c0d\r\nread 0 0 4\r\n", REPLIES, TRACE),
    ("write 0 0 0A0b0C0D\nread 0 0 4", REPLIES, TRACE),
    (
        "# a comment\n\nwrite  0   0 0a0b0c0d\r\n\r\n#\nread 0    0 4\n\n",
        REPLIES,
        TRACE,
    ),
    (
        "#\nwrite 00 00000000000000000000 0a0b0c0d\n# again\nread 0 0 04",
        REPLIES,
        TRACE,
    ),
];

#[test]
fn spelled_otherwise(rt: HostRuntime) {
    for (script, replies, trace) in SPELLINGS {
        let cases = [
            (Command::Sim, *script, *replies),
            (Command::Trace(0), *script, *trace),
        ];
        all_write(&rt, rt.alloc(), cases.as_slice());
    }
}

//! Version 2 of a configuration, with the places, replies and traces that hand calculation gives: a second rank, and rows that
//! auto-precharge closes.
use super::{Command, Configured, REPLIES, all_write_in};
use std::test::Fail;

/// The sample under version 2, with two ranks.
const TWO_RANKS: &[(&str, &str)] = &[
    ("version = 1", "version = 2"),
    ("row channel\"", "row channel rank\""),
    (
        "postpone = 2\n",
        "postpone = 2\nclosed = false\nranks = 2\nrtrs = 2\n",
    ),
];

/// The sample under version 2, with rows that are closed.
const CLOSED_ROWS: &[(&str, &str)] = &[
    ("version = 1", "version = 2"),
    ("row channel\"", "row channel rank\""),
    (
        "postpone = 2\n",
        "postpone = 2\nclosed = true\nranks = 1\nrtrs = 1\n",
    ),
];

/// The mark, a write and a read of its bytes.
const MARKED: &str = "---\nwrite 0 0 0a0b0c0d\nread 0 0 4\n";

const RUNS: &[Configured] = &[
    // A rank has 262144 bytes of the two channels.
    (
        TWO_RANKS,
        Command::Map,
        "---\n262144\n524288\n100000\n",
        "262144 0 1 0 0 0 0 0\n524288 out\n100000 0 0 3 0 12 16 32\n",
    ),
    // One rank is named too.
    (
        CLOSED_ROWS,
        Command::Map,
        "---\n100000\n262144\n",
        "100000 0 0 3 0 12 16 32\n262144 out\n",
    ),
    // The second read's data waits for the end of the first's and RTRS: 4 + 4 + 2.
    (
        TWO_RANKS,
        Command::Trace(0),
        "---\nread 0 0 1\nread 0 262144 1\n",
        "cycle,cmd,rank,group,bank,row,col
0,ACT,0,0,0,0,
1,ACT,1,0,0,0,
4,RD,0,0,0,0,0
10,RD,1,0,0,0,0
19,END,,,,,
",
    ),
    // The read comes first. The write's data waits for the end of the read's and RTRS: 4 + 4 + 4 + 2 - 3.
    (
        TWO_RANKS,
        Command::Trace(0),
        "---\nwrite 0 0 ff\nread 0 262144 1\n",
        "cycle,cmd,rank,group,bank,row,col
0,ACT,1,0,0,0,
4,RD,1,0,0,0,0
5,ACT,0,0,0,0,
11,WR,0,0,0,0,0
19,END,,,,,
",
    ),
    // A refresh of each rank falls due, and there is one command a cycle.
    (
        TWO_RANKS,
        Command::Trace(0),
        "---\ncycle 202\n",
        "cycle,cmd,rank,group,bank,row,col
200,REF,0,,,,
201,REF,1,,,,
202,END,,,,,
",
    ),
    // The same line of two ranks is two lines.
    (
        TWO_RANKS,
        Command::Sim,
        "---\nwrite 0 262144 0a\nwrite 0 0 0b\nread 0 262144 1\nread 0 0 1\n",
        "0 0 write 262144\n0 1 write 0\n0 2 read 262144 0a\n0 3 read 0 0b\n",
    ),
    // The row closes by itself at 10, RAS behind its ACT, and the next ACT waits for RP and RC.
    (
        CLOSED_ROWS,
        Command::Trace(0),
        "---\nread 0 0 1\nread 0 8192 1\n",
        "cycle,cmd,rank,group,bank,row,col
0,ACT,0,0,0,0,
4,RDA,0,0,0,0,0
14,ACT,0,0,0,1,
18,RDA,0,0,0,1,0
27,END,,,,,
",
    ),
    // The read wants the row that the write is in, so only the read closes it.
    (CLOSED_ROWS, Command::Sim, MARKED, REPLIES),
    (
        CLOSED_ROWS,
        Command::Trace(0),
        MARKED,
        "cycle,cmd,rank,group,bank,row,col
0,ACT,0,0,0,0,
4,WR,0,0,0,0,0
15,RDA,0,0,0,0,0
24,END,,,,,
",
    ),
    // The read comes first and closes its row, since the write is of another.
    (
        CLOSED_ROWS,
        Command::Trace(0),
        "---\nwrite 0 0 ff\nread 0 8192 1\n",
        "cycle,cmd,rank,group,bank,row,col
0,ACT,0,0,0,1,
4,RDA,0,0,0,1,0
14,ACT,0,0,0,0,
18,WRA,0,0,0,0,0
26,END,,,,,
",
    ),
];

#[test]
fn ranks_and_closed_rows(rt: HostRuntime) -> Result<(), Fail> {
    Ok(all_write_in(&rt, rt.alloc(), RUNS)?)
}

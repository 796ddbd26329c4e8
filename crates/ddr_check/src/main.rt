//! The commands of `ddr` that need no scheduler, in a program of their own: `check`, `draw`, `map` and `lint`.
//!
//! It takes the same words and writes the same texts as `ddr`, of which it is a part, and is built where no other command is asked
//! for: what stands below it is proved and built in a fraction of the time. `ddr_shell` stands below, and nothing above.
#![tactic(auto)]

use ddr_shell::ended::ended;
use ddr_shell::traces::perform_on_traces;
use ddr_shell::words::{tells_of_itself, words};
use ddr_text::fault::Fault;
use ddr_text::source::Device;
use ddr_text::writing::flush;
use ddr_words::ending::Ending;
use ddr_words::job::job;
use std::io;
use std::io::BufWriter;
use std::process::ExitCode;

/// How many bytes of output go out at a time.
const PIECE_BYTES: usize = 65_536;

/// The status where another command is asked for.
const NOT_HERE: u8 = 2;

/// Does what the words of the command line ask for, on standard input and output.
fn main(rt: HostRuntime) -> ExitCode {
    match perform(&rt) {
        Ok(Some(status)) => ExitCode::from(status),
        Ok(None) => {
            let _ = eprintln!(rt;
                "ddr_check: this program has check, draw, map and lint alone; ddr has every command"
            );
            ExitCode::from(NOT_HERE)
        }
        Err(ending) => ended(&rt, &ending),
    }
}

/// Performs the command that the words ask for; answers the status that it ends with, or none where it is not here.
fn perform(rt: &HostRuntime) -> Result<Option<u8>, Ending> {
    let alloc = rt.alloc();
    let words = words(rt)?;
    let texts: Vec<&str> = words.iter().map(|word| word.as_str()).collect(alloc)?;
    if tells_of_itself(rt, texts.as_slice())? {
        return Ok(Some(0));
    }
    let asked = job(alloc, texts.as_slice())?;
    let mut reader = Device(rt.reader());
    let Ok(pieces) = BufWriter::with_capacity(alloc, PIECE_BYTES, io::writer(rt)) else {
        return Err(Ending::Fault(Fault::OutOfMemory));
    };
    let mut writer = Device(pieces);
    let done = perform_on_traces(alloc, asked, &mut reader, &mut writer);
    flush(&mut writer)?;
    Ok(done?)
}

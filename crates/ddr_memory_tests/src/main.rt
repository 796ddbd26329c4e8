//! Calls that may want memory, each made again where memory is refused.
//!
//! It is a program and no tests: `tests/memory/run` starts it once for each request for memory that is refused, and a program
//! is built once for all of them, where the toolchain builds tests anew. Each line of its input names a call. The program says of
//! each whether memory was refused to it, and ends with status 1 at one that doesn't keep what it promises. It skips a call for which
//! a thread isn't started.
//!
//! `layers` has the calls below the core and what is opened, `texts` a trace's text, `events` the core, and `system` ports and
//! workers in threads; `entries` has commands of traces. Their configurations are values of `ddr_samples`, which take no memory.
//! No crate stands above.
#![tactic(auto)]

mod entries;
mod events;
mod layers;
mod system;
mod texts;

use std::alloc::Global;
use std::io::{ErrorKind, Read};
use std::process::ExitCode;
use std::str;
use std::sync::Wait;
use std::thread::Threads;

/// What a call came to: whether memory was refused, or what didn't hold.
type Met = Result<bool, &'static str>;

/// What didn't hold where a thread was not started, so that nothing was tried.
const NO_THREAD: &str = "a thread that was not started";

/// The most bytes of an input.
const MOST_BYTES: usize = 256;

/// Reads what there is, and tells how many bytes that is. It takes no memory.
fn read_all<R: Read>(reader: &mut R, input: &mut [u8]) -> Result<usize, &'static str> {
    let mut count = 0usize;
    for _ in 0..MOST_BYTES {
        let Some(rest) = input.get_mut(count..) else {
            return Err("an input that is too long");
        };
        match reader.read(rest) {
            Ok(0) => return Ok(count),
            Ok(more) => count = count.saturating_add(more),
            Err(error) if error.kind() == ErrorKind::Interrupted => {}
            Err(_) => return Err("an input"),
        }
    }
    Err("an input that is too long")
}

/// Makes the call of this name.
fn make<R: Threads + Wait + Sync>(rt: &R, alloc: Global, name: &str) -> Met {
    match name {
        "config" => layers::config(alloc),
        "open" => layers::open(alloc),
        "open_above" => layers::open_above(alloc),
        "ensure" => layers::ensure(alloc),
        "open_ranks" => layers::open_ranks(alloc),
        "entry" => layers::entry(alloc),
        "cycle" => layers::cycle(alloc),
        "trace" => texts::trace(alloc),
        "events" => events::row_hit(alloc),
        "run" => events::run(alloc),
        "system" => system::two_ports(rt, alloc),
        _ => Err("no such call"),
    }
}

/// Makes a call, and says what it came to, and whether what it promises holds. The second handle is that of the threads.
fn tell<T: Threads + Wait + Sync>(rt: &HostRuntime, threads: &T, name: &str) -> bool {
    let met = make(threads, rt.alloc(), name);
    let is_skipped = met == Err(NO_THREAD);
    let told = match met {
        Ok(true) => println!(rt; "{name}: refused"),
        Ok(false) => println!(rt; "{name}: whole"),
        Err(_) if is_skipped => println!(rt; "{name}: skipped"),
        Err(what) => println!(rt; "{name}: wrong, at {what}"),
    };
    told.is_ok() && (met.is_ok() || is_skipped)
}

fn main(rt: HostRuntime) -> ExitCode {
    let mut input = [0u8; MOST_BYTES];
    let mut reader = rt.reader();
    let Ok(count) = read_all(&mut reader, &mut input) else {
        return ExitCode::FAILURE;
    };
    let Ok(text) = str::from_utf8(input.get(..count).unwrap_or(&[])) else {
        return ExitCode::FAILURE;
    };
    for name in text.lines() {
        if !tell(&rt, &rt, name) {
            return ExitCode::FAILURE;
        }
    }
    ExitCode::SUCCESS
}

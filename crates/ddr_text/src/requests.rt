//! The requests of a script that no port takes.
//!
//! `script` stands below, which reads a line; a run in threads asks here before any of them starts.
ghost use Rattle.std.specs.Prelude.{◌≡◌, ◌≤◌, length};
ghost use Rattle.std.specs.Str.Lines.{lines};
ghost use Rattle.ddr_text.specs.Requests.{IsTaken, cause_at, cause_of, fault_at, first_fault};
ghost use Rattle.ddr_text.specs.Script.{view};

use crate::fault::{Fault, RequestError};
use crate::input::LONGEST_INPUT;
use crate::script::{Instruction, LineError, is_skipped, parse_instruction};
use ddr_address_map::map::Map;
use ddr_timing::config::Config;
use ddr_timing::units::LINE_BYTES;
use std::alloc::Global;

/// Goes over a script again, of which every line was read, and fails as `RequestLine` at the first request that no port
/// takes. It fails as `OutOfMemory` too.
///
/// This fault comes after all that are seen by reading a line alone, and so does not end the first reading.
pub fn check_requests(alloc: Global, config: &Config, text: &str) -> Result<(), Fault>
    requires { length text.now ≤ LONGEST_INPUT }
    ensures { IsTaken result (first_fault config.now 0 (lines text.now)) }
{
    let map = Map::new(config);
    let mut line = 0;
    for written in text.lines() {
        line += 1;
        check_line(alloc, config.limits.ports, &map, line, written)?;
    }
    Ok(())
}

/// Fails as `RequestLine` where the line is a request that no port takes.
fn check_line(alloc: Global, ports: u32, map: &Map, line: u64, written: &str) -> Result<(), Fault>
    ensures { IsTaken result (fault_at ports map.now.geometry line written.now) }
{
    if is_skipped(written) {
        return Ok(());
    }
    match parse_instruction(alloc, ports, written) {
        Ok(instruction) => match cause_of(map, &instruction) {
            None => Ok(()),
            Some(cause) => Err(Fault::RequestLine { line, cause }),
        },
        Err(LineError::AtFault) => Ok(()),
        Err(LineError::OutOfMemory) => Err(Fault::OutOfMemory),
    }
}

/// Why no port takes a request, if there is a cause.
fn cause_of(map: &Map, instruction: &Instruction) -> Option<RequestError>
    ensures { result ≡ cause_of map.now.geometry (view instruction.now) }
{
    match instruction {
        Instruction::Read { port: _, addr, len } => cause_at(map, *addr, *len as usize),
        Instruction::Write {
            port: _,
            addr,
            bytes,
        } => cause_at(map, *addr, bytes.len()),
        Instruction::Masked { port: _, addr, .. } => {
            cause_at(map, *addr - *addr % LINE_BYTES as u64, LINE_BYTES)
        }
        Instruction::Cycle { .. } => None,
    }
}

/// Why so many bytes from an address on are not read or written, if there is a cause.
fn cause_at(map: &Map, addr: u64, len: usize) -> Option<RequestError>
    ensures { result ≡ cause_at map.now.geometry addr len }
{
    if map.place(addr).is_none() {
        return Some(RequestError::OutOfRange);
    }
    if len == 0 {
        return Some(RequestError::EmptyLength);
    }
    let offset = (addr % LINE_BYTES as u64) as usize;
    if len > LINE_BYTES - offset {
        return Some(RequestError::CrossesLine);
    }
    None
}

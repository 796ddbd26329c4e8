//! The lines of a script.
//!
//! Below stand `hexadecimal`, which reads the bytes, and `ddr_trace_text`, which reads the numbers; above stand `instructions` and `map`. A
//! line that does something is an instruction: a word and its fields, with one or more spaces between two. Other lines are empty, or
//! comments, which begin with `#`.
ghost use Rattle.std.specs.Prelude.{◌≡◌, ◌≤◌, ◌<◌, ◌++◌, IfOk, map, take};
ghost use Rattle.ddr_trace_text.specs.Numbers.{number_of};
ghost use Rattle.ddr_text.specs.declared.script.LineError.TheVariants.{OutOfMemory};
ghost use Rattle.ddr_text.specs.Lines.{Gives};
ghost use Rattle.ddr_text.specs.Script.{LARGEST, bytes_of, cycle_of, enable_of, fields_of, instruction_of, is_skipped, just_bytes_of, kept_field, masked_of, of_fields, of_five, of_four, of_two, port_of, read_of, view, write_of};

use crate::hexadecimal::{decode, decode_into};
use arrayvec::ArrayVec;
use ddr_address_map::request::Line;
use ddr_timing::units::LINE_BYTES;
use ddr_trace_text::number::parse_number;
use std::alloc::{AllocError, AllocFailed, Global};

/// The greatest length that a line reads.
const LONGEST_READ: u64 = 65_535;

/// The most bytes that a line writes.
const MOST_WRITTEN: usize = 128;

/// The most rounds that a line makes.
const MOST_CYCLES: u64 = 1_000_000;

/// The most fields of a line that are kept: one more than a line has that is read.
pub const MOST_FIELDS: usize = 6;

/// What a line of a script says to do.
#[derive(Debug, Drop)]
pub enum Instruction {
    /// `read PORT ADDR LEN`: asks for that many bytes, 0 to 65,535 of them.
    Read {
        port: u32,
        addr: u64,
        len: u32,
    },
    /// `write PORT ADDR HEX`: gives the bytes to be written, 1 to 128 of them.
    Write {
        port: u32,
        addr: u64,
        bytes: Vec<u8>,
    },
    /// `mask PORT ADDR ENABLE HEX`: gives a line, of which byte i is written where bit i of `enable` is set.
    Masked {
        port: u32,
        addr: u64,
        enable: u64,
        line: Box<Line>,
    },
    /// `cycle N`: makes that many rounds, 1 to 1,000,000 of them.
    Cycle {
        rounds: u32,
    },
}

/// Why a line was not read.
#[derive(Clone, Copy, Debug, PartialEq, Eq)]
pub enum LineError {
    /// The line is at fault: it is of no form that is read, or names a port that is not there.
    AtFault,
    OutOfMemory,
}

impl From<AllocError> for LineError {
    ghost from_gives = { λ _ e. e ≡ OutOfMemory };

    fn from(_error: AllocError) -> LineError {
        LineError::OutOfMemory
    }
}

impl<T: Drop> From<AllocFailed<T>> for LineError {
    ghost from_gives = { λ _ e. e ≡ OutOfMemory };

    fn from(_error: AllocFailed<T>) -> LineError {
        LineError::OutOfMemory
    }
}

/// Whether a line does nothing: it is empty, or a comment.
pub fn is_skipped(line: &str) -> bool
    ensures { result ≡ is_skipped line.now }
{
    line.is_empty() || line.starts_with('#')
}

/// The instruction of a line that is not skipped, for so many ports. Fails as `AtFault` where the line is of no form
/// that a script has, or its port is none of them.
#[tactic(auto, unfolding(crate::specs::Script::instruction_of))]
pub fn parse_instruction(alloc: Global, ports: u32, line: &str) -> Result<Instruction, LineError>
    ensures { Gives view result (instruction_of ports line.now) }
{
    if line.starts_with(' ') || line.ends_with(' ') {
        return Err(LineError::AtFault);
    }
    let fields = fields(line);
    parse_fields(alloc, ports, fields.as_slice())
}

/// Reads the fields of a line.
fn parse_fields(alloc: Global, ports: u32, fields: &[&str]) -> Result<Instruction, LineError>
    ensures { Gives view result (of_fields ports (map (λ field. field.now) fields.now)) }
{
    match fields {
        [word, count] => parse_two(word, count),
        [word, port, addr, last] => parse_four(alloc, ports, word, port, addr, last),
        [word, port, addr, enable, hex] => parse_five(alloc, ports, word, port, addr, enable, hex),
        _ => Err(LineError::AtFault),
    }
}

/// Reads a line of two fields.
#[tactic(auto, unfolding(crate::specs::Script::of_two))]
fn parse_two(word: &str, count: &str) -> Result<Instruction, LineError>
    ensures { Gives view result (of_two word.now count.now) }
{
    match word {
        "cycle" => parse_cycle(count),
        _ => Err(LineError::AtFault),
    }
}

/// Reads a line of four fields.
#[tactic(auto, unfolding(crate::specs::Script::of_four))]
fn parse_four(
    alloc: Global,
    ports: u32,
    word: &str,
    port: &str,
    addr: &str,
    last: &str,
) -> Result<Instruction, LineError>
    ensures { Gives view result (of_four ports word.now port.now addr.now last.now) }
{
    match word {
        "read" => parse_read(ports, port, addr, last),
        "write" => parse_write(alloc, ports, port, addr, last),
        _ => Err(LineError::AtFault),
    }
}

/// Reads a line of five fields.
#[tactic(auto, unfolding(crate::specs::Script::of_five))]
fn parse_five(
    alloc: Global,
    ports: u32,
    word: &str,
    port: &str,
    addr: &str,
    enable: &str,
    hex: &str,
) -> Result<Instruction, LineError>
    ensures { Gives view result (of_five ports word.now port.now addr.now enable.now hex.now) }
{
    match word {
        "mask" => parse_mask(alloc, ports, port, addr, enable, hex),
        _ => Err(LineError::AtFault),
    }
}

/// What stands between the spaces of a line, up to the sixth field: a line with so many is at fault already.
pub fn fields(line: &str) -> ArrayVec<&str, MOST_FIELDS>
    ensures { map (λ field. field.now) result.items ≡ take MOST_FIELDS (fields_of line.now) }
{
    let mut fields = ArrayVec::new();
    let mut rest = line;
    'fields: while let Some((field, behind)) = rest.split_once(' ') {
        add_field(&mut fields, field);
        rest = behind;
    }
    add_field(&mut fields, rest);
    fields
}

/// Adds a field, unless it is empty or there is no room.
fn add_field<'a>(fields: &mut ArrayVec<&'a str, MOST_FIELDS>, field: &'a str)
    ensures { map (λ field. field.now) fields.new.items ≡ take MOST_FIELDS (map (λ field. field.now) fields.old.items ++ kept_field field.now) }
{
    if !fields.is_full() && !field.is_empty() {
        fields.push(field);
    }
}

#[tactic(auto, unfolding(crate::specs::Script::read_of))]
fn parse_read(ports: u32, port: &str, addr: &str, len: &str) -> Result<Instruction, LineError>
    ensures { Gives view result (read_of ports port.now addr.now len.now) }
{
    Ok(Instruction::Read {
        port: port_of(ports, port)?,
        addr: number(addr)?,
        len: number_up_to(LONGEST_READ, len)? as u32,
    })
}

#[tactic(auto, unfolding(crate::specs::Script::write_of))]
fn parse_write(
    alloc: Global,
    ports: u32,
    port: &str,
    addr: &str,
    hex: &str,
) -> Result<Instruction, LineError>
    ensures { Gives view result (write_of ports port.now addr.now hex.now) }
{
    Ok(Instruction::Write {
        port: port_of(ports, port)?,
        addr: number(addr)?,
        bytes: bytes(alloc, hex)?,
    })
}

#[tactic(auto, unfolding(crate::specs::Script::masked_of))]
fn parse_mask(
    alloc: Global,
    ports: u32,
    port: &str,
    addr: &str,
    enable: &str,
    hex: &str,
) -> Result<Instruction, LineError>
    ensures { Gives view result (masked_of ports port.now addr.now enable.now hex.now) }
{
    Ok(Instruction::Masked {
        port: port_of(ports, port)?,
        addr: number(addr)?,
        enable: enable_of(enable)?,
        line: Box::new(alloc, line_of(hex)?)?,
    })
}

#[tactic(auto, unfolding(crate::specs::Script::cycle_of))]
fn parse_cycle(count: &str) -> Result<Instruction, LineError>
    ensures { Gives view result (cycle_of count.now) }
{
    let rounds = number_up_to(MOST_CYCLES, count)?;
    if rounds == 0 {
        return Err(LineError::AtFault);
    }
    Ok(Instruction::Cycle {
        rounds: rounds as u32,
    })
}

/// The number that a field spells: 1 to 20 decimal digits, below 2^64.
pub fn number(field: &str) -> Result<u64, LineError>
    ensures { Gives (λ n. n) result (number_of LARGEST field.now) }
{
    number_up_to(u64::MAX, field)
}

/// The number that a field spells, where it is at most so much.
fn number_up_to(most: u64, field: &str) -> Result<u64, LineError>
    ensures said { Gives (λ n. n) result (number_of most field.now) }
    ensures most { IfOk result (λ n. n ≤ most) }
{
    parse_number(field.as_bytes(), most).ok_or(LineError::AtFault)
}

/// Of so many ports, the one that a field names.
pub fn port_of(ports: u32, field: &str) -> Result<u32, LineError>
    ensures { Gives (λ port. port) result (port_of ports field.now) }
{
    let port = number(field)?;
    if port >= u64::from(ports) {
        return Err(LineError::AtFault);
    }
    Ok(port as u32)
}

/// The bytes that a field spells: 1 to 128 of them, two hexadecimal digits each, of either case.
fn bytes(alloc: Global, field: &str) -> Result<Vec<u8>, LineError>
    ensures { Gives (λ v. v.items) result (bytes_of field.now) }
{
    let Some(bytes) = decode(alloc, field.as_bytes())? else {
        return Err(LineError::AtFault);
    };
    if bytes.is_empty() || bytes.len() > MOST_WRITTEN {
        return Err(LineError::AtFault);
    }
    Ok(bytes)
}

/// The line that a field spells, two hexadecimal digits for each of its bytes.
fn line_of(field: &str) -> Result<Line, LineError>
    ensures { Gives (λ line. line) result (just_bytes_of LINE_BYTES field.now) }
{
    let mut line = [0; LINE_BYTES];
    match decode_into(field.as_bytes(), &mut line) {
        Some(()) => Ok(line),
        None => Err(LineError::AtFault),
    }
}

/// The data mask that a field spells, in sixteen hexadecimal digits, the highest bit first.
fn enable_of(field: &str) -> Result<u64, LineError>
    ensures { Gives (λ enable. enable) result (enable_of field.now) }
{
    let mut bytes = [0; 8];
    match decode_into(field.as_bytes(), &mut bytes) {
        Some(()) => Ok(u64::from_be_bytes(bytes)),
        None => Err(LineError::AtFault),
    }
}

//! The lines of a stream.
//!
//! `white` and `ddr_text` stand below, and `stream` above. A line that asks for something has four fields in this project's own form,
//! three in that of DRAMSim3 and two in that of Ramulator 2, with one or more spaces between two, and in DRAMSim3's form any white
//! space around them. Other lines are empty, or comments, which begin with `#`.
ghost use Rattle.std.specs.Prelude.{◌≡◌, IfNone, IfSome, drop, false, map, true};
ghost use Rattle.std.specs.Option.{ok_or};
ghost use Rattle.ddr_trace_text.specs.Numbers.{number_of};
ghost use Rattle.ddr_text.specs.Script.{LARGEST, has_space_at_end};
ghost use Rattle.ddr_text.specs.declared.fault.LineFault.TheVariants.{Number, Word};
ghost use Rattle.ddr_stream.specs.Line.{address_of, address_of_dramsim3, address_of_ramulator2, at_of, has_either_mark, is_skipped, kind_of, kind_of_dramsim3, kind_of_ramulator2, of_dramsim3, of_four, of_own, of_ramulator2, of_three, of_two, sent_of};

use crate::white::{is_blank, three_fields};
use ddr_address_map::request::Kind;
use ddr_capture::hexadecimal::hex_of;
use ddr_text::command::Format;
use ddr_text::fault::LineFault;
use ddr_text::script;
use ddr_text::script::fields;
use ddr_trace_text::number::parse_number;

/// What a line asks for, and at which port.
#[derive(Clone, Copy, Debug, PartialEq, Eq)]
pub struct Sent {
    pub port: u32,
    /// The first cycle before which the port may submit it.
    pub at: u64,
    pub kind: Kind,
    pub addr: u64,
}

/// Whether a line asks for nothing: it is empty, a comment, or in DRAMSim3's form white space.
pub fn is_skipped(format: Format, line: &str) -> bool
    ensures { result ≡ is_skipped format line.now }
{
    match format {
        Format::Own | Format::Ramulator2 => script::is_skipped(line),
        Format::Dramsim3 => script::is_skipped(line) || is_blank(line.as_bytes()),
    }
}

/// What a line asks for that is not skipped, for so many ports; where its form names no port, at this one. Fails by the first of these
/// that applies: `Spaces` where a space stands before the first field or behind the last (not in DRAMSim3's form), `Fields` where there
/// are not as many as the form has, `Word` where the word is neither a read nor a write, `Number` where a number is of no form that is
/// read or too great, and `NoSuch` where the port is none of so many.
pub fn parse_line(format: Format, ports: u32, next: u32, line: &str) -> Result<Sent, LineFault>
    ensures { result ≡ sent_of format ports next line.now }
{
    match format {
        Format::Own => parse_own(ports, line),
        Format::Dramsim3 => parse_dramsim3(next, line.as_bytes()),
        Format::Ramulator2 => parse_ramulator2(next, line),
    }
}

/// What a line of this project's own form asks for.
fn parse_own(ports: u32, line: &str) -> Result<Sent, LineFault>
    ensures { result ≡ sent_of Format.Own ports 0 line.now }
{
    if has_space_at_end(line) {
        return Err(LineFault::Spaces);
    }
    let fields = fields(line);
    parse_four(ports, fields.as_slice())
}

/// What a line of Ramulator 2's form asks for.
fn parse_ramulator2(port: u32, line: &str) -> Result<Sent, LineFault>
    ensures { result ≡ sent_of Format.Ramulator2 0 port line.now }
{
    if has_space_at_end(line) {
        return Err(LineFault::Spaces);
    }
    let fields = fields(line);
    parse_two(port, fields.as_slice())
}

/// What a line of DRAMSim3's form asks for.
fn parse_dramsim3(port: u32, line: &[u8]) -> Result<Sent, LineFault>
    ensures { result ≡ sent_of Format.Dramsim3 0 port line.now }
{
    match three_fields(line) {
        Some((addr, word, at)) => parse_three(port, addr, word, at),
        None => Err(LineFault::Fields),
    }
}

/// Whether a space stands before the first field or behind the last.
fn has_space_at_end(line: &str) -> bool
    ensures { result ≡ has_space_at_end line.now }
{
    line.starts_with(' ') || line.ends_with(' ')
}

/// What the fields of a line of this project's own form ask for.
fn parse_four(ports: u32, fields: &[&str]) -> Result<Sent, LineFault>
    ensures { result ≡ of_four ports (map (λ field. field.now) fields.now) }
{
    match fields {
        [at, port, word, addr] => parse_fields(ports, at, port, word, addr),
        _ => Err(LineFault::Fields),
    }
}

#[tactic(auto, unfolding(crate::specs::Line::of_own))]
fn parse_fields(ports: u32, at: &str, port: &str, word: &str, addr: &str) -> Result<Sent, LineFault>
    ensures { result ≡ of_own ports at.now port.now word.now addr.now }
{
    let kind = kind_of(word)?;
    let at = at_of(at)?;
    let port = number(port.as_bytes())?;
    let addr = address_of(addr.as_bytes())?;
    if port >= u64::from(ports) {
        return Err(LineFault::NoSuch);
    }
    Ok(Sent {
        port: port as u32,
        at,
        kind,
        addr,
    })
}

/// What the fields of a line of Ramulator 2's form ask for.
fn parse_two(port: u32, fields: &[&str]) -> Result<Sent, LineFault>
    ensures { result ≡ of_two port (map (λ field. field.now) fields.now) }
{
    match fields {
        [word, addr] => parse_load_or_store(port, word, addr),
        _ => Err(LineFault::Fields),
    }
}

#[tactic(auto, unfolding(crate::specs::Line::of_ramulator2))]
fn parse_load_or_store(port: u32, word: &str, addr: &str) -> Result<Sent, LineFault>
    ensures { result ≡ of_ramulator2 port word.now addr.now }
{
    let kind = kind_of_ramulator2(word)?;
    let addr = address_of_ramulator2(addr.as_bytes())?;
    Ok(Sent {
        port,
        at: 0,
        kind,
        addr,
    })
}

/// What the fields of a line of DRAMSim3's form ask for.
#[tactic(auto, unfolding(crate::specs::Line::of_dramsim3))]
fn parse_three(port: u32, addr: &[u8], word: &[u8], at: &[u8]) -> Result<Sent, LineFault>
    ensures { result ≡ of_dramsim3 port addr.now word.now at.now }
{
    let addr = address_of_dramsim3(addr)?;
    let at = number(at)?;
    Ok(Sent {
        port,
        at,
        kind: kind_of_dramsim3(word),
        addr,
    })
}

/// The cycle that a field names: 0 for `-`, as soon as possible.
fn at_of(field: &str) -> Result<u64, LineFault>
    ensures { result ≡ ok_or (at_of field.now) Number }
{
    match field {
        "-" => Ok(0),
        _ => number(field.as_bytes()),
    }
}

fn kind_of(word: &str) -> Result<Kind, LineFault>
    ensures { result ≡ ok_or (kind_of word.now) Word }
{
    match word {
        "read" => Ok(Kind::Read),
        "write" => Ok(Kind::Write),
        _ => Err(LineFault::Word),
    }
}

/// Each word but four is a read.
fn kind_of_dramsim3(word: &[u8]) -> Kind
    ensures { result ≡ kind_of_dramsim3 word.now }
{
    if word == b"WRITE".as_slice()
        || word == b"write".as_slice()
        || word == b"P_MEM_WR".as_slice()
        || word == b"BOFF".as_slice()
    {
        Kind::Write
    } else {
        Kind::Read
    }
}

fn kind_of_ramulator2(word: &str) -> Result<Kind, LineFault>
    ensures { result ≡ ok_or (kind_of_ramulator2 word.now) Word }
{
    match word {
        "LD" | "R" => Ok(Kind::Read),
        "ST" | "W" => Ok(Kind::Write),
        _ => Err(LineFault::Word),
    }
}

/// The number that a field spells, below 2^64.
fn number(field: &[u8]) -> Result<u64, LineFault>
    ensures { result ≡ ok_or (number_of LARGEST field.now) Number }
{
    parse_number(field, u64::MAX).ok_or(LineFault::Number)
}

/// The address that a field spells: decimal, or hexadecimal behind `0x`.
fn address_of(field: &[u8]) -> Result<u64, LineFault>
    ensures { result ≡ ok_or (address_of field.now) Number }
{
    match field {
        [b'0', b'x', digits @ ..] => hex_of(digits, u64::MAX).ok_or(LineFault::Number),
        _ => number(field),
    }
}

/// The address that a field spells in hexadecimal, behind `0x` or `0X` or without.
fn address_of_dramsim3(field: &[u8]) -> Result<u64, LineFault>
    ensures { result ≡ ok_or (address_of_dramsim3 field.now) Number }
{
    match behind_either_mark(field) {
        Some(digits) => hex_of(digits, u64::MAX).ok_or(LineFault::Number),
        None => hex_of(field, u64::MAX).ok_or(LineFault::Number),
    }
}

/// The address that a field spells: decimal, or hexadecimal behind `0x` or `0X`.
fn address_of_ramulator2(field: &[u8]) -> Result<u64, LineFault>
    ensures { result ≡ ok_or (address_of_ramulator2 field.now) Number }
{
    match behind_either_mark(field) {
        Some(digits) => hex_of(digits, u64::MAX).ok_or(LineFault::Number),
        None => number(field),
    }
}

/// What stands behind `0x` or `0X`, if one of them stands in front.
fn behind_either_mark(field: &[u8]) -> Option<&[u8]>
    ensures some { IfSome result (λ digits. (has_either_mark field.now ≡ true) × (digits.now ≡ drop 2 field.now)) }
    ensures none { IfNone result (has_either_mark field.now ≡ false) }
{
    match field {
        [b'0', b'x' | b'X', digits @ ..] => Some(digits),
        _ => None,
    }
}

//! Where addresses lie: a configuration and addresses in, a line for each of them out.
//!
//! `input`, `body`, `script`, `writing` and `ddr_address_map` stand below, and the program above.
ghost use Rattle.std.specs.Prelude.{◌≡◌, ◌≤◌, IfErr, IfOk, IfSome, IsErrOf, IsTrue, MatchResult, Ok, OnOk, length, string_bytes};
ghost use Rattle.ddr_text.specs.MapText.{HasMapFault, IsMapFault, IsMapped, address_text, line_text, map_text};
ghost use Rattle.ddr_text.specs.Fault.{is_before_output};
ghost use Rattle.ddr_text.specs.Lines.{Gives};

use crate::body::take_apart;
use crate::fault::Fault;
use crate::input::{LONGEST_INPUT, read_source, text_of};
use crate::script::{LineError, number};
use crate::sink::Sink;
use crate::source::Source;
use crate::writing::write_whole;
use ddr_address_map::map::Map;
use ddr_timing::profile::PROFILE_S;
use ddr_timing::units::LINE_COLUMNS;
use std::alloc::{AllocError, Global};

/// Reads addresses, one a line, and writes where each lies, in the order of the lines.
///
/// With `sample` the whole input is the body of addresses, on the sample configuration; else the input is a
/// configuration, a line `---` and the body. An address is a decimal number of 1 to 20 digits below 2^64, in bytes.
/// For each one line is written: `ADDR CHANNEL GROUP BANK ROW COL OFFSET`, under version 2 with `RANK` behind `CHANNEL`,
/// where `COL` counts device columns and `OFFSET` bytes, or `ADDR out` from the capacity on. Empty lines are skipped.
///
/// Fails as `take_apart` does, as `MapLine` at the first line that is no address, and as `Write` where the writer fails, and so
/// never over bytes in memory. Nothing is written before the whole text is there, so only `Write` may leave a part of it.
pub fn map<R: Source, W: Sink>(
    alloc: Global,
    sample: bool,
    reader: &mut R,
    writer: &mut W,
) -> Result<(), Fault>
    ensures untouched { IfErr result (λ fault. IsTrue (is_before_output fault) → writer.new ≡ writer.old) }
    ensures sure { IsErrOf result Fault.Read → IsTrue R.may_fail }
    ensures taken { IsErrOf result Fault.Write → IsTrue W.may_fail }
    ensures spared { IsErrOf result Fault.OutOfMemory → W.contents writer.new ≡ W.contents writer.old }
    ensures unmoved { IsErrOf result Fault.OutOfMemory → IsTrue W.may_fail → writer.new ≡ writer.old }
    ensures fault { IfErr result (λ fault. IfSome (R.remaining reader.old) (λ input.
        HasMapFault sample PROFILE_S.now input fault)) }
    ensures written { OnOk result (IfSome (R.remaining reader.old) (λ input.
        IsMapped sample PROFILE_S.now input (W.contents writer.old) (W.contents writer.new))) }
{
    let input = read_source(alloc, reader)?;
    let text = text_of(input.as_slice())?;
    let (config, body) = take_apart(alloc, sample, text)?;
    let lines = map_text(alloc, &Map::new(&config), body)?;
    write_whole(writer, lines.as_str())
}

/// What is written for a body. Fails as `MapLine` at the first line that is neither empty nor an address, and as
/// `OutOfMemory`.
fn map_text(alloc: Global, map: &Map, body: &str) -> Result<String, Fault>
    requires { length body.now ≤ LONGEST_INPUT }
    ensures { let said = map_text map.now.geometry body.now in
        MatchResult result (λ text. said ≡ Ok (string_bytes text)) (λ fault. IsMapFault fault said) }
{
    let mut text = String::new(alloc);
    let mut line = 0;
    for written in body.lines() {
        line += 1;
        match line_text(alloc, map, written) {
            Ok(added) => text.push_str(added.as_str())?,
            Err(LineError::AtFault) => return Err(Fault::MapLine { line }),
            Err(LineError::OutOfMemory) => return Err(Fault::OutOfMemory),
        }
    }
    Ok(text)
}

/// What is written for a line of the body: nothing for an empty one.
fn line_text(alloc: Global, map: &Map, line: &str) -> Result<String, LineError>
    ensures { Gives string_bytes result (line_text map.now.geometry line.now) }
{
    if line.is_empty() {
        return Ok(String::new(alloc));
    }
    let addr = number(line)?;
    Ok(address_text(alloc, map, addr)?)
}

/// The line of an address, with its line feed. Only version 2 has a word for the rank.
#[tactic(auto, unfolding(crate::specs::MapText::address_text))]
fn address_text(alloc: Global, map: &Map, addr: u64) -> Result<String, AllocError>
    ensures { IfOk result (λ text. string_bytes text ≡ address_text map.now.geometry addr) }
{
    let Some(place) = map.place(addr) else {
        return format!(in alloc; "{addr} out\n");
    };
    let channel = place.channel;
    let group = place.group;
    let bank = place.bank;
    let row = place.row;
    let column = u64::from(LINE_COLUMNS) * u64::from(place.line);
    let offset = place.offset;
    if map.geometry.version == 2 {
        let rank = place.rank;
        return format!(in alloc;
            "{addr} {channel} {rank} {group} {bank} {row} {column} {offset}\n"
        );
    }
    format!(in alloc; "{addr} {channel} {group} {bank} {row} {column} {offset}\n")
}

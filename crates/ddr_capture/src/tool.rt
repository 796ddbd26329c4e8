//! A line of another simulator's command trace.
//!
//! `cuts`, `place`, `number` and `hexadecimal` stand below, and `line` above.
ghost use Rattle.std.specs.Prelude.{◌≡◌, ◌∷◌, [], IfOk, IfSome};
ghost use Rattle.ddr_text.specs.Script.{fields_of};
ghost use Rattle.ddr_capture.specs.Fields.{decimal_of, hexadecimal_of, trimmed_cut};
ghost use Rattle.ddr_capture.specs.Line.{IsEarly, command_at, kind_of, kind_of_dramsim3, kind_of_ramulator2, of_eight, place_of, wide_of};
ghost use Rattle.ddr_capture.specs.declared.tool.Tool.TheVariants as tool;

use crate::cuts::{Four, eight_spaced, eight_trimmed};
use crate::hexadecimal::hex_index_of;
use crate::line::Said;
use crate::number::{cycle_of, index_of};
use crate::place::{CommandKind, PartialPlace};
use ddr_text::fault::LineFault;
use ddr_trace::command::Entry;

/// The simulator that a line is of.
#[derive(Clone, Copy, Debug, PartialEq, Eq)]
pub enum Tool {
    Dramsim3,
    Ramulator2,
}

/// What a line of DRAMSim3 says.
#[tactic(auto, using(crate::proofs::CutLemmas::not_eight))]
pub(crate) fn read_spaced(line: &[u8]) -> Result<Said, LineFault>
    ensures exact { result ≡ of_eight tool.Dramsim3 (fields_of line.now) }
    ensures early { IfOk result IsEarly }
{
    match eight_spaced(line) {
        Some((front, back)) => read_eight(Tool::Dramsim3, &front, &back),
        None => Err(LineFault::Fields),
    }
}

/// What a line of Ramulator 2 says.
#[tactic(auto, using(crate::proofs::CutLemmas::not_eight))]
pub(crate) fn read_cut(line: &[u8]) -> Result<Said, LineFault>
    ensures exact { result ≡ of_eight tool.Ramulator2 (trimmed_cut line.now) }
    ensures early { IfOk result IsEarly }
{
    match eight_trimmed(line) {
        Some((front, back)) => read_eight(Tool::Ramulator2, &front, &back),
        None => Err(LineFault::Fields),
    }
}

/// What eight fields say.
fn read_eight(tool: Tool, front: &Four<'_>, back: &Four<'_>) -> Result<Said, LineFault>
    ensures exact { result ≡ of_eight tool (front.now.first.now ∷ front.now.second.now ∷ front.now.third.now ∷ front.now.fourth.now
        ∷ back.now.first.now ∷ back.now.second.now ∷ back.now.third.now ∷ back.now.fourth.now ∷ []) }
    ensures early { IfOk result IsEarly }
{
    match kind_of(tool, front.second) {
        Some(kind) => command_at(tool, kind, front, back).ok_or(LineFault::Number),
        None => Err(LineFault::Word),
    }
}

/// A command of this kind; none where a field is not as the kind wants it.
#[tactic(auto, unfolding(crate::specs::Line::command_at))]
fn command_at(tool: Tool, kind: CommandKind, front: &Four<'_>, back: &Four<'_>) -> Option<Said>
    ensures exact { result ≡ command_at tool kind front.now.first.now front.now.third.now front.now.fourth.now
        back.now.first.now back.now.second.now back.now.third.now back.now.fourth.now }
    ensures early { IfSome result IsEarly }
{
    let cycle = cycle_of(front.first)?;
    let channel = decimal_of(front.third)?;
    let place = place_of(tool, front.fourth, back)?;
    let command = place.command(kind)?;
    Some(Said::Command {
        channel,
        entry: Entry { cycle, command },
    })
}

/// Where a command goes.
#[tactic(auto, unfolding(crate::specs::Line::place_of))]
fn place_of(tool: Tool, rank: &[u8], back: &Four<'_>) -> Option<PartialPlace>
    ensures { result ≡ place_of tool rank.now back.now.first.now back.now.second.now back.now.third.now back.now.fourth.now }
{
    let rank = decimal_of(rank)?;
    let group = decimal_of(back.first)?;
    let bank = decimal_of(back.second)?;
    let row = wide_of(tool, back.third)?;
    let line = wide_of(tool, back.fourth)?;
    Some(PartialPlace {
        rank,
        group,
        bank,
        row,
        line,
    })
}

fn kind_of(tool: Tool, name: &[u8]) -> Option<CommandKind>
    ensures { result ≡ kind_of tool name.now }
{
    match tool {
        Tool::Dramsim3 => kind_of_dramsim3(name),
        Tool::Ramulator2 => kind_of_ramulator2(name),
    }
}

fn kind_of_dramsim3(name: &[u8]) -> Option<CommandKind>
    ensures { result ≡ kind_of_dramsim3 name.now }
{
    if name == b"activate".as_slice() {
        Some(CommandKind::Activate)
    } else if name == b"read".as_slice() {
        Some(CommandKind::Read)
    } else if name == b"write".as_slice() {
        Some(CommandKind::Write)
    } else if name == b"read_p".as_slice() {
        Some(CommandKind::ReadAuto)
    } else if name == b"write_p".as_slice() {
        Some(CommandKind::WriteAuto)
    } else if name == b"precharge".as_slice() {
        Some(CommandKind::Precharge)
    } else if name == b"refresh".as_slice() {
        Some(CommandKind::Refresh)
    } else {
        None
    }
}

fn kind_of_ramulator2(name: &[u8]) -> Option<CommandKind>
    ensures { result ≡ kind_of_ramulator2 name.now }
{
    if name == b"ACT".as_slice() {
        Some(CommandKind::Activate)
    } else if name == b"RD".as_slice() {
        Some(CommandKind::Read)
    } else if name == b"WR".as_slice() {
        Some(CommandKind::Write)
    } else if name == b"RDA".as_slice() {
        Some(CommandKind::ReadAuto)
    } else if name == b"WRA".as_slice() {
        Some(CommandKind::WriteAuto)
    } else if name == b"PRE".as_slice() {
        Some(CommandKind::Precharge)
    } else if name == b"PREA".as_slice() {
        Some(CommandKind::PrechargeAll)
    } else if name == b"REFab".as_slice() {
        Some(CommandKind::Refresh)
    } else {
        None
    }
}

/// A row or a column.
fn wide_of(tool: Tool, field: &[u8]) -> Option<Option<u32>>
    ensures { result ≡ wide_of tool field.now }
{
    match tool {
        Tool::Dramsim3 => hexadecimal_of(field),
        Tool::Ramulator2 => decimal_of(field),
    }
}

/// A decimal number, or `-1` for none.
fn decimal_of(field: &[u8]) -> Option<Option<u32>>
    ensures { result ≡ decimal_of field.now }
{
    if field == b"-1".as_slice() {
        return Some(None);
    }
    let number = index_of(field)?;
    Some(Some(number))
}

/// A hexadecimal number, or `-0x1` for none.
fn hexadecimal_of(field: &[u8]) -> Option<Option<u32>>
    ensures { result ≡ hexadecimal_of field.now }
{
    if field == b"-0x1".as_slice() {
        return Some(None);
    }
    let number = hex_index_of(field)?;
    Some(Some(number))
}

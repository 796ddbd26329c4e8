//! The instructions of a whole script.
//!
//! `script` stands below, which reads a line; the program hands the instructions to the core, or each to its port.
ghost use Rattle.std.specs.Prelude.{◌≡◌, ◌≤◌, length, map};
ghost use Rattle.ddr_text.specs.Instructions.{AreRead, IsRead, instruction_in, instructions_of, is_request, with_instruction, with_line};
ghost use Rattle.ddr_text.specs.Lines.{Gives};
ghost use Rattle.ddr_text.specs.Script.{view};

use crate::fault::Fault;
use crate::input::LONGEST_INPUT;
use crate::script::{Instruction, LineError, is_skipped, parse_instruction};
use std::alloc::Global;
use std::marker::Model;

/// The most requests of a script, this project's choice.
pub const MOST_REQUESTS: u32 = 10_000;

/// Which lines a script may have.
#[derive(Clone, Copy, Debug, PartialEq, Eq)]
pub struct Form {
    /// How many ports there are to be named.
    pub ports: u32,
    /// Whether a line may make rounds.
    pub rounds: bool,
}

/// What was read of a script so far.
#[derive(Drop)]
struct Reading {
    instructions: Vec<Instruction>,
    /// How many of them are requests.
    requests: u32,
}

impl Model for Reading {
    ghost use Rattle.ddr_text.specs.Instructions.{Script};

    ghost Value = { Script };

    ghost use Rattle.ddr_text.specs.Instructions.{script_of, IsFew};

    ghost view = { script_of };

    ghost invariant = { IsFew };
}

/// The instructions of a script of this form, in order.
///
/// Fails as `ScriptLine` at the first line that is none of such a script, as `ScriptLimit` at the first request too many,
/// whichever comes first, and as `OutOfMemory`.
pub fn instructions_of(alloc: Global, form: Form, text: &str) -> Result<Vec<Instruction>, Fault>
    requires { length text.now ≤ LONGEST_INPUT }
    ensures { AreRead (λ v. map view v.items) result (instructions_of form text.now) }
{
    let mut reading = Reading {
        instructions: Vec::new(alloc),
        requests: 0,
    };
    let mut line = 0;
    for written in text.lines() {
        line += 1;
        read_line(alloc, form, line, &mut reading, written)?;
    }
    Ok(reading.instructions)
}

/// Adds the instruction of a line, unless the line is skipped.
fn read_line(
    alloc: Global,
    form: Form,
    line: u64,
    reading: &mut Reading,
    written: &str,
) -> Result<(), Fault>
    ensures { IsRead reading.new result (with_line form line reading.old written.now) }
{
    if is_skipped(written) {
        return Ok(());
    }
    match read_instruction(alloc, form, written) {
        Ok(instruction) => push_instruction(reading, instruction),
        Err(LineError::AtFault) => Err(Fault::ScriptLine { line }),
        Err(LineError::OutOfMemory) => Err(Fault::OutOfMemory),
    }
}

/// The instruction of a line that is not skipped. Fails as `AtFault` where a script of this form has no such line.
#[tactic(auto, unfolding(crate::specs::Instructions::instruction_in))]
fn read_instruction(alloc: Global, form: Form, written: &str) -> Result<Instruction, LineError>
    ensures { Gives view result (instruction_in form written.now) }
{
    let instruction = parse_instruction(alloc, form.ports, written)?;
    if !form.rounds && !is_request(&instruction) {
        return Err(LineError::AtFault);
    }
    Ok(instruction)
}

/// Adds an instruction, unless it is one request too many.
fn push_instruction(reading: &mut Reading, instruction: Instruction) -> Result<(), Fault>
    ensures { IsRead reading.new result (with_instruction reading.old (view instruction)) }
{
    if is_request(&instruction) {
        if reading.requests == MOST_REQUESTS {
            return Err(Fault::ScriptLimit);
        }
        reading.requests += 1;
    }
    reading.instructions.push(instruction)?;
    Ok(())
}

/// Whether an instruction asks a port for something.
fn is_request(instruction: &Instruction) -> bool
    ensures { result ≡ is_request (view instruction.now) }
{
    match instruction {
        Instruction::Read { .. } | Instruction::Write { .. } | Instruction::Masked { .. } => true,
        Instruction::Cycle { .. } => false,
    }
}

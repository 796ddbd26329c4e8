//! The judge for test benches and other simulators: what C calls. `include/ddr_judge.h` says what each call does and what C has to
//! keep, and wraps each so that a null pointer answers a code too.
//!
//! `judge` stands below, the judge of one channel, and `slot`, what C holds of one. Each export takes the judge out of the slot,
//! makes one call of it, and puts it back. Its contract says what the call told of the channel's commands, in the words of the
//! rules' own definitions, and which code it answers. No command that comes asks for memory.
#![tactic(auto)]

ghost use Rattle.std.specs.Prelude.{◌≡◌, IfNone, IfSome, None, Some, if◌then◌else◌, is_some};
ghost use Rattle.ddr_judge_c.specs.Calls.{Calls, IsCommand, IsEnded, judge_in};
ghost use Rattle.ddr_judge_c.specs.Opens.{IsOpening, IsShown};

mod bus;
mod codes;
pub mod fault;
mod handle;
mod judge;
mod open;
pub mod slot;

use bus::entry_of;
use codes::{ALREADY_OPEN, CLOCK_SPENT, CLOSED, ILLEGAL, OK, SPENT};
use ddr_bus::bus::BusCommand;
use ddr_timing::units::CLOCK_STOP;
use fault::{Fault, fault_of};
use judge::Judge;
use open::open;
use slot::Slot;
use std::alloc::Global;

/// Opens a judge of one channel from a configuration's text, for a trace that begins in the cycle `start`. A refusal's text is copied
/// as far as it fits, and `length` is its whole length.
#[unsafe(no_mangle)]
pub extern "C" fn ddr_c_judge_open(
    alloc: Global,
    slot: &mut Slot,
    text: &[u8],
    start: u64,
    message: &mut [u8],
    length: &mut u64,
) -> i32
    ensures open { IfSome (judge_in slot.old) (λ judge. (result ≡ ALREADY_OPEN) × (judge_in slot.new ≡ Some judge)) }
    ensures closed { IfNone (judge_in slot.old) (IsOpening text.now start result (judge_in slot.new)) }
    ensures shown { IsShown result message.old message.new length.old length.new }
{
    if slot.is_open() {
        return ALREADY_OPEN;
    }
    open(alloc, slot, text, start, message, length)
}

/// Judges the channel's next command, and tells the lowest rule that it breaks.
#[unsafe(no_mangle)]
pub extern "C" fn ddr_c_judge_command(
    alloc: Global,
    slot: &mut Slot,
    command: &BusCommand,
    fault: &mut Fault,
) -> i32
    ensures { Calls (judge_in slot.old) (judge_in slot.new) ((result ≡ CLOSED) × (fault.new ≡ fault.old)) (IsCommand command.now fault.old fault.new result) }
{
    let Some(mut judge) = slot.take(alloc) else {
        return CLOSED;
    };
    let code = answer(&mut judge, command, fault);
    slot.put(judge);
    code
}

/// Judges a command, where it is one.
fn answer(judge: &mut Judge, command: &BusCommand, fault: &mut Fault) -> i32
    ensures { IsCommand command.now fault.old fault.new result judge.old judge.new }
{
    let entry = match entry_of(command) {
        Ok(entry) => entry,
        Err(code) => return code,
    };
    if entry.cycle >= CLOCK_STOP {
        return CLOCK_SPENT;
    }
    if judge.count() >= CLOCK_STOP {
        return SPENT;
    }
    match judge.judge(&entry) {
        None => OK,
        Some(told) => {
            *fault = fault_of(&entry, &told, &judge.watch.config.timing);
            ILLEGAL
        }
    }
}

/// Tells whether the trace, if it ends in that cycle, ends behind the deadline of a REF.
#[unsafe(no_mangle)]
pub extern "C" fn ddr_c_judge_end(alloc: Global, slot: &mut Slot, end: u64) -> i32
    ensures same { judge_in slot.new ≡ judge_in slot.old }
    ensures told { Calls (judge_in slot.old) (judge_in slot.new) (result ≡ CLOSED) (λ judge after. IsEnded end result judge) }
{
    let Some(judge) = slot.take(alloc) else {
        return CLOSED;
    };
    let code = ended(&judge, end);
    slot.put(judge);
    code
}

/// The code of a trace that ends in that cycle.
fn ended(judge: &Judge, end: u64) -> i32
    ensures { IsEnded end result judge.now }
{
    if judge.ends_late(end) { ILLEGAL } else { OK }
}

/// Closes a judge: gives back its memory. The slot is as at first.
#[unsafe(no_mangle)]
pub extern "C" fn ddr_c_judge_close(alloc: Global, slot: &mut Slot) -> i32
    ensures closed { judge_in slot.new ≡ None }
    ensures code { result ≡ (if is_some (judge_in slot.old) then OK else CLOSED) }
{
    match slot.take(alloc) {
        Some(_) => OK,
        None => CLOSED,
    }
}

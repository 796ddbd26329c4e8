//! The core for other simulators: what C calls. `include/ddr.h` says what each call does and what C has to keep, and
//! wraps each so that a null pointer answers a code too.
//!
//! `host` stands below, a core with rounds, and `slot`, what C holds of one. Each export takes the core out of the slot,
//! makes one call of `host`, and puts it back. Its contract says what the call made of the core that the slot holds, in
//! the words of the core's own, and which code it answers.
#![tactic(auto)]

ghost use Rattle.std.specs.Prelude.{◌≡◌, ◌≢◌, ◌-◌, true, false, IfNone, IfSome, None, Some, drop, if◌then◌else◌, is_some, length, min, slice_get};
ghost use Rattle.ddr_ports.specs.Asked.{Asked, Masked, Read, Write, asked_of};
ghost use Rattle.ddr_world.specs.Kept.{state_of};
ghost use Rattle.ddr_world.specs.Quiet.{IsQuiet};
ghost use Rattle.ddr_c.specs.Calls.{Calls, IsAdvanced, IsCountedOf, IsNumbered, IsPortTold, IsServed, IsSubmitted, IsTaken, IsTraced, Tells, cycle_in, held_in, head_after, port_numbers_in, reply_code};
ghost use Rattle.ddr_c.specs.Codes.{answer_code, number_told};
ghost use Rattle.ddr_c.specs.Opens.{IsOpening, IsShown};
ghost use Rattle.ddr_c.specs.Shapes.{shape_of};
ghost use Rattle.ddr_c.specs.Trace.{traced};

mod codes;
mod handle;
pub mod head;
mod host;
pub mod numbers;
mod open;
pub mod shape;
pub mod slot;
mod stamps;
mod trace;
mod traffic;

use codes::{ALREADY_OPEN, CLOSED, NO_SUCH, NO_TRACE, NOTHING, OK, TOO_SHORT, code_of};
use ddr_address_map::request::Line;
use ddr_bus::bus::BusCommand;
use ddr_ports::request::Request;
use ddr_timing::units::LINE_BYTES;
use ddr_world::event::{Outcome, Refusal};
use ddr_world::world::Counts;
use head::{Head, head_of};
use host::{Core, Next};
use numbers::{ChannelNumbers, PortNumbers};
use open::open;
use shape::{Shape, shape_of};
use slot::Slot;
use std::alloc::Global;
use trace::copy_from;

/// Opens a core from a configuration's text. A refusal's text is copied as far as it fits, and `length` is its whole length.
/// Memory may be refused of every text that is UTF-8: its table, the core and the text of a refusal lie in memory.
#[unsafe(no_mangle)]
pub extern "C" fn ddr_c_open(
    alloc: Global,
    slot: &mut Slot,
    text: &[u8],
    message: &mut [u8],
    length: &mut u64,
) -> i32
    ensures open { IfSome (held_in slot.old) (λ core. (result ≡ ALREADY_OPEN) × (held_in slot.new ≡ Some core)) }
    ensures closed { IfNone (held_in slot.old) (IsOpening true text.now result (held_in slot.new)) }
    ensures shown { IsShown result message.old message.new length.old length.new }
{
    if slot.is_open() {
        return ALREADY_OPEN;
    }
    open(alloc, slot, true, text, message, length)
}

/// Opens a core as `ddr_c_open` does, but its channels keep no trace, so that a run of any length takes no more memory than the rows that
/// it writes.
#[unsafe(no_mangle)]
pub extern "C" fn ddr_c_open_without_traces(
    alloc: Global,
    slot: &mut Slot,
    text: &[u8],
    message: &mut [u8],
    length: &mut u64,
) -> i32
    ensures open { IfSome (held_in slot.old) (λ core. (result ≡ ALREADY_OPEN) × (held_in slot.new ≡ Some core)) }
    ensures closed { IfNone (held_in slot.old) (IsOpening false text.now result (held_in slot.new)) }
    ensures shown { IsShown result message.old message.new length.old length.new }
{
    if slot.is_open() {
        return ALREADY_OPEN;
    }
    open(alloc, slot, false, text, message, length)
}

/// Asks a port to read bytes.
#[unsafe(no_mangle)]
pub extern "C" fn ddr_c_read(
    alloc: Global,
    slot: &mut Slot,
    port: u32,
    addr: u64,
    length: u32,
    number: &mut u64,
) -> i32
    ensures { Calls (held_in slot.old) (held_in slot.new) ((result ≡ CLOSED) × (number.new ≡ number.old)) (IsSubmitted port (Read addr length) number.old number.new result) }
{
    submit(alloc, slot, port, Request::read(addr, length), number)
}

/// Asks a port to write bytes.
#[unsafe(no_mangle)]
pub extern "C" fn ddr_c_write(
    alloc: Global,
    slot: &mut Slot,
    port: u32,
    addr: u64,
    bytes: &[u8],
    number: &mut u64,
) -> i32
    ensures { Calls (held_in slot.old) (held_in slot.new) ((result ≡ CLOSED) × (number.new ≡ number.old)) (IsSubmitted port (Write addr bytes.now) number.old number.new result) }
{
    submit(alloc, slot, port, Request::write(addr, bytes), number)
}

/// Asks a port to write the enabled bytes of a line: the byte i where bit i of `enable` is set. The line has 64 bytes.
#[unsafe(no_mangle)]
pub extern "C" fn ddr_c_masked_write(
    alloc: Global,
    slot: &mut Slot,
    port: u32,
    addr: u64,
    line: &[u8],
    enable: u64,
    number: &mut u64,
) -> i32
    ensures short { length line.now ≢ LINE_BYTES → (result ≡ TOO_SHORT) × (held_in slot.new ≡ held_in slot.old) × (number.new ≡ number.old) }
    ensures whole { length line.now ≡ LINE_BYTES → Calls (held_in slot.old) (held_in slot.new) ((result ≡ CLOSED) × (number.new ≡ number.old)) (IsSubmitted port (Masked addr line.now enable) number.old number.new result) }
{
    if line.len() != LINE_BYTES {
        return TOO_SHORT;
    }
    let mut whole: Line = [0; LINE_BYTES];
    whole.copy_from_slice(line);
    submit(
        alloc,
        slot,
        port,
        Request::masked(addr, &whole, enable),
        number,
    )
}

/// Makes a request, and tells its number or the code of the refusal.
fn submit(alloc: Global, slot: &mut Slot, port: u32, request: Request<'_>, number: &mut u64) -> i32
    ensures { Calls (held_in slot.old) (held_in slot.new) ((result ≡ CLOSED) × (number.new ≡ number.old)) (IsSubmitted port (asked_of request.entry) number.old number.new result) }
{
    let Some(mut core) = slot.take(alloc) else {
        return CLOSED;
    };
    let answer = core.submit(port, request);
    slot.put(core);
    tell(answer, number)
}

/// The code of an accepted request, whose number is told, or of a refusal.
fn tell(answer: Result<Outcome, Refusal>, number: &mut u64) -> i32
    ensures code { result ≡ answer_code answer }
    ensures number { number.new ≡ number_told answer number.old }
{
    match answer {
        Ok(Outcome::Accepted { number: given }) => {
            *number = given;
            OK
        }
        Ok(_) => OK,
        Err(cause) => code_of(cause),
    }
}

/// Tells for how many rounds nothing is to be done.
#[unsafe(no_mangle)]
pub extern "C" fn ddr_c_quiet(alloc: Global, slot: &mut Slot, rounds: &mut u64) -> i32
    ensures same { held_in slot.new ≡ held_in slot.old }
    ensures told { Calls (held_in slot.old) (held_in slot.new) ((result ≡ CLOSED) × (rounds.new ≡ rounds.old)) (λ core after. (result ≡ OK) × IsQuiet rounds.new (state_of core.world)) }
{
    let Some(core) = slot.take(alloc) else {
        return CLOSED;
    };
    *rounds = core.quiet();
    slot.put(core);
    OK
}

/// Makes rounds, and tells how many were made. Memory is refused only to a cycle that issues a command.
#[unsafe(no_mangle)]
pub extern "C" fn ddr_c_rounds(alloc: Global, slot: &mut Slot, count: u64, made: &mut u64) -> i32
    ensures { Calls (held_in slot.old) (held_in slot.new) ((result ≡ CLOSED) × (made.new ≡ made.old)) (IsAdvanced count made.new result) }
{
    let Some(mut core) = slot.take(alloc) else {
        return CLOSED;
    };
    let code = advance(&mut core, count, made);
    slot.put(core);
    code
}

/// Makes rounds, and tells how many were made, and the code of what the others were refused for.
fn advance(core: &mut Core, count: u64, made: &mut u64) -> i32
    ensures { IsAdvanced count made.new result core.old core.new }
{
    let rounds = core.rounds(count);
    *made = rounds.made;
    match rounds.stopped {
        None => OK,
        Some(cause) => code_of(cause),
    }
}

/// Copies the oldest reply of a port, and gives it up.
#[unsafe(no_mangle)]
pub extern "C" fn ddr_c_next(
    alloc: Global,
    slot: &mut Slot,
    port: u32,
    head: &mut Head,
    buffer: &mut [u8],
) -> i32
    ensures { Calls (held_in slot.old) (held_in slot.new) ((result ≡ CLOSED) × (head.new ≡ head.old) × (buffer.new ≡ buffer.old)) (IsTaken port head.old head.new buffer.old buffer.new result) }
{
    let Some(mut core) = slot.take(alloc) else {
        return CLOSED;
    };
    let code = take_next(&mut core, port, head, buffer);
    slot.put(core);
    code
}

/// Copies the oldest reply of a port, and gives it up. Its head is told, and the code of what became of it.
fn take_next(core: &mut Core, port: u32, head: &mut Head, buffer: &mut [u8]) -> i32
    ensures { IsTaken port head.old head.new buffer.old buffer.new result core.old core.new }
{
    let known = core.counts(port).is_some();
    let clock = core.clock();
    let next = core.next(port, buffer);
    hand_over(&next, known, clock, head)
}

/// Copies the bytes of the reply to a port's request of this number, once its line has come back, whether or not the replies before it are
/// ready. The reply stays.
#[unsafe(no_mangle)]
pub extern "C" fn ddr_c_served(
    alloc: Global,
    slot: &mut Slot,
    port: u32,
    number: u64,
    head: &mut Head,
    buffer: &mut [u8],
) -> i32
    ensures same { held_in slot.new ≡ held_in slot.old }
    ensures told { Calls (held_in slot.old) (held_in slot.new) ((result ≡ CLOSED) × (head.new ≡ head.old) × (buffer.new ≡ buffer.old)) (λ core after. IsServed port number head.old head.new buffer.old buffer.new result core) }
{
    let Some(core) = slot.take(alloc) else {
        return CLOSED;
    };
    let code = show(&core, port, number, head, buffer);
    slot.put(core);
    code
}

/// Copies the bytes of the reply to a port's request of this number. Its head is told, and the code of what became of it.
fn show(core: &Core, port: u32, number: u64, head: &mut Head, buffer: &mut [u8]) -> i32
    ensures { IsServed port number head.old head.new buffer.old buffer.new result core.now }
{
    let known = core.counts(port).is_some();
    let clock = core.clock();
    let next = core.served(port, number, buffer);
    hand_over(&next, known, clock, head)
}

/// The code of what became of a reply, whose head is told. `known` is whether there is such a port.
fn hand_over(next: &Next, known: bool, clock: u64, head: &mut Head) -> i32
    ensures code { result ≡ reply_code known next.now }
    ensures head { head.new ≡ head_after next.now clock head.old }
{
    match next {
        Next::Nothing => { if known { NOTHING } else { NO_SUCH } }
        Next::TooShort(front) => {
            *head = head_of(front, clock);
            TOO_SHORT
        }
        Next::Given(front) => {
            *head = head_of(front, clock);
            OK
        }
    }
}

/// Tells how many requests a port accepted, and how many replies it gave up.
#[unsafe(no_mangle)]
pub extern "C" fn ddr_c_counts(
    alloc: Global,
    slot: &mut Slot,
    port: u32,
    accepted: &mut u64,
    taken: &mut u64,
) -> i32
    ensures same { held_in slot.new ≡ held_in slot.old }
    ensures told { Calls (held_in slot.old) (held_in slot.new) ((result ≡ CLOSED) × (accepted.new ≡ accepted.old) × (taken.new ≡ taken.old)) (λ core after. IsCountedOf (slice_get core.world.ports port) accepted.old taken.old accepted.new taken.new result) }
{
    let Some(core) = slot.take(alloc) else {
        return CLOSED;
    };
    let answer = core.counts(port);
    slot.put(core);
    match answer {
        Some(
            Counts {
                accepted: sent,
                taken: given,
            },
        ) => {
            *accepted = sent;
            *taken = given;
            OK
        }
        None => NO_SUCH,
    }
}

/// Tells the next cycle of a channel.
#[unsafe(no_mangle)]
pub extern "C" fn ddr_c_cycle(alloc: Global, slot: &mut Slot, channel: u32, cycle: &mut u64) -> i32
    ensures same { held_in slot.new ≡ held_in slot.old }
    ensures told { Calls (held_in slot.old) (held_in slot.new) ((result ≡ CLOSED) × (cycle.new ≡ cycle.old)) (λ core after. Tells (cycle_in core channel) cycle.old cycle.new result) }
{
    let Some(core) = slot.take(alloc) else {
        return CLOSED;
    };
    let answer = core.cycle_of(channel);
    slot.put(core);
    match answer {
        Some(now) => {
            *cycle = now;
            OK
        }
        None => NO_SUCH,
    }
}

/// Copies commands of a channel, from the one of this number on, and tells how many. A core that was opened without traces has none.
#[unsafe(no_mangle)]
pub extern "C" fn ddr_c_trace(
    alloc: Global,
    slot: &mut Slot,
    channel: u32,
    first: u64,
    commands: &mut [BusCommand],
    count: &mut u64,
) -> i32
    ensures same { held_in slot.new ≡ held_in slot.old }
    ensures told { Calls (held_in slot.old) (held_in slot.new) ((result ≡ CLOSED) × (commands.new ≡ commands.old) × (count.new ≡ count.old)) (λ core after. IsTraced core channel first commands.old commands.new count.old count.new result) }
{
    let Some(core) = slot.take(alloc) else {
        return CLOSED;
    };
    let code = list(&core, channel, first, commands, count);
    slot.put(core);
    code
}

/// Copies commands of a channel, from the one of this number on, where traces are kept and there is such a channel, and tells how many.
fn list(core: &Core, channel: u32, first: u64, commands: &mut [BusCommand], count: &mut u64) -> i32
    ensures { IsTraced core.now channel first commands.old commands.new count.old count.new result }
{
    if !core.keeps_traces() {
        return NO_TRACE;
    }
    let Some(entries) = core.commands(channel) else {
        return NO_SUCH;
    };
    *count = copy_from(entries, first, commands);
    OK
}

/// Tells the numbers of a channel's commands so far.
#[unsafe(no_mangle)]
pub extern "C" fn ddr_c_channel_numbers(
    alloc: Global,
    slot: &mut Slot,
    channel: u32,
    numbers: &mut ChannelNumbers,
) -> i32
    ensures same { held_in slot.new ≡ held_in slot.old }
    ensures told { Calls (held_in slot.old) (held_in slot.new) ((result ≡ CLOSED) × (numbers.new ≡ numbers.old)) (λ core after. IsNumbered channel numbers.old numbers.new result core) }
{
    let Some(core) = slot.take(alloc) else {
        return CLOSED;
    };
    let answer = core.channel_numbers(channel);
    slot.put(core);
    match answer {
        Ok(told) => {
            *numbers = told;
            OK
        }
        Err(cause) => code_of(cause),
    }
}

/// Tells the numbers of a port's requests so far.
#[unsafe(no_mangle)]
pub extern "C" fn ddr_c_port_numbers(
    alloc: Global,
    slot: &mut Slot,
    port: u32,
    numbers: &mut PortNumbers,
) -> i32
    ensures same { held_in slot.new ≡ held_in slot.old }
    ensures told { Calls (held_in slot.old) (held_in slot.new) ((result ≡ CLOSED) × (numbers.new ≡ numbers.old)) (λ core after. IsPortTold (port_numbers_in core port) numbers.old numbers.new result) }
{
    let Some(core) = slot.take(alloc) else {
        return CLOSED;
    };
    let answer = core.port_numbers(port);
    slot.put(core);
    match answer {
        Some(told) => {
            *numbers = told;
            OK
        }
        None => NO_SUCH,
    }
}

/// Tells the shape of the memory and of its ports.
#[unsafe(no_mangle)]
pub extern "C" fn ddr_c_shape(alloc: Global, slot: &mut Slot, shape: &mut Shape) -> i32
    ensures same { held_in slot.new ≡ held_in slot.old }
    ensures told { Calls (held_in slot.old) (held_in slot.new) ((result ≡ CLOSED) × (shape.new ≡ shape.old)) (λ core after. (result ≡ OK) × (shape.new ≡ shape_of core.world.config)) }
{
    let Some(core) = slot.take(alloc) else {
        return CLOSED;
    };
    *shape = shape_of(core.config());
    slot.put(core);
    OK
}

/// Closes a core: gives back its memory, drained or not. The slot is as at first.
#[unsafe(no_mangle)]
pub extern "C" fn ddr_c_close(alloc: Global, slot: &mut Slot) -> i32
    ensures closed { held_in slot.new ≡ None }
    ensures code { result ≡ (if is_some (held_in slot.old) then OK else CLOSED) }
{
    match slot.take(alloc) {
        Some(_) => OK,
        None => CLOSED,
    }
}

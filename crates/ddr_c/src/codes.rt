//! The codes that calls answer. `include/ddr.h` has the same numbers.
ghost use Rattle.std.specs.Prelude.{◌≡◌};
ghost use Rattle.ddr_c.specs.Codes.{code_of};

use ddr_world::event::Refusal;

/// The call did what it says.
pub(crate) const OK: i32 = 0;
/// The handle is closed.
pub(crate) const CLOSED: i32 = 2;
/// The handle is open.
pub(crate) const ALREADY_OPEN: i32 = 3;
/// The configuration's text is refused.
pub(crate) const CONFIG: i32 = 4;
/// Memory was refused.
pub(crate) const NO_MEMORY: i32 = 5;
/// There is no such port or no such channel.
pub(crate) const NO_SUCH: i32 = 6;
/// No reply is ready.
pub(crate) const NOTHING: i32 = 7;
/// The caller's buffer is too short.
pub(crate) const TOO_SHORT: i32 = 8;

/// The core was opened without traces.
pub(crate) const NO_TRACE: i32 = 21;

const FINISHED: i32 = 9;

const OUT_OF_RANGE: i32 = 10;

const EMPTY_LENGTH: i32 = 11;

const CROSSES_LINE: i32 = 12;

const SPENT: i32 = 13;

const WINDOW_FULL: i32 = 14;

const BUSY: i32 = 15;

const QUEUE_FULL: i32 = 16;

const CLOCK_SPENT: i32 = 17;

const NOT_EMPTY: i32 = 18;

/// The code of a refusal of the core.
pub(crate) fn code_of(cause: Refusal) -> i32
    ensures { result ≡ code_of cause }
{
    match cause {
        Refusal::Finished => FINISHED,
        Refusal::OutOfRange => OUT_OF_RANGE,
        Refusal::EmptyLength => EMPTY_LENGTH,
        Refusal::CrossesLine => CROSSES_LINE,
        Refusal::Spent => SPENT,
        Refusal::WindowFull => WINDOW_FULL,
        Refusal::Busy { .. } => BUSY,
        Refusal::Nothing => NOTHING,
        Refusal::QueueFull => QUEUE_FULL,
        Refusal::ClockSpent => CLOCK_SPENT,
        Refusal::OutOfMemory => NO_MEMORY,
        Refusal::NotEmpty => NOT_EMPTY,
        Refusal::NoSuch => NO_SUCH,
    }
}

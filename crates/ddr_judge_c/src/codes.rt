//! The codes that calls answer. `include/ddr_judge.h` has the same numbers, and those that both libraries have are the same.

/// The call did what it says; of a command, that it breaks no rule.
pub(crate) const OK: i32 = 0;
/// The handle is closed.
pub(crate) const CLOSED: i32 = 2;
/// The handle is open.
pub(crate) const ALREADY_OPEN: i32 = 3;
/// The configuration's text is refused.
pub(crate) const CONFIG: i32 = 4;
/// Memory was refused.
pub(crate) const NO_MEMORY: i32 = 5;
/// There is no such kind of command.
pub(crate) const NO_SUCH: i32 = 6;
/// The last command broke no rule, or what it rests on is no longer kept.
pub(crate) const NOTHING: i32 = 7;
/// As many commands count as a judge takes.
pub(crate) const SPENT: i32 = 13;
/// The cycle is not below the one at which a clock stops.
pub(crate) const CLOCK_SPENT: i32 = 17;
/// A rule is broken.
pub(crate) const ILLEGAL: i32 = 19;
/// The rules don't speak of such a command.
pub(crate) const NOT_JUDGED: i32 = 20;

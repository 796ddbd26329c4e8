//! The readiness of one rank: which rule its next command would break.
//!
//! No list of commands is kept: of each bank its open row and the cycles of its last commands, of each group those
//! of its last ACT, read and write, and of the rank its last REF and its last four ACTs. A rule is told from these
//! in a fixed number of steps, and in one pass over the banks for REF.
//!
//! Beside these stands the first cycle in which each command may come, as far as the rules on two commands go: of each
//! bank and of the whole rank, and of each group as far as reads and writes hold reads and writes up. When a command is
//! issued, those alone are raised of which it asks something: by a read or a write an entry of each group and one number
//! of its bank, by a precharge one of its bank. So whether a command may come is a comparison or two and a look at its
//! bank, and no rule is walked over; which rule it would break is told by the walk.
//!
//! Below stand the rules of a trace (`ddr_trace`) and the configuration (`ddr_timing`); `ddr_legality` stands
//! above. `rank` is the rank with its calls, and in it `rules` is what each command is tested against. `bank` is
//! what is kept of a bank, `last` the cycles of the last ACT, read and write, `ready` the first cycles of what comes
//! next, and `cycles` how two cycles compare.
#![tactic(auto)]

mod bank;
mod cycles;
mod last;
pub mod rank;
mod ready;

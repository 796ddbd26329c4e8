//! Exact statistics of a command trace, in one pass and in memory that doesn't grow with the trace.
//!
//! Each number is defined as a function of the trace (`specs/Counts.antt`, `specs/Visits.antt`, `specs/Turns.antt`,
//! `specs/Debts.antt`, `specs/Background.antt`), and what is counted here is proved to be that number. Below stand `ddr_timing` and
//! `ddr_trace`; `ddr_replay` stands above. `statistics` is what takes a trace's commands one by one; it stands on `rank`, what is kept of a
//! rank, that on `bank`, and both on `counts`, the numbers of one place. `debt` has the refreshes that a rank owes, `background` the
//! clocks in which it is active and those in which it is refreshed, `turns` the numbers of the data bus as a whole, and `text` prints
//! the numbers of a place. `findings` and `sums` are laws: how a read or a write finds its bank is told by looking back, and the
//! numbers of places and the clocks of a rank add up.
#![tactic(auto)]

mod background;
mod bank;
pub mod counts;
mod debt;
pub mod findings;
mod rank;
pub mod statistics;
pub mod sums;
pub mod text;
mod turns;

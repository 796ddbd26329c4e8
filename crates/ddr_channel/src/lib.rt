//! One channel of a DDR4 memory controller, cycle by cycle.
//!
//! Below stand the scheduler (`ddr_arbiter`) over the pending requests (`ddr_hazards`), the refreshes that are due (`ddr_refresh`) and what
//! may be issued next (`ddr_legality`), and the rows (`ddr_row_array`). `channel` is the channel with its calls; of a cycle, `debts` has
//! the refreshes that are due, `transfer` moves the data of a column command, and `bus` makes room for its command and issues it; `issued`
//! is what a cycle tells of it; `queue` has the steps on the channel's own queues. `promise` is the law over every list of calls. Above
//! stand the core (`ddr_world`) and the workers (`ddr_workers`).
//!
//! A channel knows for how many cycles nothing will happen in it, as long as nothing is admitted and no completion is
//! taken: each of them looks for no choice, and many can be made at once (`Channel::pass`).
#![tactic(auto)]

mod bus;
pub mod channel;
mod debts;
pub mod issued;
pub mod promise;
mod queue;
mod transfer;

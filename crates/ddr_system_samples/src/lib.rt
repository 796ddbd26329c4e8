//! What the tests of ports and workers share: the parts of a system of two ports and two channels, and what a host does with a port.
//!
//! It stands on `ddr_workers`. Above it are `ddr_thread_tests` and `ddr_memory_tests`, whose proofs cite its lemmas on the ends of
//! such a system (`proofs/OneOpen.antt`).
#![tactic(auto)]

pub mod hosts;
pub mod parts;

//! The command `lint`: a configuration in, a line for each finding out, or the bound on a request's time.
//!
//! Below stand `ddr_findings`, which finds and tells, `ddr_latency`, which computes the bound, and `ddr_text` with the program's inputs,
//! outputs and faults; above stands `ddr_shell`, which performs the command. `lint` is the command, `bound` that with `--bound`, whose
//! text `bound_text` has, and `verdict` what they answer.
#![tactic(auto)]

pub mod bound;
mod bound_text;
pub mod lint;
#[cfg(test)]
mod tests;
pub mod verdict;

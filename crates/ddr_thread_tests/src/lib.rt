//! Tests of `ddr_workers` by its public calls, in threads; nothing else is here, and nothing stands above.
//!
//! `requests` and `completions` hand over what a queue carries, and `runs` runs ports and workers to their ends and closes
//! them. `ddr_tests` has whole commands. The one test that opens a queue behind a port's back stands in `ddr_workers`.
#![tactic(auto)]

#[cfg(test)]
mod completions;
#[cfg(test)]
mod requests;
#[cfg(test)]
mod runs;
#[cfg(test)]
mod testing;

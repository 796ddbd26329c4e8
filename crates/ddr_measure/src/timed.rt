//! A request that was served, with the cycles of its steps.
//!
//! `ddr_address_map` and `ddr_statistics` stand below, and `span`, `group` and `usage` above.
use ddr_address_map::request::Kind;
use ddr_statistics::counts::Finding;

/// A request that was served. Its cycles are those of one clock.
#[derive(Clone, Copy, Debug, PartialEq, Eq)]
pub struct Timed {
    pub kind: Kind,
    /// How its read or write found its bank, where that is known.
    pub found: Option<Finding>,
    /// From which cycle on it might be submitted.
    pub arrived: u64,
    /// In which its port took it.
    pub accepted: u64,
    /// That of its read or write.
    pub issued: u64,
    /// That of its completion.
    pub done: u64,
    /// In which its port gave its reply.
    pub released: u64,
}

//! Who is told how far a replay has come.
//!
//! Nothing stands below, and `replaying` and `replay` above. A watcher is told and asked for nothing, so a replay is the same
//! whoever watches it.

/// A watcher of a replay.
pub trait Watch {
    /// So many requests were served so far, their replies released, and so many cycles of each channel were made.
    fn told(&mut self, served: u128, cycles: u32);
}

/// Nobody watches.
impl Watch for () {
    fn told(&mut self, _served: u128, _cycles: u32) {}
}

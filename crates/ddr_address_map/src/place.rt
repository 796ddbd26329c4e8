//! Where a byte lies in the memory.

/// A place, by the digits of its address.
#[derive(Clone, Copy, Debug, PartialEq, Eq)]
pub struct Place {
    pub channel: u32,
    /// The rank in its channel, whose ranks share its command bus and its data bus.
    pub rank: u32,
    /// The bank group in its rank.
    pub group: u32,
    /// The bank in its group.
    pub bank: u32,
    pub row: u32,
    /// The line in its row: the device column is 8 times this.
    pub line: u32,
    /// The byte in its line.
    pub offset: u32,
}

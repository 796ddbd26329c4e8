//! How many banks, rows and columns a channel has, and the order of the address digits.
ghost use Rattle.std.specs.Prelude.{◌≤◌, ◌==◌, ◌||◌, IsTrue};
ghost use Rattle.std.specs.Int.{is_power_of_two};
ghost use Rattle.ddr_timing.specs.Order.{each_once};

/// One digit of an address, as a word of the configuration's `map` names it.
#[derive(Clone, Copy, Debug, PartialEq, Eq)]
pub enum Digit {
    Channel,
    Group,
    Bank,
    Column,
    Row,
    Rank,
}

/// The shape of the memory. A bank group has 4 banks, in the x8 organisation (4 groups) and in the x16
/// organisation (2 groups); the x4 organisation is left out, because it has no data mask.
#[derive(Clone, Copy, Debug)]
pub struct Geometry {
    /// The version of the configuration's text, 1 or 2.
    pub version: u32,
    pub channels: u32,
    /// Ranks of a channel; version 1 has one.
    pub ranks: u32,
    /// Bank groups of a rank.
    pub groups: u32,
    /// Rows of a bank.
    pub rows: u32,
    /// Device columns of a row, 8 of them to a line of 64 bytes.
    pub columns: u32,
    /// The digits of a line's number, the least significant first. In version 1, whose text has no word for
    /// it, the rank is the last.
    pub map: [Digit; 6],
    /// Whether the bank is the bank digit XOR (row mod 4).
    pub bank_xor: bool,
    ghost version_is: { IsTrue (version == 1 || version == 2) },
    ghost channels_range: { (1 ≤ channels) × (channels ≤ 4) },
    ghost ranks_range: { (1 ≤ ranks) × (ranks ≤ 2) },
    ghost one_rank: { IsTrue (version == 2 || ranks == 1) },
    ghost groups_are: { IsTrue (groups == 2 || groups == 4) },
    ghost rows_range: { (16 ≤ rows) × (rows ≤ 131072) },
    ghost rows_power: { IsTrue (is_power_of_two rows) },
    ghost columns_range: { (64 ≤ columns) × (columns ≤ 1024) },
    ghost columns_power: { IsTrue (is_power_of_two columns) },
    ghost map_order: { IsTrue (each_once map) },
}

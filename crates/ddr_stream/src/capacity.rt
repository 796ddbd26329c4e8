//! The capacity of the memory.
//!
//! `ddr_timing` stands below, and `stream` above.
ghost use Rattle.std.specs.Prelude.{◌≡◌, ◌<◌};
ghost use Rattle.ddr_address_map.specs.Map.{capacity_of};

use ddr_timing::geometry::Geometry;
use ddr_timing::units::{GROUP_BANKS, LINE_BYTES, LINE_COLUMNS};

/// The bytes of the memory.
pub fn capacity(geometry: &Geometry) -> u64
    ensures exact { result ≡ capacity_of geometry.now }
    ensures some { 0 < result }
{
    let ranks = geometry.channels * geometry.ranks;
    let groups = ranks * geometry.groups;
    let banks = groups * GROUP_BANKS;
    let lines = banks * (geometry.columns / LINE_COLUMNS) * geometry.rows;
    LINE_BYTES as u64 * u64::from(lines)
}

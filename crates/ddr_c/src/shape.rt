//! The shape of a core's memory and of its ports, in C's form.
//!
//! `ddr_timing` stands below, and `lib` above.
ghost use Rattle.std.specs.Prelude.{◌≡◌, ◌≤◌, ◌*◌, ◌/◌};
ghost use Rattle.ddr_timing.specs.declared.units.TheConstants.{GROUP_BANKS, LINE_COLUMNS};
ghost use Rattle.ddr_address_map.specs.Map.{capacity_of};
ghost use Rattle.ddr_c.specs.Shapes.{shape_of};

use ddr_timing::config::Config;
use ddr_timing::geometry::Geometry;
use ddr_timing::units::{BURST_CLOCKS, GROUP_BANKS, LINE_BYTES, LINE_COLUMNS};

/// The shape of a memory: `capacity` and `line` are bytes, `burst` clocks of the data bus for a line, and the others counts.
#[repr(C)]
#[derive(Clone, Copy)]
pub struct Shape {
    pub capacity: u64,
    pub channels: u32,
    /// Ranks of a channel.
    pub ranks: u32,
    /// Bank groups of a rank.
    pub groups: u32,
    /// Banks of a group.
    pub banks: u32,
    /// Rows of a bank.
    pub rows: u32,
    /// Device columns of a row.
    pub columns: u32,
    pub line: u32,
    pub burst: u32,
    pub ports: u32,
    /// Requests of a port that may be outstanding.
    pub window: u32,
}

/// That of a configuration.
pub(crate) fn shape_of(config: &Config) -> Shape
    ensures { result ≡ shape_of config.now }
{
    let geometry = config.geometry;
    Shape {
        capacity: capacity_of(&geometry),
        channels: geometry.channels,
        ranks: geometry.ranks,
        groups: geometry.groups,
        banks: GROUP_BANKS,
        rows: geometry.rows,
        columns: geometry.columns,
        line: LINE_BYTES as u32,
        burst: BURST_CLOCKS,
        ports: config.limits.ports,
        window: config.limits.window,
    }
}

/// How many bytes the memory has.
fn capacity_of(geometry: &Geometry) -> u64
    ensures { result ≡ capacity_of geometry.now }
{
    LINE_BYTES as u64 * (lines_of(geometry) * u64::from(geometry.rows))
}

/// How many lines all banks together have in a row each.
fn lines_of(geometry: &Geometry) -> u64
    ensures lines { result ≡ geometry.now.channels * geometry.now.ranks * geometry.now.groups * GROUP_BANKS * (geometry.now.columns / LINE_COLUMNS) }
    ensures within { result ≤ 16384 }
{
    let ranks = u64::from(geometry.channels) * u64::from(geometry.ranks);
    let banks = ranks * u64::from(geometry.groups) * u64::from(GROUP_BANKS);
    banks * u64::from(geometry.columns / LINE_COLUMNS)
}

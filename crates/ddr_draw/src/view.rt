//! Which cycles a picture of lanes shows.
//!
//! Nothing of the crate stands below; `scale` stands above.
ghost use Rattle.std.specs.Prelude.{◌≤◌, ◌+◌};
ghost use Rattle.ddr_draw.specs.declared.view.TheConstants.{MOST_CLOCKS};

/// The most clocks that one picture shows: it is then below 32,767 pixels wide, which is the most that some viewers draw.
pub const MOST_CLOCKS: u32 = 1_300;

/// The cycles that are asked for, from the one up to the other, each if it is named.
#[derive(Clone, Copy, Debug, PartialEq, Eq)]
pub(crate) struct Asked {
    pub from: Option<u64>,
    pub to: Option<u64>,
}

/// The cycles that a picture shows, from the one up to the other.
#[derive(Clone, Copy, Debug)]
pub struct View {
    pub from: u64,
    pub to: u64,
    ghost ordered: { from ≤ to },
    ghost few: { to ≤ from + MOST_CLOCKS },
}

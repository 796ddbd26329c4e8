//! Where cycles and banks lie in a picture of lanes, in pixels.
//!
//! `view` and `names` stand below, and `ground`, `bars` and `boxes` above.
ghost use Rattle.std.specs.Prelude.{◌≡◌, ◌<◌, ◌^◌, true};
ghost use Rattle.ddr_trace.specs.Rules.{is_in};
ghost use Rattle.ddr_draw.specs.Lanes.{top_of};
ghost use Rattle.ddr_draw.specs.Scale.{end_shown, first_shown, is_seen, lane_top, picture_height, picture_width, width_of, x_of};

use crate::names::after;
use crate::view::{MOST_CLOCKS, View};
use ddr_timing::bank::BankId;
use ddr_timing::geometry::Geometry;
use ddr_trace::command::Command;

/// The width of a clock: enough for the longest name of a command, `PREA`.
pub const CLOCK_WIDTH: u64 = 24;

/// The width that a letter is given. One of the font at its size takes less.
pub const LETTER_WIDTH: u64 = 6;

/// The height of a lane.
pub const LANE_HEIGHT: u64 = 30;

/// The lane of the command bus.
pub const COMMAND_LANE: u32 = 0;

/// The lane of the data bus.
pub const DATA_LANE: u32 = 1;

/// The lane of the first bank.
pub const FIRST_BANK_LANE: u32 = 2;

/// The margin at the left, with the lanes' names.
pub const LEFT: u64 = 60;

/// The margin at the right, in which the last cycle's number ends.
pub const RIGHT: u64 = 120;

/// The margin above, with the legend and the cycles' numbers.
pub const TOP: u64 = 50;

/// The margin below.
pub const BOTTOM: u64 = 10;

/// The width of a part of the legend.
pub const LEGEND_PART: u64 = 90;

/// The width of the whole legend.
pub const LEGEND_WIDTH: u64 = 560;

/// The clocks from one line down to the next.
pub const TICK_CLOCKS: u64 = 10;

impl View {
    /// The cycles of a trace that are asked for, at most `MOST_CLOCKS` of them.
    pub(crate) fn new(start: u64, end: u64, from: Option<u64>, to: Option<u64>) -> View
        ensures first { result.from ≡ first_shown start from }
        ensures last { result.to ≡ end_shown result.from end to }
    {
        let from = from.unwrap_or(start);
        let to = to.unwrap_or(end).min(after(from, MOST_CLOCKS)).max(from);
        View { from, to }
    }

    /// The left edge of a cycle. A cycle outside of the view lies at its edge.
    pub(crate) fn x_of(&self, cycle: u64) -> u64
        ensures at { result ≡ x_of self.now cycle }
        ensures small { result < 200000 }
    {
        LEFT + CLOCK_WIDTH * (cycle.min(self.to).max(self.from) - self.from)
    }

    /// The width of the cycles from the one on, up to the other.
    pub(crate) fn width_of(&self, first: u64, last: u64) -> u64
        ensures { result ≡ width_of self.now first last }
    {
        self.x_of(last).saturating_sub(self.x_of(first))
    }

    /// Whether some of these cycles are in the view.
    pub(crate) fn is_seen(&self, first: u64, last: u64) -> bool
        ensures { result ≡ is_seen self.now first last }
    {
        self.x_of(first) < self.x_of(last)
    }

    /// The width of the whole picture.
    pub(crate) fn picture_width(&self) -> u64
        ensures { result ≡ picture_width self.now }
    {
        (self.x_of(self.to) + RIGHT).max(LEGEND_WIDTH)
    }
}

/// The top of a lane.
pub(crate) fn lane_top(lane: u32) -> u64
    ensures at { result ≡ lane_top lane }
    ensures small { result < 2 ^ 40 }
{
    TOP + LANE_HEIGHT * u64::from(lane)
}

/// The top of the lane of a command's bank; that of a command of a whole rank is that of the rank's first bank.
pub(crate) fn top_of(geometry: &Geometry, command: &Command) -> u64
    requires { is_in geometry.now command.now ≡ true }
    ensures at { result ≡ top_of geometry.now command.now }
    ensures small { result < 2 ^ 40 }
{
    let id = BankId {
        rank: command.rank(),
        group: command.group(),
        bank: command.bank(),
    };
    lane_top(id.number(geometry) + FIRST_BANK_LANE)
}

/// The height of the whole picture.
pub(crate) fn picture_height(geometry: &Geometry) -> u64
    ensures { result ≡ picture_height geometry.now }
{
    lane_top(geometry.banks() + FIRST_BANK_LANE) + BOTTOM
}

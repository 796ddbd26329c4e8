//! The ground of a picture of lanes: its size, its legend, the lines of the cycles, and the lanes.
//!
//! `scale`, `shapes`, `legend` and `names` stand below, and `lanes` above.
ghost use Rattle.std.specs.Prelude.{◌≡◌, ◌<◌, ◌^◌, IfOk, string_bytes};
ghost use Rattle.ddr_draw.specs.Lanes.{bank_lanes, ground, head, lane, tick, ticks};

use crate::legend::legend;
use crate::names::bank_numbered;
use crate::scale::{
    BOTTOM, COMMAND_LANE, DATA_LANE, FIRST_BANK_LANE, TICK_CLOCKS, TOP, lane_top, picture_height,
};
use crate::shapes::{line_down, line_right, words_at};
use crate::view::View;
use ddr_timing::geometry::Geometry;
use std::alloc::{AllocError, Global};

/// All of the ground.
#[tactic(auto, unfolding(crate::specs::Lanes::ground))]
pub(crate) fn ground(alloc: Global, geometry: &Geometry, view: &View) -> Result<String, AllocError>
    ensures { IfOk result (λ text. string_bytes text ≡ ground geometry.now view.now) }
{
    let head = head(alloc, view.picture_width(), picture_height(geometry))?;
    let legend = legend(alloc)?;
    let ticks = ticks(alloc, geometry, view)?;
    let commands = lane(alloc, view, COMMAND_LANE, "command")?;
    let data = lane(alloc, view, DATA_LANE, "data")?;
    let banks = bank_lanes(alloc, geometry, view)?;
    format!(in alloc; "{head}{legend}{ticks}{commands}{data}{banks}")
}

/// The picture's size, and its white sheet.
#[tactic(auto, unfolding(crate::specs::Lanes::head))]
fn head(alloc: Global, width: u64, height: u64) -> Result<String, AllocError>
    ensures { IfOk result (λ text. string_bytes text ≡ head width height) }
{
    format!(in alloc;
        "<svg xmlns='http://www.w3.org/2000/svg' width='{width}' height='{height}' font-family='monospace' font-size='9'>\n<rect width='{width}' height='{height}' fill='white'/>\n"
    )
}

/// The lines down at every tenth cycle from the first on.
fn ticks(alloc: Global, geometry: &Geometry, view: &View) -> Result<String, AllocError>
    ensures { IfOk result (λ text. string_bytes text ≡ ticks geometry.now view.now) }
{
    let mut text = String::new(alloc);
    for number in 0..(view.to - view.from) / TICK_CLOCKS + 1 {
        let cycle = view.from + TICK_CLOCKS * number;
        let line = tick(alloc, geometry, view, cycle)?;
        text.push_str(line.as_str())?;
    }
    Ok(text)
}

/// A line down at a cycle, with the cycle's number above.
#[tactic(auto, unfolding(crate::specs::Lanes::tick))]
fn tick(alloc: Global, geometry: &Geometry, view: &View, cycle: u64) -> Result<String, AllocError>
    ensures { IfOk result (λ text. string_bytes text ≡ tick geometry.now view.now cycle) }
{
    let x = view.x_of(cycle);
    let line = line_down(alloc, x, TOP - 8, picture_height(geometry) - BOTTOM)?;
    let number = format!(in alloc; "{cycle}")?;
    let words = words_at(alloc, x, TOP - 12, number.as_str())?;
    format!(in alloc; "{line}{words}")
}

/// The lanes of the banks.
fn bank_lanes(alloc: Global, geometry: &Geometry, view: &View) -> Result<String, AllocError>
    ensures { IfOk result (λ text. string_bytes text ≡ bank_lanes geometry.now view.now) }
{
    let mut text = String::new(alloc);
    for number in 0..geometry.banks() {
        let name = bank_numbered(alloc, geometry, number)?;
        let line = lane(alloc, view, number + FIRST_BANK_LANE, name.as_str())?;
        text.push_str(line.as_str())?;
    }
    Ok(text)
}

/// A lane's name, over the line on which the lane ends.
#[tactic(auto, unfolding(crate::specs::Lanes::lane))]
fn lane(alloc: Global, view: &View, number: u32, name: &str) -> Result<String, AllocError>
    requires { number < 2 ^ 31 }
    ensures { IfOk result (λ text. string_bytes text ≡ lane view.now number name.now) }
{
    let words = words_at(alloc, 8, lane_top(number) + 18, name)?;
    let line = line_right(alloc, lane_top(number + 1), view.picture_width())?;
    format!(in alloc; "{words}{line}")
}

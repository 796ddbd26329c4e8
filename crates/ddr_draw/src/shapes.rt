//! Shapes of a picture (SVG 1.1, "Basic Shapes", "Paths", "Text").
//!
//! `scale` stands below, and `ground`, `legend`, `bars` and `boxes` above.
ghost use Rattle.std.specs.Prelude.{◌≡◌, IfOk, string_bytes};
ghost use Rattle.ddr_draw.specs.Shapes.{area, label, line_down, line_right, patch, rectangle, words_at};

use crate::scale::LETTER_WIDTH;
use std::alloc::{AllocError, Global};

/// Where a rectangle lies.
#[tactic(auto, unfolding(crate::specs::Shapes::area))]
pub(crate) fn area(
    alloc: Global,
    x: u64,
    y: u64,
    width: u64,
    height: u64,
) -> Result<String, AllocError>
    ensures { IfOk result (λ text. string_bytes text ≡ area x y width height) }
{
    format!(in alloc; "x='{x}' y='{y}' width='{width}' height='{height}'")
}

/// A rectangle that tells its title where the pointer rests on it.
#[tactic(auto, unfolding(crate::specs::Shapes::rectangle))]
pub(crate) fn rectangle(
    alloc: Global,
    area: &str,
    fill: &str,
    title: &str,
) -> Result<String, AllocError>
    ensures { IfOk result (λ text. string_bytes text ≡ rectangle area.now fill.now title.now) }
{
    format!(in alloc; "<rect {area} fill='{fill}' stroke='white'><title>{title}</title></rect>\n")
}

/// A rectangle that tells nothing.
#[tactic(auto, unfolding(crate::specs::Shapes::patch))]
pub(crate) fn patch(alloc: Global, area: &str, fill: &str) -> Result<String, AllocError>
    ensures { IfOk result (λ text. string_bytes text ≡ patch area.now fill.now) }
{
    format!(in alloc; "<rect {area} fill='{fill}'/>\n")
}

/// Words that begin there. The pointer goes through them to the shape below.
#[tactic(auto, unfolding(crate::specs::Shapes::words_at))]
pub(crate) fn words_at(alloc: Global, x: u64, y: u64, words: &str) -> Result<String, AllocError>
    ensures { IfOk result (λ text. string_bytes text ≡ words_at x y words.now) }
{
    format!(in alloc; "<text x='{x}' y='{y}' pointer-events='none'>{words}</text>\n")
}

/// Words in a shape of that width; none where it has no room for them.
#[tactic(auto, unfolding(crate::specs::Shapes::label))]
pub(crate) fn label(
    alloc: Global,
    x: u64,
    y: u64,
    width: u64,
    words: &str,
) -> Result<String, AllocError>
    ensures { IfOk result (λ text. string_bytes text ≡ label x y width words.now) }
{
    if words.len() as u64 <= width / LETTER_WIDTH {
        words_at(alloc, x, y, words)
    } else {
        Ok(String::new(alloc))
    }
}

/// A line down from a height to another.
#[tactic(auto, unfolding(crate::specs::Shapes::line_down))]
pub(crate) fn line_down(alloc: Global, x: u64, y: u64, end: u64) -> Result<String, AllocError>
    ensures { IfOk result (λ text. string_bytes text ≡ line_down x y end) }
{
    format!(in alloc; "<path d='M{x} {y}V{end}' stroke='#dddddd'/>\n")
}

/// A line to the right from the edge of the picture.
#[tactic(auto, unfolding(crate::specs::Shapes::line_right))]
pub(crate) fn line_right(alloc: Global, y: u64, end: u64) -> Result<String, AllocError>
    ensures { IfOk result (λ text. string_bytes text ≡ line_right y end) }
{
    format!(in alloc; "<path d='M0 {y}H{end}' stroke='#bbbbbb'/>\n")
}

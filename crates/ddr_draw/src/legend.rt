//! The legend of a picture of lanes: which colour stands for what.
//!
//! `colours`, `scale` and `shapes` stand below, and `ground` above.
ghost use Rattle.std.specs.Prelude.{◌≡◌, ◌<◌, ◌^◌, IfOk, string_bytes};
ghost use Rattle.ddr_draw.specs.Legend.{legend, swatch};

use crate::colours::{ACTIVATE, OPEN_ROW, PRECHARGE, READ, REFRESH, WRITE};
use crate::scale::LEGEND_PART;
use crate::shapes::{area, patch, words_at};
use std::alloc::{AllocError, Global};

/// The whole legend.
#[tactic(auto, unfolding(crate::specs::Legend::legend))]
pub(crate) fn legend(alloc: Global) -> Result<String, AllocError>
    ensures { IfOk result (λ text. string_bytes text ≡ legend) }
{
    let activate = swatch(alloc, 0, ACTIVATE, "ACT")?;
    let row = swatch(alloc, 1, OPEN_ROW, "open row")?;
    let read = swatch(alloc, 2, READ, "RD, RDA")?;
    let write = swatch(alloc, 3, WRITE, "WR, WRA")?;
    let precharge = swatch(alloc, 4, PRECHARGE, "PRE, PREA")?;
    let refresh = swatch(alloc, 5, REFRESH, "REF")?;
    format!(in alloc; "{activate}{row}{read}{write}{precharge}{refresh}")
}

/// A colour with what it stands for.
#[tactic(auto, unfolding(crate::specs::Legend::swatch))]
fn swatch(alloc: Global, place: u64, fill: &str, words: &str) -> Result<String, AllocError>
    requires { place < 2 ^ 16 }
    ensures { IfOk result (λ text. string_bytes text ≡ swatch place fill.now words.now) }
{
    let x = LEGEND_PART * place + 8;
    let area = area(alloc, x, 6, 12, 12)?;
    let patch = patch(alloc, area.as_str(), fill)?;
    let words = words_at(alloc, x + 16, 15, words)?;
    format!(in alloc; "{patch}{words}")
}

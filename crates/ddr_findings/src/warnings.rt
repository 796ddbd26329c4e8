//! What is strange about the values of a table.
//!
//! `sides` and `oddity` stand below; `lint` asks for the warnings of a text's table.
ghost use Rattle.std.specs.Prelude.{◌≡◌, IfOk, Some};
ghost use Rattle.toml.specs.View.{table_view};
ghost use Rattle.ddr_findings.specs.Warnings.{warning_of, warnings_of};

use crate::oddity::Oddity;
use crate::sides::sides;
use crate::warning::Warning;
use std::alloc::{AllocError, Global};
use toml::Table;

/// The warnings of the table, in the order of the oddities.
pub(crate) fn warnings(alloc: Global, table: &Table) -> Result<Vec<Warning>, AllocError>
    ensures { IfOk result (λ warnings. warnings.items ≡ warnings_of (Some (table_view table.now))) }
{
    Oddity::all()
        .iter()
        .filter_map(|oddity| warning(table, *oddity))
        .collect(alloc)
}

/// The warning of an oddity, where its left side is below its right one.
fn warning(table: &Table, oddity: Oddity) -> Option<Warning>
    ensures { result ≡ warning_of (table_view table.now) oddity }
{
    let sides = sides(table, oddity)?;
    if sides.left < sides.right {
        return Some(Warning {
            oddity,
            left: sides.left,
            right: sides.right,
        });
    }
    None
}

//! The decimal numbers of a line.
//!
//! `ddr_trace_text` reads them, and nothing of this crate stands below.
ghost use Rattle.std.specs.Prelude.{◌≡◌, ◌≤◌, IfSome};
ghost use Rattle.ddr_trace_text.specs.Parse.{cycle_of, index_of};

use ddr_timing::units::CLOCK_STOP;
use ddr_trace_text::number::parse_number;

/// The cycle that a field spells, at most `CLOCK_STOP`.
pub(crate) fn cycle_of(field: &[u8]) -> Option<u64>
    ensures exact { result ≡ cycle_of field.now }
    ensures small { IfSome result (λ cycle. cycle ≤ CLOCK_STOP) }
{
    parse_number(field, CLOCK_STOP)
}

/// The number below 2^32 that a field spells.
pub(crate) fn index_of(field: &[u8]) -> Option<u32>
    ensures { result ≡ index_of field.now }
{
    let index = parse_number(field, u64::from(u32::MAX))?;
    Some(index as u32)
}

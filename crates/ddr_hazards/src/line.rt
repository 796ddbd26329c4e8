//! The lines of a channel.
ghost use Rattle.std.specs.Prelude.{◌≡◌};
ghost use Rattle.ddr_hazards.specs.Hazards.{is_same_line};

use ddr_address_map::place::Place;

/// Whether two places lie in one line of a channel.
pub(crate) fn is_same_line(a: Place, b: Place) -> bool
    ensures { result ≡ is_same_line a b }
{
    a.rank == b.rank && a.group == b.group && a.bank == b.bank && a.row == b.row && a.line == b.line
}

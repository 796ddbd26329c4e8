//! That the numbers of a distribution add up.
//!
//! `group` and `span` stand below; nothing calls it.
ghost use Rattle.std.specs.Prelude.{ℕ, List, length, ◌<◌, ◌^◌};
ghost use Rattle.ddr_measure.specs.Sums.{AddsUp, AreHeld};
ghost use Rattle.ddr_measure.specs.declared.group.Group.{Group};
ghost use Rattle.ddr_measure.specs.declared.span.Span.{Span};
ghost use Rattle.ddr_measure.specs.declared.timed.Timed.{Timed};

/// Of all requests, fewer than 2^64, whose clocks a `u64` holds: each one of a group is counted once, and stands in one class.
///
/// A law: it does nothing.
pub fn classes_add_up()
    ensures { (group : Group) (span : Span) (requests : List Timed) → length requests < 2 ^ 64 → AreHeld span requests → AddsUp group span requests }
{}

//! What the bound that is told of a percentile says of the requests.
//!
//! `group`, `span` and `distribution` stand below; nothing calls it.
ghost use Rattle.std.specs.Prelude.{ℕ, List, count_by, length, ◌*◌, ◌<◌, ◌^◌, ◌≤◌};
ghost use Rattle.ddr_measure.specs.Distributions.{bound_of};
ghost use Rattle.ddr_measure.specs.Groups.{distribution_of, holds};
ghost use Rattle.ddr_measure.specs.Percentiles.{IsPercentile};
ghost use Rattle.ddr_measure.specs.Sums.{AreHeld};
ghost use Rattle.ddr_measure.specs.declared.group.Group.{Group};
ghost use Rattle.ddr_measure.specs.declared.span.Span.{Span};
ghost use Rattle.ddr_measure.specs.declared.timed.Timed.{Timed};

/// Of all requests, fewer than 2^64, whose clocks a `u64` holds, and of a group that has one: the bound that is told of so many in a
/// thousand is the true percentile or above it by an eighth at most, and below 16 clocks it is the percentile.
///
/// A law: it does nothing.
pub fn bounds_are_percentiles()
    ensures { (thousandths : ℕ) (group : Group) (span : Span) (requests : List Timed) → length requests < 2 ^ 64 → AreHeld span requests
        → 0 < thousandths * count_by (holds group) requests → thousandths ≤ 1000
        → IsPercentile thousandths group span requests (bound_of thousandths (distribution_of group span requests)) }
{}

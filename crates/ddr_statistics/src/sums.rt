//! That the numbers of places add up, and the clocks of a rank.
ghost use Rattle.std.specs.Prelude.{◌≡◌, ◌+◌, ◌-◌, ℕ, List};
ghost use Rattle.ddr_timing.specs.declared.geometry.Geometry.{Geometry};
ghost use Rattle.ddr_timing.specs.declared.timing.Timing.{Timing};
ghost use Rattle.ddr_trace.specs.declared.command.Entry.{Entry};
ghost use Rattle.ddr_statistics.specs.Background.{active_clocks, idle_clocks, refresh_clocks};
ghost use Rattle.ddr_statistics.specs.Sums.{ArePlaced, BanksAddUp, RanksAddUp};

/// Of every trace whose commands lie in the geometry, the numbers of the ranks add up, each for itself, to those of the
/// channel; and those of a rank's banks to those of the rank's commands but for PREA and REF, which are of no bank alone.
///
/// A law: it does nothing.
pub fn places_add_up()
    ensures ranks { (g : Geometry) (history : List Entry) → ArePlaced g history → RanksAddUp g history }
    ensures banks { (g : Geometry) (history : List Entry) (rank : ℕ) → ArePlaced g history → BanksAddUp g history rank }
{}

/// Of every trace the clocks in which a rank is active, is refreshed and is neither add up to the cycles from the trace's start to before
/// its end.
///
/// A law: it does nothing.
pub fn clocks_add_up()
    ensures { (t : Timing) (g : Geometry) (start end rank : ℕ) (history : List Entry)
        → active_clocks t g start end rank history + refresh_clocks t g start end rank history + idle_clocks t g start end rank history ≡ end - start }
{}

//! That the stalled clocks of a channel add up.
//!
//! `stalls` and `causes` stand below; nothing calls it.
ghost use Rattle.std.specs.Prelude.{◌≡◌, ◌<◌, ◌^◌, length};
ghost use Rattle.ddr_ledger.specs.Stalls.{Stalled};
ghost use Rattle.ddr_ledger.specs.Sums.{AddsUp, stalled_clocks};

/// Of whatever was counted of a channel, as long as a `u64` holds its stalled clocks: each of them is counted for one cause, once.
///
/// A law: it does nothing. Of `Causes` each has one number for each of the 23 rules.
pub fn stalls_add_up()
    ensures { (s : Stalled) → length s.causes.rules ≡ 23 → stalled_clocks s < 2 ^ 64 → AddsUp s }
{}

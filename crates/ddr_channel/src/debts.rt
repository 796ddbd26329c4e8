//! The refresh debts of a channel's ranks.
ghost use Rattle.std.specs.Prelude.{◌≡◌, ℕ, ◌+◌, ◌<◌, ◌≤◌, true, All, map, slice_get, option_map, IfSome};
ghost use Rattle.std.specs.Option.{option_map_or};
ghost use Rattle.ddr_timing.specs.declared.units.TheConstants.{CLOCK_STOP};
ghost use Rattle.ddr_trace.specs.Commands.{is_refresh, rank_of};
ghost use Rattle.ddr_refresh.specs.Refreshes.{after_tick, after_ticks, debt_of};
ghost use Rattle.ddr_channel.specs.Issue.{refreshes_with};

use ddr_refresh::debt::Debt;
use ddr_timing::units::MOST_RANKS;
use ddr_trace::command::Command;

/// A debt for each rank that a channel may have, from rank 0 on.
pub(crate) type Debts = [Debt; MOST_RANKS as usize];

/// Counts a cycle.
pub(crate) fn tick(debts: &mut Debts)
    requires { All (λ r. r.ticks < CLOCK_STOP) debts.old }
    ensures { debts.new ≡ map after_tick debts.old }
{
    for debt in debts {
        debt.tick();
    }
}

/// Counts so many cycles at once.
pub(crate) fn pass(debts: &mut Debts, cycles: u64)
    requires { All (λ r. r.ticks + cycles ≤ CLOCK_STOP) debts.old }
    ensures { debts.new ≡ map (after_ticks cycles) debts.old }
{
    for debt in debts {
        debt.pass(cycles);
    }
}

/// Counts the command of a cycle, if it has one and that is a REF, against the debt of its rank.
pub(crate) fn count(debts: &mut Debts, command: Option<Command>)
    requires { IfSome command (λ c. is_refresh c ≡ true → 1 ≤ option_map_or debt_of (slice_get debts.old (rank_of c)) 0) }
    ensures { (rank : ℕ) → slice_get debts.new rank ≡ option_map (refreshes_with rank command) (slice_get debts.old rank) }
{
    if let Some(Command::Refresh { rank }) = command {
        debts[rank as usize].issued();
    }
}

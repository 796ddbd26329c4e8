//! The debt of a rank in profile S, where one refresh falls due in 200 clocks and 2 may be put off.
ghost use Rattle.std.specs.Prelude.{◌≡◌, ◌+◌, ◌≤◌};
ghost use Rattle.ddr_timing.specs.declared.units.TheConstants.{CLOCK_STOP};

use ddr_refresh::debt::Debt;
use ddr_timing::config::Config;
use ddr_timing::profile::PROFILE_S;
use std::test::Fail;

/// Ticks so often.
pub fn tick_times(debt: &mut Debt, times: u64)
    requires { debt.old.ticks + times ≤ CLOCK_STOP }
    ensures { debt.new ≡ record debt.old { ticks = debt.old.ticks + times } }
{
    for _tick in 0..times {
        debt.tick();
    }
}

#[test]
fn one_refresh_falls_due_in_each_interval(rt: HostRuntime) -> Result<(), Fail> {
    let config = Config::read(rt.alloc(), PROFILE_S)?;
    let mut debt = Debt::open(&config);
    tick_times(&mut debt, 1);
    assert_eq!(rt; debt.debt(), 0);
    tick_times(&mut debt, 199);
    assert_eq!(rt; debt.debt(), 0);
    assert!(rt; !debt.forced(true));
    tick_times(&mut debt, 1);
    assert_eq!(rt; debt.debt(), 1);
    assert!(rt; debt.forced(true) && !debt.forced(false));
    tick_times(&mut debt, 200);
    assert_eq!(rt; debt.debt(), 2);
    assert!(rt; !debt.forced(false));
    tick_times(&mut debt, 199);
    assert_eq!(rt; debt.debt(), 2);
    tick_times(&mut debt, 1);
    assert_eq!(rt; debt.debt(), 3);
    assert!(rt; debt.forced(false));
    debt.issued();
    assert_eq!(rt; debt.debt(), 2);
    assert!(rt; !debt.forced(false) && debt.forced(true));
    Ok(())
}

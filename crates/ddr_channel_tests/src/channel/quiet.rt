//! For how long a channel is quiet, and what so many cycles at once come to.
use super::{Access, admit_all, check_eq, open};
use ddr_channel::channel::Channel;
use ddr_trace::command::{Command, Entry};
use std::test::Fail;

/// Makes one cycle, and then all that are known to be quiet behind it, and tells how many these are.
fn cycle_and_pass(channel: &mut Channel) -> Result<u64, Fail> {
    if channel.cycle().is_err() {
        return Err("no cycle".into());
    }
    let count = channel.quiet();
    channel.pass(count);
    Ok(count)
}

/// With REFI 200 the first REF falls due in cycle 200: behind cycle 0 the cycles 1 to 199 are quiet, and at once they
/// issue nothing. Then REF comes, and behind it the cycles 201 to 399 are quiet.
#[test]
fn an_idle_channel_is_quiet_between_refreshes(rt: HostRuntime) -> Result<(), Fail> {
    let alloc = rt.alloc();
    let mut channel = open(alloc, &[])?;
    check_eq(&rt, "before the first cycle", channel.quiet(), 0);
    check_eq(&rt, "behind cycle 0", cycle_and_pass(&mut channel)?, 199);
    check_eq(&rt, "the next cycle", channel.now(), 200);
    check_eq(&rt, "commands", channel.trace().len(), 0);
    check_eq(&rt, "behind the REF", cycle_and_pass(&mut channel)?, 199);
    let refresh = Entry {
        cycle: 200,
        command: Command::Refresh { rank: 0 },
    };
    assert!(rt; channel.trace() == [refresh].as_slice());
    check_eq(&rt, "the cycle behind them", channel.now(), 400);
    Ok(())
}

/// A read: ACT in cycle 0, RD in cycle 4, RCD behind it, and its data behind cycle 4 + CL + 4 = 12. So the cycles 1 to 3 are
/// quiet, and 5 to 11; in cycle 12 the read completes.
#[test]
fn a_read_is_waited_for(rt: HostRuntime) -> Result<(), Fail> {
    let alloc = rt.alloc();
    let mut channel = open(alloc, &[])?;
    admit_all(alloc, &mut channel, 0, &[Access::Read(0)])?;
    check_eq(&rt, "behind the ACT", cycle_and_pass(&mut channel)?, 3);
    check_eq(&rt, "behind the RD", cycle_and_pass(&mut channel)?, 7);
    check_eq(&rt, "the cycle of completion", channel.now(), 12);
    check_eq(&rt, "commands", channel.trace().len(), 2);
    assert!(rt; channel.next_done().is_none());
    let _ = cycle_and_pass(&mut channel)?;
    assert!(rt; channel.next_done().is_some());
    Ok(())
}

/// Makes so many cycles.
fn make_cycles(channel: &mut Channel, count: u64) -> Result<(), Fail> {
    for _ in 0..count {
        if channel.cycle().is_err() {
            return Err("no cycle".into());
        }
    }
    Ok(())
}

/// A read leaves its row open. From cycle 200 on, REFI, the rank has to be refreshed: PREA in cycle 200, and REF in cycle 204, RP
/// behind it. `quiet` tells none of the cycles between, and `still` all three.
#[test]
fn a_wait_for_a_refresh_is_still(rt: HostRuntime) -> Result<(), Fail> {
    let alloc = rt.alloc();
    let mut channel = open(alloc, &[])?;
    admit_all(alloc, &mut channel, 0, &[Access::Read(0)])?;
    make_cycles(&mut channel, 200)?;
    assert!(rt; channel.must_refresh());
    make_cycles(&mut channel, 1)?;
    check_eq(&rt, "commands", channel.trace().len(), 3);
    check_eq(&rt, "quiet", channel.quiet(), 0);
    let count = channel.still();
    check_eq(&rt, "still", count, 3);
    channel.pass(count);
    make_cycles(&mut channel, 1)?;
    let refresh = Entry {
        cycle: 204,
        command: Command::Refresh { rank: 0 },
    };
    assert!(rt; channel.trace().last() == Some(&refresh));
    assert!(rt; !channel.must_refresh());
    check_eq(&rt, "quiet behind the REF", channel.quiet(), 195);
    Ok(())
}

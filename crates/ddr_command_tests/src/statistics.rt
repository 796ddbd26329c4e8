//! Statistics of small traces, whose numbers are counted by hand.
use ddr_statistics::counts::Counts;
use ddr_statistics::statistics::Statistics;
use ddr_statistics::text::{counts_text, is_unused};
use ddr_timing::bank::BankId;
use ddr_timing::config::Config;
use ddr_timing::profile::PROFILE_S2;
use ddr_trace::command::{Command, Entry};
use std::process::Abort;
use std::test::Fail;

const GROUP: u32 = 1;

const BANK: u32 = 2;

fn act(rank: u32) -> Command {
    Command::Act {
        rank,
        group: GROUP,
        bank: BANK,
        row: 3,
    }
}

fn rd(rank: u32) -> Command {
    Command::Rd {
        rank,
        group: GROUP,
        bank: BANK,
        row: 3,
        line: 0,
    }
}

fn wr(rank: u32) -> Command {
    Command::Wr {
        rank,
        group: GROUP,
        bank: BANK,
        row: 3,
        line: 1,
    }
}

fn rda(rank: u32) -> Command {
    Command::RdAuto {
        rank,
        group: GROUP,
        bank: BANK,
        row: 3,
        line: 0,
    }
}

fn wra(rank: u32) -> Command {
    Command::WrAuto {
        rank,
        group: GROUP,
        bank: BANK,
        row: 3,
        line: 1,
    }
}

fn pre(rank: u32) -> Command {
    Command::Pre {
        rank,
        group: GROUP,
        bank: BANK,
    }
}

/// The statistics of these commands, one each ten cycles from 100 on.
fn statistics_of(rt: &impl Abort, config: &Config, commands: &[Command]) -> Statistics {
    let mut statistics = Statistics::open(config, 100);
    let mut cycle = 100u64;
    for command in commands {
        let entry = Entry {
            cycle,
            command: *command,
        };
        assert!(rt; entry.command.is_in(statistics.geometry()));
        statistics.note(&entry);
        cycle = cycle.saturating_add(10);
    }
    statistics
}

fn counts_of_bank(statistics: &Statistics, rank: u32, group: u32, bank: u32) -> Option<Counts> {
    let geometry = statistics.geometry();
    if rank >= geometry.ranks || group >= geometry.groups || bank >= 4 {
        return None;
    }
    Some(statistics.bank(&BankId { rank, group, bank }))
}

fn counts_of_rank(statistics: &Statistics, rank: u32) -> Option<Counts> {
    if rank >= statistics.geometry().ranks {
        return None;
    }
    Some(statistics.rank(rank))
}

// Of one bank: RD behind the first ACT misses, the next one hits; behind PRE and ACT an RD is a conflict, and the RDA
// behind it hits; the RDA closes the bank, so WR behind the next ACT misses, and so does WRA behind a PREA and an ACT.
#[test]
fn one_bank_is_counted(rt: HostRuntime) -> Result<(), Fail> {
    let config = Config::read(rt.alloc(), PROFILE_S2)?;
    let trace = [
        act(0),
        rd(0),
        rd(0),
        pre(0),
        act(0),
        rd(0),
        rda(0),
        act(0),
        wr(0),
        Command::PreAll { rank: 0 },
        Command::Refresh { rank: 0 },
        act(0),
        wra(0),
    ];
    let statistics = statistics_of(&rt, &config, &trace);
    let bank = Counts {
        activates: 4,
        precharges: 1,
        precharges_all: 0,
        reads: 3,
        writes: 1,
        reads_auto: 1,
        writes_auto: 1,
        refreshes: 0,
        row_hits: 2,
        row_misses: 3,
        row_conflicts: 1,
        busy_clocks: 24,
    };
    let channel = Counts {
        precharges_all: 1,
        refreshes: 1,
        ..bank
    };
    assert_eq!(rt; statistics.total(), channel);
    assert_eq!(rt; counts_of_rank(&statistics, 0), Some(channel));
    assert_eq!(rt; counts_of_rank(&statistics, 1), Some(Counts::NONE));
    assert_eq!(rt; counts_of_bank(&statistics, 0, GROUP, BANK), Some(bank));
    assert_eq!(rt;
        counts_of_bank(&statistics, 0, BANK, GROUP),
        Some(Counts::NONE)
    );
    assert_eq!(rt; statistics.turn_rounds(), 1);
    assert_eq!(rt; statistics.rank_switches(), 0);
    assert_eq!(rt; statistics.cycles(230), 130);
    Ok(())
}

// RD of rank 0, WR of rank 1, RD of rank 0 (turns round and switches twice), RD of rank 1 (switches), and behind a PRE of
// rank 0, which moves no data, RDA of rank 1 (neither).
#[test]
fn turns_are_counted_over_ranks(rt: HostRuntime) -> Result<(), Fail> {
    let config = Config::read(rt.alloc(), PROFILE_S2)?;
    let trace = [act(0), act(1), rd(0), wr(1), rd(0), rd(1), pre(0), rda(1)];
    let statistics = statistics_of(&rt, &config, &trace);
    assert_eq!(rt; statistics.turn_rounds(), 2);
    assert_eq!(rt; statistics.rank_switches(), 3);
    assert_eq!(rt; statistics.total().busy_clocks, 20);
    Ok(())
}

// Of rank 0 a bank had an ACT and a WR, and rank 1 a REF alone.
#[test]
fn the_text_lists_the_numbers_of_a_place(rt: HostRuntime) -> Result<(), Fail> {
    let config = Config::read(rt.alloc(), PROFILE_S2)?;
    let trace = [act(0), wr(0), Command::Refresh { rank: 1 }];
    let statistics = statistics_of(&rt, &config, &trace);
    let total = counts_text(rt.alloc(), &statistics.total())?;
    assert_eq!(rt;
        total.as_str(),
        "activates = 1\nprecharges = 0\nprecharges_all = 0\nrefreshes = 1\nreads = 0\nwrites = 1\nreads_auto = 0\nwrites_auto = 0\nrow_hits = 0\nrow_misses = 1\nrow_conflicts = 0\nbusy_clocks = 4\n"
    );
    let refreshed = counts_of_rank(&statistics, 1).unwrap_or(Counts::NONE);
    let rank = counts_text(rt.alloc(), &refreshed)?;
    assert_eq!(rt;
        rank.as_str(),
        "activates = 0\nprecharges = 0\nprecharges_all = 0\nrefreshes = 1\nreads = 0\nwrites = 0\nreads_auto = 0\nwrites_auto = 0\nrow_hits = 0\nrow_misses = 0\nrow_conflicts = 0\nbusy_clocks = 0\n"
    );
    let written = counts_of_bank(&statistics, 0, GROUP, BANK).unwrap_or(Counts::NONE);
    let bank = counts_text(rt.alloc(), &written)?;
    assert_eq!(rt;
        bank.as_str(),
        "activates = 1\nprecharges = 0\nprecharges_all = 0\nrefreshes = 0\nreads = 0\nwrites = 1\nreads_auto = 0\nwrites_auto = 0\nrow_hits = 0\nrow_misses = 1\nrow_conflicts = 0\nbusy_clocks = 4\n"
    );
    assert!(rt; !is_unused(&written));
    assert_eq!(rt;
        counts_of_bank(&statistics, 1, GROUP, BANK),
        Some(Counts::NONE)
    );
    assert!(rt; is_unused(&Counts::NONE));
    Ok(())
}

/// The most refreshes that a rank owed, in a trace that ends before this cycle.
fn debt_of_rank(statistics: &Statistics, rank: u32, end: u64) -> Option<u64> {
    if rank >= statistics.geometry().ranks {
        return None;
    }
    Some(statistics.refresh_debt_most(rank, end))
}

// REFI is 200, and the trace begins in cycle 100: one falls due in cycle 300, 500, 700 and so on. Rank 0 owes three in cycle 750,
// where it pays for one, two in cycle 760, where it pays for another, and one until cycle 900, where it owes two. Rank 1 pays for
// none.
#[test]
fn debts_grow_until_they_are_paid(rt: HostRuntime) -> Result<(), Fail> {
    let config = Config::read(rt.alloc(), PROFILE_S2)?;
    let mut statistics = Statistics::open(&config, 100);
    for cycle in [750u64, 760] {
        let entry = Entry {
            cycle,
            command: Command::Refresh { rank: 0 },
        };
        assert!(rt; entry.command.is_in(statistics.geometry()));
        statistics.note(&entry);
    }
    assert_eq!(rt; debt_of_rank(&statistics, 0, 900), Some(3));
    assert_eq!(rt; debt_of_rank(&statistics, 1, 900), Some(3));
    assert_eq!(rt; debt_of_rank(&statistics, 1, 901), Some(4));
    assert_eq!(rt; debt_of_rank(&statistics, 0, 901), Some(3));
    assert_eq!(rt; debt_of_rank(&statistics, 0, 1301), Some(4));
    assert_eq!(rt; statistics.refresh_debts_most(901), 4);
    Ok(())
}

/// The statistics of these commands in their cycles, in a trace that begins in cycle 100.
fn clocked(rt: &impl Abort, config: &Config, trace: &[(u64, Command)]) -> Statistics {
    let mut statistics = Statistics::open(config, 100);
    for (cycle, command) in trace {
        let entry = Entry {
            cycle: *cycle,
            command: *command,
        };
        assert!(rt; entry.command.is_in(statistics.geometry()));
        statistics.note(&entry);
    }
    statistics
}

/// The clocks in which a rank is active, is refreshed and is idle, in a trace that ends before this cycle.
fn clocks_of_rank(statistics: &Statistics, rank: u32, end: u64) -> Option<[u64; 3]> {
    if rank >= statistics.geometry().ranks {
        return None;
    }
    Some([
        statistics.active_clocks(rank, end),
        statistics.refresh_clocks(rank, end),
        statistics.idle_clocks(rank, end),
    ])
}

// Of rank 0 one bank is active in cycles 110 to 129, another one in 115 to 139, and rank 1 from its ACT in cycle 150 on.
#[test]
fn active_clocks_count_once(rt: HostRuntime) -> Result<(), Fail> {
    let config = Config::read(rt.alloc(), PROFILE_S2)?;
    let other = Command::Act {
        rank: 0,
        group: 0,
        bank: 0,
        row: 1,
    };
    let close_other = Command::Pre {
        rank: 0,
        group: 0,
        bank: 0,
    };
    let trace = [
        (110u64, act(0)),
        (115, other),
        (130, pre(0)),
        (140, close_other),
        (150, act(1)),
    ];
    let statistics = clocked(&rt, &config, &trace);
    assert_eq!(rt; clocks_of_rank(&statistics, 0, 200), Some([30, 0, 70]));
    assert_eq!(rt; clocks_of_rank(&statistics, 0, 151), Some([30, 0, 21]));
    assert_eq!(rt; clocks_of_rank(&statistics, 1, 200), Some([50, 0, 50]));
    assert_eq!(rt; clocks_of_rank(&statistics, 1, 151), Some([1, 0, 50]));
    Ok(())
}

// RAS is 10, RTP 3, and from a write to a precharge there are 3 + 4 + 5 clocks. The bank is active in cycles 100 to 109, until RAS is
// over; in 120 to 132, RTP behind its RDA; in 150 to 165, 12 clocks behind its WRA; and in 170 to 175, where a PRE comes before its
// auto-precharge would start, in cycle 180.
#[test]
fn auto_precharges_end_active_clocks(rt: HostRuntime) -> Result<(), Fail> {
    let config = Config::read(rt.alloc(), PROFILE_S2)?;
    let trace = [
        (100u64, act(0)),
        (104, rda(0)),
        (120, act(0)),
        (130, rda(0)),
        (150, act(0)),
        (154, wra(0)),
        (170, act(0)),
        (172, rda(0)),
        (176, pre(0)),
    ];
    let statistics = clocked(&rt, &config, &trace);
    assert_eq!(rt; clocks_of_rank(&statistics, 0, 200), Some([45, 0, 55]));
    let closing = clocked(&rt, &config, &[(100u64, act(0)), (104, rda(0))]);
    assert_eq!(rt; clocks_of_rank(&closing, 0, 109), Some([9, 0, 0]));
    assert_eq!(rt; clocks_of_rank(&closing, 0, 111), Some([10, 0, 1]));
    Ok(())
}

// RFC is 20. Rank 0 is refreshed in cycles 120 to 139, or up to the end where that comes before; in rank 1 a bank is active in cycles
// 110 to 121, by a PREA, so of a REF in cycle 115 the cycles 122 to 134 count.
#[test]
fn refresh_clocks_are_those_behind_a_ref(rt: HostRuntime) -> Result<(), Fail> {
    let config = Config::read(rt.alloc(), PROFILE_S2)?;
    let trace = [
        (110u64, act(1)),
        (115, Command::Refresh { rank: 1 }),
        (120, Command::Refresh { rank: 0 }),
        (122, Command::PreAll { rank: 1 }),
    ];
    let statistics = clocked(&rt, &config, &trace);
    assert_eq!(rt; clocks_of_rank(&statistics, 0, 123), Some([0, 3, 20]));
    assert_eq!(rt; clocks_of_rank(&statistics, 0, 139), Some([0, 19, 20]));
    assert_eq!(rt; clocks_of_rank(&statistics, 0, 141), Some([0, 20, 21]));
    assert_eq!(rt; clocks_of_rank(&statistics, 1, 123), Some([12, 1, 10]));
    assert_eq!(rt; clocks_of_rank(&statistics, 1, 200), Some([12, 13, 75]));
    Ok(())
}

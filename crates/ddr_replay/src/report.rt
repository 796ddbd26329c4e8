//! The statistics of a replay as text.
//!
//! `numbers`, `rows`, `waited`, `activity`, `stalls`, `windows`, `places`, `times_report` and `ddr_statistics` stand below, and `telling`
//! above. `specs/Report.antt` has the text, byte for byte.
ghost use Rattle.std.specs.Prelude.{◌≡◌, IfOk, slice_index_or, string_bytes};
ghost use Rattle.ddr_ledger.specs.Activities.{and_drains, drains_together};
ghost use Rattle.ddr_ledger.specs.Activity.{no_activity};
ghost use Rattle.ddr_replay.specs.Report.{activity_lines, channel_table, channel_tables, counts_lines, head_text, held_lines, numbers_lines, port_table, port_tables, report_lines, requests_lines, rows_lines, stalled_line, total_table, waited_lines};
ghost use Rattle.ddr_ledger.specs.Rows.{no_rows};
ghost use Rattle.ddr_ledger.specs.Stalls.{causes_at};
ghost use Rattle.ddr_ledger.specs.Waited.{no_wait};

use ddr_ledger::activity::{Activity, Held};
use ddr_ledger::causes::Causes;
use ddr_ledger::causes_text::causes_lines;
use ddr_ledger::ledger::Ledger;
use ddr_ledger::numbers::{Numbers, many, together};
use ddr_ledger::places::debt_line;
use ddr_ledger::rows::{RowCounts, Rows, all_rows};
use ddr_ledger::stalls::{Stalls, stalls_together};
use ddr_ledger::times_report::ledger_tables;
use ddr_ledger::waited::{Waited, all_waited};
use ddr_ledger::windows::outstanding_at;
use ddr_measure::text::thousandths;
use ddr_statistics::text::counts_text;
use ddr_stream::requests::Requests;
use ddr_timing::config::Config;
use std::alloc::{AllocError, Global};

/// The statistics as a TOML document, of these requests of the ports, numbers of the channels, times and cycles: the keys
/// `channels`, `ports` and `cycles`, then a table `total`, a table `channel.C` of each channel, a table `port.P` of each port,
/// and the tables of `ledger_tables`.
#[tactic(auto, unfolding(crate::specs::Report::report_lines))]
pub fn report_lines(
    alloc: Global,
    config: &Config,
    requests: &[Requests],
    numbers: &[Numbers],
    ledger: &Ledger,
    cycles: u32,
) -> Result<String, AllocError>
    ensures { IfOk result (λ text. string_bytes text ≡ report_lines config.now requests.now numbers.now ledger.now cycles) }
{
    let mut text = head_text(alloc, config, cycles)?;
    let total = total_table(
        alloc,
        &many(requests),
        &all_waited(ledger.waited()),
        &all_rows(ledger.rows()),
        drains_together(ledger.activity()),
        stalls_together(ledger.stalls()),
        &together(numbers),
    )?;
    text.push_str(total.as_str())?;
    let channels = channel_tables(alloc, cycles, numbers, ledger.activity(), ledger.stalls())?;
    text.push_str(channels.as_str())?;
    let ports = port_tables(alloc, cycles, requests, ledger)?;
    text.push_str(ports.as_str())?;
    let times = ledger_tables(alloc, ledger)?;
    text.push_str(times.as_str())?;
    Ok(text)
}

#[tactic(auto, unfolding(crate::specs::Report::head_text))]
fn head_text(alloc: Global, config: &Config, cycles: u32) -> Result<String, AllocError>
    ensures { IfOk result (λ text. string_bytes text ≡ head_text config.now cycles) }
{
    let channels = config.geometry.channels;
    let ports = config.limits.ports;
    format!(in alloc; "channels = {channels}\nports = {ports}\ncycles = {cycles}\n")
}

/// The table of all channels and ports.
#[tactic(auto, unfolding(crate::specs::Report::total_table))]
fn total_table(
    alloc: Global,
    requests: &Requests,
    waited: &Waited,
    rows: &Rows,
    drains: u64,
    stalls: u64,
    numbers: &Numbers,
) -> Result<String, AllocError>
    ensures { IfOk result (λ text. string_bytes text ≡ total_table requests.now waited.now rows.now drains stalls numbers.now) }
{
    let mut text = String::from_str(alloc, "\n[total]\n")?;
    let asked = requests_lines(alloc, requests)?;
    text.push_str(asked.as_str())?;
    let waits = waited_lines(alloc, waited)?;
    text.push_str(waits.as_str())?;
    let found = rows_lines(alloc, rows)?;
    text.push_str(found.as_str())?;
    let counted = numbers_lines(alloc, drains, numbers)?;
    text.push_str(counted.as_str())?;
    let stalled = stalled_line(alloc, stalls)?;
    text.push_str(stalled.as_str())?;
    Ok(text)
}

/// The tables of the channels, of which a channel that isn't told of did nothing.
fn channel_tables(
    alloc: Global,
    cycles: u32,
    numbers: &[Numbers],
    activity: &[Activity],
    stalls: &[Stalls],
) -> Result<String, AllocError>
    ensures { IfOk result (λ text. string_bytes text ≡ channel_tables cycles 0 numbers.now activity.now stalls.now) }
{
    let mut text = String::new(alloc);
    for (channel, one) in numbers.iter().enumerate() {
        let (acted, causes) = (activity_at(activity, channel), causes_at(stalls, channel));
        let table = channel_table(alloc, channel, cycles, &acted, &causes, one)?;
        text.push_str(table.as_str())?;
    }
    Ok(text)
}

/// What a channel did in its cycles; nothing where it isn't told of.
fn activity_at(activity: &[Activity], channel: usize) -> Activity
    ensures { result ≡ slice_index_or activity.now channel no_activity }
{
    match activity.get(channel) {
        Some(one) => *one,
        None => Activity::NONE,
    }
}

/// What a channel's commands waited for; nothing where it isn't told of.
fn causes_at(stalls: &[Stalls], channel: usize) -> Causes
    ensures { result ≡ causes_at stalls.now channel }
{
    match stalls.get(channel) {
        Some(one) => *one.causes(),
        None => Causes::NONE,
    }
}

/// In how many cycles several channels drained writes, together.
fn drains_together(activity: &[Activity]) -> u64
    ensures { result ≡ drains_together activity.now }
{
    let mut all: u64 = 0;
    for one in activity {
        all = and_drains(all, one);
    }
    all
}

fn and_drains(all: u64, activity: &Activity) -> u64
    ensures { result ≡ and_drains all activity.now }
{
    all.saturating_add(activity.drains)
}

/// The table of a channel that made so many cycles, behind an empty line.
#[tactic(auto, unfolding(crate::specs::Report::channel_table))]
fn channel_table(
    alloc: Global,
    channel: usize,
    cycles: u32,
    activity: &Activity,
    causes: &Causes,
    numbers: &Numbers,
) -> Result<String, AllocError>
    ensures { IfOk result (λ text. string_bytes text ≡ channel_table channel cycles activity.now causes.now numbers.now) }
{
    let mut text = format!(in alloc; "\n[channel.{channel}]\n")?;
    let lines = numbers_lines(alloc, activity.drains, numbers)?;
    text.push_str(lines.as_str())?;
    let acted = activity_lines(alloc, cycles, activity)?;
    text.push_str(acted.as_str())?;
    let waits = causes_lines(alloc, causes)?;
    text.push_str(waits.as_str())?;
    Ok(text)
}

/// In how many cycles of all channels requests were pending and no command went out.
#[tactic(auto, unfolding(crate::specs::Report::stalled_line))]
fn stalled_line(alloc: Global, stalls: u64) -> Result<String, AllocError>
    ensures { IfOk result (λ text. string_bytes text ≡ stalled_line stalls) }
{
    format!(in alloc; "stalled_cycles = {stalls}\n")
}

/// How many requests were pending in a channel of so many cycles, and waited in its queue.
fn activity_lines(alloc: Global, cycles: u32, activity: &Activity) -> Result<String, AllocError>
    ensures { IfOk result (λ text. string_bytes text ≡ activity_lines cycles activity.now) }
{
    let mut text = held_lines(alloc, "pending_reads", cycles, &activity.reads)?;
    let writes = held_lines(alloc, "pending_writes", cycles, &activity.writes)?;
    text.push_str(writes.as_str())?;
    let waiting = held_lines(alloc, "intake", cycles, &activity.waiting)?;
    text.push_str(waiting.as_str())?;
    Ok(text)
}

/// How many of these there were in so many cycles: on the mean, and the most.
#[tactic(auto, unfolding(crate::specs::Report::held_lines))]
fn held_lines(alloc: Global, name: &str, cycles: u32, held: &Held) -> Result<String, AllocError>
    ensures { IfOk result (λ text. string_bytes text ≡ held_lines name.now cycles held.now) }
{
    let mean = thousandths(alloc, held.mean(cycles))?;
    let most = held.most;
    format!(in alloc; "{name}_mean = {mean}\n{name}_most = {most}\n")
}

/// The tables of the ports, of which a port that isn't told of waited for no clock, and read and wrote nothing.
fn port_tables(
    alloc: Global,
    cycles: u32,
    requests: &[Requests],
    ledger: &Ledger,
) -> Result<String, AllocError>
    ensures { IfOk result (λ text. string_bytes text ≡ port_tables cycles 0 requests.now ledger.now) }
{
    let mut text = String::new(alloc);
    for (port, one) in requests.iter().enumerate() {
        let waits = waited_at(ledger.waited(), port);
        let found = rows_at(ledger.rows(), port);
        let held = outstanding_at(ledger, port);
        let table = port_table(alloc, port, cycles, one, &waits, &found, &held)?;
        text.push_str(table.as_str())?;
    }
    Ok(text)
}

/// For how many clocks a port waited; none where it isn't told of.
fn waited_at(waited: &[Waited], port: usize) -> Waited
    ensures { result ≡ slice_index_or waited.now port no_wait }
{
    match waited.get(port) {
        Some(one) => *one,
        None => Waited::NONE,
    }
}

/// How a port's reads and writes found their banks; none where it isn't told of.
fn rows_at(rows: &[Rows], port: usize) -> Rows
    ensures { result ≡ slice_index_or rows.now port no_rows }
{
    match rows.get(port) {
        Some(one) => *one,
        None => Rows::NONE,
    }
}

/// The table of a port, behind an empty line.
#[tactic(auto, unfolding(crate::specs::Report::port_table))]
fn port_table(
    alloc: Global,
    port: usize,
    cycles: u32,
    requests: &Requests,
    waited: &Waited,
    rows: &Rows,
    held: &Held,
) -> Result<String, AllocError>
    ensures { IfOk result (λ text. string_bytes text ≡ port_table port cycles requests.now waited.now rows.now held.now) }
{
    let mut text = format!(in alloc; "\n[port.{port}]\n")?;
    let lines = requests_lines(alloc, requests)?;
    text.push_str(lines.as_str())?;
    let waits = waited_lines(alloc, waited)?;
    text.push_str(waits.as_str())?;
    let found = rows_lines(alloc, rows)?;
    text.push_str(found.as_str())?;
    let window = held_lines(alloc, "window", cycles, held)?;
    text.push_str(window.as_str())?;
    Ok(text)
}

/// How reads and writes found their banks.
#[tactic(auto, unfolding(crate::specs::Report::rows_lines))]
fn rows_lines(alloc: Global, rows: &Rows) -> Result<String, AllocError>
    ensures { IfOk result (λ text. string_bytes text ≡ rows_lines rows.now) }
{
    let mut text = counts_lines(alloc, "read", &rows.reads)?;
    let writes = counts_lines(alloc, "write", &rows.writes)?;
    text.push_str(writes.as_str())?;
    Ok(text)
}

/// How those of one kind found their banks.
#[tactic(auto, unfolding(crate::specs::Report::counts_lines))]
fn counts_lines(alloc: Global, kind: &str, counts: &RowCounts) -> Result<String, AllocError>
    ensures { IfOk result (λ text. string_bytes text ≡ counts_lines kind.now counts.now) }
{
    let hits = counts.hits;
    let misses = counts.misses;
    let conflicts = counts.conflicts;
    format!(in alloc;
        "{kind}_row_hits = {hits}\n{kind}_row_misses = {misses}\n{kind}_row_conflicts = {conflicts}\n"
    )
}

#[tactic(auto, unfolding(crate::specs::Report::waited_lines))]
fn waited_lines(alloc: Global, waited: &Waited) -> Result<String, AllocError>
    ensures { IfOk result (λ text. string_bytes text ≡ waited_lines waited.now) }
{
    let window = waited.window;
    let queue = waited.queue;
    format!(in alloc; "waited_for_window = {window}\nwaited_for_queue = {queue}\n")
}

#[tactic(auto, unfolding(crate::specs::Report::requests_lines))]
fn requests_lines(alloc: Global, requests: &Requests) -> Result<String, AllocError>
    ensures { IfOk result (λ text. string_bytes text ≡ requests_lines requests.now) }
{
    let reads = requests.reads;
    let writes = requests.writes;
    format!(in alloc; "read_requests = {reads}\nwrite_requests = {writes}\n")
}

#[tactic(auto, unfolding(crate::specs::Report::numbers_lines))]
fn numbers_lines(alloc: Global, drains: u64, numbers: &Numbers) -> Result<String, AllocError>
    ensures { IfOk result (λ text. string_bytes text ≡ numbers_lines drains numbers.now) }
{
    let turn_rounds = numbers.turn_rounds;
    let rank_switches = numbers.rank_switches;
    let mut text = format!(in alloc;
        "turn_rounds = {turn_rounds}\nrank_switches = {rank_switches}\ndrain_cycles = {drains}\n"
    )?;
    let debt = debt_line(alloc, numbers.refresh_debt_most)?;
    text.push_str(debt.as_str())?;
    let counts = counts_text(alloc, &numbers.counts)?;
    text.push_str(counts.as_str())?;
    Ok(text)
}

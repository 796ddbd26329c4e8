//! The numbers of each rank and of each bank, as text.
//!
//! `ddr_counting` and `ddr_statistics` stand below, and `ddr_replay` above. `specs/Places.antt` has the text, byte for byte.
ghost use Rattle.std.specs.Prelude.{◌≡◌, ◌≢◌, ◌<◌, false, IfOk, string_bytes};
ghost use Rattle.ddr_timing.specs.declared.units.TheConstants.{CLOCK_STOP};
ghost use Rattle.ddr_counting.specs.Noting.{AreNoted, IsNotedOf};
ghost use Rattle.ddr_world.specs.Kept.{state_of};
ghost use Rattle.ddr_ledger.specs.Numbers.{is_any_spent, is_spent};
ghost use Rattle.ddr_ledger.specs.Places.{bank_head, bank_table, bank_title, banks_tables, channel_places, clocks_lines, debt_line, places_at, places_tables, rank_numbers, rank_table, rank_title, ranks_tables};

use ddr_channel::channel::Channel;
use ddr_counting::noting::{Noting, all_are_counted};
use ddr_statistics::counts::Counts;
use ddr_statistics::statistics::Statistics;
use ddr_statistics::text::{counts_text, is_unused};
use ddr_timing::bank::BankId;
use ddr_timing::units::GROUP_BANKS;
use ddr_world::world::World;
use std::alloc::{AllocError, Global};

/// The numbers of a rank.
#[derive(Clone, Copy)]
pub struct RankNumbers {
    /// The most refreshes that it owed in a cycle.
    pub refresh_debt_most: u64,
    /// In how many cycles a bank of it was active, in how many it was refreshed with none active, and in how many it was neither.
    pub active_clocks: u64,
    pub refresh_clocks: u64,
    pub idle_clocks: u64,
    /// Those of its commands.
    pub counts: Counts,
}

/// A table `channel.C.rank.R` of each rank of each channel, with the keys `refresh_debt_most`, `active_clocks`, `refresh_clocks` and
/// `idle_clocks` before those of its commands, and behind those of a channel a table `channel.C.bank.R.G.B` of each bank that had a
/// command of its own.
#[tactic(auto, unfolding(crate::specs::Places::places_tables))]
pub fn places_tables(
    alloc: Global,
    world: &World,
    noting: &Noting,
    channels: u32,
) -> Result<String, AllocError>
    requires running { is_any_spent (state_of world.now) channels ≡ false }
    requires noted { AreNoted world.now.config (state_of world.now) noting.now }
    ensures { IfOk result (λ text. string_bytes text ≡ places_tables (state_of world.now) channels) }
{
    let mut text = String::new(alloc);
    for channel in 0..channels {
        let tables = places_at(alloc, world, noting, channel)?;
        text.push_str(tables.as_str())?;
    }
    Ok(text)
}

/// The tables of the channel of that number.
fn places_at(
    alloc: Global,
    world: &World,
    noting: &Noting,
    number: u32,
) -> Result<String, AllocError>
    requires running { is_spent (state_of world.now) number ≡ false }
    requires noted { AreNoted world.now.config (state_of world.now) noting.now }
    ensures { IfOk result (λ text. string_bytes text ≡ places_at (state_of world.now) number) }
{
    match world.channel(number) {
        Some(channel) => channel_places(alloc, number, channel, noting.at(number)),
        None => Ok(String::new(alloc)),
    }
}

/// The tables of a channel's ranks and banks.
#[tactic(auto, unfolding(crate::specs::Places::channel_places))]
fn channel_places(
    alloc: Global,
    number: u32,
    channel: &Channel,
    statistics: &Statistics,
) -> Result<String, AllocError>
    requires running { channel.now.now ≢ CLOCK_STOP }
    requires noted { IsNotedOf channel.now.config channel.now.trace statistics.now }
    ensures { IfOk result (λ text. string_bytes text ≡ channel_places channel.now.config number channel.now.now channel.now.trace) }
{
    let mut text = ranks_tables(alloc, number, channel, statistics)?;
    let banks = banks_tables(alloc, number, channel, statistics)?;
    text.push_str(banks.as_str())?;
    Ok(text)
}

/// The tables of a channel's ranks.
#[tactic(auto, unfolding(crate::specs::Places::ranks_tables))]
fn ranks_tables(
    alloc: Global,
    number: u32,
    channel: &Channel,
    statistics: &Statistics,
) -> Result<String, AllocError>
    requires running { channel.now.now ≢ CLOCK_STOP }
    requires noted { IsNotedOf channel.now.config channel.now.trace statistics.now }
    ensures { IfOk result (λ text. string_bytes text ≡ ranks_tables channel.now.config number channel.now.now channel.now.trace) }
{
    all_are_counted(channel, statistics);
    let mut text = String::new(alloc);
    for rank in 0..statistics.geometry().ranks {
        let numbers = rank_numbers(channel, statistics, rank);
        let table = rank_table(alloc, number, rank, &numbers)?;
        text.push_str(table.as_str())?;
    }
    Ok(text)
}

/// The numbers of a channel's rank.
fn rank_numbers(channel: &Channel, statistics: &Statistics, rank: u32) -> RankNumbers
    requires running { channel.now.now ≢ CLOCK_STOP }
    requires noted { IsNotedOf channel.now.config channel.now.trace statistics.now }
    requires rank_in { rank < statistics.now.geometry.ranks }
    ensures { result ≡ rank_numbers channel.now.config channel.now.now channel.now.trace rank }
{
    all_are_counted(channel, statistics);
    let end = channel.now();
    RankNumbers {
        refresh_debt_most: statistics.refresh_debt_most(rank, end),
        active_clocks: statistics.active_clocks(rank, end),
        refresh_clocks: statistics.refresh_clocks(rank, end),
        idle_clocks: statistics.idle_clocks(rank, end),
        counts: statistics.rank(rank),
    }
}

/// The table of a rank of these numbers, behind an empty line.
#[tactic(auto, unfolding(crate::specs::Places::rank_table))]
fn rank_table(
    alloc: Global,
    channel: u32,
    rank: u32,
    numbers: &RankNumbers,
) -> Result<String, AllocError>
    ensures { IfOk result (λ text. string_bytes text ≡ rank_table channel rank numbers.now) }
{
    let mut text = rank_title(alloc, channel, rank)?;
    let debt = debt_line(alloc, numbers.refresh_debt_most)?;
    text.push_str(debt.as_str())?;
    let clocks = clocks_lines(alloc, numbers)?;
    text.push_str(clocks.as_str())?;
    let lines = counts_text(alloc, &numbers.counts)?;
    text.push_str(lines.as_str())?;
    Ok(text)
}

/// In how many clocks a rank was active, was refreshed and was idle.
#[tactic(auto, unfolding(crate::specs::Places::clocks_lines))]
fn clocks_lines(alloc: Global, numbers: &RankNumbers) -> Result<String, AllocError>
    ensures { IfOk result (λ text. string_bytes text ≡ clocks_lines numbers.now) }
{
    let active_clocks = numbers.active_clocks;
    let refresh_clocks = numbers.refresh_clocks;
    let idle_clocks = numbers.idle_clocks;
    format!(in alloc;
        "active_clocks = {active_clocks}\nrefresh_clocks = {refresh_clocks}\nidle_clocks = {idle_clocks}\n"
    )
}

/// The most refreshes that a rank owed in a cycle.
#[tactic(auto, unfolding(crate::specs::Places::debt_line))]
pub fn debt_line(alloc: Global, most: u64) -> Result<String, AllocError>
    ensures { IfOk result (λ text. string_bytes text ≡ debt_line most) }
{
    format!(in alloc; "refresh_debt_most = {most}\n")
}

#[tactic(auto, unfolding(crate::specs::Places::rank_title))]
fn rank_title(alloc: Global, channel: u32, rank: u32) -> Result<String, AllocError>
    ensures { IfOk result (λ text. string_bytes text ≡ rank_title channel rank) }
{
    format!(in alloc; "\n[channel.{channel}.rank.{rank}]\n")
}

/// The tables of a channel's banks that had a command.
#[tactic(auto, unfolding(crate::specs::Places::banks_tables))]
fn banks_tables(
    alloc: Global,
    number: u32,
    channel: &Channel,
    statistics: &Statistics,
) -> Result<String, AllocError>
    requires running { channel.now.now ≢ CLOCK_STOP }
    requires noted { IsNotedOf channel.now.config channel.now.trace statistics.now }
    ensures { IfOk result (λ text. string_bytes text ≡ banks_tables channel.now.config number channel.now.trace) }
{
    all_are_counted(channel, statistics);
    let rank_banks = statistics.geometry().groups * GROUP_BANKS;
    let mut text = String::new(alloc);
    for place in 0..statistics.geometry().ranks * rank_banks {
        let id = BankId {
            rank: place / rank_banks,
            group: place % rank_banks / GROUP_BANKS,
            bank: place % GROUP_BANKS,
        };
        let table = bank_table(alloc, number, &id, &statistics.bank(&id))?;
        text.push_str(table.as_str())?;
    }
    Ok(text)
}

/// The table of a bank of these numbers, behind an empty line; nothing where it had no command.
#[tactic(auto, unfolding(crate::specs::Places::bank_table))]
fn bank_table(
    alloc: Global,
    channel: u32,
    id: &BankId,
    counts: &Counts,
) -> Result<String, AllocError>
    ensures { IfOk result (λ text. string_bytes text ≡ bank_table channel id.now.rank id.now.group id.now.bank counts.now) }
{
    if is_unused(counts) {
        return Ok(String::new(alloc));
    }
    let title = bank_title(alloc, id)?;
    let mut text = bank_head(alloc, channel, title.as_str())?;
    let lines = counts_text(alloc, counts)?;
    text.push_str(lines.as_str())?;
    Ok(text)
}

#[tactic(auto, unfolding(crate::specs::Places::bank_title))]
fn bank_title(alloc: Global, id: &BankId) -> Result<String, AllocError>
    ensures { IfOk result (λ text. string_bytes text ≡ bank_title id.now.rank id.now.group id.now.bank) }
{
    let rank = id.rank;
    let group = id.group;
    let bank = id.bank;
    format!(in alloc; "{rank}.{group}.{bank}")
}

#[tactic(auto, unfolding(crate::specs::Places::bank_head))]
fn bank_head(alloc: Global, channel: u32, title: &str) -> Result<String, AllocError>
    ensures { IfOk result (λ text. string_bytes text ≡ bank_head channel title.now) }
{
    format!(in alloc; "\n[channel.{channel}.bank.{title}]\n")
}

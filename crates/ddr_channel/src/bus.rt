//! The command of a cycle: room for it, and what issuing it makes of the command bus and the rows.
ghost use Rattle.std.specs.Prelude.{◌≡◌, ℕ, ◌+◌, ◌≤◌, ◌<◌, ◌&&◌, false, if◌then◌else◌, nat_le, nat_lt, length, None, IfSome, IsOk, IsTrue, OnErr, OnOk};
ghost use Rattle.std.specs.Option.{option_map_or};
ghost use Rattle.ddr_timing.specs.Banks.{bank_number, rank_bank_count};
ghost use Rattle.ddr_timing.specs.Banks as geometry;
ghost use Rattle.ddr_legality.specs.Bus.{broken_now, recorded};
ghost use Rattle.ddr_row_array.specs.Changes.{SameBytes, SameShape};
ghost use Rattle.ddr_row_array.specs.Rows.{bank_count, open_row, is_stored, cells};
ghost use Rattle.ddr_channel.specs.Issue.{IsBank, IsReadyFor, MayFollow, bus_with, row_after};
ghost use Rattle.ddr_channel.specs.Kept.{AgreesWith};
ghost use Rattle.ddr_channel.specs.Room.{needs_memory};

use ddr_legality::legality::Legality;
use ddr_row_array::row_array::RowArray;
use ddr_timing::bank::BankId;
use ddr_timing::config::Config;
use ddr_timing::geometry::Geometry;
use ddr_trace::command::Command;
use std::alloc::AllocError;

/// Makes room for the entry of a command that is legal now, and for the bytes of the row that it opens. No byte and
/// no open row changes. What is there already is not asked for.
fn reserve_for(
    config: &Config,
    legality: &mut Legality,
    rows: &mut RowArray,
    command: Command,
) -> Result<(), AllocError>
    requires of_config { legality.old.bus.config ≡ config.now }
    requires legal { broken_now legality.old.bus command ≡ None }
    requires agrees { AgreesWith config.now legality.old.bus.trace rows.old }
    ensures ready { OnOk result (IsReadyFor config.now.geometry legality.new.spare rows.new command) }
    ensures memory { OnErr result (IsTrue (needs_memory config.now.geometry legality.old.spare rows.old command)) }
    ensures spare { legality.old.spare ≤ legality.new.spare }
    ensures keeps { legality.new.keeps ≡ legality.old.keeps }
    ensures stored { (b r : ℕ) → IsTrue (is_stored rows.old b r) → IsTrue (is_stored rows.new b r) }
    ensures bus { legality.new.bus ≡ legality.old.bus }
    ensures opened { (b : ℕ) → open_row rows.new b ≡ open_row rows.old b }
    ensures bytes { (b r l : ℕ) → cells rows.new b r l ≡ cells rows.old b r l }
    ensures shape { SameShape rows.old rows.new }
{
    if let Command::Act {
        rank,
        group,
        bank,
        row,
    } = command
    {
        let id = BankId { rank, group, bank };
        rows.ensure(id.number(&config.geometry), row)?;
    }
    legality.reserve_entry()
}

/// Makes room for the command of a cycle, if it has one, as `reserve_for` does.
pub(crate) fn reserve(
    config: &Config,
    legality: &mut Legality,
    rows: &mut RowArray,
    command: Option<Command>,
) -> Result<(), AllocError>
    requires of_config { legality.old.bus.config ≡ config.now }
    requires legal { IfSome command (λ c. broken_now legality.old.bus c ≡ None) }
    requires agrees { AgreesWith config.now legality.old.bus.trace rows.old }
    ensures ready { OnOk result (IfSome command (IsReadyFor config.now.geometry legality.new.spare rows.new)) }
    ensures idle { command ≡ None → IsOk result }
    ensures memory { OnErr result (IsTrue (option_map_or (needs_memory config.now.geometry legality.old.spare rows.old) command false)) }
    ensures spare { legality.old.spare ≤ legality.new.spare }
    ensures keeps { legality.new.keeps ≡ legality.old.keeps }
    ensures stored { (b r : ℕ) → IsTrue (is_stored rows.old b r) → IsTrue (is_stored rows.new b r) }
    ensures bus { legality.new.bus ≡ legality.old.bus }
    ensures opened { (b : ℕ) → open_row rows.new b ≡ open_row rows.old b }
    ensures bytes { (b r l : ℕ) → cells rows.new b r l ≡ cells rows.old b r l }
    ensures shape { SameShape rows.old rows.new }
{
    match command {
        Some(command) => reserve_for(config, legality, rows, command),
        None => Ok(()),
    }
}

/// Closes the rows of the banks from the number `first` up to `end`.
fn close_banks(rows: &mut RowArray, first: u32, end: u32)
    requires order { first ≤ end }
    requires inside { end ≤ bank_count rows.old }
    ensures opened { (b : ℕ) → open_row rows.new b ≡ (if nat_le first b && nat_lt b end then None else open_row rows.old b) }
    ensures bytes { SameBytes rows.old rows.new }
{
    for bank in first..end {
        rows.precharge(bank);
    }
}

/// Opens and closes rows as the command says. An RDA or WRA closes its row at once, since its data have moved.
fn follow(rows: &mut RowArray, shape: &Geometry, command: Command)
    requires all { bank_count rows.old ≡ geometry.bank_count shape.now }
    requires may { MayFollow shape.now rows.old command }
    ensures opened { (rank group bank : ℕ) → IsBank shape.now rank group bank
        → open_row rows.new (bank_number shape.now rank group bank) ≡ row_after rank group bank command (open_row rows.old (bank_number shape.now rank group bank)) }
    ensures bytes { SameBytes rows.old rows.new }
{
    match command {
        Command::Act {
            rank,
            group,
            bank,
            row,
        } => rows.activate(BankId { rank, group, bank }.number(shape), row),
        Command::Pre { rank, group, bank }
        | Command::RdAuto {
            rank,
            group,
            bank,
            ..
        }
        | Command::WrAuto {
            rank,
            group,
            bank,
            ..
        } => rows.precharge(BankId { rank, group, bank }.number(shape)),
        Command::PreAll { rank } => {
            let banks = shape.rank_banks();
            let first = rank * banks;
            close_banks(rows, first, first + banks);
        }
        Command::Rd { .. } | Command::Wr { .. } | Command::Refresh { .. } => {}
    }
}

/// Issues a command that is legal now: on the command bus, and in the rows.
fn issue_command(config: &Config, legality: &mut Legality, rows: &mut RowArray, command: Command)
    requires of_config { legality.old.bus.config ≡ config.now }
    requires legal { broken_now legality.old.bus command ≡ None }
    requires agrees { AgreesWith config.now legality.old.bus.trace rows.old }
    requires ready { IsReadyFor config.now.geometry legality.old.spare rows.old command }
    ensures bus { legality.new.bus ≡ recorded command legality.old.bus }
    ensures spare { legality.new.spare + length legality.new.bus.trace ≡ legality.old.spare + length legality.old.bus.trace }
    ensures keeps { legality.new.keeps ≡ legality.old.keeps }
    ensures agrees { AgreesWith config.now legality.new.bus.trace rows.new }
    ensures bytes { SameBytes rows.old rows.new }
{
    legality.record(command);
    follow(rows, &config.geometry, command);
}

/// Issues the command of a cycle, if it has one, as `issue_command` does.
pub(crate) fn issue(
    config: &Config,
    legality: &mut Legality,
    rows: &mut RowArray,
    command: Option<Command>,
)
    requires of_config { legality.old.bus.config ≡ config.now }
    requires legal { IfSome command (λ c. broken_now legality.old.bus c ≡ None) }
    requires agrees { AgreesWith config.now legality.old.bus.trace rows.old }
    requires ready { IfSome command (IsReadyFor config.now.geometry legality.old.spare rows.old) }
    ensures bus { legality.new.bus ≡ bus_with command legality.old.bus }
    ensures spare { legality.new.spare + length legality.new.bus.trace ≡ legality.old.spare + length legality.old.bus.trace }
    ensures keeps { legality.new.keeps ≡ legality.old.keeps }
    ensures agrees { AgreesWith config.now legality.new.bus.trace rows.new }
    ensures bytes { SameBytes rows.old rows.new }
{
    if let Some(command) = command {
        issue_command(config, legality, rows, command);
    }
}

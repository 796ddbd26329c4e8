//! How a picture names banks, and how far it counts cycles.
//!
//! `ddr_trace` stands below, and `period`, `changes` and `waves` above.
ghost use Rattle.std.specs.Prelude.{◌≡◌, IfOk, string_bytes};
ghost use Rattle.ddr_draw.specs.Names.{after, bank_name, bank_numbered, name_of_bank};

use ddr_timing::geometry::Geometry;
use ddr_timing::units::GROUP_BANKS;
use ddr_trace::command::Command;
use std::alloc::{AllocError, Global};

/// A bank, as `r0g1b2`.
#[tactic(auto, unfolding(crate::specs::Names::bank_name))]
pub(crate) fn bank_name(
    alloc: Global,
    rank: u32,
    group: u32,
    bank: u32,
) -> Result<String, AllocError>
    ensures { IfOk result (λ text. string_bytes text ≡ bank_name rank group bank) }
{
    format!(in alloc; "r{rank}g{group}b{bank}")
}

/// The name of the bank with that number.
pub(crate) fn bank_numbered(
    alloc: Global,
    geometry: &Geometry,
    number: u32,
) -> Result<String, AllocError>
    ensures { IfOk result (λ text. string_bytes text ≡ bank_numbered geometry.now number) }
{
    let group = number / GROUP_BANKS;
    bank_name(
        alloc,
        group / geometry.groups,
        group % geometry.groups,
        number % GROUP_BANKS,
    )
}

/// The bank of a command of one bank.
pub(crate) fn name_of_bank(alloc: Global, command: &Command) -> Result<String, AllocError>
    ensures { IfOk result (λ text. string_bytes text ≡ name_of_bank command.now) }
{
    bank_name(alloc, command.rank(), command.group(), command.bank())
}

/// The cycle so many clocks after that one, at most the last that 64 bits hold.
pub(crate) fn after(cycle: u64, clocks: u32) -> u64
    ensures { result ≡ after cycle clocks }
{
    cycle.saturating_add(u64::from(clocks))
}

//! The values of a table that nothing speaks against, as the parts of a configuration.
//!
//! Below stand `check`, which says what speaks against a table, and `table`, which reads a value; above
//! stands `config`.
ghost use Rattle.std.specs.Prelude.{◌≡◌, ◌≤◌, ◌==◌, ◌&&◌};
ghost use Rattle.toml.specs.View.{table_view};
ghost use Rattle.ddr_timing.specs.declared.key.Key.TheVariants.{Closed, Ranks, Rtrs};
ghost use Rattle.ddr_timing.specs.Refusals.{IsSound};
ghost use Rattle.ddr_timing.specs.Tables.{flag_at, version_of};
ghost use Rattle.ddr_timing.specs.Values.{HoldsGeometry, HoldsLimits, HoldsTiming, number_or_one};

use crate::geometry::Geometry;
use crate::key::Key;
use crate::limits::Limits;
use crate::table::{flag_at, number, order_at, version};
use crate::timing::Timing;
use toml::Table;

/// The clock counts.
pub(crate) fn timing(table: &Table) -> Timing
    requires { IsSound (table_view table.now) }
    ensures { HoldsTiming (table_view table.now) result }
{
    Timing {
        cl: number(table, Key::Cl),
        cwl: number(table, Key::Cwl),
        rcd: number(table, Key::Rcd),
        rp: number(table, Key::Rp),
        ras: number(table, Key::Ras),
        rc: number(table, Key::Rc),
        rrd_s: number(table, Key::RrdS),
        rrd_l: number(table, Key::RrdL),
        faw: number(table, Key::Faw),
        ccd_s: number(table, Key::CcdS),
        ccd_l: number(table, Key::CcdL),
        wtr_s: number(table, Key::WtrS),
        wtr_l: number(table, Key::WtrL),
        wr: number(table, Key::Wr),
        rtp: number(table, Key::Rtp),
        rtw: number(table, Key::Rtw),
        rfc: number(table, Key::Rfc),
        refi: number(table, Key::Refi),
        postpone: number(table, Key::Postpone),
        rtrs: rtrs(table),
    }
}

/// The shape of the memory.
pub(crate) fn geometry(table: &Table) -> Geometry
    requires { IsSound (table_view table.now) }
    ensures { HoldsGeometry (table_view table.now) result }
{
    Geometry {
        version: number(table, Key::Version),
        channels: number(table, Key::Channels),
        ranks: ranks(table),
        groups: number(table, Key::Groups),
        rows: number(table, Key::Rows),
        columns: number(table, Key::Columns),
        map: order_at(table, Key::Map).unwrap(),
        bank_xor: flag_at(table, Key::BankXor),
    }
}

/// The sizes of queues and windows, and the marks of the scheduler.
pub(crate) fn limits(table: &Table) -> Limits
    requires { IsSound (table_view table.now) }
    ensures { HoldsLimits (table_view table.now) result }
{
    Limits {
        ports: number(table, Key::Ports),
        window: number(table, Key::Window),
        intake: number(table, Key::Intake),
        reads: number(table, Key::Reads),
        writes: number(table, Key::Writes),
        done: number(table, Key::Done),
        low: number(table, Key::Low),
        high: number(table, Key::High),
        cap: number(table, Key::Cap),
        closed: closed(table),
    }
}

/// The clocks between the bursts of two ranks; in version 1 there are no two.
fn rtrs(table: &Table) -> u32
    requires { IsSound (table_view table.now) }
    ensures value { result ≡ number_or_one (table_view table.now) Rtrs }
    ensures range { (1 ≤ result) × (result ≤ 65535) }
{
    if version(table) == 2 {
        number(table, Key::Rtrs)
    } else {
        1
    }
}

/// The ranks of a channel: one in version 1.
fn ranks(table: &Table) -> u32
    requires { IsSound (table_view table.now) }
    ensures value { result ≡ number_or_one (table_view table.now) Ranks }
    ensures range { (1 ≤ result) × (result ≤ 2) }
{
    if version(table) == 2 {
        number(table, Key::Ranks)
    } else {
        1
    }
}

/// Whether rows are closed; in version 1 they are not.
fn closed(table: &Table) -> bool
    ensures { result ≡ (version_of (table_view table.now) == 2 && flag_at (table_view table.now) Closed) }
{
    version(table) == 2 && flag_at(table, Key::Closed)
}

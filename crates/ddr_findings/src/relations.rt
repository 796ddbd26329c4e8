//! Which relations among the values of a table are broken.
//!
//! `table` and `relation` stand below. A relation is looked at where all keys that it speaks of are there and in range,
//! whatever else of the table is at fault.
ghost use Rattle.std.specs.Prelude.{◌≡◌};
ghost use Rattle.toml.specs.View.{table_view};
ghost use Rattle.ddr_findings.specs.Relations.{activates_of_a_group, bursts_pass, bus_turns, columns_of_a_group, mark_reached, marks_apart, refresh_fits, told_relations};

use crate::relation::{RefreshClocks, Relation};
use crate::table::number;
use ddr_timing::key::Key;
use ddr_timing::units::BURST_CLOCKS;
use toml::Table;

/// Each relation, where it is told, in their order.
pub(crate) fn relations(table: &Table) -> [Option<Relation>; 7]
    ensures { result ≡ told_relations (table_view table.now) }
{
    [
        bursts_pass(table),
        columns_of_a_group(table),
        activates_of_a_group(table),
        bus_turns(table),
        refresh_fits(table),
        marks_apart(table),
        mark_reached(table),
    ]
}

fn bursts_pass(table: &Table) -> Option<Relation>
    ensures { result ≡ bursts_pass (table_view table.now) }
{
    let ccd_s = number(table, Key::CcdS)?;
    if ccd_s < BURST_CLOCKS {
        return Some(Relation::BurstsPass { ccd_s });
    }
    None
}

fn columns_of_a_group(table: &Table) -> Option<Relation>
    ensures { result ≡ columns_of_a_group (table_view table.now) }
{
    let ccd_l = number(table, Key::CcdL)?;
    let ccd_s = number(table, Key::CcdS)?;
    if ccd_l < ccd_s {
        return Some(Relation::ColumnsOfAGroup { ccd_l, ccd_s });
    }
    None
}

fn activates_of_a_group(table: &Table) -> Option<Relation>
    ensures { result ≡ activates_of_a_group (table_view table.now) }
{
    let rrd_l = number(table, Key::RrdL)?;
    let rrd_s = number(table, Key::RrdS)?;
    if rrd_l < rrd_s {
        return Some(Relation::ActivatesOfAGroup { rrd_l, rrd_s });
    }
    None
}

fn bus_turns(table: &Table) -> Option<Relation>
    ensures { result ≡ bus_turns (table_view table.now) }
{
    let cl = number(table, Key::Cl)?;
    let cwl = number(table, Key::Cwl)?;
    let rtw = number(table, Key::Rtw)?;
    if rtw < BURST_CLOCKS || rtw + cwl < cl + BURST_CLOCKS {
        return Some(Relation::BusTurns { cl, cwl, rtw });
    }
    None
}

fn refresh_fits(table: &Table) -> Option<Relation>
    ensures { result ≡ refresh_fits (table_view table.now) }
{
    let ras = number(table, Key::Ras)?;
    let cwl = number(table, Key::Cwl)?;
    let wr = number(table, Key::Wr)?;
    let rtp = number(table, Key::Rtp)?;
    let rp = number(table, Key::Rp)?;
    let rfc = number(table, Key::Rfc)?;
    let refi = number(table, Key::Refi)?;
    let clocks = RefreshClocks {
        ras,
        cwl,
        wr,
        rtp,
        rp,
        rfc,
        refi,
    };
    if u64::from(refi) < clocks.least_interval() {
        return Some(Relation::RefreshFits { clocks });
    }
    None
}

fn marks_apart(table: &Table) -> Option<Relation>
    ensures { result ≡ marks_apart (table_view table.now) }
{
    let low = number(table, Key::Low)?;
    let high = number(table, Key::High)?;
    if high <= low {
        return Some(Relation::MarksApart { low, high });
    }
    None
}

fn mark_reached(table: &Table) -> Option<Relation>
    ensures { result ≡ mark_reached (table_view table.now) }
{
    let high = number(table, Key::High)?;
    let writes = number(table, Key::Writes)?;
    if writes < high {
        return Some(Relation::MarkReached { high, writes });
    }
    None
}

//! The numbers of a place as text: lines of a TOML table.
//!
//! `counts` stands below; nothing of the crate stands above. `specs/Text.antt` has the text, byte for byte.
ghost use Rattle.std.specs.Prelude.{◌≡◌, IfOk, string_bytes};
ghost use Rattle.ddr_statistics.specs.Text.{banks_lines, columns_lines, counts_text, findings_lines, is_unused};

use crate::counts::Counts;
use std::alloc::{AllocError, Global};

/// Whether a bank of these numbers had no command of its own.
pub fn is_unused(counts: &Counts) -> bool
    ensures { result ≡ is_unused counts.now }
{
    counts.activates == 0
        && counts.precharges == 0
        && counts.reads == 0
        && counts.writes == 0
        && counts.reads_auto == 0
        && counts.writes_auto == 0
}

/// The lines of a place, with the keys `activates`, `precharges`, `precharges_all`, `refreshes`, `reads`, `writes`, `reads_auto`,
/// `writes_auto`, `row_hits`, `row_misses`, `row_conflicts` and `busy_clocks`: the last in clock cycles, the others counts.
pub fn counts_text(alloc: Global, counts: &Counts) -> Result<String, AllocError>
    ensures { IfOk result (λ text. string_bytes text ≡ counts_text counts.now) }
{
    let mut text = banks_lines(alloc, counts)?;
    let columns = columns_lines(alloc, counts)?;
    text.push_str(columns.as_str())?;
    let findings = findings_lines(alloc, counts)?;
    text.push_str(findings.as_str())?;
    Ok(text)
}

/// The commands that open, close and refresh banks.
#[tactic(auto, unfolding(crate::specs::Text::banks_lines))]
fn banks_lines(alloc: Global, counts: &Counts) -> Result<String, AllocError>
    ensures { IfOk result (λ text. string_bytes text ≡ banks_lines counts.now) }
{
    let activates = counts.activates;
    let precharges = counts.precharges;
    let precharges_all = counts.precharges_all;
    let refreshes = counts.refreshes;
    format!(in alloc;
        "activates = {activates}\nprecharges = {precharges}\nprecharges_all = {precharges_all}\nrefreshes = {refreshes}\n"
    )
}

/// Reads and writes.
#[tactic(auto, unfolding(crate::specs::Text::columns_lines))]
fn columns_lines(alloc: Global, counts: &Counts) -> Result<String, AllocError>
    ensures { IfOk result (λ text. string_bytes text ≡ columns_lines counts.now) }
{
    let reads = counts.reads;
    let writes = counts.writes;
    let reads_auto = counts.reads_auto;
    let writes_auto = counts.writes_auto;
    format!(in alloc;
        "reads = {reads}\nwrites = {writes}\nreads_auto = {reads_auto}\nwrites_auto = {writes_auto}\n"
    )
}

/// How reads and writes found their banks, and for how long their data were on the bus.
#[tactic(auto, unfolding(crate::specs::Text::findings_lines))]
fn findings_lines(alloc: Global, counts: &Counts) -> Result<String, AllocError>
    ensures { IfOk result (λ text. string_bytes text ≡ findings_lines counts.now) }
{
    let row_hits = counts.row_hits;
    let row_misses = counts.row_misses;
    let row_conflicts = counts.row_conflicts;
    let busy_clocks = counts.busy_clocks;
    format!(in alloc;
        "row_hits = {row_hits}\nrow_misses = {row_misses}\nrow_conflicts = {row_conflicts}\nbusy_clocks = {busy_clocks}\n"
    )
}

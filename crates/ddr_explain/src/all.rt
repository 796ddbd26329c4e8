//! The command `check --all`: a configuration and a trace's text in, a table of all its faults out.
//!
//! `faults`, `table` and `check` of `ddr_text` stand below, and the program above.
ghost use Rattle.std.specs.Prelude.{◌≡◌, ◌↔◌, IfErr, IfOk, IfSome, IsErrOf, IsTrue, None, string_bytes};
ghost use Rattle.ddr_text.specs.Check.{HasCheckFault, IsVerdict};
ghost use Rattle.ddr_text.specs.Fault.{is_before_output};
ghost use Rattle.ddr_explain.specs.AllChecked.{IsAllChecked};
ghost use Rattle.ddr_explain.specs.Table.{TellsAll};

use crate::faults::{all_faults, told_of};
use crate::table::{HEAD, counts_text, lines_text};
use ddr_text::check::read_checked;
use ddr_text::fault::Fault;
use ddr_text::sink::Sink;
use ddr_text::source::Source;
use ddr_text::writing::write_whole;
use ddr_timing::config::Config;
use ddr_timing::profile::PROFILE_S;
use ddr_trace::trace::Trace;
use std::alloc::{AllocError, Global};

/// Reads a trace, and writes a line for each rule that is broken at each place, and behind them how many faults are of each
/// rule. Answers whether there is none, which is what `check` answers.
///
/// Each command is judged behind all those before it, those at fault among them. Of the lines only the first `most` are
/// written, if so many are asked for; the counts are of all.
///
/// The input is that of `check`, and it fails as `check` does. Nothing is written before the whole text is there, so only
/// `Write` may leave a part of it.
pub fn check_all<R: Source, W: Sink>(
    alloc: Global,
    sample: bool,
    most: Option<u32>,
    reader: &mut R,
    writer: &mut W,
) -> Result<bool, Fault>
    ensures untouched { IfErr result (λ fault. IsTrue (is_before_output fault) → writer.new ≡ writer.old) }
    ensures sure { IsErrOf result Fault.Read → IsTrue R.may_fail }
    ensures taken { IsErrOf result Fault.Write → IsTrue W.may_fail }
    ensures spared { IsErrOf result Fault.OutOfMemory → W.contents writer.new ≡ W.contents writer.old }
    ensures unmoved { IsErrOf result Fault.OutOfMemory → IsTrue W.may_fail → writer.new ≡ writer.old }
    ensures fault { IfErr result (λ fault. IfSome (R.remaining reader.old) (λ input.
        HasCheckFault sample PROFILE_S.now input fault)) }
    ensures written { IfOk result (λ legal. IfSome (R.remaining reader.old) (λ input.
        IsAllChecked sample PROFILE_S.now input most legal (W.contents writer.old) (W.contents writer.new))) }
{
    let (config, trace) = read_checked(alloc, sample, reader)?;
    let table = table_of(alloc, &config, &trace, most)?;
    write_whole(writer, table.text.as_str())?;
    Ok(table.is_empty)
}

/// The table of a trace's faults.
#[derive(Drop)]
struct Table {
    text: String,
    /// Whether there is no fault.
    is_empty: bool,
}

/// The table of the trace's faults, with a line for the first `most` of them.
fn table_of(
    alloc: Global,
    config: &Config,
    trace: &Trace,
    most: Option<u32>,
) -> Result<Table, AllocError>
    ensures told { IfOk result (λ table. let t = trace.entry.now in
        TellsAll config.now t.start t.end t.entries most (string_bytes table.text)) }
    ensures legal { IfOk result (λ table. IsTrue table.is_empty ↔ IsVerdict config.now trace.entry.now None) }
{
    let entries = trace.entries.as_slice();
    let start = trace.start;
    let end = trace.end;
    let faults = all_faults(alloc, entries, config, start, end)?;
    let told = told_of(faults.as_slice(), most);
    let lines = lines_text(alloc, entries, config, start, end, told)?;
    let counts = counts_text(alloc, faults.as_slice())?;
    let text = format!(in alloc; "{HEAD}{lines}{counts}")?;
    Ok(Table {
        text,
        is_empty: faults.is_empty(),
    })
}

//! What a replay tells as it goes on, and what it keeps to tell at its end.
//!
//! `wanted`, `served`, `measured`, `drampower`, `ddr_trace` and `ddr_measure` stand below, and `replaying` and `telling` above.
ghost use Rattle.std.specs.Prelude.{◌≡◌, List, [], ◌∷◌, ◌++◌, IfErr, IfOk, IsErrOf, IsOk, OnOk};
ghost use Rattle.std.specs.Io.KnownBytes.{Appends};
ghost use Rattle.ddr_text.specs.Sink.{write_fault};
ghost use Rattle.ddr_trace_text.specs.Text.{command_fields, header, record_text};
ghost use Rattle.ddr_trace.specs.declared.command.Entry.{Entry};
ghost use Rattle.ddr_ledger.specs.Ledgers.{noted};
ghost use Rattle.ddr_replay.specs.Told.{IsKept, IsNoted, LeavesOut, command_text, head_of, row_text, wanted_of};
ghost use Rattle.ddr_ledger.specs.declared.released.ReleasedRequest.{ReleasedRequest};

use crate::wanted::Wanted;
use ddr_ledger::drampower::drampower_line;
use ddr_ledger::ledger::Ledger;
use ddr_ledger::measured::timed_of;
use ddr_ledger::released::{HEAD, ReleasedRequest, served_line};
use ddr_measure::measured::Measured;
use ddr_measure::timed::Timed;
use ddr_reorder::reply::Service;
use ddr_text::fault::Fault;
use ddr_text::sink::Sink;
use ddr_trace::command::Entry;
use ddr_trace_text::text::{entry_text, head_text};
use std::alloc::{AllocError, Global};

/// What is wanted of a replay, and what is kept of it until its end.
#[derive(Drop)]
pub(crate) enum Tale {
    Statistics,
    Requests,
    Trace {
        channel: u32,
    },
    Drampower {
        channel: u32,
    },
    Numbers {
        skip: u32,
        clock: Option<u32>,
        /// How many of the next requests are left out.
        left: u32,
        requests: Measured,
    },
    Intervals {
        skip: u32,
        every: u32,
        /// How many of the next requests are left out.
        left: u32,
        requests: Vec<Timed>,
    },
}

/// Tells of a replay.
#[derive(Drop)]
pub(crate) struct Teller {
    pub tale: Tale,
    /// What is to be written next.
    pub text: Vec<u8>,
}

impl Tale {
    /// Before the first request.
    fn open(alloc: Global, wanted: Wanted) -> Result<Tale, AllocError>
        ensures wanted { IfOk result (λ tale. wanted_of tale ≡ wanted) }
        ensures kept { IfOk result (λ tale. IsKept tale []) }
    {
        Ok(match wanted {
            Wanted::Statistics => Tale::Statistics,
            Wanted::Requests => Tale::Requests,
            Wanted::Trace { channel } => Tale::Trace { channel },
            Wanted::Drampower { channel } => Tale::Drampower { channel },
            Wanted::Numbers { skip, clock } => Tale::Numbers {
                skip,
                clock,
                left: skip,
                requests: Measured::new(alloc)?,
            },
            Wanted::Intervals { skip, every } => Tale::Intervals {
                skip,
                every,
                left: skip,
                requests: Vec::new(alloc),
            },
        })
    }

    /// Notes a request whose reply is released, as far as that is told at the end.
    fn note(&mut self, row: &ReleasedRequest) -> Result<(), AllocError>
        ensures wanted { wanted_of self.new ≡ wanted_of self.old }
        ensures kept { OnOk result ((rows : List ReleasedRequest) → IsKept self.old rows → IsKept self.new (rows ++ row.now ∷ [])) }
        ensures stays { IfErr result (λ e. (rows : List ReleasedRequest) → IsKept self.old rows → IsKept self.new rows) }
    {
        match self {
            Tale::Numbers { left, requests, .. } => {
                if !leaves_out(left) {
                    requests.note(&timed_of(row));
                }
            }
            Tale::Intervals { left, requests, .. } => {
                if !leaves_out(left) {
                    requests.push(timed_of(row))?;
                }
            }
            _ => {}
        }
        Ok(())
    }
}

impl Teller {
    /// Before the first request.
    pub fn open(alloc: Global, wanted: Wanted) -> Result<Teller, AllocError>
        ensures wanted { IfOk result (λ teller. wanted_of teller.tale ≡ wanted) }
        ensures kept { IfOk result (λ teller. IsKept teller.tale []) }
        ensures text { IfOk result (λ teller. teller.text.items ≡ head_of wanted) }
    {
        Ok(Teller {
            tale: Tale::open(alloc, wanted)?,
            text: head_of(alloc, wanted)?,
        })
    }

    /// Tells of a request whose reply is released.
    fn note(&mut self, alloc: Global, row: &ReleasedRequest) -> Result<(), AllocError>
        ensures wanted { wanted_of self.new.tale ≡ wanted_of self.old.tale }
        ensures text { OnOk result (self.new.text.items ≡ self.old.text.items ++ row_text (wanted_of self.old.tale) row.now) }
        ensures kept { OnOk result ((rows : List ReleasedRequest) → IsKept self.old.tale rows → IsKept self.new.tale (rows ++ row.now ∷ [])) }
        ensures stays { IfErr result (λ e. (rows : List ReleasedRequest) → IsKept self.old.tale rows → IsKept self.new.tale rows) }
    {
        if let Tale::Requests = self.tale {
            let line = served_line(alloc, row)?;
            self.text.extend_from_slice(line.as_bytes())?;
        }
        self.tale.note(row)
    }

    /// Tells of a command of the channel that is asked for.
    pub fn command(&mut self, alloc: Global, entry: &Entry) -> Result<(), AllocError>
        ensures tale { self.new.tale ≡ self.old.tale }
        ensures text { OnOk result (self.new.text.items ≡ self.old.text.items ++ command_text (wanted_of self.old.tale) entry.now) }
    {
        match self.tale {
            Tale::Trace { .. } => {
                let line = trace_line(alloc, entry)?;
                self.text.extend_from_slice(line.as_slice())
            }
            Tale::Drampower { .. } => {
                let line = drampower_line(alloc, entry)?;
                self.text.extend_from_slice(line.as_bytes())
            }
            _ => Ok(()),
        }
    }

    /// Writes what is to be written next, if there is anything.
    pub fn write<W: Sink>(&mut self, writer: &mut W) -> Result<(), Fault>
        ensures tale { self.new.tale ≡ self.old.tale }
        ensures text { OnOk result (self.new.text.items ≡ []) }
        ensures written { OnOk result (Appends (W.contents writer.old) (W.contents writer.new) self.old.text.items) }
        ensures idle { self.old.text.items ≡ [] → (writer.new ≡ writer.old) × IsOk result }
        ensures refused { IfErr result (λ fault. fault ≡ write_fault W.may_fail) }
        ensures spared { IsErrOf result Fault.OutOfMemory → W.contents writer.new ≡ W.contents writer.old }
    {
        if self.text.is_empty() {
            return Ok(());
        }
        writer.write_bytes(self.text.as_slice())?;
        self.text.clear();
        Ok(())
    }
}

/// Whether the next request is one of so many that are left out, of which one fewer are left then.
fn leaves_out(left: &mut u32) -> bool
    ensures { LeavesOut left.old left.new result }
{
    if *left == 0 {
        return false;
    }
    *left -= 1;
    true
}

/// The reply of a port's oldest request, which was served so, is released in that round: the ledger notes it, and the teller tells of it.
pub(crate) fn note_release(
    alloc: Global,
    ledger: &mut Ledger,
    teller: &mut Teller,
    port: u32,
    service: Service,
    round: u32,
) -> Result<(), AllocError>
    ensures ledger { OnOk result (ledger.new ≡ noted port service round ledger.old) }
    ensures wanted { wanted_of teller.new.tale ≡ wanted_of teller.old.tale }
    ensures told { OnOk result ((commands : List Entry) → IsNoted commands teller.old.text.items teller.new.text.items (wanted_of teller.old.tale) ledger.old.served ledger.new.served) }
    ensures kept { IsKept teller.old.tale ledger.old.served → IsKept teller.new.tale ledger.new.served }
{
    if let Some(row) = ledger.next_row(port, service, round) {
        teller.note(alloc, &row)?;
    }
    ledger.release(port, service, round);
    Ok(())
}

/// What stands before all that is told as it comes.
fn head_of(alloc: Global, wanted: Wanted) -> Result<Vec<u8>, AllocError>
    ensures { IfOk result (λ v. v.items ≡ head_of wanted) }
{
    match wanted {
        Wanted::Requests => Ok(String::from_str(alloc, HEAD)?.into_bytes()),
        Wanted::Trace { .. } => trace_head(alloc),
        _ => Ok(Vec::new(alloc)),
    }
}

/// What stands before the first command of a trace.
fn trace_head(alloc: Global) -> Result<Vec<u8>, AllocError>
    ensures { IfOk result (λ v. v.items ≡ record_text header) }
{
    match head_text(alloc) {
        Ok(text) => Ok(text),
        Err(_) => Err(AllocError),
    }
}

/// The line of a command in a trace.
fn trace_line(alloc: Global, entry: &Entry) -> Result<Vec<u8>, AllocError>
    ensures { IfOk result (λ v. v.items ≡ record_text (command_fields entry.now.cycle entry.now.command)) }
{
    match entry_text(alloc, entry) {
        Ok(text) => Ok(text),
        Err(_) => Err(AllocError),
    }
}

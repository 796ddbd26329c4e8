//! A request whose reply was released, and its line of text.
//!
//! `ddr_stream` stands below, and `ledger` and `ddr_replay` above. `specs/ServedText.antt` has the text, byte for byte.
ghost use Rattle.std.specs.Prelude.{◌≡◌, IfOk, string_bytes};
ghost use Rattle.ddr_ledger.specs.ServedText.{asked_fields, found_word, kind_word, served_line, times_fields};

use ddr_address_map::request::Kind;
use ddr_statistics::counts::Finding;
use ddr_stream::ask::Ask;
use std::alloc::{AllocError, Global};

/// A request whose reply was released.
#[derive(Clone, Copy, Debug, PartialEq, Eq)]
pub struct ReleasedRequest {
    pub ask: Ask,
    pub port: u32,
    /// How many replies the port released before it.
    pub number: u64,
    /// How many rounds were made before the request was accepted.
    pub accepted: u32,
    /// The cycle of its column command, in clocks of its channel.
    pub issued: u64,
    /// The cycle of its completion, in clocks of its channel.
    pub due: u64,
    /// The round in which its reply was released, counted from 0.
    pub released: u32,
    /// How that column command found its bank.
    pub found: Option<Finding>,
}

/// The line that names the columns.
pub const HEAD: &str = "line,port,number,op,addr,at,accepted,issued,done,released,found\n";

/// The line of a request, in comma-separated values.
#[tactic(auto, unfolding(crate::specs::ServedText::served_line))]
pub fn served_line(alloc: Global, served: &ReleasedRequest) -> Result<String, AllocError>
    ensures { IfOk result (λ text. string_bytes text ≡ served_line served.now) }
{
    let asked = asked_fields(alloc, served)?;
    let times = times_fields(alloc, served)?;
    let word = found_word(served.found);
    format!(in alloc; "{asked},{times},{word}\n")
}

fn found_word(found: Option<Finding>) -> &'static str
    ensures { result.now ≡ found_word found }
{
    match found {
        Some(Finding::Hit) => "hit",
        Some(Finding::Miss) => "miss",
        Some(Finding::Conflict) => "conflict",
        None => "",
    }
}

/// What was asked for.
#[tactic(auto, unfolding(crate::specs::ServedText::asked_fields))]
fn asked_fields(alloc: Global, served: &ReleasedRequest) -> Result<String, AllocError>
    ensures { IfOk result (λ text. string_bytes text ≡ asked_fields served.now) }
{
    let line = served.ask.line;
    let port = served.port;
    let number = served.number;
    let op = kind_word(served.ask.kind);
    let addr = served.ask.addr;
    let at = served.ask.at;
    format!(in alloc; "{line},{port},{number},{op},{addr},{at}")
}

/// When it was served.
#[tactic(auto, unfolding(crate::specs::ServedText::times_fields))]
fn times_fields(alloc: Global, served: &ReleasedRequest) -> Result<String, AllocError>
    ensures { IfOk result (λ text. string_bytes text ≡ times_fields served.now) }
{
    let accepted = served.accepted;
    let issued = served.issued;
    let due = served.due;
    let released = served.released;
    format!(in alloc; "{accepted},{issued},{due},{released}")
}

fn kind_word(kind: Kind) -> &'static str
    ensures { result.now ≡ kind_word kind }
{
    match kind {
        Kind::Read => "read",
        Kind::Write => "write",
    }
}

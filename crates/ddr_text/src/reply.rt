//! The line of a reply.
//!
//! `ddr_reorder` stands below. The ports of `ddr_run` print by this, and `ddr_sim` those replies that are too long for the line that
//! it puts together itself.
ghost use Rattle.std.specs.Prelude.{◌≡◌, IfOk, string_bytes};
ghost use Rattle.ddr_reorder.specs.Replies.{said};
ghost use Rattle.ddr_text.specs.Replies.{reply_text};

use ddr_address_map::request::Kind;
use ddr_reorder::reply::Reply;
use std::alloc::{AllocError, Global};

/// A reply as a line: the port, the number, what was done, its address, and for a read the bytes that it asked
/// for, in hexadecimal.
#[tactic(auto, unfolding(crate::specs::Replies::reply_text))]
pub fn reply_text(alloc: Global, port: u32, reply: &Reply<'_>) -> Result<String, AllocError>
    ensures { IfOk result (λ text. string_bytes text ≡ reply_text port (said reply.now)) }
{
    let number = reply.number;
    let addr = reply.echo.addr;
    match reply.echo.kind {
        Kind::Read => {
            let bytes = hex::encode(alloc, reply.bytes)?;
            format!(in alloc; "{port} {number} read {addr} {bytes}\n")
        }
        Kind::Write => format!(in alloc; "{port} {number} write {addr}\n"),
    }
}

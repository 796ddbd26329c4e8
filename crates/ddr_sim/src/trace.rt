//! The trace of a channel as a text.
//!
//! `ddr_channel` and `ddr_trace` stand below, and `simulation` above.
ghost use Rattle.std.specs.Prelude.{◌≡◌, true, IfErr, IfOk};
ghost use Rattle.ddr_trace_text.specs.Text.{trace_text};

use ddr_channel::channel::Channel;
use ddr_text::fault::Fault;
use ddr_trace_text::text::write_trace;
use std::alloc::Global;

/// The text of the trace of a channel that keeps it.
pub fn text_of(alloc: Global, channel: &Channel) -> Result<Vec<u8>, Fault>
    requires { channel.now.keeps ≡ true }
    ensures text { IfOk result (λ v. v.items ≡ trace_text channel.now.trace channel.now.now) }
    ensures refused { IfErr result (λ fault. fault ≡ Fault.OutOfMemory) }
{
    let mut text = Vec::new(alloc);
    match write_trace(alloc, channel.trace(), channel.now(), &mut text) {
        Ok(()) => Ok(text),
        Err(_) => Err(Fault::OutOfMemory),
    }
}

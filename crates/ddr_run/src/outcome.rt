//! What a run in threads prints once all threads ended: the replies of each port, and the verdict on each channel's trace.
//!
//! `hosting` and `ddr_text` stand below, and `run` above.
ghost use Rattle.std.specs.Prelude.{◌≡◌, ◌&&◌, IfOk, map, string_bytes};
ghost use Rattle.ddr_run.specs.Outcome.{are_legal, channel_line, channel_lines, texts_of};

use crate::hosting::Hosted;
use ddr_text::check::verdict_text;
use ddr_trace::checker::Fault;
use ddr_workers::port::PortEnd;
use std::alloc::{AllocError, Global};

/// The ends of ports, and the texts of their replies, one behind the other.
#[derive(Drop)]
pub struct Replies {
    pub ends: Vec<PortEnd>,
    pub text: String,
}

/// The texts of ports and their ends, each in order.
pub fn replies_of(alloc: Global, hosted: Vec<Hosted>) -> Result<Replies, AllocError>
    ensures ends { IfOk result (λ replies. replies.ends.items ≡ map (λ h. h.end) hosted.items) }
    ensures text { IfOk result (λ replies. string_bytes replies.text ≡ texts_of hosted.items) }
{
    let mut ends = Vec::new(alloc);
    let mut text = String::new(alloc);
    for port in hosted {
        text.push_str(port.text.as_str())?;
        ends.push(port.end)?;
    }
    Ok(Replies { ends, text })
}

/// A line for each channel, whose trace has this first fault: that of channel C is `channel C legal`, or `channel C fault PLACE RULE`.
/// Tells too whether all are legal.
pub fn verdicts_of(alloc: Global, faults: &[Option<Fault>]) -> Result<(String, bool), AllocError>
    ensures text { IfOk result (λ said. string_bytes said.0 ≡ channel_lines 0 faults.now) }
    ensures legal { IfOk result (λ said. said.1 ≡ are_legal faults.now) }
{
    let mut text = String::new(alloc);
    let mut legal = true;
    for channel in 0..faults.len() {
        let fault = faults[channel];
        let line = channel_line(alloc, channel, fault)?;
        text.push_str(line.as_str())?;
        legal = both(legal, fault.is_none());
    }
    Ok((text, legal))
}

/// The line of a channel, with its line feed.
fn channel_line(alloc: Global, channel: usize, fault: Option<Fault>) -> Result<String, AllocError>
    ensures { IfOk result (λ line. string_bytes line ≡ channel_line channel fault) }
{
    let verdict = verdict_text(alloc, fault)?;
    format!(in alloc; "channel {channel} {verdict}")
}

fn both(first: bool, second: bool) -> bool
    ensures { result ≡ (first && second) }
{
    first && second
}

//! How sentences name an entry, a number of clocks, and a rule.
//!
//! `ddr_evidence` and `ddr_trace` stand below, and the other modules of the crate above.
ghost use Rattle.std.specs.Prelude.{◌≡◌, ◌<◌, ◌^◌, IfOk, string_bytes};
ghost use Rattle.ddr_explain.specs.Names.{at_text, clocks_text, label_of, line_of};

use ddr_evidence::evidence::Placed;
use ddr_trace::command::Command;
use ddr_trace::rule::Rule;
use std::alloc::{AllocError, Global};

/// The line of an entry in a trace's text. Lines count records from 1, the header being 1, so place 0 has line 2.
pub(crate) fn line_of(place: usize) -> u64
    requires { place < 2 ^ 63 }
    ensures { result ≡ line_of place }
{
    place as u64 + 2
}

/// An entry: its command, its cycle, and its line.
#[tactic(auto, unfolding(crate::specs::Names::at_text))]
pub(crate) fn at_text(alloc: Global, placed: &Placed) -> Result<String, AllocError>
    ensures { IfOk result (λ text. string_bytes text ≡ at_text placed.now.place placed.now.entry) }
{
    let name = placed.entry.command.name();
    let cycle = placed.entry.cycle;
    let line = line_of(placed.place);
    format!(in alloc; "{name} at cycle {cycle} (line {line})")
}

/// A number of clocks.
#[tactic(auto, unfolding(crate::specs::Names::clocks_text))]
pub(crate) fn clocks_text(alloc: Global, clocks: u64) -> Result<String, AllocError>
    ensures { IfOk result (λ text. string_bytes text ≡ clocks_text clocks) }
{
    if clocks == 1 {
        String::from_str(alloc, "1 clock")
    } else {
        format!(in alloc; "{clocks} clocks")
    }
}

/// The rule's name, with the parameter or the section of JESD79-4 behind it where it has one.
pub(crate) fn label_of(rule: Rule) -> &'static str
    ensures { result.now ≡ label_of rule }
{
    match rule {
        Rule::Order => "ORDER",
        Rule::Place => "PLACE (addressing)",
        Rule::State => "STATE (state diagram)",
        Rule::Row => "ROW",
        Rule::Rcd => "RCD (tRCD)",
        Rule::Ras => "RAS (tRAS)",
        Rule::Rc => "RC (tRC)",
        Rule::Rp => "RP (tRP)",
        Rule::RrdL => "RRD_L (tRRD_L)",
        Rule::RrdS => "RRD_S (tRRD_S)",
        Rule::Faw => "FAW (tFAW)",
        Rule::CcdL => "CCD_L (tCCD_L)",
        Rule::CcdS => "CCD_S (tCCD_S)",
        Rule::WtrL => "WTR_L (tWTR_L)",
        Rule::WtrS => "WTR_S (tWTR_S)",
        Rule::Rtp => "RTP (tRTP)",
        Rule::Wr => "WR (tWR)",
        Rule::Rtw => "RTW",
        Rule::RpRef => "RP_REF (tRP)",
        Rule::Rfc => "RFC (tRFC)",
        Rule::RefLate => "REF_LATE (tREFI)",
        Rule::RefGap => "REF_GAP (tREFI)",
        Rule::Rtrs => "RTRS",
    }
}

//! The line of a request that is refused.
//!
//! `ddr_world` stands below, and `simulation` above.
ghost use Rattle.std.specs.Prelude.{◌≡◌, IfOk, string_bytes};
ghost use Rattle.ddr_sim.specs.Refusals.{name_of, refused_text};

use ddr_world::event::Refusal;
use std::alloc::{AllocError, Global};

/// A refused request as a line: the port and the name of the cause.
#[tactic(auto, unfolding(crate::specs::Refusals::refused_text))]
pub fn refused_text(alloc: Global, port: u32, cause: Refusal) -> Result<String, AllocError>
    ensures { IfOk result (λ text. string_bytes text ≡ refused_text port cause) }
{
    let name = name_of(cause);
    format!(in alloc; "refused {port} {name}\n")
}

/// The name of a cause. That of a busy channel doesn't name the channel.
fn name_of(cause: Refusal) -> &'static str
    ensures { result.now ≡ name_of cause }
{
    match cause {
        Refusal::Finished => "Finished",
        Refusal::OutOfRange => "OutOfRange",
        Refusal::EmptyLength => "EmptyLength",
        Refusal::CrossesLine => "CrossesLine",
        Refusal::Spent => "Spent",
        Refusal::WindowFull => "WindowFull",
        Refusal::Busy { .. } => "Busy",
        Refusal::Nothing => "Nothing",
        Refusal::QueueFull => "QueueFull",
        Refusal::ClockSpent => "ClockSpent",
        Refusal::OutOfMemory => "OutOfMemory",
        Refusal::NotEmpty => "NotEmpty",
        Refusal::NoSuch => "NoSuch",
    }
}

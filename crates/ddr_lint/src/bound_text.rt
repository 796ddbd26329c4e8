//! The bound on a request's time as text: a table of a TOML document.
//!
//! `ddr_latency` stands below, and `bound` above. `specs/BoundText.antt` has the text, byte for byte.
ghost use Rattle.std.specs.Prelude.{◌≡◌, IfOk, string_bytes};
ghost use Rattle.ddr_lint.specs.BoundText.{bound_text, clocks_line, head_lines, pending_lines, refreshes_lines, word};

use ddr_latency::bound::{burst, latency, leaves_room, most_pending, most_refreshes, refreshed};
use ddr_latency::clocks::{Clocks, leaves_time};
use ddr_timing::config::Config;
use std::alloc::{AllocError, Global};

/// The table `bound`. The keys `proved` and `leaves_time` say whether there is a bound; `clocks`, which is there where it is proved, is it:
/// a request takes fewer clocks from its admission to its completion. Its parts are `cap`, `pending` requests of `service` clocks each,
/// `refreshes`, and one more, of `refreshed` clocks each, and `burst`. All but `pending` and `refreshes`, which are counts, are in clocks.
pub(crate) fn bound_text(alloc: Global, config: &Config) -> Result<String, AllocError>
    ensures { IfOk result (λ text. string_bytes text ≡ bound_text config.now) }
{
    let mut text = head_lines(alloc, config)?;
    let clocks = clocks_line(alloc, config)?;
    text.push_str(clocks.as_str())?;
    let pending = pending_lines(alloc, config)?;
    text.push_str(pending.as_str())?;
    let refreshes = refreshes_lines(alloc, config)?;
    text.push_str(refreshes.as_str())?;
    Ok(text)
}

/// Whether the bound is proved, and whether refreshes leave time to serve a request.
#[tactic(auto, unfolding(crate::specs::BoundText::head_lines))]
fn head_lines(alloc: Global, config: &Config) -> Result<String, AllocError>
    ensures { IfOk result (λ text. string_bytes text ≡ head_lines config.now) }
{
    let proved = word(leaves_room(config));
    let leaves_time = word(leaves_time(config));
    format!(in alloc; "[bound]\nproved = {proved}\nleaves_time = {leaves_time}\n")
}

/// A truth value, as TOML has it.
fn word(is: bool) -> &'static str
    ensures { result.now ≡ word is }
{
    if is { "true" } else { "false" }
}

/// The bound itself, where it is proved.
#[tactic(auto, unfolding(crate::specs::BoundText::clocks_line))]
fn clocks_line(alloc: Global, config: &Config) -> Result<String, AllocError>
    ensures { IfOk result (λ text. string_bytes text ≡ clocks_line config.now) }
{
    if !leaves_room(config) {
        return Ok(String::new(alloc));
    }
    let clocks = latency(config);
    format!(in alloc; "clocks = {clocks}\n")
}

/// What is made up of the requests that are pending.
#[tactic(auto, unfolding(crate::specs::BoundText::pending_lines))]
fn pending_lines(alloc: Global, config: &Config) -> Result<String, AllocError>
    ensures { IfOk result (λ text. string_bytes text ≡ pending_lines config.now) }
{
    let cap = config.limits.cap;
    let pending = most_pending(config);
    let service = Clocks::of(config).service();
    format!(in alloc; "cap = {cap}\npending = {pending}\nservice = {service}\n")
}

/// What is made up of refreshes, and of the request's own data.
#[tactic(auto, unfolding(crate::specs::BoundText::refreshes_lines))]
fn refreshes_lines(alloc: Global, config: &Config) -> Result<String, AllocError>
    ensures { IfOk result (λ text. string_bytes text ≡ refreshes_lines config.now) }
{
    let refreshes = most_refreshes(config);
    let refreshed = refreshed(config);
    let burst = burst(config);
    format!(in alloc; "refreshes = {refreshes}\nrefreshed = {refreshed}\nburst = {burst}\n")
}

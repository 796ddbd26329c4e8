//! What a broken rule rests on, by the newest commands.
//!
//! `recent` and `ddr_evidence` stand below, and `watch` above.
ghost use Rattle.std.specs.Prelude.{◌≡◌, ◌+◌, ◌<◌, ◌^◌, IfNone, IfSome, IsSome, List, false, true};
ghost use Rattle.std.specs.List.{list_any};
ghost use Rattle.ddr_trace.specs.declared.command.Entry.{Entry};
ghost use Rattle.ddr_trace.specs.Commands.{is_refresh};
ghost use Rattle.ddr_trace.specs.Rules.{breaks};
ghost use Rattle.ddr_evidence.specs.Recent.{opens};
ghost use Rattle.ddr_watch.specs.Finds.{IsFound};
ghost use Rattle.ddr_watch.specs.Kept.{AreLast, count_in};

use crate::recent::Recent;
use ddr_evidence::evidence::{Evidence, Placed};
use ddr_evidence::find::evidence_of;
use ddr_timing::config::Config;
use ddr_trace::command::{Command, Entry};
use ddr_trace::rule::Rule;

/// What it rests on that the entry breaks the rule behind the commands, of which the newest are at hand, in a trace that ends
/// behind it. `None` where an older one may be to blame.
pub(crate) fn find(
    recent: &Recent,
    rule: Rule,
    entry: &Entry,
    config: &Config,
    start: u64,
) -> Option<Evidence>
    requires early { entry.now.cycle + 1 < 2 ^ 64 }
    requires few { count_in recent.now < 2 ^ 63 }
    ensures { (history : List Entry) → AreLast recent.now history → breaks config.now start (entry.now.cycle + 1) rule history entry.now ≡ true
        → IsFound config.now start rule history entry.now result }
{
    let found = evidence_of(
        rule,
        recent.entries.as_slice(),
        entry,
        config,
        start,
        entry.cycle + 1,
    )?;
    if recent.first == 0 {
        return Some(found);
    }
    match found {
        Evidence::TooClose {
            earlier,
            distance,
            least,
        } => Some(Evidence::TooClose {
            earlier: behind(&earlier, recent),
            distance,
            least,
        }),
        Evidence::NotAbove { earlier } => Some(Evidence::NotAbove {
            earlier: behind(&earlier, recent),
        }),
        Evidence::TooFar { earlier, distance } => Some(Evidence::TooFar {
            earlier: behind(&earlier, recent),
            distance,
        }),
        Evidence::BeforeStart => Some(Evidence::BeforeStart),
        Evidence::NotBeforeEnd => Some(Evidence::NotBeforeEnd),
        Evidence::Outside { .. } => Some(found),
        Evidence::Bank {
            group,
            bank,
            opened,
            changed,
        } => Some(Evidence::Bank {
            group,
            bank,
            opened,
            changed: Some(change_of_own_bank(recent, entry, &changed)?),
        }),
        Evidence::TooCloseToStart { .. } | Evidence::Late { .. } => None,
    }
}

/// Where the bank of the entry was changed last, by the last such place among the newest commands. `None` where they don't tell it: none of
/// them opened the bank, or the entry is a REF, which is on each bank of its rank.
fn change_of_own_bank(recent: &Recent, entry: &Entry, changed: &Option<Placed>) -> Option<Placed>
    requires { IfSome changed.now (λ c. c.place + recent.now.first < 2 ^ 63) }
    ensures some { IfSome result (λ told. IfSome changed.now (λ c. (told.place ≡ recent.now.first + c.place) × (told.entry ≡ c.entry))) }
    ensures there { IfSome result (λ told. IsSome changed.now) }
    ensures own { IfSome result (λ told. is_refresh entry.now.command ≡ false) }
    ensures opened { IfSome result (λ told. list_any (opens entry.now.command) recent.now.entries.items ≡ true) }
    ensures none { IfNone result (is_refresh entry.now.command ≡ false → IsSome changed.now → list_any (opens entry.now.command) recent.now.entries.items ≡ false) }
{
    if entry.command.is_refresh() || !is_opened(recent, &entry.command) {
        return None;
    }
    let Some(changed) = changed else {
        return None;
    };
    Some(behind(changed, recent))
}

/// Whether one of the newest commands opened the bank that the command is for.
fn is_opened(recent: &Recent, command: &Command) -> bool
    ensures { result ≡ list_any (opens command.now) recent.now.entries.items }
{
    recent.entries.iter().any(|earlier| earlier.command.is_activate()
        && earlier.command.is_same_bank(command))
}

/// The entry at its place among all commands.
fn behind(placed: &Placed, recent: &Recent) -> Placed
    requires { placed.now.place + recent.now.first < 2 ^ 63 }
    ensures place { result.place ≡ recent.now.first + placed.now.place }
    ensures entry { result.entry ≡ placed.now.entry }
{
    Placed {
        place: recent.first as usize + placed.place,
        entry: placed.entry,
    }
}

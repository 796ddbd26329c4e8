//! Whether requests were admitted by a cycle, as the scheduler wants it.
ghost use Rattle.std.specs.Prelude.{◌≡◌, ◌≤◌, nat_le, All, IsTrue};
ghost use Rattle.ddr_arbiter.specs.Choice.{passes_at};

use ddr_hazards::pending::Pending;

/// Whether no request was admitted after the cycle.
pub fn are_admitted(pending: &Pending, now: u64) -> bool
    ensures { IsTrue result → All (λ w. w.admitted ≤ now) pending.now.waiting }
{
    for place in 0..pending.len() {
        if !is_admitted(pending, place, now) {
            return false;
        }
    }
    true
}

fn is_admitted(pending: &Pending, place: usize, now: u64) -> bool
    ensures { result ≡ passes_at (λ w. nat_le w.admitted now) pending.now.waiting place }
{
    match pending.get(place) {
        Some((_, admitted)) => admitted <= now,
        None => false,
    }
}

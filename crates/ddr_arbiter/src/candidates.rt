//! Which of the pending requests may be served.
ghost use Rattle.std.specs.Prelude.{◌≡◌, ◌<◌, ◌≤◌, List, All, length};
ghost use Rattle.std.specs.List.{list_any, range_with_len};
ghost use Rattle.ddr_refresh.specs.Refreshes.{Refreshes};
ghost use Rattle.ddr_hazards.specs.PendingList.{IsInRank, is_same_kind};
ghost use Rattle.ddr_arbiter.specs.Choice.{candidates, served_kind};
ghost use Rattle.ddr_arbiter.specs.Forced.{AreForced};
ghost use Rattle.ddr_arbiter.specs.CandidateSet.{capped_kind, is_candidate, is_free_of_marks, is_of_unmarked_rank, other_kind, places_of};

use crate::refresh::Forced;
use ddr_address_map::request::Kind;
use ddr_hazards::pending::Pending;

/// Which of the pending requests are candidates, told without a list of them: of the `count` oldest those of the kind,
/// with no older one to their line, of ranks that are not forced.
#[derive(Clone, Copy)]
pub(crate) struct CandidateSet {
    pub kind: Kind,
    pub count: usize,
    pub forced: Forced,
}

/// The requests that may be served in cycle `now`, none of a rank that is forced: where the oldest has reached the cap,
/// it is alone; otherwise those with no older one to their line, of the kind that the mode serves, if any are.
pub(crate) fn candidates(
    pending: &Pending,
    now: u64,
    cap: u32,
    drain: bool,
    forced: &Forced,
) -> CandidateSet
    requires admitted { All (λ w. w.admitted ≤ now) pending.now.waiting }
    requires inside { All (λ w. IsInRank w.request.place) pending.now.waiting }
    ensures places { (refreshes : List Refreshes) → AreForced pending.now.waiting refreshes forced.now
        → candidates now cap drain pending.now.waiting refreshes ≡ places_of result pending.now.waiting }
    ensures count { result.count ≤ length pending.now.waiting }
{
    if let Some(kind) = capped_kind(pending, now, cap) {
        return CandidateSet {
            kind,
            count: 1,
            forced: *forced,
        };
    }
    let served = CandidateSet {
        kind: served_kind(drain),
        count: pending.len(),
        forced: *forced,
    };
    if has_any(&served, pending) {
        served
    } else {
        CandidateSet {
            kind: other_kind(served.kind),
            ..served
        }
    }
}

/// The kind of the oldest request where its age, in clocks, has reached the cap.
fn capped_kind(pending: &Pending, now: u64, cap: u32) -> Option<Kind>
    requires { All (λ w. w.admitted ≤ now) pending.now.waiting }
    ensures { result ≡ capped_kind now cap pending.now.waiting }
{
    match pending.oldest() {
        Some((request, admitted)) => {
            if now - admitted >= u64::from(cap) {
                Some(request.echo.kind)
            } else {
                None
            }
        }
        None => None,
    }
}

/// The kind of the requests that a mode serves first.
fn served_kind(drain: bool) -> Kind
    ensures { result ≡ served_kind drain }
{
    if drain { Kind::Write } else { Kind::Read }
}

/// The other kind.
fn other_kind(kind: Kind) -> Kind
    ensures { result ≡ other_kind kind }
{
    match kind {
        Kind::Read => Kind::Write,
        Kind::Write => Kind::Read,
    }
}

/// Whether there is any candidate.
fn has_any(candidates: &CandidateSet, pending: &Pending) -> bool
    requires inside { All (λ w. IsInRank w.request.place) pending.now.waiting }
    requires count { candidates.now.count ≤ length pending.now.waiting }
    ensures { result ≡ list_any (is_candidate candidates.now pending.now.waiting) (range_with_len 0 candidates.now.count) }
{
    for place in 0..candidates.count {
        if is_candidate(candidates, pending, place) {
            return true;
        }
    }
    false
}

/// Whether the request at the place is a candidate, as far as its place goes.
pub(crate) fn is_candidate(candidates: &CandidateSet, pending: &Pending, place: usize) -> bool
    requires inside { All (λ w. IsInRank w.request.place) pending.now.waiting }
    requires place { place < length pending.now.waiting }
    ensures { result ≡ is_candidate candidates.now pending.now.waiting place }
{
    match pending.get(place) {
        Some((request, _)) => {
            is_same_kind(candidates.kind, request.echo.kind)
                && is_free(&candidates.forced, pending, place)
        }
        None => false,
    }
}

/// Whether the two kinds are one.
pub(crate) fn is_same_kind(kind: Kind, other: Kind) -> bool
    ensures { result ≡ is_same_kind kind other }
{
    other == kind
}

/// Whether no older request has the line of the request at the place, and its rank is not forced.
#[inline(always)]
pub(crate) fn is_free(forced: &Forced, pending: &Pending, place: usize) -> bool
    requires inside { All (λ w. IsInRank w.request.place) pending.now.waiting }
    requires place { place < length pending.now.waiting }
    ensures { result ≡ is_free_of_marks forced.now pending.now.waiting place }
{
    !pending.blocked(place) && is_of_free_rank(forced, pending, place)
}

/// Whether the rank of the request at the place is not forced.
fn is_of_free_rank(forced: &Forced, pending: &Pending, place: usize) -> bool
    requires inside { All (λ w. IsInRank w.request.place) pending.now.waiting }
    requires place { place < length pending.now.waiting }
    ensures { result ≡ is_of_unmarked_rank forced.now pending.now.waiting place }
{
    if !forced[0] && !forced[1] {
        return true;
    }
    match pending.get(place) {
        Some((request, _)) => !forced[request.place.rank as usize],
        None => false,
    }
}

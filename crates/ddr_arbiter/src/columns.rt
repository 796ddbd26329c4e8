//! The oldest candidate that may be read or written.
ghost use Rattle.std.specs.Prelude.{◌≡◌, ◌<◌, ◌≤◌, ◌&&◌, true, false, All, length};
ghost use Rattle.ddr_legality.specs.Bus.{is_legal_now};
ghost use Rattle.ddr_hazards.specs.PendingList.{IsInRank};
ghost use Rattle.ddr_arbiter.specs.Choice.{can_column, column_place, is_row_open};
ghost use Rattle.ddr_arbiter.specs.Commands.{column_at};
ghost use Rattle.ddr_arbiter.specs.Known.{AreKnown};
ghost use Rattle.ddr_arbiter.specs.CandidateSet.{is_candidate, places_of};

use crate::banks::{BANKS, bank_number};
use crate::candidates::{CandidateSet, is_free, is_same_kind};
use crate::commands::{column_at, may};
use ddr_address_map::place::Place;
use ddr_address_map::request::Kind;
use ddr_hazards::pending::Pending;
use ddr_legality::legality::Legality;

/// What is known of a bank while the candidates are gone through.
#[derive(Clone, Copy)]
pub(crate) enum KnownBank {
    /// No request of it was met.
    Unmet,
    /// This row is open.
    Open(u32),
    /// None of its lines may be read or written now.
    Refused,
}

/// What is known of each bank that a channel may have.
type KnownBanks = [KnownBank; BANKS];

/// The oldest candidate whose column command is legal now, where there is room for it.
pub(crate) fn column_place(
    pending: &Pending,
    legality: &Legality,
    candidates: &CandidateSet,
    room: bool,
) -> Option<usize>
    requires inside { All (λ w. IsInRank w.request.place) pending.now.waiting }
    requires count { candidates.now.count ≤ length pending.now.waiting }
    ensures { result ≡ column_place legality.entry.now.bus pending.now.waiting (places_of candidates.now pending.now.waiting) room }
{
    if !room {
        return None;
    }
    let mut banks = [KnownBank::Unmet; BANKS];
    for place in 0..candidates.count {
        if is_ready(pending, legality, candidates, &mut banks, place) {
            return Some(place);
        }
    }
    None
}

/// Whether the request at the place is a candidate whose column command is legal now.
fn is_ready(
    pending: &Pending,
    legality: &Legality,
    candidates: &CandidateSet,
    banks: &mut KnownBanks,
    place: usize,
) -> bool
    requires inside { All (λ w. IsInRank w.request.place) pending.now.waiting }
    requires place { place < length pending.now.waiting }
    requires known { AreKnown legality.now.bus candidates.now.kind banks.old }
    ensures ready { result ≡ (is_candidate candidates.now pending.now.waiting place && can_column legality.entry.now.bus pending.now.waiting place) }
    ensures known { AreKnown legality.entry.now.bus candidates.now.kind banks.new }
{
    let Some((request, _)) = pending.get(place) else {
        return false;
    };
    let kind = candidates.kind;
    let at = request.place;
    if !is_same_kind(kind, request.echo.kind) {
        return false;
    }
    if !is_hit(legality, kind, banks, at) {
        return false;
    }
    is_free(&candidates.forced, pending, place) && can_hit(legality, kind, banks, at)
}

/// Whether the place's row is open in its bank, and a line of it may be read or written, as far as is known.
fn is_hit(legality: &Legality, kind: Kind, banks: &mut KnownBanks, at: Place) -> bool
    requires inside { IsInRank at }
    requires known { AreKnown legality.now.bus kind banks.old }
    ensures hit { result ≡ true → is_row_open legality.entry.now.bus at ≡ true }
    ensures other { result ≡ false → is_legal_now legality.entry.now.bus (column_at false kind at) ≡ false }
    ensures known { AreKnown legality.entry.now.bus kind banks.new }
{
    let number = bank_number(at);
    match banks[number] {
        KnownBank::Unmet => {
            match legality.open_row(at.rank, at.group, at.bank) {
                Some(row) => {
                    banks[number] = KnownBank::Open(row);
                    row == at.row
                }
                None => {
                    banks[number] = KnownBank::Refused;
                    false
                }
            }
        }
        KnownBank::Open(row) => row == at.row,
        KnownBank::Refused => false,
    }
}

/// Whether the line of the place, whose row is open, may be read or written now. What one line of an open row may,
/// each may that the geometry has: so the first is asked for, once for the bank where it may not.
fn can_hit(legality: &Legality, kind: Kind, banks: &mut KnownBanks, at: Place) -> bool
    requires inside { IsInRank at }
    requires opened { is_row_open legality.now.bus at ≡ true }
    requires known { AreKnown legality.now.bus kind banks.old }
    ensures can { result ≡ is_legal_now legality.entry.now.bus (column_at false kind at) }
    ensures known { AreKnown legality.entry.now.bus kind banks.new }
{
    if may(legality, column_at(false, kind, Place { line: 0, ..at })) {
        return may(legality, column_at(false, kind, at));
    }
    banks[bank_number(at)] = KnownBank::Refused;
    false
}

//! The pending requests in the order of their admission. How many older ones hold up a request is counted when it is
//! admitted, and counted down when one of them is removed.
ghost use Rattle.std.specs.Prelude.{◌≡◌, ◌<◌, ◌≤◌, ◌↔◌, [], length, nat_lt, slice_get, IsTrue, IsErr, IfErr, OnOk};
ghost use Rattle.std.specs.Option.{option_map};
ghost use Rattle.ddr_timing.specs.declared.units.TheConstants.{GROUP_BANKS, MOST_GROUPS, MOST_RANKS};
ghost use Rattle.ddr_address_map.specs.declared.request.Kind.TheVariants.{Read, Write};
ghost use Rattle.ddr_hazards.specs.declared.pending.TheConstants.{KIND_CAPACITY};
ghost use Rattle.ddr_hazards.specs.Banks.{in_bank};
ghost use Rattle.ddr_hazards.specs.PendingList.{opened, pending_count, is_full, after_admit, request_at, after_remove, waiting_of, IsInRank, IsWithinLimits};
ghost use Rattle.ddr_hazards.specs.Hazards.{hazard_count, is_blocked};

use crate::banks::{Banks, bank_number, number};
use crate::counts::KindCounts;
use crate::hazards::{count_less, count_line, position};
use crate::slots::{CAPACITY, Slots};
use crate::waiting::Waiting;
use ddr_address_map::request::{Kind, Req};
use std::marker::Model;

/// The most requests of one kind that a list may hold: this project's choice.
pub const KIND_CAPACITY: u32 = 32;

/// The pending requests of a channel, the oldest first: a read queue and a write queue whose requests stand
/// in one list.
///
/// The place of a request is its position in the list, so an older request has a lower place, and the
/// removal of a request lowers by one the places of all younger ones.
#[derive(Drop)]
pub struct Pending {
    slots: Slots,
    // Of each bank, the slots of its requests.
    banks: Banks,
    // Of each slot, how many older requests have the line of its request.
    hazards: [u8; CAPACITY],
    counts: KindCounts,
    limits: KindCounts,
}

impl Model for Pending {
    ghost use Rattle.ddr_hazards.specs.PendingList.{PendingList};

    ghost Value = { PendingList };

    ghost use Rattle.ddr_hazards.specs.View.{pending_list, IsSound};

    ghost view = { pending_list };

    ghost invariant = { IsSound };
}

impl Pending {
    /// A list with no request, for at most `reads` reads and `writes` writes.
    pub fn open(reads: u32, writes: u32) -> Pending
        requires reads_in { (1 ≤ reads) × (reads ≤ KIND_CAPACITY) }
        requires writes_in { (1 ≤ writes) × (writes ≤ KIND_CAPACITY) }
        ensures { result ≡ opened reads writes }
    {
        Pending {
            slots: Slots::new(),
            banks: Banks::new(),
            hazards: [0; CAPACITY],
            counts: KindCounts {
                reads: 0,
                writes: 0,
            },
            limits: KindCounts { reads, writes },
        }
    }

    /// How many requests are pending.
    pub fn len(&self) -> usize
        ensures exact { result ≡ length self.now.waiting }
        ensures within { IsWithinLimits self.now }
    {
        self.slots.len
    }

    /// Whether no request is pending.
    pub fn is_empty(&self) -> bool
        ensures { IsTrue result ↔ (self.now.waiting ≡ []) }
    {
        self.len() == 0
    }

    /// How many reads are pending.
    pub fn reads(&self) -> u32
        ensures { result ≡ pending_count Read self.now.waiting }
    {
        self.counts.reads
    }

    /// How many writes are pending.
    pub fn writes(&self) -> u32
        ensures { result ≡ pending_count Write self.now.waiting }
    {
        self.counts.writes
    }

    /// Whether as many requests of the kind are pending as may be.
    pub fn is_full(&self, kind: Kind) -> bool
        ensures { result ≡ is_full self.now kind }
    {
        self.counts.of(kind) >= self.limits.of(kind)
    }

    /// Adds a request as the youngest one, admitted in cycle `now`. Where the queue of its kind is full, the
    /// request is handed back and the list stays as it was.
    pub fn admit(&mut self, request: Req, now: u64) -> Result<(), Req>
        requires { IsInRank request.place }
        ensures ok { OnOk result (self.new ≡ after_admit request now self.old) }
        ensures full { IsErr result ↔ IsTrue (is_full self.old request.echo.kind) }
        ensures err { IfErr result (λ r. (r ≡ request) × (self.new ≡ self.old)) }
    {
        let kind = request.echo.kind;
        if self.is_full(kind) {
            return Err(request);
        }
        let place = request.place;
        let bank = bank_number(place);
        let older = count_line(&self.slots, self.banks.slots(bank), place);
        let slot = self.slots.push(Waiting {
            request,
            admitted: now,
        });
        self.hazards[slot as usize] = older as u8;
        self.banks.push(bank, slot);
        self.counts.add(kind);
        Ok(())
    }

    /// Takes out the request at a place. `None` exactly where there is none, and the list then stays as it
    /// was.
    pub fn remove(&mut self, place: usize) -> Option<Req>
        ensures taken { result ≡ request_at self.old place }
        ensures rest { self.new ≡ after_remove place self.old }
    {
        let (slot, waiting) = self.slots.remove(place)?;
        let request = waiting.request;
        let bank = bank_number(request.place);
        let index = position(self.banks.slots(bank), slot);
        self.banks.remove(bank, index);
        let behind = self.banks.behind(bank, index);
        count_less(&mut self.hazards, &self.slots, behind, request.place);
        self.counts.subtract(request.echo.kind);
        Some(request)
    }

    /// The request at a place, with the cycle of its admission. `None` exactly where there is none.
    pub fn get(&self, place: usize) -> Option<(&Req, u64)>
        ensures { option_map waiting_of result ≡ slice_get self.now.waiting place }
    {
        let slot = self.slots.slot(place)?;
        let waiting = self.slots.get(slot)?;
        Some((&waiting.request, waiting.admitted))
    }

    /// The request that was admitted first, with the cycle of its admission. `None` exactly where nothing is
    /// pending.
    pub fn oldest(&self) -> Option<(&Req, u64)>
        ensures { option_map waiting_of result ≡ slice_get self.now.waiting 0 }
    {
        self.get(0)
    }

    /// Whether an older pending request has the line of the request at this place, so that the younger one
    /// has to wait for it.
    pub fn blocked(&self, place: usize) -> bool
        requires { place < length self.now.waiting }
        ensures { result ≡ is_blocked self.now.waiting place }
    {
        self.hazards(place) > 0
    }

    /// How many older pending requests have the line of the request at this place.
    pub fn hazards(&self, place: usize) -> usize
        requires { place < length self.now.waiting }
        ensures exact { result ≡ hazard_count self.now.waiting place }
        ensures blocks { is_blocked self.now.waiting place ≡ nat_lt 0 result }
    {
        match self.slots.slot(place) {
            Some(slot) => self.hazards[slot as usize] as usize,
            None => 0,
        }
    }

    /// The place of the `k`-th oldest request of a bank, `k` from 0. `None` exactly where the bank has fewer.
    pub fn in_bank(&self, rank: u32, group: u32, bank: u32, k: usize) -> Option<usize>
        requires rank_in { rank < MOST_RANKS }
        requires group_in { group < MOST_GROUPS }
        requires bank_in { bank < GROUP_BANKS }
        ensures { result ≡ in_bank rank group bank k self.now.waiting }
    {
        let slot = self.banks.slot(number(rank, group, bank), k)?;
        Some(self.slots.place(slot))
    }
}

//! Calls of the pending requests of two ranks by chance, each compared with what a plain list of the requests says.
ghost use Rattle.ddr_hazards.specs.PendingList.{IsInRank};

use super::*;
use ddr_samples::chance::Chance;

/// The calls of a run.
const CALLS: u32 = 4000;

/// How many reads may be pending, and how many writes.
const LIMITS: [(u32, u32); 4] = [(1, 1), (3, 2), (8, 8), (32, 32)];

/// A request as the plain list has it.
#[derive(Clone, Copy, Debug, PartialEq, Eq)]
struct Listed {
    kind: Kind,
    number: u64,
    place: Place,
    admitted: u64,
}

fn listed_of(request: &Req, admitted: u64) -> Listed {
    Listed {
        kind: request.echo.kind,
        number: request.number,
        place: request.place,
        admitted,
    }
}

/// Whether the two are of one line.
fn is_same_line(a: Place, b: Place) -> bool {
    is_in_bank(a, b.rank, b.group, b.bank) && a.row == b.row && a.line == b.line
}

fn is_in_bank(place: Place, rank: u32, group: u32, bank: u32) -> bool {
    place.rank == rank && place.group == group && place.bank == bank
}

/// A line of two ranks, of two banks of each in either of two groups.
fn place_by_chance(chance: &mut Chance) -> Place
    ensures { IsInRank result }
{
    Place {
        channel: 0,
        rank: chance.pick(2),
        group: chance.pick(2),
        bank: chance.pick(2),
        row: chance.pick(2),
        line: chance.pick(2),
        offset: chance.pick(64),
    }
}

/// The pending requests, and beside them the same in a plain list, the oldest first.
#[derive(Drop)]
struct Run {
    alloc: Global,
    chance: Chance,
    pending: Pending,
    list: Vec<Listed>,
    limits: (u32, u32),
    /// The number and the cycle of the next request.
    next: u64,
    refused: u32,
}

/// How many of the list have the kind.
fn count_of(list: &[Listed], kind: Kind) -> u32 {
    let mut count = 0u32;
    for listed in list {
        if listed.kind == kind {
            count = count.saturating_add(1);
        }
    }
    count
}

/// How many of the first `place` of the list have the line of the one behind them.
fn older_of_line(list: &[Listed], place: usize) -> usize {
    let Some(listed) = list.get(place) else {
        return 0;
    };
    let mut count = 0usize;
    for older in list.iter().take(place) {
        if is_same_line(older.place, listed.place) {
            count = count.saturating_add(1);
        }
    }
    count
}

/// The place of the `k`-th of the list that is of the bank.
fn place_in_bank(list: &[Listed], rank: u32, group: u32, bank: u32, k: usize) -> Option<usize> {
    let mut left = k;
    for (place, listed) in list.iter().enumerate() {
        if is_in_bank(listed.place, rank, group, bank) {
            if left == 0 {
                return Some(place);
            }
            left -= 1;
        }
    }
    None
}

impl Run {
    fn open(alloc: Global, limits: (u32, u32)) -> Result<Run, Fail> {
        let (reads, writes) = limits;
        if reads < 1 || reads > 32 || writes < 1 || writes > 32 {
            return Err("no such queue".into());
        }
        Ok(Run {
            alloc,
            chance: Chance::new(1),
            pending: Pending::open(reads, writes),
            list: Vec::new(alloc),
            limits,
            next: 0,
            refused: 0,
        })
    }

    /// Whether the list has as many of the kind as may be.
    fn is_full(&self, kind: Kind) -> bool {
        let (reads, writes) = self.limits;
        match kind {
            Kind::Read => count_of(&self.list, kind) >= reads,
            Kind::Write => count_of(&self.list, kind) >= writes,
        }
    }

    fn kind(&mut self) -> Kind {
        if self.chance.coin() {
            Kind::Read
        } else {
            Kind::Write
        }
    }

    /// A place of the list, or one behind it.
    fn place(&mut self) -> usize {
        self.chance.below(self.list.len() as u64 + 2) as usize
    }

    /// Offers a request, which is refused exactly where the list has no place for its kind.
    fn admit(&mut self, rt: &impl Abort) -> Result<(), Fail> {
        let listed = Listed {
            kind: self.kind(),
            number: self.next,
            place: place_by_chance(&mut self.chance),
            admitted: self.next,
        };
        self.next = self.next.wrapping_add(1);
        let full = self.is_full(listed.kind);
        let request = request_at(self.alloc, listed.kind, listed.number, listed.place)?;
        match self.pending.admit(request, listed.admitted) {
            Ok(()) => {
                assert!(rt; !full, "{listed:?} was admitted");
                self.list.push(listed)?;
            }
            Err(request) => {
                assert!(rt; full, "{listed:?} was refused");
                assert_eq!(rt; listed_of(&request, listed.admitted), listed);
                self.refused = self.refused.saturating_add(1);
            }
        }
        Ok(())
    }

    fn remove(&mut self, rt: &impl Abort) {
        let place = self.place();
        let admitted = match self.list.get(place) {
            Some(listed) => listed.admitted,
            None => 0,
        };
        let found = match self.pending.remove(place) {
            Some(request) => Some(listed_of(&request, admitted)),
            None => None,
        };
        let expected = if place < self.list.len() {
            Some(self.list.remove(place))
        } else {
            None
        };
        assert_eq!(rt; found, expected, "removed at {place}");
    }

    fn check_get(&mut self, rt: &impl Abort) {
        let place = self.place();
        let found = match self.pending.get(place) {
            Some((request, admitted)) => Some(listed_of(request, admitted)),
            None => None,
        };
        assert_eq!(rt; found, self.list.get(place).copied(), "at {place}");
    }

    fn check_oldest(&self, rt: &impl Abort) {
        let found = match self.pending.oldest() {
            Some((request, admitted)) => Some(listed_of(request, admitted)),
            None => None,
        };
        assert_eq!(rt; found, self.list.first().copied());
    }

    fn check_hazards(&mut self, rt: &impl Abort) {
        let place = self.place();
        if place < self.pending.len() {
            let count = older_of_line(&self.list, place);
            assert_eq!(rt; self.pending.hazards(place), count, "of {place}");
            assert_eq!(rt; self.pending.blocked(place), count > 0, "of {place}");
        }
    }

    fn check_bank(&mut self, rt: &impl Abort) {
        let rank = self.chance.pick(2);
        let group = self.chance.pick(2);
        let bank = self.chance.pick(2);
        let k = self.chance.pick(4) as usize;
        let found = self.pending.in_bank(rank, group, bank, k);
        let expected = place_in_bank(&self.list, rank, group, bank, k);
        assert_eq!(rt; found, expected, "{k} of bank {bank} of {group} of {rank}");
    }

    fn check_counts(&mut self, rt: &impl Abort) {
        let kind = self.kind();
        let found = (
            self.pending.len(),
            self.pending.reads(),
            self.pending.writes(),
        );
        let reads = count_of(&self.list, Kind::Read);
        let writes = count_of(&self.list, Kind::Write);
        assert_eq!(rt; found, (self.list.len(), reads, writes));
        assert_eq!(rt; self.pending.is_empty(), self.list.is_empty());
        assert_eq!(rt; self.pending.is_full(kind), self.is_full(kind), "{kind:?}");
    }

    /// A call by chance: of 16 so many are admissions, and four removals.
    fn call(&mut self, rt: &impl Abort, admissions: u64) -> Result<(), Fail> {
        let chosen = self.chance.below(16);
        if chosen < admissions {
            return self.admit(rt);
        }
        match self.chance.below(9) {
            0..=3 => self.remove(rt),
            4 => self.check_get(rt),
            5 => self.check_oldest(rt),
            6 => self.check_hazards(rt),
            7 => self.check_bank(rt),
            _ => self.check_counts(rt),
        }
        Ok(())
    }

    /// Calls by which the list is filled and emptied in turn.
    fn calls(&mut self, rt: &impl Abort) -> Result<(), Fail> {
        let mut admissions = 12;
        for nth in 0..CALLS {
            if nth % 200 == 199 {
                admissions = 2 + self.chance.below(12);
            }
            self.call(rt, admissions)?;
        }
        Ok(())
    }
}

/// Each queue was full in some calls and not in others.
#[test]
fn calls_by_chance(rt: HostRuntime) -> Result<(), Fail> {
    for limits in LIMITS {
        let mut run = Run::open(rt.alloc(), limits)?;
        run.calls(&rt)?;
        assert!(rt; run.refused >= 100, "{limits:?}: {} refused", run.refused);
        assert!(rt; run.next >= 1000, "{limits:?}: {} offered", run.next);
    }
    Ok(())
}

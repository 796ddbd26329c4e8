//! Two ranks, each with a read pending in every cycle: which commands are issued, and how many later requests overtake the
//! first one of rank 1, both by hand.
use super::*;
use ddr_channel::issued::Served;
use ddr_samples::steps::Step;
use ddr_timing::profile::PROFILE_S2;
use ddr_trace::checker as reference;

/// Line 0 of row 0 of bank 0, in rank 0 and in rank 1.
const ADDRESSES: [u64; 2] = [0, 262_144];

/// The cycles of the run.
const END: u64 = 806;

/// The commands that open and close rows, and the REFs.
///
/// A read of the other rank would have to wait 4 + RTRS clocks behind a read, one more than CCD_L, so rank 0 alone is served
/// up to cycle 600, in which three REFs of each rank are due, one more than may be put off. RTP holds the PREA of rank 0 up
/// to cycle 602. Then RP, RFC and RCD, and rank 1, which is refreshed first, is served alone up to cycle 800, in which the
/// fourth REFs fall due.
const OTHERS: &[(u32, Step)] = &[
    (0, Step::Act(0, 0, 0, 0)),
    (1, Step::Act(1, 0, 0, 0)),
    (1, Step::PreAll(600)),
    (0, Step::PreAll(602)),
    (1, Step::Refresh(604)),
    (0, Step::Refresh(606)),
    (1, Step::Act(624, 0, 0, 0)),
    (0, Step::Act(626, 0, 0, 0)),
    (0, Step::PreAll(800)),
    (1, Step::PreAll(801)),
    (0, Step::Refresh(804)),
    (1, Step::Refresh(805)),
];

/// The reads: a rank, the cycle of its first one, and that of its last one. Each is CCD_L behind the one before.
const READS: [(u32, u64, u64); 2] = [(0, 4, 599), (1, 628, 798)];

const CCD_L: u64 = 5;

/// The overtakers of the first request of rank 1: all reads of rank 0 up to cycle 599 but the first one, whose request was
/// admitted before it.
const OVERTAKERS: u64 = 119;

/// `(cap + 3) / 4`.
const MOST: u64 = 250;

/// What a cycle issues.
fn command_in(cycle: u64) -> Option<Command> {
    for (rank, step) in OTHERS {
        if step.cycle() == cycle {
            return Some(step.command_of(*rank));
        }
    }
    for (rank, first, last) in READS {
        if first <= cycle && cycle <= last && (cycle - first) % CCD_L == 0 {
            return Some(Step::Rd(cycle, 0, 0, 0, 0).command_of(rank));
        }
    }
    None
}

/// A channel, and what is pending at it.
#[derive(Drop)]
struct Streams {
    alloc: Global,
    channel: Channel,
    /// The number of the next request.
    next: u64,
    /// Of each rank, the number of the request that is pending.
    pending: [Option<u64>; 2],
    /// The numbers of the served requests, in the order of their column commands.
    served: Vec<u64>,
}

impl Streams {
    fn open(alloc: Global) -> Result<Streams, Fail> {
        let config = Config::read(alloc, PROFILE_S2)?;
        Ok(Streams {
            alloc,
            channel: Channel::open(alloc, &config, 0)?,
            next: 0,
            pending: [None, None],
            served: Vec::new(alloc),
        })
    }

    /// Admits a read of a line.
    fn admit(&mut self, addr: u64) -> Result<u64, Fail> {
        let number = self.next;
        let echo = Echo {
            kind: Kind::Read,
            addr,
            len: 64,
        };
        let offered = request(self.alloc, self.channel.config(), number, echo)?;
        if self.channel.admit(offered).is_err() {
            return Err("the queue is full".into());
        }
        self.next = number.wrapping_add(1);
        Ok(number)
    }

    /// Admits a read for each rank for which none is pending.
    fn fill(&mut self) -> Result<(), Fail> {
        for rank in 0..2usize {
            if self.pending[rank].is_none() {
                let number = self.admit(ADDRESSES[rank])?;
                self.pending[rank] = Some(number);
            }
        }
        Ok(())
    }

    /// Notes the request that a column command serves.
    fn note(&mut self, served: Option<Served>) -> Result<(), Fail> {
        if let Some(served) = served {
            self.served.push(served.number)?;
            for pending in self.pending.iter_mut() {
                if *pending == Some(served.number) {
                    *pending = None;
                }
            }
        }
        Ok(())
    }

    /// Admits what is missing, and makes a cycle, which has to issue what stands above.
    fn cycle(&mut self, rt: &impl Abort, cycle: u64) -> Result<(), Fail> {
        self.fill()?;
        let issued = self.channel.cycle_observed()?;
        let (command, served) = match issued {
            Some(issued) => (Some(issued.entry.command), issued.served),
            None => (None, None),
        };
        assert_eq!(rt; command, command_in(cycle), "in {cycle}");
        self.note(served)?;
        self.channel.pop_done();
        Ok(())
    }

    /// How many later requests were served before the one with this number, or so far.
    fn overtakers_of(&self, number: u64) -> u64 {
        let mut count = 0u64;
        for served in self.served.iter() {
            if *served == number {
                return count;
            }
            if *served > number {
                count = count.wrapping_add(1);
            }
        }
        count
    }

    /// Looks at the whole trace with the reference checker, and so at both rules on refresh.
    fn check_trace(&self, rt: &impl Abort) {
        let entries = self.channel.trace();
        let fault = reference::first_fault(entries, self.channel.config(), 0, self.channel.now());
        assert!(rt; fault.is_none());
    }
}

#[test]
fn first_request_of_the_other_rank_is_overtaken(rt: HostRuntime) -> Result<(), Fail> {
    let mut streams = Streams::open(rt.alloc())?;
    for cycle in 0..END {
        streams.cycle(&rt, cycle)?;
    }
    assert_eq!(rt; streams.overtakers_of(1), OVERTAKERS);
    for number in 0..streams.next {
        assert!(rt; streams.overtakers_of(number) <= MOST, "of {number}");
    }
    streams.check_trace(&rt);
    Ok(())
}

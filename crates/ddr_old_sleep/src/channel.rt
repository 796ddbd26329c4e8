//! A channel as far as its scheduling goes, which sleeps as the first form of a channel did: in each cycle that it makes it asks
//! `choose`, and behind it the scheduler's first form until when nothing is chosen.
//!
//! It has no rows and no bytes. It keeps how many REFs were issued, and reckons each debt from the first cycle on.
ghost use Rattle.std.specs.Prelude.{◌≤◌, length};
ghost use Rattle.ddr_timing.specs.declared.units.TheConstants.{CLOCK_STOP, MOST_RANKS};

use crate::admitted::are_admitted;
use crate::scheduler::{is_rank_active, is_rank_forced, must_refresh, quiet_until, still_until};
use ddr_address_map::place::Place;
use ddr_address_map::request::{Echo, Kind, Req};
use ddr_arbiter::choice::{Choice, choose};
use ddr_arbiter::commands::command_of;
use ddr_arbiter::policy::Policy;
use ddr_hazards::pending::Pending;
use ddr_legality::legality::Legality;
use ddr_refresh::debt::Debt;
use ddr_timing::config::Config;
use ddr_timing::units::{BURST_CLOCKS, CLOCK_STOP, GROUP_BANKS, MOST_GROUPS, MOST_RANKS};
use ddr_trace::command::{Command, Entry};
use std::alloc::{AllocError, Global};

/// A channel of this form. A call answers `None` where it can't be made: memory was refused, the clock is spent, or there is no
/// such bank or completion.
#[derive(Drop)]
pub struct OldChannel {
    alloc: Global,
    config: Config,
    pending: Pending,
    /// Whether writes were drained in the cycle before.
    drain: bool,
    /// Of each rank, how many REFs were issued.
    refreshed: [u32; MOST_RANKS as usize],
    /// The cycles in which the requests in flight are due, the oldest first.
    flight: Vec<u64>,
    /// How many are done and not taken.
    done: usize,
    legality: Legality,
    /// Before this cycle nothing is chosen, as far as this form knows.
    quiet_until: u64,
    /// The same where the wait of a rank for its REF is passed over too.
    still_until: u64,
}

impl OldChannel {
    /// A channel that has made no cycle, and whose first one is `first_cycle`.
    pub fn open(alloc: Global, config: &Config, first_cycle: u64) -> Result<OldChannel, AllocError>
        requires { first_cycle ≤ CLOCK_STOP }
    {
        let limits = config.limits;
        Ok(OldChannel {
            alloc,
            config: *config,
            pending: Pending::open(limits.reads, limits.writes),
            drain: false,
            refreshed: [0; MOST_RANKS as usize],
            flight: Vec::new(alloc),
            done: 0,
            legality: Legality::open(alloc, config, first_cycle)?,
            quiet_until: 0,
            still_until: 0,
        })
    }

    /// Takes a request to a line. Whether its queue had a free place.
    pub fn admit(&mut self, kind: Kind, place: Place) -> Option<bool> {
        if place.rank >= MOST_RANKS || place.group >= MOST_GROUPS || place.bank >= GROUP_BANKS {
            return None;
        }
        let now = self.legality.now();
        let request = Req {
            port: 0,
            number: 0,
            echo: Echo {
                kind,
                addr: 0,
                len: 64,
            },
            place,
            mask: 0,
            line: Box::new(self.alloc, [0; 64]).ok()?,
        };
        if self.pending.admit(request, now).is_err() {
            return Some(false);
        }
        self.quiet_until = now;
        self.still_until = now;
        Some(true)
    }

    /// Whether one more request may be in flight or done.
    fn has_room(&self) -> bool {
        self.flight.len().saturating_add(self.done) < self.config.limits.done as usize
    }

    /// Whether writes are drained in the next cycle.
    fn next_drain(&self) -> bool {
        self.policy().next_mode(self.drain, self.pending.writes())
    }

    /// The marks by which the scheduler goes.
    fn policy(&self) -> Policy {
        let limits = self.config.limits;
        Policy {
            cap: limits.cap,
            low: limits.low,
            high: limits.high,
            closed: limits.closed,
        }
    }

    /// What a rank owes in the next cycle, where so many of its REFs were issued: each takes back one refresh interval.
    fn debt(&self, issued: u32) -> Debt {
        let mut debt = Debt::open(&self.config);
        let now = self.legality.now();
        if now < CLOCK_STOP {
            let cycles = now.saturating_sub(self.legality.start()) + 1;
            let refi = u64::from(self.config.timing.refi);
            debt.pass(cycles.saturating_sub(u64::from(issued).saturating_mul(refi)));
        }
        debt
    }

    /// What each rank that there may be owes in the next cycle.
    fn debts(&self) -> [Debt; MOST_RANKS as usize] {
        [self.debt(self.refreshed[0]), self.debt(self.refreshed[1])]
    }

    /// What the next cycle does.
    fn choice(&self) -> Option<Choice> {
        if !are_admitted(&self.pending, self.legality.now()) {
            return None;
        }
        Some(choose(
            &self.pending,
            &self.legality,
            of_ranks(&self.debts(), self.config.geometry.ranks),
            &self.policy(),
            self.next_drain(),
            self.has_room(),
        ))
    }

    /// Looks up to which cycle nothing is chosen.
    fn sleep(&mut self) {
        let now = self.legality.now();
        if now == CLOCK_STOP {
            self.quiet_until = now;
            self.still_until = now;
            return;
        }
        let all = self.debts();
        let debts = of_ranks(&all, self.config.geometry.ranks);
        let policy = self.policy();
        let drain = self.next_drain();
        let room = self.has_room();
        let quiet = quiet_until(&self.pending, &self.legality, debts, &policy, drain, room);
        let still = still_until(&self.pending, &self.legality, debts, &policy, drain, room);
        self.quiet_until = quiet;
        self.still_until = still;
    }

    /// Makes the next cycle. The command that it issues. The cycle up to which the wait of a rank is passed over is looked up anew
    /// only where the channel has come to it.
    pub fn cycle(&mut self) -> Option<Option<Command>> {
        let now = self.legality.now();
        if now == CLOCK_STOP {
            return None;
        }
        if now < self.quiet_until {
            self.still_cycle(now);
            return Some(None);
        }
        let command = self.make_cycle(now)?;
        let still_until = self.still_until;
        self.sleep();
        if now < still_until {
            self.still_until = still_until;
        }
        Some(command)
    }

    /// Makes a cycle in which nothing is chosen.
    fn still_cycle(&mut self, now: u64) {
        let drained = self.next_drain();
        self.complete(now);
        self.drain = drained;
        self.tick();
    }

    fn make_cycle(&mut self, now: u64) -> Option<Option<Command>> {
        let drained = self.next_drain();
        let choice = self.choice()?;
        let command = command_of(&self.pending, choice);
        self.complete(now);
        self.serve(choice, now)?;
        self.issue(command)?;
        self.drain = drained;
        self.tick();
        Some(command)
    }

    fn tick(&mut self) {
        if self.legality.now() < CLOCK_STOP {
            self.legality.tick();
        }
    }

    /// The request that is due in this cycle, if one is, is done.
    fn complete(&mut self, now: u64) {
        if self.flight.is_empty() || self.flight[0] != now {
            return;
        }
        self.flight.remove(0);
        self.done = self.done.saturating_add(1);
    }

    /// The request of a column command is in flight up to the end of its burst.
    fn serve(&mut self, choice: Choice, now: u64) -> Option<()> {
        let (Choice::Column { place } | Choice::ColumnAuto { place }) = choice else {
            return Some(());
        };
        let request = self.pending.remove(place)?;
        let latency = match request.echo.kind {
            Kind::Read => self.config.timing.cl,
            Kind::Write => self.config.timing.cwl,
        };
        let data = now.saturating_add(u64::from(latency));
        self.flight
            .push(data.saturating_add(u64::from(BURST_CLOCKS)))
            .ok()
    }

    /// Issues the command of a cycle, if it has one.
    fn issue(&mut self, command: Option<Command>) -> Option<()> {
        let Some(command) = command else {
            return Some(());
        };
        self.legality.reserve_entry().ok()?;
        match self.legality.may(command) {
            Ok(()) => self.legality.record(command),
            Err(_) => return None,
        }
        if let Command::Refresh { rank } = command {
            let count = self.refreshed.get_mut(rank as usize)?;
            *count = count.saturating_add(1);
        }
        Some(())
    }

    /// Makes so many quiet cycles at once.
    pub fn pass(&mut self, count: u64) -> Option<()> {
        if count == 0 {
            return Some(());
        }
        if count > CLOCK_STOP - self.legality.now() {
            return None;
        }
        self.drain = self.next_drain();
        self.legality.pass(count);
        Some(())
    }

    /// Takes the completion that was done first.
    pub fn pop_done(&mut self) -> Option<()> {
        if self.done == 0 {
            return None;
        }
        if !self.has_room() {
            self.quiet_until = 0;
            self.still_until = 0;
        }
        self.done -= 1;
        Some(())
    }

    /// How many cycles from now on are known to be quiet.
    pub fn quiet(&self) -> u64 {
        self.cycles_until(self.quiet_until)
    }

    /// The same where the wait of a rank for its REF is passed over too.
    pub fn still(&self) -> u64 {
        self.cycles_until(self.still_until)
    }

    /// How many cycles are left up to this one or up to the next completion.
    fn cycles_until(&self, cycle: u64) -> u64 {
        let now = self.legality.now();
        let still = cycle.min(CLOCK_STOP);
        match self.flight.first() {
            Some(due) => still.min(*due).saturating_sub(now),
            None => still.saturating_sub(now),
        }
    }

    /// Whether a rank has to be refreshed in the next cycle. None has where the clock is spent.
    pub fn must_refresh(&self) -> bool {
        if self.legality.now() == CLOCK_STOP {
            return false;
        }
        must_refresh(
            &self.pending,
            of_ranks(&self.debts(), self.config.geometry.ranks),
        )
    }

    /// Whether some rank that has to be refreshed waits with all its banks idle for its REF.
    pub fn waits_idly(&self) -> bool {
        let all = self.debts();
        let debts = of_ranks(&all, self.config.geometry.ranks);
        (is_rank_forced(&self.pending, debts, 0) && !is_rank_active(&self.legality, 0))
            || (is_rank_forced(&self.pending, debts, 1) && !is_rank_active(&self.legality, 1))
    }

    /// How many requests are pending.
    pub fn pending(&self) -> usize {
        self.pending.len()
    }

    /// How many completions are done and not taken.
    pub fn done(&self) -> usize {
        self.done
    }

    /// The next cycle to be made.
    pub fn now(&self) -> u64 {
        self.legality.now()
    }

    /// The commands so far.
    pub fn trace(&self) -> &[Entry] {
        self.legality.entries()
    }
}

/// The debts of so many ranks.
fn of_ranks(debts: &[Debt; MOST_RANKS as usize], ranks: u32) -> &[Debt]
    ensures { length result.now ≤ MOST_RANKS }
{
    if ranks == 1 { &debts[..1] } else { &debts[..] }
}

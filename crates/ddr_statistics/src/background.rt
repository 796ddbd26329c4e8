//! The clocks that background energy goes by: those in which a bank of a rank is active, and those in which the rank is refreshed.
//!
//! Between two commands of the rank a bank only closes, by its auto-precharge, and a refresh only ends: the cycles in which one is
//! active come first, up to where the last one closes, and so do those of a refresh. So what was counted up to the last command is
//! kept, with the two ends. `ddr_timing`, `ddr_trace` and the size of `rank` stand below, and `statistics` above.
ghost use Rattle.std.specs.Prelude.{◌≡◌, ◌<◌};
ghost use Rattle.ddr_timing.specs.declared.units.TheConstants.{GROUP_BANKS, MOST_GROUPS};
ghost use Rattle.ddr_trace.specs.Commands.{bank_of, group_of};
ghost use Rattle.ddr_statistics.specs.Noted.{active_to, activity_noted, auto_until, background_noted, followed, latest_until, new_background, refresh_to, counted_before};

use crate::rank::MOST_BANKS;
use ddr_timing::bank::number_in_rank;
use ddr_timing::geometry::Geometry;
use ddr_timing::timing::Timing;
use ddr_timing::units::GROUP_BANKS;
use ddr_trace::bank::recovery;
use ddr_trace::command::{Command, Entry};

/// When a bank is active.
#[derive(Clone, Copy)]
pub struct Activity {
    /// The cycle of its ACT; 0 where it is closed.
    pub since: u64,
    /// The cycle from which on it is closed: the last that a `u64` holds where nothing is to close it, and 0 where it is closed.
    pub until: u64,
}

impl Activity {
    /// Of a bank that is closed.
    pub const NONE: Activity = Activity { since: 0, until: 0 };

    /// Follows a command of the bank.
    fn note(&mut self, timing: &Timing, entry: &Entry)
        ensures { self.new ≡ activity_noted timing.now entry.now self.old }
    {
        match entry.command {
            Command::Act { .. } => {
                self.since = entry.cycle;
                self.until = u64::MAX;
            }
            Command::Pre { .. } | Command::PreAll { .. } => *self = Activity::NONE,
            Command::RdAuto { .. } | Command::WrAuto { .. } => {
                if self.until != 0 {
                    self.until = auto_until(timing, self.since, entry);
                }
            }
            Command::Rd { .. } | Command::Wr { .. } | Command::Refresh { .. } => {}
        }
    }
}

/// Where the auto-precharge of this RDA or WRA starts, whose bank had its ACT in that cycle.
fn auto_until(timing: &Timing, since: u64, auto: &Entry) -> u64
    ensures { result ≡ auto_until timing.now since auto.now }
{
    let recovered = auto
        .cycle
        .saturating_add(u64::from(recovery(&auto.command, timing)));
    recovered.max(since.saturating_add(u64::from(timing.ras)))
}

/// What is kept of a rank. Each number stops at the last one that a `u64` holds.
#[derive(Clone, Copy)]
pub struct Background {
    /// The cycle before which all is counted: that of the rank's last command, or the trace's start.
    pub counted_to: u64,
    /// The clocks in which a bank was active, and those in which the rank was refreshed with none active.
    pub active: u64,
    pub refresh: u64,
    /// The cycle from which on no bank is active, if no command comes.
    pub active_until: u64,
    /// The cycle from which on no refresh lasts.
    pub refresh_until: u64,
    /// The banks: bank b of group g stands at g * GROUP_BANKS + b.
    pub banks: [Activity; MOST_BANKS],
}

impl Background {
    /// Before the first command of a trace that begins in this cycle.
    pub fn open(start: u64) -> Background
        ensures { result ≡ new_background start }
    {
        Background {
            counted_to: start,
            active: 0,
            refresh: 0,
            active_until: 0,
            refresh_until: 0,
            banks: [Activity::NONE; MOST_BANKS],
        }
    }

    /// Follows a command of the rank.
    pub fn note(&mut self, timing: &Timing, geometry: &Geometry, entry: &Entry)
        requires group_in { group_of entry.now.command < MOST_GROUPS }
        requires bank_in { bank_of entry.now.command < GROUP_BANKS }
        ensures { self.new ≡ background_noted timing.now geometry.now entry.now self.old }
    {
        self.count_before(entry.cycle);
        self.follow(timing, geometry, entry);
    }

    /// The clocks before this cycle in which a bank is active, if no command comes.
    pub fn active_to(&self, end: u64) -> u64
        ensures { result ≡ active_to self.now end }
    {
        let active_until = self.active_until.min(end);
        self.active
            .saturating_add(active_until.saturating_sub(self.counted_to))
    }

    /// The clocks before this cycle in which the rank is refreshed and no bank is active, if no command comes.
    pub fn refresh_to(&self, end: u64) -> u64
        ensures { result ≡ refresh_to self.now end }
    {
        let refresh_until = self.refresh_until.min(end);
        let idle_from = self.counted_to.max(self.active_until);
        self.refresh
            .saturating_add(refresh_until.saturating_sub(idle_from))
    }

    /// Counts the clocks before this cycle.
    fn count_before(&mut self, cycle: u64)
        ensures { self.new ≡ counted_before cycle self.old }
    {
        let active = self.active_to(cycle);
        let refresh = self.refresh_to(cycle);
        self.active = active;
        self.refresh = refresh;
        self.counted_to = self.counted_to.max(cycle);
    }

    /// Follows what a command of the rank opens, closes or refreshes.
    fn follow(&mut self, timing: &Timing, geometry: &Geometry, entry: &Entry)
        requires group_in { group_of entry.now.command < MOST_GROUPS }
        requires bank_in { bank_of entry.now.command < GROUP_BANKS }
        ensures { self.new ≡ followed timing.now geometry.now entry.now self.old }
    {
        match entry.command {
            Command::Act { group, bank, .. }
            | Command::RdAuto { group, bank, .. }
            | Command::WrAuto { group, bank, .. }
            | Command::Pre { group, bank, .. } => {
                self.banks[number_in_rank(group, bank)].note(timing, entry);
                self.active_until = latest_until(geometry, &self.banks);
            }
            Command::PreAll { .. } => {
                self.banks = [Activity::NONE; MOST_BANKS];
                self.active_until = latest_until(geometry, &self.banks);
            }
            Command::Refresh { .. } => {
                let end = entry.cycle.saturating_add(u64::from(timing.rfc));
                self.refresh_until = self.refresh_until.max(end);
            }
            Command::Rd { .. } | Command::Wr { .. } => {}
        }
    }
}

/// The cycle from which on no bank of the geometry is active.
fn latest_until(geometry: &Geometry, banks: &[Activity; MOST_BANKS]) -> u64
    ensures { result ≡ latest_until geometry.now banks.now }
{
    let mut latest = 0;
    for number in 0..geometry.groups * GROUP_BANKS {
        latest = latest.max(banks[number as usize].until);
    }
    latest
}

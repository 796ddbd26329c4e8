//! How far a replay has come, on standard error.
//!
//! `ddr_replay` stands below, which tells it, and `main` above.
use ddr_replay::watch::Watch;
use std::time::Instant;

/// The least number of seconds between two lines.
const EACH: u64 = 1;

/// Tells on standard error, about each second, how many requests of a replay were served, and how many cycles were made.
#[derive(Drop)]
pub struct Progress<'a> {
    rt: &'a HostRuntime,
    /// When it was told last, or watched first.
    last: Option<Instant>,
}

impl<'a> Progress<'a> {
    /// Nothing was told yet.
    pub fn new(rt: &'a HostRuntime) -> Progress<'a> {
        Progress { rt, last: None }
    }
}

impl Watch for Progress<'_> {
    /// Where the clock can't be read nothing is told.
    fn told(&mut self, served: u128, cycles: u32) {
        let Ok(now) = Instant::now(self.rt) else {
            return;
        };
        let Some(last) = self.last else {
            self.last = Some(now);
            return;
        };
        if now.saturating_duration_since(last).as_secs() >= EACH {
            self.last = Some(now);
            let _ = eprintln!(self.rt; "ddr: {served} requests served, {cycles} cycles made");
        }
    }
}

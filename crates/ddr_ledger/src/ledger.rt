//! When requests were accepted, how they found their banks, how long those took whose replies were released, for how long ports waited,
//! what channels did in their cycles, and what their commands waited for.
//!
//! `times`, `rows`, `waited`, `activity`, `stalls`, `found` and `released` stand below, and `ddr_replay` above.
ghost use Rattle.std.specs.Prelude.{◌≡◌, [], ◌∷◌, ◌++◌, drop, length, replicate, slice_get, IfOk, OnOk, Some};
ghost use Rattle.ddr_ledger.specs.Activity.{no_activity};
ghost use Rattle.ddr_ledger.specs.Ledgers.{accepted_at, found_at, next_row, no_ledger, noted, oldest_found, served_of, times_at, with_accepted, with_acted, with_activity, with_column, with_command, with_finding, with_found, with_full, with_idled, with_outstanding, with_times, with_unissued, with_wait, with_window, without_found, without_oldest};
ghost use Rattle.ddr_ledger.specs.Rows.{no_rows};
ghost use Rattle.ddr_ledger.specs.Stalls.{no_stalls};
ghost use Rattle.ddr_ledger.specs.Times.{count_of, no_times};
ghost use Rattle.ddr_ledger.specs.Waited.{no_wait};

use crate::activity::{Activity, Seen};
use crate::found::Found;
use crate::released::ReleasedRequest;
use crate::rows::Rows;
use crate::stalls::Stalls;
use crate::times::{Accepted, Times};
use crate::waited::Waited;
use ddr_past::past::Past;
use ddr_reorder::reply::Service;
use ddr_statistics::counts::Finding;
use ddr_timing::config::Config;
use ddr_trace::command::{Command, Entry};
use ddr_world::event::Refusal;
use std::alloc::{AllocError, Global};
use std::collections::VecDeque;
use std::marker::Model;

/// The requests of a port that were accepted and whose replies weren't released, the oldest first.
#[derive(Drop)]
pub struct Outstanding {
    requests: VecDeque<Accepted>,
}

impl Model for Outstanding {
    ghost use Rattle.std.specs.Prelude.{List};
    ghost use Rattle.ddr_ledger.specs.declared.times.Accepted.{Accepted};

    ghost Value = { List Accepted };

    ghost view = { λ a. a.requests.items };
}

impl Outstanding {
    fn new(alloc: Global) -> Outstanding
        ensures { result ≡ [] }
    {
        Outstanding {
            requests: VecDeque::new(alloc),
        }
    }

    fn push(&mut self, accepted: Accepted) -> Result<(), AllocError>
        ensures { OnOk result (self.new ≡ self.old ++ accepted ∷ []) }
    {
        self.requests.push_back(accepted)?;
        Ok(())
    }

    fn len(&self) -> u64
        ensures { result ≡ length self.now }
    {
        self.requests.len() as u64
    }

    fn oldest(&self) -> Option<Accepted>
        ensures { result ≡ slice_get self.now 0 }
    {
        self.requests.front().copied()
    }

    fn pop(&mut self) -> Option<Accepted>
        ensures first { result ≡ slice_get self.old 0 }
        ensures rest { self.new ≡ drop 1 self.old }
    {
        self.requests.pop_front()
    }
}

/// The times of a replay's requests. Contracts see it as `Ledger`.
#[derive(Drop)]
pub struct Ledger {
    config: Config,
    accepted: Vec<Outstanding>,
    /// How those requests found their banks.
    found: Vec<Found>,
    /// How many there were of each port at the most.
    windows: Vec<u64>,
    total: Times,
    ports: Vec<Times>,
    /// How the reads and the writes of each port found their banks.
    rows: Vec<Rows>,
    /// For how many rounds each port waited.
    waited: Vec<Waited>,
    /// What each channel did in its cycles.
    activity: Vec<Activity>,
    /// What its commands waited for while requests were pending.
    stalls: Vec<Stalls>,
    /// Whether the requests whose replies were released are kept.
    keeps: bool,
    /// Those that were kept, which `teller` has: here they are for contracts alone.
    served: Past<ReleasedRequest>,
}

impl Model for Ledger {
    ghost use Rattle.ddr_ledger.specs.Ledgers.{Ledger};

    ghost Value = { Ledger };

    ghost view = { λ a. record { config = a.config; accepted = a.accepted.items; found = a.found.items; windows = a.windows.items; total = a.total; ports = a.ports.items; rows = a.rows.items; waited = a.waited.items; activity = a.activity.items; stalls = a.stalls.items; keeps = a.keeps; served = a.served.items } };
}

impl Ledger {
    /// That of the channels and ports of this configuration, before the first request. `keeps` says whether the requests whose replies are
    /// released are kept.
    pub fn open(alloc: Global, config: &Config, keeps: bool) -> Result<Ledger, AllocError>
        ensures { IfOk result (λ ledger. ledger ≡ no_ledger config.now keeps) }
    {
        let (channels, ports) = (config.geometry.channels, config.limits.ports);
        Ok(Ledger {
            config: *config,
            accepted: none_outstanding(alloc, ports)?,
            found: none_found(alloc, ports)?,
            windows: no_windows(alloc, ports)?,
            total: Times::NONE,
            ports: no_times(alloc, ports)?,
            rows: no_rows(alloc, ports)?,
            waited: no_waits(alloc, ports)?,
            activity: no_activity(alloc, channels)?,
            stalls: no_stalls(alloc, config)?,
            keeps,
            served: Past::new(),
        })
    }

    /// Notes that a request of a port was accepted.
    pub fn accept(&mut self, port: u32, accepted: Accepted) -> Result<(), AllocError>
        ensures accepted { OnOk result (self.new ≡ with_accepted port accepted self.old) }
        ensures served { self.new.served ≡ self.old.served }
    {
        self.push(port, accepted)?;
        self.push_found(port)?;
        self.widen(port);
        Ok(())
    }

    /// Takes a request more for outstanding.
    fn push(&mut self, port: u32, accepted: Accepted) -> Result<(), AllocError>
        ensures accepted { OnOk result (self.new ≡ with_outstanding port accepted self.old) }
        ensures served { self.new.served ≡ self.old.served }
    {
        if (port as usize) < self.accepted.len() {
            self.accepted[port as usize].push(accepted)?;
        }
        Ok(())
    }

    /// It is not issued yet.
    fn push_found(&mut self, port: u32) -> Result<(), AllocError>
        ensures found { OnOk result (self.new ≡ with_unissued port self.old) }
        ensures served { self.new.served ≡ self.old.served }
    {
        if (port as usize) < self.found.len() {
            self.found[port as usize].push()?;
        }
        Ok(())
    }

    /// Notes that so many requests of a port are outstanding as are now.
    fn widen(&mut self, port: u32)
        ensures { self.new ≡ with_window port self.old }
    {
        let count = self.outstanding(port);
        if (port as usize) < self.windows.len() {
            self.windows[port as usize] = self.windows[port as usize].max(count);
        }
    }

    /// How many requests of a port are outstanding.
    fn outstanding(&self, port: u32) -> u64
        ensures { result ≡ length (accepted_at self.now port) }
    {
        match self.accepted.get(port as usize) {
            Some(requests) => requests.len(),
            None => 0,
        }
    }

    /// Notes how the read or write that serves a port's request of this number found its bank.
    pub fn find(&mut self, port: u32, number: u64, command: &Command, found: Option<Finding>)
        ensures { self.new ≡ with_found port number command.now found self.old }
    {
        self.count(port, command, found);
        self.note_finding(port, number, found);
    }

    /// Counts a read or a write more of a port, which found its bank so.
    fn count(&mut self, port: u32, command: &Command, found: Option<Finding>)
        ensures { self.new ≡ with_column port command.now found self.old }
    {
        if (port as usize) < self.rows.len() {
            self.rows[port as usize].count(command, found);
        }
    }

    /// Notes how a port's request of this number found its bank, where requests are kept.
    fn note_finding(&mut self, port: u32, number: u64, found: Option<Finding>)
        ensures { self.new ≡ with_finding port number found self.old }
    {
        if !self.keeps {
            return;
        }
        let place = number.saturating_sub(self.count_at(port));
        if (port as usize) < self.found.len() {
            self.found[port as usize].note(place, found);
        }
    }

    /// Notes that a port waits in a round, since its request is refused so.
    pub fn wait(&mut self, port: u32, cause: Refusal)
        ensures { self.new ≡ with_wait port cause self.old }
    {
        if (port as usize) < self.waited.len() {
            self.waited[port as usize].refuse(cause);
        }
    }

    /// Notes that a port waits for its window in so many rounds.
    pub fn fill(&mut self, port: u32, rounds: u64)
        ensures { self.new ≡ with_full port rounds self.old }
    {
        if (port as usize) < self.waited.len() {
            self.waited[port as usize].fill(rounds);
        }
    }

    /// Notes so many cycles more of a channel, from `now` on, behind each of which this was seen of it.
    pub fn act(&mut self, channel: u32, now: u32, cycles: u64, seen: &Seen)
        ensures { self.new ≡ with_activity channel now cycles seen.now self.old }
    {
        self.count_cycles(channel, cycles, seen);
        self.idle(channel, now, cycles, seen.oldest);
    }

    /// Notes what a channel did in these cycles.
    fn count_cycles(&mut self, channel: u32, cycles: u64, seen: &Seen)
        ensures { self.new ≡ with_acted channel cycles seen.now self.old }
    {
        if (channel as usize) < self.activity.len() {
            self.activity[channel as usize].act(cycles, seen);
        }
    }

    /// Notes in which of these cycles it issued nothing though requests were pending.
    fn idle(&mut self, channel: u32, now: u32, cycles: u64, oldest: Option<u64>)
        ensures { self.new ≡ with_idled channel now cycles oldest self.old }
    {
        if (channel as usize) < self.stalls.len() {
            self.stalls[channel as usize].idle(now, cycles, oldest);
        }
    }

    /// Notes that a channel issues a command, in the cycle that it counts next.
    pub fn issue(&mut self, channel: u32, entry: &Entry)
        ensures { self.new ≡ with_command channel entry.now self.old }
    {
        if (channel as usize) < self.stalls.len() {
            self.stalls[channel as usize].issue(entry);
        }
    }

    /// Notes that the reply of a port's oldest request, which was served so, is released in that round.
    pub fn release(&mut self, port: u32, service: Service, round: u32)
        ensures { self.new ≡ noted port service round self.old }
    {
        if let Some(accepted) = self.take(port) {
            if self.keeps {
                let row = self.row_of(port, service, round, accepted);
                self.served = self.served.and(&row);
            }
            self.note(port, accepted, service.issued, round);
        }
        self.forget(port);
    }

    /// The port's oldest request, which was served so, and whose reply is released in that round, where requests are kept.
    pub fn next_row(&self, port: u32, service: Service, round: u32) -> Option<ReleasedRequest>
        ensures { result ≡ next_row port service round self.now }
    {
        if !self.keeps {
            return None;
        }
        let accepted = self.accepted.get(port as usize)?.oldest()?;
        Some(self.row_of(port, service, round, accepted))
    }

    /// That request of the port, with when it was accepted.
    fn row_of(&self, port: u32, service: Service, round: u32, accepted: Accepted) -> ReleasedRequest
        ensures { result ≡ served_of port service round accepted self.now }
    {
        ReleasedRequest {
            ask: accepted.ask,
            port,
            number: self.count_at(port),
            accepted: accepted.round,
            issued: service.issued,
            due: service.due,
            released: round,
            found: self.oldest_found(port),
        }
    }

    /// Forgets how the port's oldest request found its bank.
    fn forget(&mut self, port: u32)
        ensures { self.new ≡ without_found port self.old }
    {
        if (port as usize) < self.found.len() {
            self.found[port as usize].pop();
        }
    }

    /// How many replies the port released.
    fn count_at(&self, port: u32) -> u64
        ensures { result ≡ count_of (times_at self.now port) }
    {
        match self.ports.get(port as usize) {
            Some(times) => times.count(),
            None => 0,
        }
    }

    /// How the port's oldest request found its bank.
    fn oldest_found(&self, port: u32) -> Option<Finding>
        ensures { result ≡ oldest_found (found_at self.now port) }
    {
        self.found.get(port as usize)?.oldest()
    }

    /// Takes the port's oldest request.
    fn take(&mut self, port: u32) -> Option<Accepted>
        ensures first { result ≡ slice_get (accepted_at self.old port) 0 }
        ensures rest { self.new ≡ without_oldest port self.old }
    {
        if (port as usize) < self.accepted.len() {
            self.accepted[port as usize].pop()
        } else {
            None
        }
    }

    /// Notes the times of a request.
    fn note(&mut self, port: u32, accepted: Accepted, issued: u64, round: u32)
        ensures { self.new ≡ with_times port issued round accepted self.old }
    {
        self.total.note(accepted, issued, round);
        if (port as usize) < self.ports.len() {
            self.ports[port as usize].note(accepted, issued, round);
        }
    }

    /// How many requests of each port were outstanding at the most.
    pub fn windows(&self) -> &[u64]
        ensures { result.now ≡ self.now.windows }
    {
        self.windows.as_slice()
    }

    /// The times of all ports together.
    pub fn total(&self) -> &Times
        ensures { result.now ≡ self.now.total }
    {
        &self.total
    }

    /// How the reads and the writes of each port found their banks.
    pub fn rows(&self) -> &[Rows]
        ensures { result.now ≡ self.now.rows }
    {
        self.rows.as_slice()
    }

    /// For how many rounds each port waited.
    pub fn waited(&self) -> &[Waited]
        ensures { result.now ≡ self.now.waited }
    {
        self.waited.as_slice()
    }

    /// What each channel did in its cycles.
    pub fn activity(&self) -> &[Activity]
        ensures { result.now ≡ self.now.activity }
    {
        self.activity.as_slice()
    }

    /// What each channel's commands waited for while requests were pending.
    pub fn stalls(&self) -> &[Stalls]
        ensures { result.now ≡ self.now.stalls }
    {
        self.stalls.as_slice()
    }

    /// The times of each port.
    pub fn ports(&self) -> &[Times]
        ensures { result.now ≡ self.now.ports }
    {
        self.ports.as_slice()
    }
}

/// Of so many ports, none of which has an accepted request.
fn none_outstanding(alloc: Global, ports: u32) -> Result<Vec<Outstanding>, AllocError>
    ensures { IfOk result (λ v. v.items ≡ replicate ports []) }
{
    let mut all = Vec::new(alloc);
    for _ in 0..ports {
        all.push(Outstanding::new(alloc))?;
    }
    Ok(all)
}

/// Of so many ports, none of which has a request.
fn none_found(alloc: Global, ports: u32) -> Result<Vec<Found>, AllocError>
    ensures { IfOk result (λ v. v.items ≡ replicate ports []) }
{
    let mut all = Vec::new(alloc);
    for _ in 0..ports {
        all.push(Found::new(alloc))?;
    }
    Ok(all)
}

/// Of so many ports, none of which had an outstanding request.
fn no_windows(alloc: Global, ports: u32) -> Result<Vec<u64>, AllocError>
    ensures { IfOk result (λ v. v.items ≡ replicate ports 0) }
{
    let mut all = Vec::new(alloc);
    for _ in 0..ports {
        all.push(0)?;
    }
    Ok(all)
}

/// Of so many ports, whose requests took no time yet.
fn no_times(alloc: Global, ports: u32) -> Result<Vec<Times>, AllocError>
    ensures { IfOk result (λ v. v.items ≡ replicate ports no_times) }
{
    let mut all = Vec::new(alloc);
    for _ in 0..ports {
        all.push(Times::NONE)?;
    }
    Ok(all)
}

/// Of so many ports, none of whose requests was read or written yet.
fn no_rows(alloc: Global, ports: u32) -> Result<Vec<Rows>, AllocError>
    ensures { IfOk result (λ v. v.items ≡ replicate ports no_rows) }
{
    let mut all = Vec::new(alloc);
    for _ in 0..ports {
        all.push(Rows::NONE)?;
    }
    Ok(all)
}

/// Of so many channels, which made no cycle yet.
fn no_activity(alloc: Global, channels: u32) -> Result<Vec<Activity>, AllocError>
    ensures { IfOk result (λ v. v.items ≡ replicate channels no_activity) }
{
    let mut all = Vec::new(alloc);
    for _ in 0..channels {
        all.push(Activity::NONE)?;
    }
    Ok(all)
}

/// Of the channels of this configuration, none of which made a cycle yet.
fn no_stalls(alloc: Global, config: &Config) -> Result<Vec<Stalls>, AllocError>
    ensures { IfOk result (λ v. v.items ≡ replicate config.now.geometry.channels (no_stalls config.now)) }
{
    let mut all = Vec::new(alloc);
    for _ in 0..config.geometry.channels {
        all.push(Stalls::open(alloc, config)?)?;
    }
    Ok(all)
}

/// Of so many ports, which didn't wait yet.
fn no_waits(alloc: Global, ports: u32) -> Result<Vec<Waited>, AllocError>
    ensures { IfOk result (λ v. v.items ≡ replicate ports no_wait) }
{
    let mut all = Vec::new(alloc);
    for _ in 0..ports {
        all.push(Waited::NONE)?;
    }
    Ok(all)
}

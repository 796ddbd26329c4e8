//! Intervals of so many cycles, with the requests that were complete in each.
//!
//! `timed` stands below, and `series` above.
ghost use Rattle.std.specs.Prelude.{◌≡◌, ◌<◌, IfOk, OnOk, length, replicate};
ghost use Rattle.ddr_measure.specs.Intervals.{burst_of, count_of, last_done};
ghost use Rattle.ddr_measure.specs.Noting.{AreIntervals, no_interval, with_clock, with_clocks, with_request};

use crate::timed::Timed;
use std::alloc::{AllocError, Global};
use std::marker::Model;

/// What is kept of an interval.
#[derive(Drop)]
pub struct Interval {
    /// The requests that were complete in it, in their order.
    pub requests: Vec<Timed>,
    /// How many of its clocks had a burst, of all data buses together. Stops at the last number that a `u64` holds.
    pub busy: u64,
}

impl Model for Interval {
    ghost use Rattle.ddr_measure.specs.Intervals.{Interval};

    ghost Value = { Interval };

    ghost view = { λ a. record { requests = a.requests.items; busy = a.busy } };
}

impl Interval {
    fn new(alloc: Global) -> Interval
        ensures { result ≡ no_interval }
    {
        Interval {
            requests: Vec::new(alloc),
            busy: 0,
        }
    }
}

/// The intervals of so many cycles, up to the last in which one of these requests was complete.
pub(crate) fn intervals_of(
    alloc: Global,
    every: u64,
    requests: &[Timed],
) -> Result<Vec<Interval>, AllocError>
    requires { 0 < every }
    ensures count { IfOk result (λ v. length v.items ≡ count_of every requests.now) }
    ensures each { IfOk result (λ v. AreIntervals every requests.now v.items) }
{
    let mut intervals = empty_intervals(alloc, every, requests)?;
    for request in requests {
        add_request(&mut intervals, request.done / every, request)?;
        add_burst(&mut intervals, every, request);
    }
    Ok(intervals)
}

/// As many intervals, without requests.
fn empty_intervals(
    alloc: Global,
    every: u64,
    requests: &[Timed],
) -> Result<Vec<Interval>, AllocError>
    requires { 0 < every }
    ensures { IfOk result (λ v. v.items ≡ replicate (count_of every requests.now) no_interval) }
{
    let mut intervals = Vec::new(alloc);
    if requests.is_empty() {
        return Ok(intervals);
    }
    for _ in 0..last_done(requests) / every {
        intervals.push(Interval::new(alloc))?;
    }
    intervals.push(Interval::new(alloc))?;
    Ok(intervals)
}

/// The last cycle in which one of them was complete, 0 where there is none.
fn last_done(requests: &[Timed]) -> u64
    ensures { result ≡ last_done requests.now }
{
    let mut last: u64 = 0;
    for request in requests {
        last = last.max(request.done);
    }
    last
}

/// Notes a request as complete in the interval of this number, where that is there.
fn add_request(intervals: &mut Vec<Interval>, at: u64, request: &Timed) -> Result<(), AllocError>
    ensures { OnOk result (intervals.new.items ≡ with_request at request.now intervals.old.items) }
{
    if at < intervals.len() as u64 {
        intervals[at as usize].requests.push(*request)?;
    }
    Ok(())
}

/// Notes the clocks of a request's burst in their intervals.
fn add_burst(intervals: &mut Vec<Interval>, every: u64, request: &Timed)
    requires { 0 < every }
    ensures { intervals.new.items ≡ with_clocks every (burst_of request.now) intervals.old.items }
{
    add_clock(intervals, every, request.done.saturating_sub(4));
    add_clock(intervals, every, request.done.saturating_sub(3));
    add_clock(intervals, every, request.done.saturating_sub(2));
    add_clock(intervals, every, request.done.saturating_sub(1));
}

/// Notes a clock of a burst, where its interval is there.
fn add_clock(intervals: &mut Vec<Interval>, every: u64, clock: u64)
    requires { 0 < every }
    ensures { intervals.new.items ≡ with_clock every clock intervals.old.items }
{
    let at = clock / every;
    if at < intervals.len() as u64 {
        let busy = intervals[at as usize].busy;
        intervals[at as usize].busy = busy.saturating_add(1);
    }
}

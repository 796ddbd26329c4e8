//! The reorder buffer: a ring of outstanding numbers, and the boxes of their lines.
ghost use Rattle.std.specs.Prelude.{◌≡◌, ◌+◌, ◌≤◌, IfSome, is_ok, IfErr, IfOk, OnErr, OnOk, OnSome, IfNone, length};
ghost use Rattle.std.specs.Option.{option_map};
ghost use Rattle.std.specs.Result.{result_err};
ghost use Rattle.ddr_timing.specs.declared.units.TheConstants.{MOST_OUTSTANDING};
ghost use Rattle.ddr_reorder.specs.Replies.{front_number, lent_count, lent_service, nth_answer, nth_service, ready_count, said, served_answer, served_service};
ghost use Rattle.ddr_reorder.specs.Sound.{IsSound};
ghost use Rattle.ddr_reorder.specs.State.{ReorderState, IsWithinLine, opened, issue_refusal, after_issue, IsRecallable, after_recall, awaits, after_fill, after_release};

use crate::refusal::{ReorderError, Stray};
use crate::reply::{Reply, Service};
use crate::slot::{Returned, Slot, filled_prefix, pop_newest, push, put_line};
use circular_buffer::HeapCircularBuffer;
use ddr_address_map::request::{Echo, Line};
use ddr_timing::units::{CLOCK_STOP, LINE_BYTES};
use std::alloc::{AllocError, Global};
use std::marker::Model;

/// The outstanding numbers of one port, each from its `issue` to its `release`.
///
/// Contracts see the window, the next number and the outstanding list: each number with its echo and,
/// once it has come back, its line and the cycles in which it was served. All boxes are made at `open`, and no other call takes memory.
#[derive(Drop)]
pub struct Reorder {
    next: u64,
    // The oldest first, with room for the window.
    slots: HeapCircularBuffer<Slot>,
    // How many of the oldest have their lines.
    ready: usize,
    // A box for each number that may still be issued.
    spares: Vec<Box<Line>>,
}

impl Model for Reorder {
    ghost use Rattle.ddr_reorder.specs.State.{ReorderState};

    ghost Value = { ReorderState };

    ghost use Rattle.ddr_reorder.specs.View.{state_of, IsWhole};

    ghost view = { state_of };

    ghost invariant = { IsWhole };
}

impl Reorder {
    /// A reorder buffer with nothing outstanding, whose first number is `first`. `window` is the most
    /// numbers that may be outstanding at a time. Fails only where memory is refused.
    pub fn open(alloc: Global, window: usize, first: u64) -> Result<Reorder, AllocError>
        requires window { (1 ≤ window) × (window ≤ MOST_OUTSTANDING) }
        requires first { first ≤ CLOCK_STOP }
        ensures state { IfOk result (λ r. r ≡ opened window first) }
        ensures sound { IfOk result IsSound }
    {
        let slots = HeapCircularBuffer::with_capacity(alloc, window)?;
        let mut spares = Vec::with_capacity(alloc, window)?;
        for _ in 0..window {
            spares.push(Box::new(alloc, [0; LINE_BYTES])?)?;
        }
        Ok(Reorder {
            next: first,
            slots,
            ready: 0,
            spares,
        })
    }

    /// The oldest outstanding number, or the next one where none is outstanding.
    fn first(&self) -> u64
        ensures { result + length self.now.outstanding ≡ self.now.next }
    {
        self.next - self.slots.len() as u64
    }

    /// Issues the next number for a request that asks for this, with a box for its line, or says why
    /// not. What the box holds is left open.
    pub fn issue(&mut self, echo: Echo) -> Result<(u64, Box<Line>), ReorderError>
        requires { IsWithinLine echo }
        ensures refused { result_err result ≡ issue_refusal self.old }
        ensures number { IfOk result (λ issued. issued.0 ≡ self.old.next) }
        ensures ok { OnOk result (self.new ≡ after_issue echo self.old) }
        ensures newest { IfOk result (λ issued. IsRecallable self.new issued.0) }
        ensures err { OnErr result (self.new ≡ self.old) }
        ensures sound { IsSound self.new }
    {
        if self.next == CLOCK_STOP {
            return Err(ReorderError::Spent);
        }
        if self.slots.is_full() {
            return Err(ReorderError::WindowFull);
        }
        let number = self.next;
        let line = self.spares.pop().unwrap();
        push(&mut self.slots, echo);
        self.next += 1;
        Ok((number, line))
    }

    /// Takes the newest number back, whose line has not come back. The next `issue` gives it again.
    pub fn recall(&mut self, number: u64, line: Box<Line>)
        requires { IsRecallable self.old number }
        ensures state { self.new ≡ after_recall self.old }
        ensures undone { (before : ReorderState) (echo : Echo) → self.old ≡ after_issue echo before → self.new ≡ before }
        ensures sound { IsSound self.new }
    {
        pop_newest(&mut self.slots);
        self.spares.push(line).unwrap();
        self.next = number;
    }

    /// Puts the line of an outstanding number in its place, with the cycles in which it was served. The line is
    /// handed back where no outstanding number with this echo waits for it.
    pub fn fill(
        &mut self,
        number: u64,
        echo: Echo,
        service: Service,
        line: Box<Line>,
    ) -> Result<(), (Box<Line>, Stray)>
        ensures awaited { is_ok result ≡ awaits self.old number echo }
        ensures ok { OnOk result (self.new ≡ after_fill number service line.value self.old) }
        ensures err { IfErr result (λ back. (back.0 ≡ line) × (self.new ≡ self.old)) }
        ensures sound { IsSound self.new }
    {
        let Some(index) = number.checked_sub(self.first()) else {
            return Err((line, Stray));
        };
        let returned = Returned { service, line };
        match put_line(&mut self.slots, index as usize, echo, returned) {
            Ok(()) => {
                self.ready = filled_prefix(&self.slots, self.ready);
                Ok(())
            }
            Err(back) => Err((back.line, Stray)),
        }
    }

    /// The oldest reply, where it is ready.
    pub fn front(&self) -> Option<Reply<'_>>
        ensures answer { option_map said result ≡ nth_answer self.now 0 }
        ensures service { option_map lent_service result ≡ nth_service self.now 0 }
        ensures oldest { IfSome result (λ reply. reply.number + length self.now.outstanding ≡ self.now.next) }
        ensures count { IfSome result (λ reply. length reply.bytes.now ≡ lent_count reply.echo) }
        ensures sound { IsSound self.now }
    {
        self.nth(0)
    }

    /// The reply with so many older ones. It is there exactly where it and all older ones are ready.
    pub fn nth(&self, k: usize) -> Option<Reply<'_>>
        ensures answer { option_map said result ≡ nth_answer self.now k }
        ensures service { option_map lent_service result ≡ nth_service self.now k }
        ensures place { IfSome result (λ reply. reply.number + length self.now.outstanding ≡ self.now.next + k) }
        ensures count { IfSome result (λ reply. length reply.bytes.now ≡ lent_count reply.echo) }
        ensures sound { IsSound self.now }
    {
        if k >= self.ready {
            return None;
        }
        let number = self.first() + k as u64;
        let slot = self.slots.get(k)?;
        slot.reply(number)
    }

    /// The reply of an outstanding number once its line has come back, whether or not older ones are ready. It is `None` also where
    /// the number isn't outstanding.
    pub fn served(&self, number: u64) -> Option<Reply<'_>>
        ensures answer { option_map said result ≡ served_answer self.now number }
        ensures service { option_map lent_service result ≡ served_service self.now number }
        ensures number { IfSome result (λ reply. reply.number ≡ number) }
        ensures count { IfSome result (λ reply. length reply.bytes.now ≡ lent_count reply.echo) }
        ensures sound { IsSound self.now }
    {
        let slots = &self.slots;
        let index = number.checked_sub(self.first())?;
        let outstanding = slots.get(index as usize)?;
        outstanding.reply(number)
    }

    /// How many replies are ready: the oldest numbers, up to the first whose line has not come back.
    pub fn ready(&self) -> usize
        ensures count { result ≡ ready_count self.now }
        ensures sound { IsSound self.now }
    {
        self.ready
    }

    /// Gives up the oldest reply, where it is ready, and tells its number.
    pub fn release(&mut self) -> Option<u64>
        ensures number { result ≡ front_number self.old }
        ensures oldest { IfSome result (λ number. number + length self.old.outstanding ≡ self.old.next) }
        ensures some { OnSome result (self.new ≡ after_release self.old) }
        ensures none { IfNone result (self.new ≡ self.old) }
        ensures sound { IsSound self.new }
    {
        if self.ready == 0 {
            return None;
        }
        let number = self.first();
        let slot = self.slots.pop_front().unwrap();
        self.spares.push(slot.returned.unwrap().line).unwrap();
        self.ready -= 1;
        Some(number)
    }

    /// How many numbers are outstanding.
    pub fn outstanding(&self) -> usize
        ensures count { result ≡ length self.now.outstanding }
        ensures sound { IsSound self.now }
    {
        self.slots.len()
    }
}

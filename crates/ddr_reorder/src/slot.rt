//! What is known of one outstanding number, and steps on the ring of them.
ghost use Rattle.std.specs.Prelude.{◌≡◌, ◌+◌, ◌-◌, ◌<◌, ◌≤◌, ◌∷◌, ◌++◌, [], length, take, Some, false, None, is_none, is_ok, IfSome, OnOk, IfErr, slice_get, slice_set};
ghost use Rattle.std.specs.List.{prefix_len};
ghost use Rattle.std.specs.Option.{option_copied, option_map, option_map_or};
ghost use Rattle.circular_buffer.specs.Buffer.{buffer};
ghost use Rattle.ddr_reorder.specs.Replies.{answer_of, lent_bytes, lent_count, lent_service, said};
ghost use Rattle.ddr_reorder.specs.State.{IsWithinLine};
ghost use Rattle.ddr_reorder.specs.View.{has_line, outstanding_of, waits_for};

use crate::reply::{Reply, Service};
use circular_buffer::HeapCircularBuffer;
use ddr_address_map::request::{Echo, Kind, Line};
use ddr_timing::units::LINE_BYTES;

/// What comes back of a request: its line, and when it was served.
#[derive(Debug, Drop)]
pub struct Returned {
    pub service: Service,
    pub line: Box<Line>,
}

impl Returned {
    /// What is lent of the line for this echo: for a read the bytes asked for, for a write none.
    fn bytes(&self, echo: Echo) -> &[u8]
        requires { IsWithinLine echo }
        ensures lent { result.now ≡ lent_bytes echo self.now.line.value }
        ensures count { length result.now ≡ lent_count echo }
    {
        let offset = (echo.addr % LINE_BYTES as u64) as usize;
        match echo.kind {
            Kind::Read => &self.line[offset..offset + echo.len as usize],
            Kind::Write => &self.line[..0],
        }
    }
}

/// An outstanding number's echo, and what came back for it.
#[derive(Debug, Drop)]
pub struct Slot {
    pub echo: Echo,
    pub returned: Option<Returned>,
}

impl Slot {
    /// Whether the line for this echo has yet to come back.
    fn waits_for(&self, echo: Echo) -> bool
        ensures { result ≡ waits_for echo self.now }
    {
        self.echo == echo && self.returned.is_none()
    }

    /// The reply under this number, once the line has come back.
    pub fn reply(&self, number: u64) -> Option<Reply<'_>>
        requires { IsWithinLine self.now.echo }
        ensures answer { option_map said result ≡ answer_of (outstanding_of number self.now) }
        ensures service { option_map lent_service result ≡ (outstanding_of number self.now).service }
        ensures number { IfSome result (λ reply. reply.number ≡ number) }
        ensures count { IfSome result (λ reply. length reply.bytes.now ≡ lent_count reply.echo) }
    {
        let returned = self.returned.as_ref()?;
        Some(Reply {
            number,
            echo: self.echo,
            issued: returned.service.issued,
            due: returned.service.due,
            bytes: returned.bytes(self.echo),
        })
    }
}

/// Adds a number whose line has yet to come back, where there is room.
pub fn push(slots: &mut HeapCircularBuffer<Slot>, echo: Echo)
    requires { length slots.old.items < slots.old.capacity }
    ensures { slots.new ≡ buffer (slots.old.items ++ record { echo = echo; returned = None } ∷ []) slots.old.capacity }
{
    let _ = slots.try_push_back(Slot {
        echo,
        returned: None,
    });
}

/// Gives up the newest slot, if there is one.
pub fn pop_newest(slots: &mut HeapCircularBuffer<Slot>)
    ensures { slots.new ≡ buffer (take (length slots.old.items - 1) slots.old.items) slots.old.capacity }
{
    let _ = slots.pop_back();
}

/// Puts what came back into the slot at the index, or hands it back where that slot doesn't wait for it.
pub fn put_line(
    slots: &mut HeapCircularBuffer<Slot>,
    index: usize,
    echo: Echo,
    returned: Returned,
) -> Result<(), Returned>
    ensures waited { is_ok result ≡ option_map_or (waits_for echo) (slice_get slots.old.items index) false }
    ensures ok { OnOk result (slots.new ≡ buffer (slice_set slots.old.items index (record { echo = echo; returned = Some returned })) slots.old.capacity) }
    ensures err { IfErr result (λ back. (back ≡ returned) × (slots.new ≡ slots.old)) }
{
    match slots.get_mut(index) {
        Some(slot) if slot.waits_for(echo) => {
            slot.returned = Some(returned);
            Ok(())
        }
        _ => Err(returned),
    }
}

/// Whether there is a slot at the index, and its line has come back.
fn is_filled(slots: &HeapCircularBuffer<Slot>, index: usize) -> bool
    ensures { result ≡ option_map_or has_line (slice_get slots.now.items index) false }
{
    match slots.get(index) {
        Some(slot) => slot.returned.is_some(),
        None => false,
    }
}

/// How many of the oldest slots have their lines, where so many are known to.
pub fn filled_prefix(slots: &HeapCircularBuffer<Slot>, known: usize) -> usize
    requires { known ≤ prefix_len has_line slots.now.items }
    ensures { result ≡ prefix_len has_line slots.now.items }
{
    let len = slots.len();
    for index in known..len {
        if !is_filled(slots, index) {
            return index;
        }
    }
    len
}

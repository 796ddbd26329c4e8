//! Steps on the bounded queues of a channel.
ghost use Rattle.std.specs.Prelude.{◌≡◌, ◌+◌, ◌<◌, ◌≤◌, ◌==◌, not, List, [], ◌∷◌, ◌++◌, length, filter};
ghost use Rattle.circular_buffer.specs.Buffer.{buffer};
ghost use Rattle.ddr_channel.specs.Sound.{AreDue};

use circular_buffer::HeapCircularBuffer;
use ddr_address_map::request::Done;

/// Adds an item to a queue that has room.
pub(crate) fn push<T: Drop>(queue: &mut HeapCircularBuffer<T>, item: T)
    requires { length queue.old.items < queue.old.capacity }
    ensures { queue.new ≡ buffer (queue.old.items ++ item ∷ []) queue.old.capacity }
{
    let _ = queue.try_push_back(item);
}

/// Moves the completion that is due now, if there is one, from the flight to the done.
pub(crate) fn complete(
    flight: &mut HeapCircularBuffer<Done>,
    done: &mut HeapCircularBuffer<Done>,
    now: u64,
)
    requires due { AreDue now flight.old.items }
    requires room { length flight.old.items + length done.old.items ≤ done.old.capacity }
    ensures flight { flight.new ≡ buffer (filter (λ d. not (d.due == now)) flight.old.items) flight.old.capacity }
    ensures done { done.new ≡ buffer (done.old.items ++ filter (λ d. d.due == now) flight.old.items) done.old.capacity }
{
    let Some(first) = flight.front() else {
        return;
    };
    if first.due != now {
        return;
    }
    if let Some(first) = flight.pop_front() {
        push(done, first);
    }
}

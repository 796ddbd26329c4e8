//! What is asked of the ends of ports and of workers before they are closed, and their order.
//!
//! Nothing of the crate stands below. `port` and `worker`, whose ends these are, say by `Numbered` what is asked of one,
//! and `closing` asks.
ghost use Rattle.std.specs.Prelude.{◌≡◌, ℕ, ◌==◌, not, IsPermutation};
ghost use Rattle.std.specs.List.{list_any};
ghost use Rattle.std.specs.List.Sorted.{IsNonDecreasingBy};
ghost use Rattle.ddr_workers.specs.Closing.{has_each, has_number, has_twice};

/// The end of a port or of a worker.
pub trait Numbered {
    /// What tells the call of `open` that it comes from.
    ghost id_of: { Self → ℕ };
    /// Which port or channel it is of.
    ghost number_of: { Self → ℕ };
    /// To how many channels or ports it leads.
    ghost reach_of: { Self → ℕ };

    fn id(&self) -> u64
        ensures { result ≡ id_of self.now };

    fn number(&self) -> u32
        ensures { result ≡ number_of self.now };

    fn reach(&self) -> usize
        ensures { result ≡ reach_of self.now };
}

/// Whether one of them carries another id.
pub fn has_other_id<E: Numbered>(ends: &[E], id: u64) -> bool
    ensures { result ≡ list_any (λ e. not (E.id_of e == id)) ends.now }
{
    ends.iter().any(|end| end.id() != id)
}

/// Whether one of them has this number.
fn has_number<E: Numbered>(ends: &[E], number: usize) -> bool
    ensures { result ≡ has_number E.number_of number ends.now }
{
    ends.iter().any(|end| end.number() as usize == number)
}

/// Whether two of them have the same number.
pub fn has_twice<E: Numbered>(ends: &[E]) -> bool
    ensures { result ≡ has_twice E.number_of ends.now }
{
    for place in 0..ends.len() {
        if has_number(&ends[place + 1..], ends[place].number() as usize) {
            return true;
        }
    }
    false
}

/// Whether each number below this one is that of one of them.
fn has_each<E: Numbered>(ends: &[E], count: usize) -> bool
    ensures { result ≡ has_each E.number_of count ends.now }
{
    (0..count).all(|number| has_number(ends, number))
}

/// Whether one of them leads to where no end of the other kind is.
pub fn misses_some<E: Numbered, F: Numbered>(ends: &[E], others: &[F]) -> bool
    ensures { result ≡ list_any (λ e. not (has_each F.number_of (E.reach_of e) others.now)) ends.now }
{
    ends.iter().any(|end| !has_each(others, end.reach()))
}

/// Puts them in the order of their numbers.
pub fn put_in_order<E: Numbered>(ends: &mut Vec<E>)
    ensures same { IsPermutation ends.old.items ends.new.items }
    ensures order { IsNonDecreasingBy E.number_of ends.new.items }
{
    ends.sort_unstable_by_key(|end| end.number());
}

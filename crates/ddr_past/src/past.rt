//! What came so far, for contracts alone.
ghost use Rattle.std.specs.Prelude.{◌≡◌, List, [], ◌∷◌, ◌++◌};
ghost use Rattle.std.specs.Borrow.{ftrue};

use std::marker::{Model, PhantomData};

/// The items that came so far, first to last, as `items` of a clause. At run time it has no bytes, and its methods do nothing.
///
/// Nothing in memory says what the items are: a struct that keeps a `Past` ties it to its other fields by its own invariant, and no
/// promise on a public call speaks of a `Past` alone.
#[derive(Drop)]
pub struct Past<T> {
    kind: PhantomData<T>,
    pub ghost items: { List T },
}

impl<T> Model for Past<T> {
    ghost also_owns = { λ _. ftrue };
}

// It owns nothing, so it goes to another thread as its items would.
unsafe impl<T: Send> Send for Past<T> {}

impl<T> Past<T> {
    /// Before the first item.
    pub fn new() -> Past<T>
        ensures { result.items ≡ [] }
    {
        Past { kind: PhantomData }
    }

    /// The same with one item more, at the end.
    pub fn and(&self, item: &T) -> Past<T>
        ensures { result.items ≡ self.now.items ++ item.now ∷ [] }
    {
        Past { kind: PhantomData }
    }
}

//! What C holds of a judge: a struct of two words, zeroed at first, with whether it is open. Contracts see the judge.
//!
//! `handle` and `ddr_loose` stand below, and `lib` above. An export takes the box out, calls, and puts it back.
ghost use Rattle.std.specs.Prelude.{◌≡◌, None, Some, is_some};
ghost use Rattle.std.specs.Option.{option_map};

use crate::handle::Handle;
use crate::judge::Judge;
use ddr_loose::loose::Loose;
use std::alloc::Global;

/// A judge that C holds, or none. C zeroes it before the first call, never copies it and changes nothing in it.
#[repr(C)]
#[derive(Drop)]
pub struct Slot {
    pub full: bool,
    pub handle: Handle,
    ghost agrees: { full ≡ is_some handle.holds },
}

impl Slot {
    /// Whether it holds a judge.
    pub(crate) fn is_open(&self) -> bool
        ensures { result ≡ is_some self.now.handle.holds }
    {
        self.full
    }

    /// Holds a judge.
    fn of(judge: Box<Judge>) -> Slot
        ensures { result.handle.holds ≡ Some judge.value }
    {
        Slot {
            full: true,
            handle: Handle::of(Loose::of(judge)),
        }
    }

    /// Takes the judge out, if there is one.
    pub(crate) fn take(&mut self, alloc: Global) -> Option<Box<Judge>>
        ensures judge { option_map (λ judge. judge.value) result ≡ self.old.handle.holds }
        ensures empty { self.new.handle.holds ≡ None }
    {
        let empty = Slot {
            full: false,
            handle: Handle::empty(alloc),
        };
        let Slot { full, handle } = std::mem::replace(self, empty);
        if full {
            Some(handle.into_loose().into_box())
        } else {
            None
        }
    }

    /// Puts a judge in, where there is none.
    pub(crate) fn put(&mut self, judge: Box<Judge>)
        requires { self.old.handle.holds ≡ None }
        ensures { self.new.handle.holds ≡ Some judge.value }
    {
        *self = Slot::of(judge);
    }
}

//! What C holds of a core: a struct of two words, zeroed at first, with whether it is open. Contracts see the core.
//!
//! `handle` and `ddr_loose` stand below, and `lib` above. An export takes the box out, calls, and puts it back.
ghost use Rattle.std.specs.Prelude.{◌≡◌, None, Some, is_some};
ghost use Rattle.std.specs.Option.{option_map};

use crate::handle::Handle;
use crate::host::Core;
use ddr_loose::loose::Loose;
use std::alloc::Global;

/// A core that C holds, or none. C zeroes it before the first call, never copies it and changes nothing in it.
#[repr(C)]
#[derive(Drop)]
pub struct Slot {
    pub full: bool,
    pub handle: Handle,
    ghost agrees: { full ≡ is_some handle.holds },
}

impl Slot {
    /// Whether it holds a core.
    pub(crate) fn is_open(&self) -> bool
        ensures { result ≡ is_some self.now.handle.holds }
    {
        self.full
    }

    /// Holds a core.
    fn of(core: Box<Core>) -> Slot
        ensures { result.handle.holds ≡ Some core.value }
    {
        Slot {
            full: true,
            handle: Handle::of(Loose::of(core)),
        }
    }

    /// Takes the core out, if there is one.
    pub(crate) fn take(&mut self, alloc: Global) -> Option<Box<Core>>
        ensures core { option_map (λ core. core.value) result ≡ self.old.handle.holds }
        ensures empty { self.new.handle.holds ≡ None }
    {
        let empty = Slot {
            full: false,
            handle: Handle::empty(alloc),
        };
        let Slot { full, handle } = std::mem::replace(self, empty);
        if full {
            Some(handle.into_loose().into_box())
        } else {
            None
        }
    }

    /// Puts a core in, where there is none.
    pub(crate) fn put(&mut self, core: Box<Core>)
        requires { self.old.handle.holds ≡ None }
        ensures { self.new.handle.holds ≡ Some core.value }
    {
        *self = Slot::of(core);
    }
}

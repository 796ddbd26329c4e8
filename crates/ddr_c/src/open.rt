//! Opening a core from a configuration's text.
//!
//! `host` and `slot` stand below, and `ddr_loose`, which reads the text; `lib` above.
ghost use Rattle.std.specs.Prelude.{◌≡◌, None};
ghost use Rattle.ddr_c.specs.Calls.{held_in};
ghost use Rattle.ddr_c.specs.Opens.{IsOpened, IsOpening, IsShown};

use crate::codes::{CONFIG, NO_MEMORY, OK};
use crate::host::Core;
use crate::slot::Slot;
use ddr_loose::text::{Unread, read_config};
use ddr_timing::config::Config;
use std::alloc::Global;

/// Opens a core in a closed slot, with or without the traces of its channels. A refusal's text is copied as far as it fits, and its whole
/// length told.
pub(crate) fn open(
    alloc: Global,
    slot: &mut Slot,
    traces: bool,
    text: &[u8],
    message: &mut [u8],
    length: &mut u64,
) -> i32
    requires { held_in slot.old ≡ None }
    ensures opened { IsOpening traces text.now result (held_in slot.new) }
    ensures shown { IsShown result message.old message.new length.old length.new }
{
    match read_config(alloc, text, message, length) {
        Ok(config) => opened(alloc, slot, &config, traces),
        Err(Unread::Refused) => CONFIG,
        Err(Unread::OutOfMemory) => NO_MEMORY,
    }
}

/// Opens a core of a configuration.
fn opened(alloc: Global, slot: &mut Slot, config: &Config, traces: bool) -> i32
    requires { held_in slot.old ≡ None }
    ensures { IsOpened traces config.now result (held_in slot.new) }
{
    let Ok(core) = Core::open(alloc, config, traces) else {
        return NO_MEMORY;
    };
    match Box::new(alloc, core) {
        Ok(core) => {
            slot.put(core);
            OK
        }
        Err(_) => NO_MEMORY,
    }
}

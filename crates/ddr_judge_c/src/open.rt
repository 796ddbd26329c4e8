//! Opening a judge from a configuration's text.
//!
//! `judge` and `slot` stand below, and `ddr_loose`, which reads the text; `lib` above.
ghost use Rattle.std.specs.Prelude.{◌≡◌, None};
ghost use Rattle.ddr_judge_c.specs.Calls.{judge_in};
ghost use Rattle.ddr_judge_c.specs.Opens.{IsOpened, IsOpening, IsShown};

use crate::codes::{CONFIG, NO_MEMORY, OK};
use crate::judge::Judge;
use crate::slot::Slot;
use ddr_loose::text::{Unread, read_config};
use ddr_timing::config::Config;
use std::alloc::Global;

/// Opens a judge in a closed slot. A refusal's text is copied as far as it fits, and its whole length told.
pub(crate) fn open(
    alloc: Global,
    slot: &mut Slot,
    text: &[u8],
    start: u64,
    message: &mut [u8],
    length: &mut u64,
) -> i32
    requires { judge_in slot.old ≡ None }
    ensures opened { IsOpening text.now start result (judge_in slot.new) }
    ensures shown { IsShown result message.old message.new length.old length.new }
{
    match read_config(alloc, text, message, length) {
        Ok(config) => opened(alloc, slot, &config, start),
        Err(Unread::Refused) => CONFIG,
        Err(Unread::OutOfMemory) => NO_MEMORY,
    }
}

/// Opens a judge of a configuration.
fn opened(alloc: Global, slot: &mut Slot, config: &Config, start: u64) -> i32
    requires { judge_in slot.old ≡ None }
    ensures { IsOpened config.now start result (judge_in slot.new) }
{
    let Ok(judge) = Judge::open(alloc, config, start) else {
        return NO_MEMORY;
    };
    match Box::new(alloc, judge) {
        Ok(judge) => {
            slot.put(judge);
            OK
        }
        Err(_) => NO_MEMORY,
    }
}

//! The commands of a channel in C's form.
//!
//! `ddr_bus` stands below, and `lib` above.
ghost use Rattle.std.specs.Prelude.{◌≡◌, ◌-◌, ◌<◌, ◌*◌, ◌++◌, drop, length, map, min, take};
ghost use Rattle.ddr_c.specs.Trace.{traced};

use ddr_bus::bus::{BusCommand, bus_command};
use ddr_trace::command::Entry;

/// Copies entries from the one of this number on, as far as there is room, and tells how many.
pub(crate) fn copy_from(entries: &[Entry], first: u64, commands: &mut [BusCommand]) -> u64
    ensures count { result ≡ min (length entries.now - first) (length commands.old) }
    ensures copied { commands.new ≡ traced (drop first entries.now) commands.old }
{
    if first >= entries.len() as u64 {
        return 0;
    }
    let left = &entries[first as usize..];
    let count = left.len().min(commands.len());
    for i in 0..count {
        commands[i] = bus_command(&left[i]);
    }
    count as u64
}

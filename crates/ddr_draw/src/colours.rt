//! The colours of a picture of lanes.
//!
//! `ddr_trace` stands below, and `legend`, `bars` and `boxes` above.
ghost use Rattle.std.specs.Prelude.{◌≡◌};
ghost use Rattle.ddr_draw.specs.Colours.{fill_of};

use ddr_trace::command::Command;

/// ACT.
pub const ACTIVATE: &str = "#9ecae1";

/// RD and RDA, and their bursts.
pub const READ: &str = "#a1d99b";

/// WR and WRA, and their bursts.
pub const WRITE: &str = "#fdbe85";

/// PRE and PREA.
pub const PRECHARGE: &str = "#dab8e0";

/// REF.
pub const REFRESH: &str = "#cccccc";

/// An open row.
pub const OPEN_ROW: &str = "#e3edf7";

/// The colour of a kind of command.
pub(crate) fn fill_of(command: &Command) -> &'static str
    ensures { result.now ≡ fill_of command.now }
{
    match command {
        Command::Act { .. } => ACTIVATE,
        Command::Rd { .. } | Command::RdAuto { .. } => READ,
        Command::Wr { .. } | Command::WrAuto { .. } => WRITE,
        Command::Pre { .. } | Command::PreAll { .. } => PRECHARGE,
        Command::Refresh { .. } => REFRESH,
    }
}

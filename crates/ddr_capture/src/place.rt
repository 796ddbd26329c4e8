//! Where a captured command goes, as other simulators write it.
//!
//! Nothing of this crate stands below, and `tool` above.
ghost use Rattle.std.specs.Prelude.{◌≡◌};
ghost use Rattle.ddr_capture.specs.Place.{command_of};

use ddr_trace::command::Command;

/// A kind of command.
#[derive(Clone, Copy, Debug, PartialEq, Eq)]
pub enum CommandKind {
    Activate,
    Read,
    Write,
    ReadAuto,
    WriteAuto,
    Precharge,
    PrechargeAll,
    Refresh,
}

/// The numbers of a place, of which a line may leave out each.
#[derive(Clone, Copy, Debug, PartialEq, Eq)]
pub struct PartialPlace {
    pub rank: Option<u32>,
    pub group: Option<u32>,
    pub bank: Option<u32>,
    pub row: Option<u32>,
    /// The line of the row, counted from 0: 8 device columns.
    pub line: Option<u32>,
}

impl PartialPlace {
    /// The command of a kind; none where a number that it needs is left out.
    #[tactic(auto, unfolding(crate::specs::Place::command_of))]
    pub(crate) fn command(&self, kind: CommandKind) -> Option<Command>
        ensures { result ≡ command_of kind self.now }
    {
        match kind {
            CommandKind::Activate => self.activate(),
            CommandKind::Read => self.read(),
            CommandKind::Write => self.write(),
            CommandKind::ReadAuto => self.read_auto(),
            CommandKind::WriteAuto => self.write_auto(),
            CommandKind::Precharge => self.precharge(),
            CommandKind::PrechargeAll => Some(Command::PreAll { rank: self.rank? }),
            CommandKind::Refresh => Some(Command::Refresh { rank: self.rank? }),
        }
    }

    #[tactic(auto, unfolding(crate::specs::Place::command_of))]
    fn activate(&self) -> Option<Command>
        ensures { result ≡ command_of CommandKind.Activate self.now }
    {
        Some(Command::Act {
            rank: self.rank?,
            group: self.group?,
            bank: self.bank?,
            row: self.row?,
        })
    }

    #[tactic(auto, unfolding(crate::specs::Place::command_of))]
    fn read(&self) -> Option<Command>
        ensures { result ≡ command_of CommandKind.Read self.now }
    {
        Some(Command::Rd {
            rank: self.rank?,
            group: self.group?,
            bank: self.bank?,
            row: self.row?,
            line: self.line?,
        })
    }

    #[tactic(auto, unfolding(crate::specs::Place::command_of))]
    fn write(&self) -> Option<Command>
        ensures { result ≡ command_of CommandKind.Write self.now }
    {
        Some(Command::Wr {
            rank: self.rank?,
            group: self.group?,
            bank: self.bank?,
            row: self.row?,
            line: self.line?,
        })
    }

    #[tactic(auto, unfolding(crate::specs::Place::command_of))]
    fn read_auto(&self) -> Option<Command>
        ensures { result ≡ command_of CommandKind.ReadAuto self.now }
    {
        Some(Command::RdAuto {
            rank: self.rank?,
            group: self.group?,
            bank: self.bank?,
            row: self.row?,
            line: self.line?,
        })
    }

    #[tactic(auto, unfolding(crate::specs::Place::command_of))]
    fn write_auto(&self) -> Option<Command>
        ensures { result ≡ command_of CommandKind.WriteAuto self.now }
    {
        Some(Command::WrAuto {
            rank: self.rank?,
            group: self.group?,
            bank: self.bank?,
            row: self.row?,
            line: self.line?,
        })
    }

    #[tactic(auto, unfolding(crate::specs::Place::command_of))]
    fn precharge(&self) -> Option<Command>
        ensures { result ≡ command_of CommandKind.Precharge self.now }
    {
        Some(Command::Pre {
            rank: self.rank?,
            group: self.group?,
            bank: self.bank?,
        })
    }
}

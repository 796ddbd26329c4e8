//! What ends the program before its command is done.
//!
//! `misuse`, `job` and the faults of `ddr_text` stand below, and the program above, which prints it.
ghost use Rattle.std.specs.Prelude.{◌≡◌};
ghost use Rattle.ddr_text.specs.declared.fault.Fault.TheVariants as faults;
ghost use Rattle.ddr_words.specs.declared.ending.Ending.TheVariants as endings;
ghost use Rattle.ddr_words.specs.Ending.{IsEndingBy, IsEndingByWords, status_of};

use crate::job::JobError;
use crate::misuse::Misuse;
use clap::error::ErrorKind;
use ddr_text::fault::Fault;
use std::alloc::AllocError;

/// Why the program ends before its command is done.
#[derive(Drop)]
pub enum Ending {
    /// A word of the command line is not UTF-8.
    NotText,
    /// The words are of no command, or ask for help.
    Words(clap::Error),
    /// An option would have no effect.
    Misuse(Misuse),
    Fault(Fault),
}

impl Ending {
    /// The status that the program ends with: 2 where the words are at fault, and else the fault's own.
    pub fn status(&self) -> u8
        ensures { result ≡ status_of self.now }
    {
        match self {
            Ending::NotText | Ending::Words(_) | Ending::Misuse(_) => 2,
            Ending::Fault(fault) => fault.status(),
        }
    }
}

impl From<Fault> for Ending {
    ghost from_gives = { λ fault ending. ending ≡ endings.Fault fault };

    fn from(fault: Fault) -> Ending {
        Ending::Fault(fault)
    }
}

impl From<AllocError> for Ending {
    ghost from_gives = { λ _ ending. ending ≡ endings.Fault faults.OutOfMemory };

    fn from(_error: AllocError) -> Ending {
        Ending::Fault(Fault::OutOfMemory)
    }
}

impl From<JobError> for Ending {
    ghost from_gives = { λ error ending. IsEndingBy error ending };

    fn from(error: JobError) -> Ending {
        match error {
            JobError::Words(words) => ending_by_words(words),
            JobError::Misuse(misuse) => Ending::Misuse(misuse),
        }
    }
}

/// The ending by an error of `clap`.
fn ending_by_words(error: clap::Error) -> Ending
    ensures { IsEndingByWords error result }
{
    if error.kind() == ErrorKind::OutOfMemory {
        Ending::Fault(Fault::OutOfMemory)
    } else {
        Ending::Words(error)
    }
}

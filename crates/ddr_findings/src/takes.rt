//! The values that a key takes, as a fault tells them.
//!
//! `ddr_timing` stands below, which has the keys and refuses the values that they don't take.
ghost use Rattle.std.specs.Prelude.{◌≡◌};
ghost use Rattle.ddr_findings.specs.Takes.{takes_of};

use ddr_timing::key::Key;

/// The values that a key takes.
#[derive(Clone, Copy, Debug, PartialEq, Eq)]
pub enum Takes {
    /// The integers from `low` to `high`, both included.
    Within { low: u32, high: u32 },
    /// Those of them that are powers of two.
    PowerOfTwo { low: u32, high: u32 },
    /// The integers 2 and 4.
    TwoOrFour,
    /// A text of the words `channel`, `group`, `bank`, `column` and `row`, each once, with one space between two.
    FiveWords,
    /// A text of these words and `rank`.
    SixWords,
    /// True or false.
    Flag,
}

/// What each key of clocks takes.
const CLOCKS: Takes = Takes::Within {
    low: 1,
    high: 65535,
};

impl Takes {
    /// The values that the key takes in a version.
    pub fn of(version: u32, key: Key) -> Takes
        ensures { result ≡ takes_of version key }
    {
        match key {
            Key::Version => Takes::Within { low: 1, high: 2 },
            Key::Channels => Takes::Within { low: 1, high: 4 },
            Key::Ports => Takes::Within { low: 1, high: 8 },
            Key::Window => Takes::Within { low: 1, high: 64 },
            Key::Intake => Takes::Within { low: 1, high: 64 },
            Key::Reads => Takes::Within { low: 1, high: 32 },
            Key::Writes => Takes::Within { low: 1, high: 32 },
            Key::Done => Takes::Within { low: 1, high: 64 },
            Key::Low => Takes::Within { low: 0, high: 31 },
            Key::High => Takes::Within { low: 1, high: 32 },
            Key::Cap => CLOCKS,
            Key::Groups => Takes::TwoOrFour,
            Key::Rows => Takes::PowerOfTwo {
                low: 16,
                high: 131072,
            },
            Key::Columns => Takes::PowerOfTwo {
                low: 64,
                high: 1024,
            },
            Key::Map => words(version),
            Key::BankXor => Takes::Flag,
            Key::Cl => CLOCKS,
            Key::Cwl => CLOCKS,
            Key::Rcd => CLOCKS,
            Key::Rp => CLOCKS,
            Key::Ras => CLOCKS,
            Key::Rc => CLOCKS,
            Key::RrdS => CLOCKS,
            Key::RrdL => CLOCKS,
            Key::Faw => CLOCKS,
            Key::CcdS => CLOCKS,
            Key::CcdL => CLOCKS,
            Key::WtrS => CLOCKS,
            Key::WtrL => CLOCKS,
            Key::Wr => CLOCKS,
            Key::Rtp => CLOCKS,
            Key::Rtw => CLOCKS,
            Key::Rfc => CLOCKS,
            Key::Refi => CLOCKS,
            Key::Postpone => Takes::Within { low: 0, high: 7 },
            Key::Closed => Takes::Flag,
            Key::Ranks => Takes::Within { low: 1, high: 2 },
            Key::Rtrs => CLOCKS,
        }
    }
}

/// The words of the address digits: version 1 has none for the rank.
fn words(version: u32) -> Takes
    ensures { result ≡ takes_of version Key.Map }
{
    if version == 2 {
        Takes::SixWords
    } else {
        Takes::FiveWords
    }
}

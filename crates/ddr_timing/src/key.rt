//! The keys of a configuration's text: their names, their order, and the values that each takes.
//!
//! A key that is added gets one line in each list of this module, and one in each of `specs/Keys.antt`. The
//! keys of version 2 begin with those of version 1.
//! Nothing of the repository stands below; `table` looks the keys up.
ghost use Rattle.std.specs.Prelude.{◌≡◌, Some};
ghost use Rattle.ddr_timing.specs.Keys.{domain_of, first_keys, keys, name_of};

use std::fmt;

/// A key of the configuration's text. The variants stand in the order in which faults are answered.
#[derive(Clone, Copy, Debug, PartialEq, Eq)]
pub enum Key {
    Version,
    Channels,
    Ports,
    Window,
    Intake,
    Reads,
    Writes,
    Done,
    Low,
    High,
    Cap,
    Groups,
    Rows,
    Columns,
    Map,
    BankXor,
    Cl,
    Cwl,
    Rcd,
    Rp,
    Ras,
    Rc,
    RrdS,
    RrdL,
    Faw,
    CcdS,
    CcdL,
    WtrS,
    WtrL,
    Wr,
    Rtp,
    Rtw,
    Rfc,
    Refi,
    Postpone,
    Closed,
    Ranks,
    Rtrs,
}

/// The values that a key takes.
#[derive(Clone, Copy, Debug)]
pub(crate) enum Domain {
    /// The integers from `low` to `high`, both included.
    Within { low: u32, high: u32 },
    /// Those of them that are powers of two.
    PowerOfTwo { low: u32, high: u32 },
    /// The integers 2 and 4.
    TwoOrFour,
    /// A text of the words `channel`, `group`, `bank`, `column`, `row` and, in version 2, `rank`, each once,
    /// with one space between two.
    Order,
    /// True or false.
    Flag,
}

static KEYS: [Key; 38] = [
    Key::Version,
    Key::Channels,
    Key::Ports,
    Key::Window,
    Key::Intake,
    Key::Reads,
    Key::Writes,
    Key::Done,
    Key::Low,
    Key::High,
    Key::Cap,
    Key::Groups,
    Key::Rows,
    Key::Columns,
    Key::Map,
    Key::BankXor,
    Key::Cl,
    Key::Cwl,
    Key::Rcd,
    Key::Rp,
    Key::Ras,
    Key::Rc,
    Key::RrdS,
    Key::RrdL,
    Key::Faw,
    Key::CcdS,
    Key::CcdL,
    Key::WtrS,
    Key::WtrL,
    Key::Wr,
    Key::Rtp,
    Key::Rtw,
    Key::Rfc,
    Key::Refi,
    Key::Postpone,
    Key::Closed,
    Key::Ranks,
    Key::Rtrs,
];

/// How many of them version 1 has.
const FIRST_KEYS: usize = 35;

impl Key {
    /// All keys of a version, in their order. Any version but 2 has those of version 1.
    #[tactic(auto, unfolding(crate::specs::Keys::keys, crate::specs::Keys::first_keys))]
    pub fn all(version: u32) -> &'static [Key]
        ensures { result.now ≡ keys version }
    {
        if version == 2 {
            &KEYS
        } else {
            &KEYS[..FIRST_KEYS]
        }
    }

    /// The key as the text spells it.
    pub fn name(&self) -> &'static str
        ensures { result.now ≡ name_of self.now }
    {
        match self {
            Key::Version => "version",
            Key::Channels => "channels",
            Key::Ports => "ports",
            Key::Window => "window",
            Key::Intake => "intake",
            Key::Reads => "reads",
            Key::Writes => "writes",
            Key::Done => "done",
            Key::Low => "low",
            Key::High => "high",
            Key::Cap => "cap",
            Key::Groups => "groups",
            Key::Rows => "rows",
            Key::Columns => "columns",
            Key::Map => "map",
            Key::BankXor => "bank_xor",
            Key::Cl => "cl",
            Key::Cwl => "cwl",
            Key::Rcd => "rcd",
            Key::Rp => "rp",
            Key::Ras => "ras",
            Key::Rc => "rc",
            Key::RrdS => "rrd_s",
            Key::RrdL => "rrd_l",
            Key::Faw => "faw",
            Key::CcdS => "ccd_s",
            Key::CcdL => "ccd_l",
            Key::WtrS => "wtr_s",
            Key::WtrL => "wtr_l",
            Key::Wr => "wr",
            Key::Rtp => "rtp",
            Key::Rtw => "rtw",
            Key::Rfc => "rfc",
            Key::Refi => "refi",
            Key::Postpone => "postpone",
            Key::Closed => "closed",
            Key::Ranks => "ranks",
            Key::Rtrs => "rtrs",
        }
    }

    /// The values that the key takes.
    pub(crate) fn domain(&self) -> Domain
        ensures { result ≡ domain_of self.now }
    {
        match self {
            Key::Version => Domain::Within { low: 1, high: 2 },
            Key::Channels => Domain::Within { low: 1, high: 4 },
            Key::Ports => Domain::Within { low: 1, high: 8 },
            Key::Window => Domain::Within { low: 1, high: 64 },
            Key::Intake => Domain::Within { low: 1, high: 64 },
            Key::Reads => Domain::Within { low: 1, high: 32 },
            Key::Writes => Domain::Within { low: 1, high: 32 },
            Key::Done => Domain::Within { low: 1, high: 64 },
            Key::Low => Domain::Within { low: 0, high: 31 },
            Key::High => Domain::Within { low: 1, high: 32 },
            Key::Cap => Domain::Within {
                low: 1,
                high: 65535,
            },
            Key::Groups => Domain::TwoOrFour,
            Key::Rows => Domain::PowerOfTwo {
                low: 16,
                high: 131072,
            },
            Key::Columns => Domain::PowerOfTwo {
                low: 64,
                high: 1024,
            },
            Key::Map => Domain::Order,
            Key::BankXor => Domain::Flag,
            Key::Cl => Domain::Within {
                low: 1,
                high: 65535,
            },
            Key::Cwl => Domain::Within {
                low: 1,
                high: 65535,
            },
            Key::Rcd => Domain::Within {
                low: 1,
                high: 65535,
            },
            Key::Rp => Domain::Within {
                low: 1,
                high: 65535,
            },
            Key::Ras => Domain::Within {
                low: 1,
                high: 65535,
            },
            Key::Rc => Domain::Within {
                low: 1,
                high: 65535,
            },
            Key::RrdS => Domain::Within {
                low: 1,
                high: 65535,
            },
            Key::RrdL => Domain::Within {
                low: 1,
                high: 65535,
            },
            Key::Faw => Domain::Within {
                low: 1,
                high: 65535,
            },
            Key::CcdS => Domain::Within {
                low: 1,
                high: 65535,
            },
            Key::CcdL => Domain::Within {
                low: 1,
                high: 65535,
            },
            Key::WtrS => Domain::Within {
                low: 1,
                high: 65535,
            },
            Key::WtrL => Domain::Within {
                low: 1,
                high: 65535,
            },
            Key::Wr => Domain::Within {
                low: 1,
                high: 65535,
            },
            Key::Rtp => Domain::Within {
                low: 1,
                high: 65535,
            },
            Key::Rtw => Domain::Within {
                low: 1,
                high: 65535,
            },
            Key::Rfc => Domain::Within {
                low: 1,
                high: 65535,
            },
            Key::Refi => Domain::Within {
                low: 1,
                high: 65535,
            },
            Key::Postpone => Domain::Within { low: 0, high: 7 },
            Key::Closed => Domain::Flag,
            Key::Ranks => Domain::Within { low: 1, high: 2 },
            Key::Rtrs => Domain::Within {
                low: 1,
                high: 65535,
            },
        }
    }
}

impl fmt::Display for Key {
    ghost output = { λ key. Some (name_of key) };

    fn fmt<W: fmt::Write>(&self, f: &mut fmt::Formatter<W>) -> fmt::Result {
        f.write_str(self.name())
    }
}

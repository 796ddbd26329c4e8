//! Entries: macros, as no function is called in the value of a constant. A rank other than 0 stands first, before a
//! semicolon.

/// The ACT of a cycle, a group, a bank and a row.
macro_rules! act {
    ($rank:expr; $cycle:expr, $group:expr, $bank:expr, $row:expr) => {
        ddr_trace::command::Entry {
            cycle: $cycle,
            command: ddr_trace::command::Command::Act {
                rank: $rank,
                group: $group,
                bank: $bank,
                row: $row,
            },
        }
    };
    ($cycle:expr, $group:expr, $bank:expr, $row:expr) => {
        crate::trace::entries::act!(0; $cycle, $group, $bank, $row)
    };
}

pub(super) use act;

/// The RD of line 0 of a cycle, a group, a bank and a row.
macro_rules! rd {
    ($rank:expr; $cycle:expr, $group:expr, $bank:expr, $row:expr) => {
        ddr_trace::command::Entry {
            cycle: $cycle,
            command: ddr_trace::command::Command::Rd {
                rank: $rank,
                group: $group,
                bank: $bank,
                row: $row,
                line: 0,
            },
        }
    };
    ($cycle:expr, $group:expr, $bank:expr, $row:expr) => {
        crate::trace::entries::rd!(0; $cycle, $group, $bank, $row)
    };
}

pub(super) use rd;

/// The WR of line 0 of a cycle, a group, a bank and a row.
macro_rules! wr {
    ($rank:expr; $cycle:expr, $group:expr, $bank:expr, $row:expr) => {
        ddr_trace::command::Entry {
            cycle: $cycle,
            command: ddr_trace::command::Command::Wr {
                rank: $rank,
                group: $group,
                bank: $bank,
                row: $row,
                line: 0,
            },
        }
    };
    ($cycle:expr, $group:expr, $bank:expr, $row:expr) => {
        crate::trace::entries::wr!(0; $cycle, $group, $bank, $row)
    };
}

pub(super) use wr;

/// The RDA of line 0 of a cycle, a group, a bank and a row.
macro_rules! rda {
    ($rank:expr; $cycle:expr, $group:expr, $bank:expr, $row:expr) => {
        ddr_trace::command::Entry {
            cycle: $cycle,
            command: ddr_trace::command::Command::RdAuto {
                rank: $rank,
                group: $group,
                bank: $bank,
                row: $row,
                line: 0,
            },
        }
    };
    ($cycle:expr, $group:expr, $bank:expr, $row:expr) => {
        crate::trace::entries::rda!(0; $cycle, $group, $bank, $row)
    };
}

pub(super) use rda;

/// The WRA of line 0 of a cycle, a group, a bank and a row.
macro_rules! wra {
    ($rank:expr; $cycle:expr, $group:expr, $bank:expr, $row:expr) => {
        ddr_trace::command::Entry {
            cycle: $cycle,
            command: ddr_trace::command::Command::WrAuto {
                rank: $rank,
                group: $group,
                bank: $bank,
                row: $row,
                line: 0,
            },
        }
    };
    ($cycle:expr, $group:expr, $bank:expr, $row:expr) => {
        crate::trace::entries::wra!(0; $cycle, $group, $bank, $row)
    };
}

pub(super) use wra;

/// The PRE of a cycle, a group and a bank.
macro_rules! pre {
    ($rank:expr; $cycle:expr, $group:expr, $bank:expr) => {
        ddr_trace::command::Entry {
            cycle: $cycle,
            command: ddr_trace::command::Command::Pre {
                rank: $rank,
                group: $group,
                bank: $bank,
            },
        }
    };
    ($cycle:expr, $group:expr, $bank:expr) => {
        crate::trace::entries::pre!(0; $cycle, $group, $bank)
    };
}

pub(super) use pre;

/// The PREA of a cycle.
macro_rules! pre_all {
    ($rank:expr; $cycle:expr) => {
        ddr_trace::command::Entry {
            cycle: $cycle,
            command: ddr_trace::command::Command::PreAll { rank: $rank },
        }
    };
    ($cycle:expr) => {
        crate::trace::entries::pre_all!(0; $cycle)
    };
}

pub(super) use pre_all;

/// The REF of a cycle.
macro_rules! refresh {
    ($rank:expr; $cycle:expr) => {
        ddr_trace::command::Entry {
            cycle: $cycle,
            command: ddr_trace::command::Command::Refresh { rank: $rank },
        }
    };
    ($cycle:expr) => {
        crate::trace::entries::refresh!(0; $cycle)
    };
}

pub(super) use refresh;

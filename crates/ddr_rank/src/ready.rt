//! The first cycle in which each command may come, as far as the rules on two commands go.
//!
//! A command asks for a distance to those that come after it, and each distance is one sum when the command is issued.
//! What comes next is then one comparison, whatever rules stand behind it.
//!
//! What reads and writes ask of the next reads and writes is the same for all banks of a group. So it is kept once for each
//! group, and bank by bank stands what else is asked; a read or a write may come once both are over. A read or a write thus
//! raises an entry of each group and the precharge of its bank, a precharge the ACT of its bank, and an ACT all commands of
//! its bank and the ACTs of the other banks. A precharge of all banks raises all ACTs, and a refresh all commands.
ghost use Rattle.std.specs.Prelude.{◌≡◌, ◌≢◌, ◌+◌, ◌<◌, ◌*◌, ◌/◌, ◌==◌, if◌then◌else◌, ℕ, length, map, slice_index_or, IsTrue};
ghost use Rattle.ddr_timing.specs.declared.units.TheConstants.{GROUP_BANKS};
ghost use Rattle.ddr_trace.specs.declared.command.Command.TheVariants.{Act, Rd, Wr, Pre, PreAll, Refresh};
ghost use Rattle.ddr_trace.specs.Rules.{is_in};
ghost use Rattle.ddr_rank.specs.Parts.{AreRaised, AreRaisedTo, by_bank, by_group, columns_free, columns_raised};
ghost use Rattle.ddr_rank.specs.Ready.{all_free, free, raised};

use crate::cycles::after;
use ddr_timing::bank::number_in_rank;
use ddr_timing::config::Config;
use ddr_timing::timing::Timing;
use ddr_timing::units::{BURST_CLOCKS, GROUP_BANKS, MOST_GROUPS};
use ddr_trace::command::{Command, Entry};

/// Of a bank, the first cycles in which each command may come. 0 where nothing holds it up.
#[derive(Clone, Copy)]
pub struct Ready {
    pub activate: u64,
    pub read: u64,
    pub write: u64,
    pub precharge: u64,
}

/// Of a bank group, the first cycles in which a read and a write may come, as far as reads and writes hold them up.
#[derive(Clone, Copy)]
pub struct ReadyColumns {
    pub read: u64,
    pub write: u64,
}

/// Of a rank, the first cycles in which a precharge of all banks and a refresh may come.
#[derive(Clone, Copy)]
pub struct ReadyAll {
    pub precharge: u64,
    pub refresh: u64,
}

/// Of a rank, the first cycles in which each command may come.
#[derive(Drop)]
pub struct FirstCycles {
    /// Of bank b of group g, at g * GROUP_BANKS + b, save what reads and writes ask of reads and writes.
    pub banks: Vec<Ready>,
    /// Of each group what reads and writes ask of reads and writes, with room for the most groups of a rank.
    pub columns: [ReadyColumns; MOST_GROUPS as usize],
    pub all: ReadyAll,
}

impl Ready {
    /// Before the first command.
    pub const FREE: Ready = Ready {
        activate: 0,
        read: 0,
        write: 0,
        precharge: 0,
    };

    fn raise(&mut self, to: &Ready)
        ensures { self.new ≡ raised to.now self.old }
    {
        self.activate = self.activate.max(to.activate);
        self.read = self.read.max(to.read);
        self.write = self.write.max(to.write);
        self.precharge = self.precharge.max(to.precharge);
    }

    fn raise_activate(&mut self, to: u64)
        ensures { self.new ≡ raised (record free { activate = to }) self.old }
    {
        self.activate = self.activate.max(to);
    }

    fn raise_precharge(&mut self, to: u64)
        ensures { self.new ≡ raised (record free { precharge = to }) self.old }
    {
        self.precharge = self.precharge.max(to);
    }
}

impl ReadyColumns {
    /// Before the first command.
    pub const FREE: ReadyColumns = ReadyColumns { read: 0, write: 0 };

    fn raise(&mut self, asked: &ReadyColumns)
        ensures { self.new ≡ columns_raised asked.now self.old }
    {
        self.read = self.read.max(asked.read);
        self.write = self.write.max(asked.write);
    }
}

impl ReadyAll {
    /// Before the first command.
    pub const FREE: ReadyAll = ReadyAll {
        precharge: 0,
        refresh: 0,
    };
}

impl FirstCycles {
    /// Raises them to what the command asks.
    #[inline(always)]
    pub fn raise(&mut self, entry: &Entry, config: &Config)
        requires whole { length self.old.banks.items ≡ config.now.geometry.groups * GROUP_BANKS }
        requires placed { IsTrue (is_in config.now.geometry entry.now.command) }
        ensures { AreRaised config.now.timing entry.now.cycle entry.now.command self.old self.new }
    {
        let cycle = entry.cycle;
        let timing = &config.timing;
        match entry.command {
            Command::Act { group, bank, .. } => self.raise_by_activate(cycle, group, bank, config),
            Command::Rd { group, bank, .. } | Command::RdAuto { group, bank, .. } => {
                self.raise_by_read(cycle, group, bank, timing);
            }
            Command::Wr { group, bank, .. } | Command::WrAuto { group, bank, .. } => {
                self.raise_by_write(cycle, group, bank, timing);
            }
            Command::Pre { group, bank, .. } => {
                self.raise_by_precharge(cycle, group, bank, timing);
            }
            Command::PreAll { .. } => self.raise_by_precharge_all(cycle, timing),
            Command::Refresh { .. } => self.raise_by_refresh(cycle, timing),
        }
    }

    /// An ACT holds up all commands of its bank, and the ACTs of the others.
    fn raise_by_activate(&mut self, cycle: u64, group: u32, bank: u32, config: &Config)
        requires whole { length self.old.banks.items ≡ config.now.geometry.groups * GROUP_BANKS }
        requires group_in { group < config.now.geometry.groups }
        requires bank_in { bank < GROUP_BANKS }
        ensures { AreRaised config.now.timing cycle (Act 0 group bank 0) self.old self.new }
    {
        let timing = &config.timing;
        let number = number_in_rank(group, bank);
        let mut own = self.banks[number];
        let in_group = after(cycle, timing.rrd_l);
        let elsewhere = after(cycle, timing.rrd_s);
        raise_activates(
            &mut self.banks,
            config.geometry.groups,
            group,
            in_group,
            elsewhere,
        );
        let column = after(cycle, timing.rcd);
        let asked = Ready {
            activate: after(cycle, timing.rc),
            read: column,
            write: column,
            precharge: after(cycle, timing.ras),
        };
        own.raise(&asked);
        self.banks[number] = own;
        self.all.precharge = self.all.precharge.max(asked.precharge);
    }

    /// A read holds up reads and writes, and the precharge of its bank.
    fn raise_by_read(&mut self, cycle: u64, group: u32, bank: u32, timing: &Timing)
        requires within { group * GROUP_BANKS + bank < length self.old.banks.items }
        requires bank_in { bank < GROUP_BANKS }
        ensures { AreRaised timing.now cycle (Rd 0 group bank 0 0) self.old self.new }
    {
        let write = after(cycle, timing.rtw);
        let own = ReadyColumns {
            read: after(cycle, timing.ccd_l),
            write,
        };
        let others = ReadyColumns {
            read: after(cycle, timing.ccd_s),
            write,
        };
        self.raise_by_column(group, bank, &own, &others, after(cycle, timing.rtp));
    }

    /// So does a write.
    fn raise_by_write(&mut self, cycle: u64, group: u32, bank: u32, timing: &Timing)
        requires within { group * GROUP_BANKS + bank < length self.old.banks.items }
        requires bank_in { bank < GROUP_BANKS }
        ensures { AreRaised timing.now cycle (Wr 0 group bank 0 0) self.old self.new }
    {
        let data_end = timing.cwl + BURST_CLOCKS;
        let own = ReadyColumns {
            read: after(cycle, data_end + timing.wtr_l),
            write: after(cycle, timing.ccd_l),
        };
        let others = ReadyColumns {
            read: after(cycle, data_end + timing.wtr_s),
            write: after(cycle, timing.ccd_s),
        };
        let recovered = after(cycle, data_end + timing.wr);
        self.raise_by_column(group, bank, &own, &others, recovered);
    }

    /// Raises the reads and writes of the own group and of the others, and the precharge of the bank and that of all.
    fn raise_by_column(
        &mut self,
        group: u32,
        bank: u32,
        own: &ReadyColumns,
        others: &ReadyColumns,
        precharge: u64,
    )
        requires within { group * GROUP_BANKS + bank < length self.old.banks.items }
        requires bank_in { bank < GROUP_BANKS }
        ensures { AreRaisedTo (by_bank group bank (record free { precharge = precharge }) free free) (by_group group own.now others.now) (record all_free { precharge = precharge }) self.old self.new }
    {
        raise_columns(&mut self.columns, group, own, others);
        self.banks[number_in_rank(group, bank)].raise_precharge(precharge);
        self.all.precharge = self.all.precharge.max(precharge);
    }

    /// A precharge holds up the ACTs of its bank, and the refresh.
    fn raise_by_precharge(&mut self, cycle: u64, group: u32, bank: u32, timing: &Timing)
        requires within { group * GROUP_BANKS + bank < length self.old.banks.items }
        requires bank_in { bank < GROUP_BANKS }
        ensures { AreRaised timing.now cycle (Pre 0 group bank) self.old self.new }
    {
        let idle = after(cycle, timing.rp);
        self.banks[number_in_rank(group, bank)].raise_activate(idle);
        self.all.refresh = self.all.refresh.max(idle);
    }

    /// A precharge of all banks holds up all ACTs.
    fn raise_by_precharge_all(&mut self, cycle: u64, timing: &Timing)
        ensures { AreRaised timing.now cycle (PreAll 0) self.old self.new }
    {
        let asked = Ready {
            activate: after(cycle, timing.rp),
            ..Ready::FREE
        };
        raise_all(&mut self.banks, &asked);
        self.all.refresh = self.all.refresh.max(asked.activate);
    }

    /// A refresh holds up all commands.
    fn raise_by_refresh(&mut self, cycle: u64, timing: &Timing)
        ensures { AreRaised timing.now cycle (Refresh 0) self.old self.new }
    {
        let end = after(cycle, timing.rfc);
        let asked = Ready {
            activate: end,
            read: end,
            write: end,
            precharge: end,
        };
        raise_all(&mut self.banks, &asked);
        self.all.precharge = self.all.precharge.max(end);
        self.all.refresh = self.all.refresh.max(end);
    }
}

/// Raises the reads and writes of the group and those of the others.
fn raise_columns(
    columns: &mut [ReadyColumns],
    group: u32,
    own: &ReadyColumns,
    others: &ReadyColumns,
)
    ensures length { length columns.new ≡ length columns.old }
    ensures raised { (number : ℕ) → number < length columns.old
        → slice_index_or columns.new number columns_free ≡ columns_raised (by_group group own.now others.now number) (slice_index_or columns.old number columns_free) }
{
    let own_group = group as usize;
    for number in 0..columns.len() {
        let to = if number == own_group { own } else { others };
        columns[number].raise(to);
    }
}

/// Raises the ACTs of the group's banks and those of the others.
fn raise_activates(banks: &mut [Ready], groups: u32, group: u32, own: u64, others: u64)
    requires { length banks.old ≡ groups * GROUP_BANKS }
    ensures length { length banks.new ≡ length banks.old }
    ensures raised { (number : ℕ) → number < length banks.old
        → slice_index_or banks.new number free ≡ raised (record free { activate = if group == number / GROUP_BANKS then own else others }) (slice_index_or banks.old number free) }
{
    for other in 0..groups {
        let to = if other == group { own } else { others };
        raise_group(banks, groups, other, to);
    }
}

/// Raises the ACTs of a group's banks.
fn raise_group(banks: &mut [Ready], groups: u32, group: u32, to: u64)
    requires whole { length banks.old ≡ groups * GROUP_BANKS }
    requires within { group < groups }
    ensures length { length banks.new ≡ length banks.old }
    ensures raised { (number : ℕ) → number / GROUP_BANKS ≡ group
        → slice_index_or banks.new number free ≡ raised (record free { activate = to }) (slice_index_or banks.old number free) }
    ensures others { (number : ℕ) → number / GROUP_BANKS ≢ group → slice_index_or banks.new number free ≡ slice_index_or banks.old number free }
{
    for bank in 0..GROUP_BANKS {
        banks[number_in_rank(group, bank)].raise_activate(to);
    }
}

/// Raises all banks.
fn raise_all(banks: &mut [Ready], to: &Ready)
    ensures { banks.new ≡ map (raised to.now) banks.old }
{
    for bank in banks.iter_mut() {
        bank.raise(to);
    }
}

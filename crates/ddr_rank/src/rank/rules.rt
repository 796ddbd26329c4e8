//! Which rules a command would break: for each command its rules, and what each is measured from.
ghost use Rattle.std.specs.Prelude.{◌≡◌, ◌<◌, IsTrue};
ghost use Rattle.ddr_timing.specs.declared.units.TheConstants.{GROUP_BANKS};
ghost use Rattle.ddr_trace.specs.Rules.{is_in};
ghost use Rattle.ddr_rank.specs.Breaks.{activate_breaks, all_groups, any_active, any_auto_within, any_precharge, breaks_now, other_banks, other_groups, precharge_all_breaks, precharge_breaks, read_breaks, refresh_breaks, write_breaks};
ghost use Rattle.ddr_rank.specs.First.{behind_autos, first_activate, first_cycle};
ghost use Rattle.ddr_rank.specs.May.{may_activate, may_now, may_refresh};
ghost use Rattle.ddr_rank.specs.Readiness.{fourth_activate};

use super::{Rank, fourth_of};
use crate::cycles::{is_within, later};
use crate::last::LastKind;
use ddr_timing::units::{BURST_CLOCKS, GROUP_BANKS};
use ddr_trace::command::Command;
use ddr_trace::rule::Rule;

impl Rank {
    /// Whether the command would break the rule in this cycle.
    pub(super) fn breaks(&self, rule: Rule, cycle: u64, command: &Command) -> bool
        requires { IsTrue (is_in self.now.config.geometry command.now) }
        ensures { result ≡ breaks_now self.now rule cycle command.now }
    {
        match *command {
            Command::Act { group, bank, .. } => self.activate_breaks(rule, cycle, group, bank),
            Command::Rd {
                group,
                bank,
                row,
                ..
            }
            | Command::RdAuto {
                group,
                bank,
                row,
                ..
            } => self.read_breaks(rule, cycle, group, bank, row),
            Command::Wr {
                group,
                bank,
                row,
                ..
            }
            | Command::WrAuto {
                group,
                bank,
                row,
                ..
            } => self.write_breaks(rule, cycle, group, bank, row),
            Command::Pre { group, bank, .. } => self.precharge_breaks(rule, cycle, group, bank),
            Command::PreAll { .. } => self.precharge_all_breaks(rule, cycle),
            Command::Refresh { .. } => self.refresh_breaks(rule, cycle),
        }
    }

    /// Whether the command breaks no rule, by the first cycles and the state of banks.
    #[inline(always)]
    pub(super) fn may_now(&self, cycle: u64, command: &Command) -> bool
        requires { IsTrue (is_in self.now.config.geometry command.now) }
        ensures { result ≡ may_now self.now cycle command.now }
    {
        match *command {
            Command::Act { group, bank, .. } => self.may_activate(cycle, group, bank),
            Command::Rd {
                group,
                bank,
                row,
                ..
            }
            | Command::RdAuto {
                group,
                bank,
                row,
                ..
            } => {
                self.ready_read(group, bank) <= cycle
                    && self.bank(group, bank).ready_row() == Some(row)
            }
            Command::Wr {
                group,
                bank,
                row,
                ..
            }
            | Command::WrAuto {
                group,
                bank,
                row,
                ..
            } => {
                self.ready_write(group, bank) <= cycle
                    && self.bank(group, bank).ready_row() == Some(row)
            }
            Command::Pre { group, bank, .. } => self.ready_precharge(group, bank) <= cycle,
            Command::PreAll { .. } => self.first_cycles.all.precharge <= cycle,
            Command::Refresh { .. } => self.may_refresh(cycle),
        }
    }

    #[inline(never)]
    fn may_refresh(&self, cycle: u64) -> bool
        ensures { result ≡ may_refresh self.now cycle }
    {
        self.first_cycles.all.refresh <= cycle
            && !self.is_active(cycle)
            && !self.is_some_auto_within(cycle)
    }

    #[inline]
    fn may_activate(&self, cycle: u64, group: u32, bank: u32) -> bool
        requires group_in { group < self.now.config.geometry.groups }
        requires bank_in { bank < GROUP_BANKS }
        ensures { result ≡ may_activate self.now cycle group bank }
    {
        self.ready_activate(group, bank) <= cycle
            && self.window <= cycle
            && self.bank(group, bank).is_idle(cycle, &self.config.timing)
    }

    /// The first cycle in which the command keeps every distance.
    #[inline(always)]
    pub(super) fn first_cycle(&self, command: &Command) -> u64
        requires { IsTrue (is_in self.now.config.geometry command.now) }
        ensures { result ≡ first_cycle self.now command.now }
    {
        match *command {
            Command::Act { group, bank, .. } => self.first_activate(group, bank),
            Command::Rd { group, bank, .. } | Command::RdAuto { group, bank, .. } => {
                self.ready_read(group, bank)
            }
            Command::Wr { group, bank, .. } | Command::WrAuto { group, bank, .. } => {
                self.ready_write(group, bank)
            }
            Command::Pre { group, bank, .. } => self.ready_precharge(group, bank),
            Command::PreAll { .. } => self.first_cycles.all.precharge,
            Command::Refresh { .. } => self.first_cycles.all.refresh.max(self.behind_autos()),
        }
    }

    #[inline]
    fn first_activate(&self, group: u32, bank: u32) -> u64
        requires group_in { group < self.now.config.geometry.groups }
        requires bank_in { bank < GROUP_BANKS }
        ensures { result ≡ first_activate self.now group bank }
    {
        let idle = self.bank(group, bank).behind_auto(&self.config.timing);
        self.ready_activate(group, bank).max(idle.max(self.window))
    }

    /// RP behind the start of each bank's auto-precharge.
    #[inline(never)]
    fn behind_autos(&self) -> u64
        ensures { result ≡ behind_autos self.now.config.timing self.now.banks }
    {
        let t = &self.config.timing;
        let mut end = 0;
        for bank in &self.banks {
            end = end.max(bank.behind_auto(t));
        }
        end
    }

    fn activate_breaks(&self, rule: Rule, cycle: u64, group: u32, bank: u32) -> bool
        requires group_in { group < self.now.config.geometry.groups }
        requires bank_in { bank < GROUP_BANKS }
        ensures { result ≡ activate_breaks self.now rule cycle group bank }
    {
        let t = &self.config.timing;
        let kept = self.bank(group, bank);
        match rule {
            Rule::State => kept.open_row(cycle, t).is_some(),
            Rule::Rc => is_within(t.rc, cycle, kept.last.activate),
            Rule::Rp => is_within(t.rp, cycle, kept.precharge) || kept.is_auto_within(cycle, t),
            Rule::RrdL => is_within(t.rrd_l, cycle, self.other_banks(group, bank)),
            Rule::RrdS => is_within(t.rrd_s, cycle, self.other_groups(LastKind::Activate, group)),
            Rule::Faw => is_within(t.faw, cycle, self.fourth_activate()),
            Rule::Rfc => is_within(t.rfc, cycle, self.refresh),
            _ => false,
        }
    }

    fn read_breaks(&self, rule: Rule, cycle: u64, group: u32, bank: u32, row: u32) -> bool
        requires group_in { group < self.now.config.geometry.groups }
        requires bank_in { bank < GROUP_BANKS }
        ensures { result ≡ read_breaks self.now rule cycle group bank row }
    {
        let t = &self.config.timing;
        let data_end = t.cwl + BURST_CLOCKS;
        let kept = self.bank(group, bank);
        let in_group = self.group(group);
        match rule {
            Rule::State => kept.ready_row().is_none(),
            Rule::Row => kept.open_row(cycle, t) != Some(row),
            Rule::Rcd => is_within(t.rcd, cycle, kept.last.activate),
            Rule::CcdL => is_within(t.ccd_l, cycle, in_group.read),
            Rule::CcdS => is_within(t.ccd_s, cycle, self.other_groups(LastKind::Read, group)),
            Rule::WtrL => is_within(data_end + t.wtr_l, cycle, in_group.write),
            Rule::WtrS => {
                let last = self.other_groups(LastKind::Write, group);
                is_within(data_end + t.wtr_s, cycle, last)
            }
            Rule::Rfc => is_within(t.rfc, cycle, self.refresh),
            _ => false,
        }
    }

    fn write_breaks(&self, rule: Rule, cycle: u64, group: u32, bank: u32, row: u32) -> bool
        requires group_in { group < self.now.config.geometry.groups }
        requires bank_in { bank < GROUP_BANKS }
        ensures { result ≡ write_breaks self.now rule cycle group bank row }
    {
        let t = &self.config.timing;
        let kept = self.bank(group, bank);
        match rule {
            Rule::State => kept.ready_row().is_none(),
            Rule::Row => kept.open_row(cycle, t) != Some(row),
            Rule::Rcd => is_within(t.rcd, cycle, kept.last.activate),
            Rule::CcdL => is_within(t.ccd_l, cycle, self.group(group).write),
            Rule::CcdS => is_within(t.ccd_s, cycle, self.other_groups(LastKind::Write, group)),
            Rule::Rtw => is_within(t.rtw, cycle, self.all_groups(LastKind::Read)),
            Rule::Rfc => is_within(t.rfc, cycle, self.refresh),
            _ => false,
        }
    }

    fn precharge_breaks(&self, rule: Rule, cycle: u64, group: u32, bank: u32) -> bool
        requires group_in { group < self.now.config.geometry.groups }
        requires bank_in { bank < GROUP_BANKS }
        ensures { result ≡ precharge_breaks self.now rule cycle group bank }
    {
        let t = &self.config.timing;
        let last = self.bank(group, bank).last;
        match rule {
            Rule::Ras => is_within(t.ras, cycle, last.activate),
            Rule::Rtp => is_within(t.rtp, cycle, last.read),
            Rule::Wr => is_within(t.cwl + BURST_CLOCKS + t.wr, cycle, last.write),
            Rule::Rfc => is_within(t.rfc, cycle, self.refresh),
            _ => false,
        }
    }

    fn precharge_all_breaks(&self, rule: Rule, cycle: u64) -> bool
        ensures { result ≡ precharge_all_breaks self.now rule cycle }
    {
        let t = &self.config.timing;
        match rule {
            Rule::Ras => is_within(t.ras, cycle, self.all_groups(LastKind::Activate)),
            Rule::Rtp => is_within(t.rtp, cycle, self.all_groups(LastKind::Read)),
            Rule::Wr => {
                let last = self.all_groups(LastKind::Write);
                is_within(t.cwl + BURST_CLOCKS + t.wr, cycle, last)
            }
            Rule::Rfc => is_within(t.rfc, cycle, self.refresh),
            _ => false,
        }
    }

    fn refresh_breaks(&self, rule: Rule, cycle: u64) -> bool
        ensures { result ≡ refresh_breaks self.now rule cycle }
    {
        let t = &self.config.timing;
        match rule {
            Rule::State => self.is_active(cycle),
            Rule::RpRef => {
                is_within(t.rp, cycle, self.any_precharge()) || self.is_some_auto_within(cycle)
            }
            Rule::Rfc => is_within(t.rfc, cycle, self.refresh),
            _ => false,
        }
    }

    /// Whether some bank has an open row in this cycle.
    fn is_active(&self, cycle: u64) -> bool
        ensures { result ≡ any_active self.now cycle }
    {
        let t = &self.config.timing;
        self.banks
            .iter()
            .any(|bank| bank.open_row(cycle, t).is_some())
    }

    /// Whether RP isn't over since the start of some bank's auto-precharge.
    fn is_some_auto_within(&self, cycle: u64) -> bool
        ensures { result ≡ any_auto_within self.now cycle }
    {
        let t = &self.config.timing;
        self.banks.iter().any(|bank| bank.is_auto_within(cycle, t))
    }

    /// The last ACT of the group's other banks.
    fn other_banks(&self, group: u32, bank: u32) -> Option<u64>
        requires { group < self.now.config.geometry.groups }
        ensures { result ≡ other_banks self.now group bank }
    {
        let mut last = None;
        for other in 0..GROUP_BANKS {
            if other != bank {
                last = later(last, self.bank(group, other).last.activate);
            }
        }
        last
    }

    /// The last command of the kind in the other groups.
    fn other_groups(&self, kind: LastKind, group: u32) -> Option<u64>
        ensures { result ≡ other_groups self.now kind group }
    {
        let mut last = None;
        for other in 0..self.config.geometry.groups {
            if other != group {
                last = later(last, self.group(other).of(kind));
            }
        }
        last
    }

    /// The last command of the kind in any group.
    fn all_groups(&self, kind: LastKind) -> Option<u64>
        ensures { result ≡ all_groups self.now kind }
    {
        let mut last = None;
        for group in 0..self.config.geometry.groups {
            last = later(last, self.group(group).of(kind));
        }
        last
    }

    /// The last precharge of any bank.
    fn any_precharge(&self) -> Option<u64>
        ensures { result ≡ any_precharge self.now }
    {
        let mut last = None;
        for bank in &self.banks {
            last = later(last, bank.precharge);
        }
        last
    }

    /// The fourth ACT before the next one.
    fn fourth_activate(&self) -> Option<u64>
        ensures { result ≡ fourth_activate self.now }
    {
        fourth_of(&self.activates)
    }
}

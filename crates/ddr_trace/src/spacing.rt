//! Rules on two commands: from an earlier command to a later one, at least so many clocks.
//!
//! `Rule::spacing` is their one table in code, line by line the table `spacing_of` of `specs/Rules.antt`.
ghost use Rattle.std.specs.Prelude.{◌≡◌};
ghost use Rattle.ddr_trace.specs.Rules.{breaks_spacing, is_too_close, spacing_of, speaks_of};
ghost use Rattle.ddr_trace.specs.Spacing.{is_of_kind, is_paired, meaning_of, meant_by};

use crate::command::{Command, Entry};
use crate::rule::Rule;
use ddr_timing::timing::Timing;
use ddr_timing::units::BURST_CLOCKS;

/// A kind of command that a rule on two commands speaks of.
#[derive(Clone, Copy, Debug, PartialEq, Eq)]
pub enum CommandKind {
    /// ACT.
    Activate,
    /// A read or a write.
    Column,
    /// RD or RDA.
    Read,
    /// WR or WRA.
    Write,
    /// PRE or PREA.
    Precharge,
    /// REF.
    Refresh,
    Any,
}

/// Which pairs of an earlier and a later command a rule speaks of.
#[derive(Clone, Copy, Debug, PartialEq, Eq)]
pub enum Scope {
    SameRank,
    SameGroup,
    /// Of one rank and not of one group.
    OtherGroup,
    /// Both reads or both writes, of one group.
    SameKindSameGroup,
    /// Both reads or both writes, of one rank and not of one group.
    SameKindOtherGroup,
    /// PREA is of every bank of its rank.
    SameBank,
    /// Of one group and not of one bank number.
    OtherBank,
}

/// A line of the table: which command comes earlier, which later, which pairs of the two, and the least distance.
#[derive(Clone, Copy, Debug, PartialEq, Eq)]
pub struct Spacing {
    pub earlier: CommandKind,
    pub later: CommandKind,
    pub scope: Scope,
    /// In clocks.
    pub at_least: u32,
}

impl Rule {
    /// The rule's line in the table of the rules on two commands, if it is one of them. Where a write's data count, they
    /// end WL + 4 after the command.
    #[inline]
    pub fn spacing(&self, timing: &Timing) -> Option<Spacing>
        ensures { meaning_of result ≡ spacing_of timing.now self.now }
    {
        use CommandKind::{Activate, Any, Column, Precharge, Read, Refresh, Write};
        let data_end = timing.cwl + BURST_CLOCKS;
        let (earlier, later, scope, at_least) = match self {
            Rule::Rcd => (Activate, Column, Scope::SameBank, timing.rcd),
            Rule::Ras => (Activate, Precharge, Scope::SameBank, timing.ras),
            Rule::Rc => (Activate, Activate, Scope::SameBank, timing.rc),
            Rule::Rp => (Precharge, Activate, Scope::SameBank, timing.rp),
            Rule::RrdL => (Activate, Activate, Scope::OtherBank, timing.rrd_l),
            Rule::RrdS => (Activate, Activate, Scope::OtherGroup, timing.rrd_s),
            Rule::CcdL => (Column, Column, Scope::SameKindSameGroup, timing.ccd_l),
            Rule::CcdS => (Column, Column, Scope::SameKindOtherGroup, timing.ccd_s),
            Rule::WtrL => (Write, Read, Scope::SameGroup, data_end + timing.wtr_l),
            Rule::WtrS => (Write, Read, Scope::OtherGroup, data_end + timing.wtr_s),
            Rule::Rtp => (Read, Precharge, Scope::SameBank, timing.rtp),
            Rule::Wr => (Write, Precharge, Scope::SameBank, data_end + timing.wr),
            Rule::Rtw => (Read, Write, Scope::SameRank, timing.rtw),
            Rule::RpRef => (Precharge, Refresh, Scope::SameRank, timing.rp),
            Rule::Rfc => (Refresh, Any, Scope::SameRank, timing.rfc),
            _ => return None,
        };
        Some(Spacing {
            earlier,
            later,
            scope,
            at_least,
        })
    }

    /// The clocks that the rule asks for between its two commands; 0 where it is not on two commands.
    #[inline]
    pub fn least_distance(&self, timing: &Timing) -> u32
        ensures { result ≡ (spacing_of timing.now self.now).at_least }
    {
        match self.spacing(timing) {
            Some(spacing) => spacing.at_least,
            None => 0,
        }
    }
}

impl CommandKind {
    /// Whether the command is of this kind.
    pub fn has(&self, command: &Command) -> bool
        ensures { result ≡ is_of_kind self.now command.now }
    {
        match self {
            CommandKind::Activate => command.is_activate(),
            CommandKind::Column => command.is_column(),
            CommandKind::Read => command.is_read(),
            CommandKind::Write => command.is_write(),
            CommandKind::Precharge => command.is_precharge(),
            CommandKind::Refresh => command.is_refresh(),
            CommandKind::Any => true,
        }
    }
}

impl Scope {
    /// Whether the two commands are such a pair.
    fn pairs(&self, a: &Command, b: &Command) -> bool
        ensures { result ≡ is_paired self.now a.now b.now }
    {
        match self {
            Scope::SameRank => a.is_same_rank(b),
            Scope::SameGroup => a.is_same_group(b),
            Scope::OtherGroup => a.is_other_group(b),
            Scope::SameKindSameGroup => a.is_same_kind(b) && a.is_same_group(b),
            Scope::SameKindOtherGroup => a.is_same_kind(b) && a.is_other_group(b),
            Scope::SameBank => a.is_same_bank(b),
            Scope::OtherBank => a.is_other_bank(b),
        }
    }
}

impl Spacing {
    /// Whether the two commands, in this order, are a pair of the rule's.
    pub fn speaks_of(&self, a: &Command, b: &Command) -> bool
        ensures { result ≡ speaks_of (meant_by self.now) a.now b.now }
    {
        self.earlier.has(a) && self.later.has(b) && self.scope.pairs(a, b)
    }

    /// Whether the two are a pair of the rule's, and stand too close.
    fn is_too_close(&self, earlier: &Entry, later: &Entry) -> bool
        ensures { result ≡ is_too_close (meant_by self.now) earlier.now later.now }
    {
        self.speaks_of(&earlier.command, &later.command) && later.is_within(self.at_least, earlier)
    }
}

/// Whether the entry stands too close behind an earlier one that the rule speaks of.
pub(crate) fn breaks_spacing(rule: Rule, history: &[Entry], entry: &Entry, timing: &Timing) -> bool
    ensures { result ≡ breaks_spacing (spacing_of timing.now rule) history.now entry.now }
{
    match rule.spacing(timing) {
        Some(spacing) => history
            .iter()
            .any(|earlier| spacing.is_too_close(earlier, entry)),
        None => false,
    }
}

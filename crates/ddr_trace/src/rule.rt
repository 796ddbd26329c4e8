//! The names of the rules that a trace is checked against, and their order.
ghost use Rattle.std.specs.Prelude.{◌≡◌, map};
ghost use Rattle.std.specs.List.{range_with_len};
ghost use Rattle.ddr_trace.specs.Names.{name_of, number_of};
ghost use Rattle.ddr_trace.specs.declared.rule.TheConstants.Rule.{ALL};
ghost use Rattle.ddr_trace.specs.Rules.{is_on_commands};

/// A rule of a trace. `specs/Rules.antt` defines each.
#[derive(Clone, Copy, Debug, PartialEq, Eq)]
pub enum Rule {
    Order,
    Place,
    State,
    Row,
    Rcd,
    Ras,
    Rc,
    Rp,
    RrdL,
    RrdS,
    Faw,
    CcdL,
    CcdS,
    WtrL,
    WtrS,
    Rtp,
    Wr,
    Rtw,
    RpRef,
    Rfc,
    RefLate,
    RefGap,
    Rtrs,
}

impl Rule {
    /// All rules, in the order in which faults at one place are told.
    pub const ALL: [Rule; 23] = [
        Rule::Order,
        Rule::Place,
        Rule::State,
        Rule::Row,
        Rule::Rcd,
        Rule::Ras,
        Rule::Rc,
        Rule::Rp,
        Rule::RrdL,
        Rule::RrdS,
        Rule::Faw,
        Rule::CcdL,
        Rule::CcdS,
        Rule::WtrL,
        Rule::WtrS,
        Rule::Rtp,
        Rule::Wr,
        Rule::Rtw,
        Rule::RpRef,
        Rule::Rfc,
        Rule::RefLate,
        Rule::RefGap,
        Rule::Rtrs,
    ];

    /// Whether a legal trace has to keep the rule: all but the two on refresh.
    pub fn is_on_commands(&self) -> bool
        ensures { result ≡ is_on_commands self.now }
    {
        !matches!(self, Rule::RefLate | Rule::RefGap)
    }

    /// The rule's name in reports, as `WTR_L`.
    pub fn name(&self) -> &'static str
        ensures { result.now ≡ name_of self.now }
    {
        match self {
            Rule::Order => "ORDER",
            Rule::Place => "PLACE",
            Rule::State => "STATE",
            Rule::Row => "ROW",
            Rule::Rcd => "RCD",
            Rule::Ras => "RAS",
            Rule::Rc => "RC",
            Rule::Rp => "RP",
            Rule::RrdL => "RRD_L",
            Rule::RrdS => "RRD_S",
            Rule::Faw => "FAW",
            Rule::CcdL => "CCD_L",
            Rule::CcdS => "CCD_S",
            Rule::WtrL => "WTR_L",
            Rule::WtrS => "WTR_S",
            Rule::Rtp => "RTP",
            Rule::Wr => "WR",
            Rule::Rtw => "RTW",
            Rule::RpRef => "RP_REF",
            Rule::Rfc => "RFC",
            Rule::RefLate => "REF_LATE",
            Rule::RefGap => "REF_GAP",
            Rule::Rtrs => "RTRS",
        }
    }
}

/// `Rule::ALL` has each rule once, in the order of their numbers.
///
/// A law: it does nothing.
pub fn all_stand_by_number()
    ensures { map number_of ALL ≡ range_with_len 1 23 }
{}

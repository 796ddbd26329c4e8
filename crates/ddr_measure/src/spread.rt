//! How long the requests of each group took from each step to another.
//!
//! `group`, `span` and `distribution` stand below, and `measured` and `text` above.
ghost use Rattle.std.specs.Prelude.{◌≡◌, ◌++◌, [], IfOk, OnOk, flat_map, map};
ghost use Rattle.ddr_measure.specs.Spreads.{noted_in, spread_of};
ghost use Rattle.ddr_measure.specs.Text.{all_spans};

use crate::distribution::Distribution;
use crate::group::Group;
use crate::span::Span;
use crate::timed::Timed;
use std::alloc::{AllocError, Global};

/// How long the requests of a group took from one step to another.
#[derive(Drop)]
pub(crate) struct Spread {
    pub group: Group,
    pub span: Span,
    pub clocks: Distribution,
}

impl Spread {
    /// Notes a request, if it is one of the group.
    fn note(&mut self, request: &Timed)
        ensures { self.new ≡ noted_in request.now self.old }
    {
        self.group.note(self.span, request, &mut self.clocks);
    }
}

/// One of each of these groups and each span, of no request.
pub(crate) fn no_spreads(alloc: Global, groups: &[Group]) -> Result<Vec<Spread>, AllocError>
    ensures { IfOk result (λ v. v.items ≡ flat_map (λ group. map (spread_of [] group) all_spans) groups.now) }
{
    let mut spreads = Vec::new(alloc);
    for group in groups {
        add_spans(&mut spreads, *group, Span::ALL.as_slice())?;
    }
    Ok(spreads)
}

/// Adds one of each of these spans, of no request of this group.
fn add_spans(spreads: &mut Vec<Spread>, group: Group, spans: &[Span]) -> Result<(), AllocError>
    ensures { OnOk result (spreads.new.items ≡ spreads.old.items ++ map (spread_of [] group) spans.now) }
{
    for span in spans {
        spreads.push(Spread {
            group,
            span: *span,
            clocks: Distribution::NONE,
        })?;
    }
    Ok(())
}

/// Notes a request in each.
pub(crate) fn note_all(spreads: &mut [Spread], request: &Timed)
    ensures { spreads.new ≡ map (noted_in request.now) spreads.old }
{
    for spread in spreads.iter_mut() {
        spread.note(request);
    }
}

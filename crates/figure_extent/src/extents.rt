use crate::ends::EndEnvelopes;
use crate::envelopes::{joined, of_way};
use crate::parts::{of_areas, of_moving, of_still};
use bound_rule::EndTable;
use plane_exact::Window;
use point_set::{Extent, Rule, Valid};
use std::marker::Model;

/// The envelopes of a figure, for every boundary node rule.
#[derive(Clone, Copy, Debug)]
pub struct Extents {
    areas: Option<Window>,
    lines: Option<Window>,
    points: Option<Window>,
    ends: EndEnvelopes,
}

impl Model for Extents {
    ghost use Rattle.figure_extent.specs.Kept.{SeenExtents};

    ghost Value = { SeenExtents };

    ghost view = { λ x. record { areas = x.areas; lines = x.lines; points = x.points; ends = x.ends } };

    ghost inverse = { λ x. record { areas = x.areas; lines = x.lines; points = x.points; ends = x.ends } };
}

impl Extents {
    ghost use Rattle.std.specs.Prelude.{◌≡◌};
    ghost use Rattle.point_set.specs.Extents.{IsExtent};
    ghost use Rattle.point_set.specs.declared.rule.Rule.{Rule};
    ghost use Rattle.bound_rule.specs.Ends.{AreEndsOf};
    ghost use Rattle.figure_extent.specs.Kept.{extent_under};

    /// The envelopes of a valid figure with its line ends. Takes no memory.
    pub fn of(v: &Valid, ends: &EndTable) -> Extents
        requires ends { AreEndsOf v.now ends.now }
        ensures extents { (rule : Rule) → IsExtent v.now rule (extent_under rule result) }
    {
        let figure = v.figure();
        Extents {
            areas: of_areas(&figure.areas),
            lines: of_moving(&figure.lines),
            points: joined(of_way(&figure.points), of_still(&figure.lines)),
            ends: EndEnvelopes::of(figure, ends),
        }
    }

    /// The envelopes under a rule. Takes no memory.
    pub fn extent(&self, rule: Rule) -> Extent
        ensures extent { result ≡ extent_under rule self.now }
    {
        Extent {
            areas: self.areas,
            lines: self.lines,
            points: self.points,
            ends: self.ends.under(rule),
        }
    }
}

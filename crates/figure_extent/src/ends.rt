ghost use Rattle.std.specs.Prelude.{◌≡◌, List, [], ◌∷◌, ◌++◌, Some};
ghost use Rattle.plane_exact.specs.Places.{IsInLimit};
ghost use Rattle.plane_exact.specs.declared.point.Pt.{Pt};
ghost use Rattle.point_set.specs.Extents.{IsEnvelope, boundary_ends, keep_if};
ghost use Rattle.point_set.specs.Lines.{ends_of, ends_of_lines};
ghost use Rattle.point_set.specs.Shape.{IsWayInLimit, IsWellShaped};
ghost use Rattle.point_set.specs.declared.figure.Figure.{Figure};
ghost use Rattle.point_set.specs.declared.rule.Rule.{Rule};
ghost use Rattle.bound_rule.specs.Ends.{AreEndsOf};
ghost use Rattle.figure_extent.specs.Kept.{AreWithEnds, ends_under};

use crate::envelopes::{at_position, joined};
use bound_rule::{EndTable, in_boundary, two_ends};
use plane_exact::{Node, Path, Pt, Window};
use point_set::{Figure, Rule};

/// The envelopes of the line ends that are boundary, one for each rule.
#[derive(Clone, Copy, Debug)]
pub(crate) struct EndEnvelopes {
    pub(crate) mod2: Option<Window>,
    pub(crate) endpoint: Option<Window>,
    pub(crate) multivalent: Option<Window>,
    pub(crate) monovalent: Option<Window>,
}

impl EndEnvelopes {
    /// The envelopes of the ends of all lines of the figure.
    pub(crate) fn of(figure: &Figure, ends: &EndTable) -> EndEnvelopes
        requires shaped { IsWellShaped figure.now }
        requires ends { AreEndsOf figure.now ends.now }
        ensures envelopes { (rule : Rule) → let all = ends_of_lines figure.now.lines in
            IsEnvelope (boundary_ends rule all all) (ends_under rule result) }
    {
        let mut envelopes = EndEnvelopes {
            mod2: None,
            endpoint: None,
            multivalent: None,
            monovalent: None,
        };
        for line in figure.lines.as_slice() {
            envelopes = envelopes.with_line(ends, line);
        }
        envelopes
    }

    /// The envelopes with the ends of one line more.
    fn with_line(self, ends: &EndTable, line: &Path) -> EndEnvelopes
        requires limit { IsWayInLimit line.now }
        ensures more { (f : Figure) → AreEndsOf f ends.now → AreWithEnds f self (ends_of line.now) result }
    {
        match two_ends(line) {
            Some((first, last)) => self.with_end(ends, first).with_end(ends, last),
            None => self,
        }
    }

    /// The envelopes with one line end more.
    fn with_end(self, ends: &EndTable, p: Pt) -> EndEnvelopes
        requires limit { IsInLimit p }
        ensures more { (f : Figure) → AreEndsOf f ends.now → AreWithEnds f self (p ∷ []) result }
    {
        let count = ends.count(&Node::at_point(p));
        let here = at_position(p);
        EndEnvelopes {
            mod2: joined_if(in_boundary(Rule::Mod2, count), self.mod2, here),
            endpoint: joined_if(in_boundary(Rule::Endpoint, count), self.endpoint, here),
            multivalent: joined_if(
                in_boundary(Rule::Multivalent, count),
                self.multivalent,
                here,
            ),
            monovalent: joined_if(in_boundary(Rule::Monovalent, count), self.monovalent, here),
        }
    }

    /// The envelope of the line ends that are boundary under the rule.
    pub(crate) fn under(&self, rule: Rule) -> Option<Window>
        ensures ends { result ≡ ends_under rule self.now }
    {
        match rule {
            Rule::Mod2 => self.mod2,
            Rule::Endpoint => self.endpoint,
            Rule::Multivalent => self.multivalent,
            Rule::Monovalent => self.monovalent,
        }
    }
}

/// The envelope of some positions, and where `more` holds of those in the box too.
fn joined_if(more: bool, envelope: Option<Window>, here: Window) -> Option<Window>
    ensures envelope { (xs ys : List Pt) → IsEnvelope xs envelope → IsEnvelope ys (Some here)
        → IsEnvelope (xs ++ keep_if more ys []) result }
{
    if more {
        joined(envelope, Some(here))
    } else {
        envelope
    }
}

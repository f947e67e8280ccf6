//! Laws of the near nodes: each is a function that does nothing, and its contract is the law. It looks at the two figures, so that
//! they are known to be valid.

ghost use Rattle.box_laws.specs.Boxes.{LawFrameHolds, LawNearEdgesMeet};
ghost use Rattle.near_laws.specs.Near.{LawBeyondIsThere, LawFarShowsNoMore, LawNearDecide};

use point_set::{Rule, Valid};

/// The envelope of a whole figure holds all of it. Where a box holds the common part of two figures, what their envelopes tell of
/// each cell is there, a point that isn't near the box shows no more than that, and the few nodes near it decide the rest. Each
/// edge that holds a point near a box meets the box.
pub fn law_near(a: &Valid, b: &Valid, rule: Rule)
    ensures frame { LawFrameHolds a.now rule }
    ensures beyond { LawBeyondIsThere a.now b.now rule }
    ensures far { LawFarShowsNoMore a.now b.now rule }
    ensures decide { LawNearDecide a.now b.now rule }
    ensures edges { LawNearEdgesMeet a.now }
{
    a.figure();
    b.figure();
}

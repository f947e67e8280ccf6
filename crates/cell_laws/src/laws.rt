//! Laws of what is seen of two valid figures at their nodes: each is a function that does nothing, and its contract is the
//! law. It looks at the two figures, so that they are known to be valid.

ghost use Rattle.point_set.specs.Visible.{LawGermExists, LawGermHoldsSegment, LawSectorIsOne, LawVisibleOff, LawVisibleOn};
ghost use Rattle.cell_laws.specs.Decided.{AreDecidedBySamples};

use point_set::{Rule, Valid};

/// Near a point the pair of the parts in which points lie settles along every direction: there is a pair germ, and some segment
/// has it at all its points. In one sector of the edges at the point it is the same along all directions, and some triangle has
/// it at all its points.
pub fn law_sector(a: &Valid, b: &Valid, rule: Rule)
    ensures germ { LawGermExists a.now b.now rule }
    ensures segment { LawGermHoldsSegment a.now b.now rule }
    ensures sector { LawSectorIsOne a.now b.now rule }
{
    a.figure();
    b.figure();
}

/// Each point that is no node is seen from a node, with its pair at all points strictly between the two: along an edge where it
/// is on one, else along a direction in which no edge runs from the node, if there is any node.
pub fn law_visible(a: &Valid, b: &Valid, rule: Rule)
    ensures off_edges { LawVisibleOff a.now b.now rule }
    ensures on_edge { LawVisibleOn a.now b.now rule }
{
    a.figure();
    b.figure();
}

/// The samples at the nodes of two figures decide their matrix: there is a matrix that is that of the samples and that of the two
/// point sets, and no other is the one or the other.
pub fn samples_decide(a: &Valid, b: &Valid, rule: Rule)
    ensures decided { AreDecidedBySamples a.now b.now rule }
{
    a.figure();
    b.figure();
}

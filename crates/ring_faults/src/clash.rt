ghost use Rattle.std.specs.Prelude.{◌≡◌, ◌↔◌, ◌<◌, ◌≤◌, length, All, IfOk, IsTrue, List};
ghost use Rattle.plane_exact.specs.NodePoints.{point_at};
ghost use Rattle.plane_exact.specs.Places.{IsInLimit, point_of};
ghost use Rattle.plane_exact.specs.declared.point.Seg.{Seg};
ghost use Rattle.plane_laws.specs.Plane.{IsSamePoint};
ghost use Rattle.point_set.specs.Validity.{IsJoint};
ghost use Rattle.ring_faults.specs.Clashes.{ClashAt, ClashesWithSome, SomeClash};
ghost use Rattle.ring_faults.specs.Joints.{HasUnjoinedPoint};
ghost use Rattle.ring_faults.specs.Parts.{IsEdgeSound, AreEdgesSound};

use crate::link::is_same_node;
use crate::near::NearEdges;
use crate::part::PartEdges;
use crate::sharing::share_segment;
use plane_exact::{NoMemory, Node, PlaceList, Pt, Seg};
use seg_cross::{Meet, meet};
use std::alloc::Global;

/// How two edges may clash.
#[derive(Clone, Copy, Debug, PartialEq, Eq)]
pub(crate) enum Clash {
    /// They have a common point that isn't their joint as neighbours in one ring.
    Crossing,
    /// They are of two parts, and have a common segment.
    Sharing,
}

/// Whether some two of the edges clash so.
pub(crate) fn some_clash(alloc: Global, edges: PartEdges, clash: Clash) -> Result<bool, NoMemory>
    requires few { length edges ≤ 1048576 }
    requires sound { AreEdgesSound edges }
    ensures clash { IfOk result (λ b. IsTrue b ↔ SomeClash clash edges) }
{
    let near = NearEdges::new(alloc, edges)?;
    let mut places = PlaceList::new(alloc);
    for i in 0..near.edges.len() {
        near.places_near(near.edges.at(i).seg, &mut places)?;
        if clashes_with_some(&near.edges, clash, i, &places) {
            return Ok(true);
        }
    }
    Ok(false)
}

/// Whether the edge at a place clashes so with that at one of some places.
fn clashes_with_some(edges: &PartEdges, clash: Clash, i: usize, places: &PlaceList) -> bool
    requires sound { AreEdgesSound edges.now }
    requires there { i < length edges.now }
    requires places { All (λ place. place < length edges.now) places.now }
    ensures clash { IsTrue result ↔ ClashesWithSome clash edges.now i places.now }
{
    for place in places.as_slice() {
        if clash_at(edges, clash, i, *place as usize) {
            return true;
        }
    }
    false
}

/// Whether the edges at two places clash so.
fn clash_at(edges: &PartEdges, clash: Clash, i: usize, j: usize) -> bool
    requires sound { AreEdgesSound edges.now }
    requires i { i < length edges.now }
    requires j { j < length edges.now }
    ensures clash { IsTrue result ↔ ClashAt clash edges.now i j }
{
    let e = *edges.at(i);
    let f = *edges.at(j);
    match clash {
        Clash::Crossing => i < j && are_unjoined(e.seg, i, f.seg, j, edges.len()),
        Clash::Sharing => e.part < f.part && share_segment(e.seg, f.seg),
    }
}

/// Whether the edges at the places i and j of a ring with so many edges have a common point that isn't their joint.
fn are_unjoined(e: Seg, i: usize, f: Seg, j: usize, count: usize) -> bool
    requires e { IsEdgeSound e }
    requires f { IsEdgeSound f }
    requires j { j < count }
    requires i { i < count }
    ensures unjoined { (edges : List Seg) → length edges ≡ count → IsTrue result ↔ HasUnjoinedPoint edges i j e f }
{
    match meet(e, f) {
        Meet::Apart => false,
        Meet::At(node) => !is_joint(&node, e, i, f, j, count),
        Meet::Along(_, _) => true,
    }
}

/// Whether a node is where two neighbours in a ring with so many edges are joined: the edge at i ends and the next begins,
/// or the first begins and the last ends.
fn is_joint(node: &Node, e: Seg, i: usize, f: Seg, j: usize, count: usize) -> bool
    requires e { IsInLimit e.a }
    requires f { IsInLimit f.a }
    requires i { i < count }
    requires j { j < count }
    ensures joint { (edges : List Seg) → length edges ≡ count → IsTrue result ↔ IsJoint edges i j e f (point_at node.now) }
{
    j == i + 1 && is_at(node, f.a) || i == 0 && j + 1 == count && is_at(node, e.a)
}

/// Whether a node is at a position.
fn is_at(node: &Node, p: Pt) -> bool
    requires limited { IsInLimit p }
    ensures same { IsTrue result ↔ IsSamePoint (point_of p) (point_at node.now) }
{
    is_same_node(&Node::at_point(p), node)
}

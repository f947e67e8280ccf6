ghost use Rattle.std.specs.Prelude.{◌≡◌, ◌↔◌, ◌-ℤ◌, [], ◌∷◌, ◌++◌, OnOk, IsTrue, All, true, false};
ghost use Rattle.plane_exact.specs.NodePoints.{point_at};
ghost use Rattle.plane_exact.specs.Places.{IsInLimit, point_of};
ghost use Rattle.plane_laws.specs.Plane.{IsSamePoint};
ghost use Rattle.point_set.specs.Edges.{area_of};
ghost use Rattle.point_set.specs.Validity.{IsOnEdge};
ghost use Rattle.fan_order.specs.Rays.{IsShort};
ghost use Rattle.fan_order.specs.Sections.{IsSectionOfEdge, AddsSectionsOf};

use crate::section::{Section, SectionList};
use im_matrix::Which;
use plane_exact::{Dir, NoMemory, Node, Pt, cmp_nodes};
use point_set::{Edge, Hand, Owner};
use std::cmp::Ordering;

/// Adds the sections of an edge that holds the node: one towards each end that isn't the node, first towards the end `b` and
/// then towards the end `a`. A direction is the whole way from one end of the edge to the other.
///
/// # Errors
/// `NoMemory`, and then `out` holds any list.
pub fn add_sections(
    out: &mut SectionList,
    edge: &Edge,
    n: &Node,
    which: Which,
) -> Result<(), NoMemory>
    requires a { IsInLimit edge.now.seg.a }
    requires b { IsInLimit edge.now.seg.b }
    requires apart { ¬ (edge.now.seg.a ≡ edge.now.seg.b) }
    requires on { IsOnEdge edge.now.seg (point_at n.now) }
    ensures sections { OnOk result (AddsSectionsOf which edge.now (point_at n.now) out.old out.new) }
    ensures short { OnOk result (All (λ s. IsShort s.dir) out.old → All (λ s. IsShort s.dir) out.new) }
{
    add_unless_at(out, n, edge.seg.b, section_toward(edge, which, true))?;
    add_unless_at(out, n, edge.seg.a, section_toward(edge, which, false))
}

/// Adds a section unless the node is at the end towards which it leads.
fn add_unless_at(out: &mut SectionList, n: &Node, end: Pt, s: Section) -> Result<(), NoMemory>
    requires end { IsInLimit end }
    ensures here { OnOk result (IsSamePoint (point_of end) (point_at n.now) → out.new ≡ out.old) }
    ensures away { OnOk result (¬ IsSamePoint (point_of end) (point_at n.now) → out.new ≡ out.old ++ s ∷ []) }
{
    if is_at(n, end) {
        return Ok(());
    }
    out.push(s)
}

/// Whether the node is at a position.
fn is_at(n: &Node, p: Pt) -> bool
    requires limit { IsInLimit p }
    ensures at { IsTrue result ↔ (IsSamePoint (point_of p) (point_at n.now)) }
{
    cmp_nodes(&Node::at_point(p), n) == Ordering::Equal
}

/// The section of an edge towards its end, or back towards its start.
fn section_toward(edge: &Edge, which: Which, forward: bool) -> Section
    requires a { IsInLimit edge.now.seg.a }
    requires b { IsInLimit edge.now.seg.b }
    requires apart { ¬ (edge.now.seg.a ≡ edge.now.seg.b) }
    ensures section { IsSectionOfEdge which edge.now forward result }
{
    let (dir, hand) = if forward {
        (way(edge.seg.a, edge.seg.b), edge.hand)
    } else {
        (way(edge.seg.b, edge.seg.a), edge.hand.opposite())
    };
    Section {
        dir,
        hand,
        which,
        area: area(edge.owner),
    }
}

/// The way from one position to another.
fn way(from: Pt, to: Pt) -> Dir
    requires from { IsInLimit from }
    requires to { IsInLimit to }
    requires apart { ¬ (from ≡ to) }
    ensures across { result.dx ≡ to.x -ℤ from.x }
    ensures above { result.dy ≡ to.y -ℤ from.y }
{
    Dir {
        dx: to.x - from.x,
        dy: to.y - from.y,
    }
}

/// The area of an edge's owner.
fn area(owner: Owner) -> Option<u32>
    ensures area { result ≡ area_of owner }
{
    match owner {
        Owner::Line(_) => None,
        Owner::Ring(area, _) => Some(area),
    }
}

ghost use Rattle.std.specs.Prelude.{◌≡◌, OnOk, IfOk, All, Some};
ghost use Rattle.plane_exact.specs.NodePoints.{point_at};
ghost use Rattle.plane_exact.specs.Places.{IsInLimit};
ghost use Rattle.near_laws.specs.Near.{IsNearNode};
ghost use Rattle.point_set.specs.Nodes.{all_positions, segs_of};
ghost use Rattle.point_set.specs.Shape.{has_item, IsLineShaped, IsWayInLimit, IsWellShaped};
ghost use Rattle.point_set.specs.Validity.{IsValid};
ghost use Rattle.relate_core.specs.Tables.{AreNodes};
ghost use Rattle.relate_core.specs.NodeSets.{AddsNear, AreEdgesNear, CrossesOne, CrossesSome, CrossesWithin, HasTwoEnds};
ghost use Rattle.relate_core.specs.NodeSets.{IsAtEnd, IsAtOneOf, IsAtPosition, IsAtStart, IsAtThe};

use crate::edges::{edge_at, edges_near, shared};
use node_table::NodeTable;
use plane_exact::{NoMemory, Node, Path, PlaceList, Pt, Seg, SegList, Window};
use point_set::{Figure, Paths, Target};
use seg_cross::{Meet, meet};
use std::alloc::Global;

/// The few nodes of two figures that are near a box, without sections: each near position of both, and each near point that is the
/// only common point of two edges, one of each figure, or both of one figure that has areas.
///
/// # Errors
/// `NoMemory`.
pub(crate) fn nodes_in<A: Target, B: Target>(
    alloc: Global,
    a: &mut A,
    b: &mut B,
    w: Window,
) -> Result<NodeTable, NoMemory>
    ensures nodes { IfOk result (AreNodes (IsNearNode (Some w) (A.figure a.old) (B.figure b.old))) }
    ensures figure_a { A.figure a.new ≡ A.figure a.old }
    ensures figure_b { B.figure b.new ≡ B.figure b.old }
    ensures looks_a { A.looks a.new ≡ A.looks a.old }
    ensures looks_b { B.looks b.new ≡ B.looks b.old }
{
    let edges_a = edges_near(alloc, a, w)?;
    let edges_b = edges_near(alloc, b, w)?;
    let mut nodes = NodeTable::new(alloc);
    add_positions(&mut nodes, a.valid().figure(), &edges_a, w)?;
    add_positions(&mut nodes, b.valid().figure(), &edges_b, w)?;
    add_crossings(alloc, &mut nodes, &edges_a, b, w)?;
    add_own_crossings(alloc, &mut nodes, &edges_a, a, w)?;
    add_own_crossings(alloc, &mut nodes, &edges_b, b, w)?;
    Ok(nodes)
}

/// Puts a node in if it is near a box: if the least whole box round it meets that one.
fn add_near(nodes: &mut NodeTable, n: Node, w: Window) -> Result<(), NoMemory>
    ensures nodes { OnOk result (AddsNear w (IsAtThe (point_at n)) nodes.old nodes.new) }
{
    if Window::round(&n).meets(&w) {
        nodes.add_node(n)?;
    }
    Ok(())
}

/// Puts a position in if it is near a box: the least box round a position holds it alone.
fn add_position(nodes: &mut NodeTable, p: Pt, w: Window) -> Result<(), NoMemory>
    requires limit { IsInLimit p }
    ensures nodes { OnOk result (AddsNear w (IsAtPosition p) nodes.old nodes.new) }
{
    if Window::of(Seg { a: p, b: p }).meets(&w) {
        nodes.add_node(Node::at_point(p))?;
    }
    Ok(())
}

/// Puts all positions of a figure that are near a box in: its points, the first position of each line, and the ends of its edges
/// that meet the box. Each position of a way is its first one or an end of one of its edges, and rings have edges.
fn add_positions(
    nodes: &mut NodeTable,
    figure: &Figure,
    edges: &SegList,
    w: Window,
) -> Result<(), NoMemory>
    requires shaped { IsWellShaped figure.now }
    requires valid { IsValid figure.now }
    requires edges { AreEdgesNear w figure.now edges.now }
    ensures nodes { OnOk result (AddsNear w (IsAtOneOf (all_positions figure.now)) nodes.old nodes.new) }
{
    add_points(nodes, &figure.points, w)?;
    add_starts(nodes, &figure.lines, w)?;
    add_ends(nodes, edges, w)
}

/// Puts positions that are near a box in.
fn add_points(nodes: &mut NodeTable, points: &Path, w: Window) -> Result<(), NoMemory>
    requires limit { IsWayInLimit points.now }
    ensures nodes { OnOk result (AddsNear w (IsAtOneOf points.now) nodes.old nodes.new) }
{
    for p in points.as_slice() {
        add_position(nodes, *p, w)?;
    }
    Ok(())
}

/// Puts the first position of each line in where it is near a box: a line whose positions are all equal has no edge.
fn add_starts(nodes: &mut NodeTable, lines: &Paths, w: Window) -> Result<(), NoMemory>
    requires shaped { All IsLineShaped lines.now }
    ensures nodes { OnOk result (AddsNear w (IsAtStart lines.now) nodes.old nodes.new) }
{
    for line in lines.as_slice() {
        if let Some(start) = line.as_slice().first() {
            add_position(nodes, *start, w)?;
        }
    }
    Ok(())
}

/// Puts both ends of each edge in where they are near a box.
fn add_ends(nodes: &mut NodeTable, edges: &SegList, w: Window) -> Result<(), NoMemory>
    requires edges { All HasTwoEnds edges.now }
    ensures nodes { OnOk result (AddsNear w (IsAtEnd edges.now) nodes.old nodes.new) }
{
    for edge in edges.as_slice() {
        add_position(nodes, edge.a, w)?;
        add_position(nodes, edge.b, w)?;
    }
    Ok(())
}

/// Puts the only common points of edges of a figure with all its edges in where they are near a box, if it has areas: without any,
/// where its edges cross shows nothing that the few nodes don't.
fn add_own_crossings<T: Target>(
    alloc: Global,
    nodes: &mut NodeTable,
    edges: &SegList,
    t: &mut T,
    w: Window,
) -> Result<(), NoMemory>
    requires edges { All HasTwoEnds edges.now }
    ensures nodes { OnOk result (AddsNear w (CrossesWithin edges.now (T.figure t.old)) nodes.old nodes.new) }
    ensures figure { T.figure t.new ≡ T.figure t.old }
    ensures looks { T.looks t.new ≡ T.looks t.old }
{
    if has_areas(t.valid().figure()) {
        add_crossings(alloc, nodes, edges, t, w)?;
    }
    Ok(())
}

/// Whether a figure has areas.
fn has_areas(figure: &Figure) -> bool
    ensures areas { result ≡ has_item figure.now.areas }
{
    figure.areas.len() > 0
}

/// Puts the only common points of edges with those of a figure in where they are near a box.
fn add_crossings<T: Target>(
    alloc: Global,
    nodes: &mut NodeTable,
    edges: &SegList,
    t: &mut T,
    w: Window,
) -> Result<(), NoMemory>
    requires edges { All HasTwoEnds edges.now }
    ensures nodes { OnOk result (AddsNear w (CrossesSome edges.now (segs_of (T.figure t.old))) nodes.old nodes.new) }
    ensures figure { T.figure t.new ≡ T.figure t.old }
    ensures looks { T.looks t.new ≡ T.looks t.old }
{
    let mut near = PlaceList::new(alloc);
    for edge in edges.as_slice() {
        add_crossings_with(nodes, *edge, t, w, &mut near)?;
    }
    Ok(())
}

/// Puts the only common points of one edge with those of a figure in where they are near a box.
fn add_crossings_with<T: Target>(
    nodes: &mut NodeTable,
    edge: Seg,
    t: &mut T,
    w: Window,
    near: &mut PlaceList,
) -> Result<(), NoMemory>
    requires edge { HasTwoEnds edge }
    ensures nodes { OnOk result (AddsNear w (CrossesOne edge (segs_of (T.figure t.old))) nodes.old nodes.new) }
    ensures figure { T.figure t.new ≡ T.figure t.old }
    ensures looks { T.looks t.new ≡ T.looks t.old }
{
    t.edges_in(shared(&Window::of(edge), &w), near)?;
    for place in near.as_slice() {
        if let Meet::At(n) = meet(edge, edge_at(t, *place).seg) {
            add_near(nodes, n, w)?;
        }
    }
    Ok(())
}

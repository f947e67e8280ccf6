ghost use Rattle.std.specs.Prelude.{◌≡◌, ◌<◌, ◌≤◌, ◌↔◌, All, IfOk, IfSome, IsNone, IsTrue, length, map, slice_get};
ghost use Rattle.area_locator.specs.Indexed.{IsEdge, IsFirstDifference, edges_of_area, heights_of as heights};
ghost use Rattle.point_set.specs.Validity.{IsAtPlace};

use crate::edges::AreaEdges;
use crate::indexed::locate_by;
use im_matrix::Loc;
use plane_exact::{Meter, NoMemory, Node, Seg, SegList, in_limit};
use point_set::{Area, Valid};
use std::alloc::Global;
use std::marker::Model;
use y_index::{Span, SpanList, YIndex};

/// The edges of an area, with an index over their heights. Contracts see it as the list of these edges.
#[derive(Debug, Drop)]
pub struct AreaIndex {
    edges: SegList,
    rows: YIndex,
}

impl Model for AreaIndex {
    ghost use Rattle.std.specs.Prelude.{List};
    ghost use Rattle.plane_exact.specs.declared.point.Seg.{Seg};
    ghost use Rattle.area_locator.specs.Indexed.{IsIndexed};
    ghost use Rattle.y_index.specs.Index.{rows_of};

    ghost Value = { List Seg };

    ghost view = { λ s. s.edges };

    ghost invariant = { λ s. IsIndexed s.edges (rows_of s.rows) };
}

impl AreaIndex {
    ghost use Rattle.std.specs.Prelude.{◌≡◌, ◌<◌, ◌≤◌, ◌^◌, ◌↔◌, false, All, IfOk, IfSome, IsNone, length};
    ghost use Rattle.area_locator.specs.Indexed.{IsEdge, IsLocationBy, IsFirstDifference, edges_at, edges_of_area};
    ghost use Rattle.plane_exact.specs.NodePoints.{point_at};
    ghost use Rattle.point_set.specs.Location.{location_by};
    ghost use Rattle.point_set.specs.Rings.{is_odd, is_on_edges};
    ghost use Rattle.point_set.specs.Validity.{IsAtPlace};
    ghost use Rattle.point_set.specs.declared.figure.Area.{Area};
    ghost use Rattle.y_index.specs.Steps.{RisesWithin};

    /// The index of the area at a place of a figure, over that area's edges in order.
    ///
    /// # Errors
    /// `NoMemory`.
    pub fn build(alloc: Global, v: &Valid, area: u32) -> Result<AreaIndex, NoMemory>
        requires place { area < length v.now.areas }
        ensures edges { IfOk result (λ index. (a : Area) → IsAtPlace v.now.areas area a → index ≡ edges_of_area a) }
    {
        let edges = edges_in(alloc, area_at(v, area))?;
        AreaIndex::over(alloc, edges)
    }

    /// The index over edges.
    ///
    /// # Errors
    /// `NoMemory`.
    pub fn over(alloc: Global, edges: SegList) -> Result<AreaIndex, NoMemory>
        requires few { length edges ≤ 1048576 }
        requires proper { All IsEdge edges }
        ensures edges { IfOk result (λ index. index ≡ edges) }
    {
        let spans = spans_of(alloc, edges.as_slice())?;
        let rows = YIndex::build(alloc, &spans)?;
        Ok(AreaIndex { edges, rows })
    }

    /// Where a node lies in each valid area that has the index's edges in this order. Takes no memory.
    ///
    /// One step of the meter is one row looked at. With k edges whose range in y holds the node, and d binary digits that are
    /// enough for the number of edges, it rises by at most `2 * (k + 1) * (d + 2)`.
    pub fn locate<M: Meter>(&self, n: &Node, meter: &mut M) -> Loc
        requires used { M.used meter.old ≤ 2 ^ 62 }
        ensures location { IsLocationBy self.now (point_at n.now) result }

        // What it answers for edges of no valid area too.
        ensures parity { result ≡ location_by (is_on_edges (point_at n.now) self.now) (is_odd (point_at n.now) self.now) false }

        ensures used { RisesWithin (length (edges_at (point_at n.now) self.now)) (length self.now) (M.used meter.old) (M.used meter.new) }
    {
        locate_by(&self.rows, &self.edges, n, meter)
    }

    /// Whether the index is over the edges of the area at a place of a figure: None where it is, and else the first place at
    /// which the two lists of edges differ, or at which the shorter one ends. Takes no memory.
    pub fn differs_at(&self, v: &Valid, area: u32) -> Option<u32>
        requires place { area < length v.now.areas }
        ensures none { (a : Area) → IsAtPlace v.now.areas area a → IsNone result ↔ (self.now ≡ edges_of_area a) }
        ensures first { IfSome result (λ place.
            (a : Area) → IsAtPlace v.now.areas area a → IsFirstDifference self.now (edges_of_area a) place) }
    {
        first_difference(&self.edges, area_at(v, area))
    }
}

/// The first place at which a list of edges differs from those of an area, or at which the shorter of the two lists ends.
pub(crate) fn first_difference(edges: &SegList, area: &Area) -> Option<u32>
    requires few { length edges.now ≤ 1048576 }
    ensures none { IsNone result ↔ (edges.now ≡ edges_of_area area.now) }
    ensures first { IfSome result (IsFirstDifference edges.now (edges_of_area area.now)) }
{
    let edges = edges.as_slice();
    let mut place = 0;
    for edge in AreaEdges::of(area) {
        if !is_at(edges, place, edge) {
            return Some(place as u32);
        }
        place += 1;
    }
    if place < edges.len() {
        Some(place as u32)
    } else {
        None
    }
}

/// Whether an edge stands at a place of a list.
fn is_at(edges: &[Seg], place: usize, edge: Seg) -> bool
    ensures at { IsTrue result ↔ (slice_get edges.now place ≡ Some edge) }
{
    place < edges.len() && are_equal(edges[place], edge)
}

/// Whether two edges are equal.
fn are_equal(edge: Seg, other: Seg) -> bool
    ensures equal { IsTrue result ↔ (edge ≡ other) }
{
    edge == other
}

/// The area at a place of a figure.
fn area_at(v: &Valid, area: u32) -> &Area
    requires place { area < length v.now.areas }
    ensures area { IsAtPlace v.now.areas area result.now }
    ensures proper { All IsEdge (edges_of_area result.now) }
    ensures few { length (edges_of_area result.now) ≤ 1048576 }
{
    v.figure().areas.at(area as usize)
}

/// The edges of an area in order.
pub(crate) fn edges_in(alloc: Global, area: &Area) -> Result<SegList, NoMemory>
    ensures edges { IfOk result (λ edges. edges ≡ edges_of_area area.now) }
{
    let mut edges = SegList::new(alloc);
    for edge in AreaEdges::of(area) {
        edges.push(edge)?;
    }
    Ok(edges)
}

/// Whether each edge has two different ends within the limit: what an index is made of.
pub fn are_edges(edges: &[Seg]) -> bool
    ensures edges { IsTrue result ↔ (All IsEdge edges.now) }
{
    edges.iter().all(|edge| is_edge(*edge))
}

fn is_edge(edge: Seg) -> bool
    ensures edge { IsTrue result ↔ (IsEdge edge) }
{
    in_limit(edge.a) && in_limit(edge.b) && edge.a != edge.b
}

/// The heights of edges, in order: what an index over edges is built of.
///
/// # Errors
/// `NoMemory`.
pub fn spans_of(alloc: Global, edges: &[Seg]) -> Result<SpanList, NoMemory>
    ensures spans { IfOk result (λ spans. spans ≡ map heights edges.now) }
{
    let mut spans = SpanList::new(alloc);
    for edge in edges {
        spans.push(heights_of(*edge))?;
    }
    Ok(spans)
}

/// The heights that an edge has.
fn heights_of(edge: Seg) -> Span
    ensures heights { result ≡ heights edge }
{
    Span {
        low: edge.a.y.min(edge.b.y),
        high: edge.a.y.max(edge.b.y),
    }
}

ghost use Rattle.std.specs.Prelude.{◌≡◌, ◌≢◌, ◌↔◌, ◌-ℤ◌, ◌<◌, ℕ, true, IsTrue, IfOk, All, length, map, List};
ghost use Rattle.std.specs.List.{Any};
ghost use Rattle.area_entry.specs.Entries.{BeginsIn, IsUnshared, RunsInto, RunsOn, RunsOnAtPlace, RunsOnFrom, RunsOnFromRow};
ghost use Rattle.area_entry.specs.Entries.{SomeRunsOnFrom};
ghost use Rattle.area_entry.specs.Grounds.{AreRowsOf};
ghost use Rattle.area_entry.specs.RowSections.{AreOfOneArea, IsRowSound};
ghost use Rattle.im_matrix.specs.declared.Loc.TheVariants as loc;
ghost use Rattle.plane_exact.specs.NodePoints.{point_at};
ghost use Rattle.plane_exact.specs.Places.{IsInLimit, point_of};
ghost use Rattle.plane_exact.specs.declared.point.Pt.{Pt};
ghost use Rattle.plane_laws.specs.Plane.{IsSamePoint};
ghost use Rattle.point_set.specs.declared.figure.Area.{Area};
ghost use Rattle.point_set.specs.Rings.{edges_of, is_on_edges};
ghost use Rattle.point_set.specs.Validity.{EdgesShareSegment, IsAtPlace, IsOnEdge};
ghost use Rattle.valid_laws.specs.Entering.{edges_in, Enters, IsClean, IsSimpleRing};

use crate::germ::part_along;
use crate::near_rows::NearRows;
use im_matrix::Loc;
use plane_exact::{Dir, NoMemory, Node, PlaceList, Pt, cmp_nodes};
use point_set::Edge;
use seg_cross::{Meet, meet};
use std::alloc::Global;
use std::cmp::Ordering;

/// Whether a ring enters a part of an area, its inside or its outside: some point of the ring lies there. The two have no
/// segment in common. `ring` has the ring's edges in order, `first` is where its first position lies in the area, and `rows`
/// are the area's edges with their hands.
///
/// A ring that doesn't begin in the part enters it from a point of the area's edges.
///
/// # Errors
/// `NoMemory`.
pub fn enters(
    alloc: Global,
    ring: &NearRows,
    rows: &NearRows,
    first: Loc,
    part: Loc,
) -> Result<bool, NoMemory>
    requires ring_sound { All IsRowSound ring.now }
    requires sound { All IsRowSound rows.now }
    requires one_area { AreOfOneArea rows.now }
    requires part { part ≢ loc.Boundary }
    ensures enters { IfOk result (λ b. (way : List Pt) (area : Area) → map (λ row. row.seg) ring.now ≡ edges_of way → IsSimpleRing way
        → IsClean area → AreRowsOf area rows.now → ¬ EdgesShareSegment (edges_of way) (edges_in area) → BeginsIn way area first
        → IsTrue b ↔ Enters (edges_of way) area part) }
{
    if begins_in(ring, first, part) {
        return Ok(true);
    }
    runs_into(alloc, ring, rows, part)
}

/// Whether a ring that has an edge begins in the part.
fn begins_in(ring: &NearRows, first: Loc, part: Loc) -> bool
    ensures begins { IsTrue result ↔ ((first ≡ part) × (0 < length ring.now)) }
{
    first == part && ring.rows().len() > 0
}

/// Whether an edge of the ring runs on into the part, from a point of the area's edges. The shorter of the two lists of edges is
/// walked, and the index of the other one is asked.
fn runs_into(alloc: Global, ring: &NearRows, rows: &NearRows, part: Loc) -> Result<bool, NoMemory>
    requires ring_sound { All IsRowSound ring.now }
    requires sound { All IsRowSound rows.now }
    requires one_area { AreOfOneArea rows.now }
    ensures runs { IfOk result (λ b. (area : Area) → IsClean area → AreRowsOf area rows.now
        → All (λ row. IsUnshared area row.seg) ring.now → IsTrue b ↔ Any (λ row. RunsInto area part row.seg) ring.now) }
{
    if ring.rows().len() <= rows.rows().len() {
        some_edge_runs_into(alloc, ring, rows, part)
    } else {
        runs_from_some_row(alloc, ring, rows, part)
    }
}

/// Whether an edge of the ring runs on into the part, from a point of the area's edges, by a walk over the ring's edges.
fn some_edge_runs_into(
    alloc: Global,
    ring: &NearRows,
    rows: &NearRows,
    part: Loc,
) -> Result<bool, NoMemory>
    requires ring_sound { All IsRowSound ring.now }
    requires sound { All IsRowSound rows.now }
    requires one_area { AreOfOneArea rows.now }
    ensures runs { IfOk result (λ b. (area : Area) → IsClean area → AreRowsOf area rows.now
        → All (λ row. IsUnshared area row.seg) ring.now → IsTrue b ↔ Any (λ row. RunsInto area part row.seg) ring.now) }
{
    for edge in ring.rows().as_slice() {
        if edge_runs_into(alloc, edge, rows, part)? {
            return Ok(true);
        }
    }
    Ok(false)
}

/// Whether one edge runs on into the part, from a point of the area's edges.
#[tactic(auto, using(crate::proofs::PlacedRows::near_within))]
fn edge_runs_into(alloc: Global, edge: &Edge, rows: &NearRows, part: Loc) -> Result<bool, NoMemory>
    requires edge_sound { IsRowSound edge.now }
    requires sound { All IsRowSound rows.now }
    requires one_area { AreOfOneArea rows.now }
    ensures runs { IfOk result (λ b. (area : Area) → IsClean area → AreRowsOf area rows.now → IsUnshared area edge.now.seg
        → IsTrue b ↔ RunsInto area part edge.now.seg) }
{
    let places = rows.places_near(alloc, edge.seg)?;
    runs_on_from_some(alloc, edge, &places, rows, part)
}

/// Whether an edge runs on into the part, from a point of one of the area's edges at some places.
fn runs_on_from_some(
    alloc: Global,
    edge: &Edge,
    places: &PlaceList,
    rows: &NearRows,
    part: Loc,
) -> Result<bool, NoMemory>
    requires edge_sound { IsRowSound edge.now }
    requires places { All (λ place. place < length rows.now) places.now }
    requires sound { All IsRowSound rows.now }
    requires one_area { AreOfOneArea rows.now }
    ensures runs { IfOk result (λ b. (area : Area) → IsClean area → AreRowsOf area rows.now → IsUnshared area edge.now.seg
        → IsTrue b ↔ Any (RunsOnFromRow edge.now.seg rows.now area part) places.now) }
{
    for place in places.as_slice() {
        if runs_on_from_row(alloc, edge, *place, rows, part)? {
            return Ok(true);
        }
    }
    Ok(false)
}

/// Whether an edge runs on into the part, from its point in common with the area's edge at a place.
fn runs_on_from_row(
    alloc: Global,
    edge: &Edge,
    place: u32,
    rows: &NearRows,
    part: Loc,
) -> Result<bool, NoMemory>
    requires edge_sound { IsRowSound edge.now }
    requires place { place < length rows.now }
    requires sound { All IsRowSound rows.now }
    requires one_area { AreOfOneArea rows.now }
    ensures runs { IfOk result (λ b. (area : Area) → IsClean area → AreRowsOf area rows.now → IsUnshared area edge.now.seg
        → IsTrue b ↔ RunsOnFromRow edge.now.seg rows.now area part place) }
{
    runs_on_from(alloc, edge, rows.at(place), rows, part)
}

/// Whether an edge of the ring runs on into the part, from a point of the area's edges, by a walk over the area's edges.
fn runs_from_some_row(
    alloc: Global,
    ring: &NearRows,
    rows: &NearRows,
    part: Loc,
) -> Result<bool, NoMemory>
    requires ring_sound { All IsRowSound ring.now }
    requires sound { All IsRowSound rows.now }
    requires one_area { AreOfOneArea rows.now }
    ensures runs { IfOk result (λ b. (area : Area) → IsClean area → AreRowsOf area rows.now
        → All (λ row. IsUnshared area row.seg) ring.now → IsTrue b ↔ Any (SomeRunsOnFrom ring.now area part) rows.now) }
{
    for row in rows.rows().as_slice() {
        if some_runs_on_from(alloc, ring, row, rows, part)? {
            return Ok(true);
        }
    }
    Ok(false)
}

/// Whether an edge of the ring runs on into the part, from its point in common with one of the area's edges.
#[tactic(auto, using(crate::proofs::PlacedRows::near_within))]
fn some_runs_on_from(
    alloc: Global,
    ring: &NearRows,
    row: &Edge,
    rows: &NearRows,
    part: Loc,
) -> Result<bool, NoMemory>
    requires ring_sound { All IsRowSound ring.now }
    requires row_sound { IsRowSound row.now }
    requires sound { All IsRowSound rows.now }
    requires one_area { AreOfOneArea rows.now }
    ensures runs { IfOk result (λ b. (area : Area) → IsClean area → AreRowsOf area rows.now
        → All (λ row. IsUnshared area row.seg) ring.now → (place : ℕ) → IsAtPlace rows.now place row.now
        → IsTrue b ↔ SomeRunsOnFrom ring.now area part row.now) }
{
    let places = ring.places_near(alloc, row.seg)?;
    some_near_runs_on_from(alloc, ring, &places, row, rows, part)
}

/// Whether one of the ring's edges at some places runs on into the part, from its point in common with one of the area's edges.
fn some_near_runs_on_from(
    alloc: Global,
    ring: &NearRows,
    places: &PlaceList,
    row: &Edge,
    rows: &NearRows,
    part: Loc,
) -> Result<bool, NoMemory>
    requires ring_sound { All IsRowSound ring.now }
    requires places { All (λ place. place < length ring.now) places.now }
    requires row_sound { IsRowSound row.now }
    requires sound { All IsRowSound rows.now }
    requires one_area { AreOfOneArea rows.now }
    ensures runs { IfOk result (λ b. (area : Area) → IsClean area → AreRowsOf area rows.now
        → All (λ row. IsUnshared area row.seg) ring.now → (place : ℕ) → IsAtPlace rows.now place row.now
        → IsTrue b ↔ Any (RunsOnAtPlace ring.now row.now.seg area part) places.now) }
{
    for place in places.as_slice() {
        if runs_on_at_place(alloc, ring, *place, row, rows, part)? {
            return Ok(true);
        }
    }
    Ok(false)
}

/// Whether the ring's edge at a place runs on into the part, from its point in common with one of the area's edges.
fn runs_on_at_place(
    alloc: Global,
    ring: &NearRows,
    place: u32,
    row: &Edge,
    rows: &NearRows,
    part: Loc,
) -> Result<bool, NoMemory>
    requires ring_sound { All IsRowSound ring.now }
    requires place { place < length ring.now }
    requires row_sound { IsRowSound row.now }
    requires sound { All IsRowSound rows.now }
    requires one_area { AreOfOneArea rows.now }
    ensures runs { IfOk result (λ b. (area : Area) → IsClean area → AreRowsOf area rows.now
        → All (λ row. IsUnshared area row.seg) ring.now → (at : ℕ) → IsAtPlace rows.now at row.now
        → IsTrue b ↔ RunsOnAtPlace ring.now row.now.seg area part place) }
{
    runs_on_from(alloc, ring.at(place), row, rows, part)
}

/// Whether an edge runs on into the part, from its point in common with one of the area's edges.
fn runs_on_from(
    alloc: Global,
    edge: &Edge,
    row: &Edge,
    rows: &NearRows,
    part: Loc,
) -> Result<bool, NoMemory>
    requires edge_sound { IsRowSound edge.now }
    requires row_sound { IsRowSound row.now }
    requires sound { All IsRowSound rows.now }
    requires one_area { AreOfOneArea rows.now }
    ensures runs { IfOk result (λ b. (area : Area) → IsClean area → AreRowsOf area rows.now → IsUnshared area edge.now.seg
        → (place : ℕ) → IsAtPlace rows.now place row.now → IsTrue b ↔ RunsOnFrom edge.now.seg row.now.seg area part) }
{
    match meet(edge.seg, row.seg) {
        Meet::At(n) => runs_on(alloc, edge, &n, rows, part),
        Meet::Apart => Ok(false),
        Meet::Along(..) => Ok(false),
    }
}

/// Whether an edge runs on into the part from a node that is on it and on the area's edges.
fn runs_on(
    alloc: Global,
    edge: &Edge,
    n: &Node,
    rows: &NearRows,
    part: Loc,
) -> Result<bool, NoMemory>
    requires edge_sound { IsRowSound edge.now }
    requires on { IsOnEdge edge.now.seg (point_at n.now) }
    requires sound { All IsRowSound rows.now }
    requires one_area { AreOfOneArea rows.now }
    ensures runs { IfOk result (λ b. (area : Area) → IsClean area → AreRowsOf area rows.now → IsUnshared area edge.now.seg
        → is_on_edges (point_at n.now) (edges_in area) ≡ true → IsTrue b ↔ RunsOn edge.now.seg area part (point_at n.now)) }
{
    if is_at(n, edge.seg.b) {
        return Ok(false);
    }
    Ok(part_along(alloc, rows, n, way_of(edge))? == part)
}

/// Whether the node is at a position.
fn is_at(n: &Node, p: Pt) -> bool
    requires limit { IsInLimit p }
    ensures at { IsTrue result ↔ IsSamePoint (point_of p) (point_at n.now) }
{
    cmp_nodes(&Node::at_point(p), n) == Ordering::Equal
}

/// The way from an edge's start to its end.
fn way_of(edge: &Edge) -> Dir
    requires sound { IsRowSound edge.now }
    ensures across { result.dx ≡ edge.now.seg.b.x -ℤ edge.now.seg.a.x }
    ensures above { result.dy ≡ edge.now.seg.b.y -ℤ edge.now.seg.a.y }
{
    Dir {
        dx: edge.seg.b.x - edge.seg.a.x,
        dy: edge.seg.b.y - edge.seg.a.y,
    }
}

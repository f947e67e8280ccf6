ghost use Rattle.std.specs.Prelude.{◌≡◌, ◌∷◌, ◌++◌, ◌≤◌, length, map, IfOk, OnOk, All};
ghost use Rattle.point_set.specs.Edges.{edges_of_lines, edges_of_areas, edges_of_figure};
ghost use Rattle.point_set.specs.Location.{rings_of};
ghost use Rattle.point_set.specs.Rings.{edges_after, edges_of as edges_of_way};
ghost use Rattle.point_set.specs.Shape.{IsAreaShaped, IsRingShaped, IsWellShaped};
ghost use Rattle.point_set.specs.Validity.{CrossesItself, HasHoleOutside, HasHolesThatOverlap, HasTooFewPoints, RingsShareSegment};
ghost use Rattle.ring_sides.specs.Rows.{owned_edges, row_of, AddsArea, AddsRing, AddsRings, HasItsHand};

use crate::side::{interior_side, is_same};
use plane_exact::{NoMemory, Path, Pt, Seg};
use point_set::{Area, Edge, EdgeRows, Figure, Hand, Owner, Valid};
use std::alloc::Global;

/// The edges of a figure in order, first of its lines and then of its areas, each with the line or the ring to which it
/// belongs, and with the hand on which the inside of its area lies. There are no more edges than positions in a figure.
///
/// # Errors
/// `NoMemory`.
pub fn edges_of(alloc: Global, v: &Valid) -> Result<EdgeRows, NoMemory>
    ensures edges { IfOk result (λ rows. owned_edges rows ≡ edges_of_figure v.now) }
    ensures hands { IfOk result (λ rows. All (HasItsHand v.now) rows) }
    ensures few { IfOk result (λ rows. length rows ≤ 1048576) }
{
    let mut rows = EdgeRows::new(alloc);
    add_lines(&mut rows, v.figure())?;
    add_areas(&mut rows, v)?;
    Ok(rows)
}

/// Adds the edges of a figure's lines.
fn add_lines(rows: &mut EdgeRows, figure: &Figure) -> Result<(), NoMemory>
    requires shaped { IsWellShaped figure.now }
    requires hands { All (HasItsHand figure.now) rows.old }
    ensures edges { OnOk result (owned_edges rows.new ≡ owned_edges rows.old ++ edges_of_lines 0 figure.now.lines) }
    ensures hands { OnOk result (All (HasItsHand figure.now) rows.new) }
{
    for (place, line) in figure.lines.as_slice().iter().enumerate() {
        add_edges(rows, line, Owner::Line(place as u32), Hand::Line)?;
    }
    Ok(())
}

/// Adds the edges of a figure's areas.
fn add_areas(rows: &mut EdgeRows, v: &Valid) -> Result<(), NoMemory>
    requires hands { All (HasItsHand v.now) rows.old }
    ensures edges { OnOk result (owned_edges rows.new ≡ owned_edges rows.old ++ edges_of_areas 0 v.now.areas) }
    ensures hands { OnOk result (All (HasItsHand v.now) rows.new) }
{
    for (place, area) in v.figure().areas.as_slice().iter().enumerate() {
        add_area(rows, area, place as u32)?;
    }
    Ok(())
}

/// Adds the edges of an area that fails none of the first five clauses of validity: those of its shell, and then those of its
/// holes, each with the hand on which the inside of the area lies. `place` is the area's place.
///
/// # Errors
/// `NoMemory`, and then `rows` holds some of them.
pub fn add_area(rows: &mut EdgeRows, area: &Area, place: u32) -> Result<(), NoMemory>
    requires shaped { IsAreaShaped area.now }
    requires few { length area.now.holes ≤ 1048576 }
    requires enough { All (λ ring. ¬ HasTooFewPoints ring) (rings_of area.now) }
    requires simple { All (λ ring. ¬ CrossesItself ring) (rings_of area.now) }
    requires unshared { ¬ RingsShareSegment area.now }
    requires within { ¬ HasHoleOutside area.now }
    requires unlapped { ¬ HasHolesThatOverlap area.now }
    ensures rows { OnOk result (AddsArea area.now place rows.old rows.new) }
{
    add_ring(rows, &area.shell, Owner::Ring(place, 0))?;
    add_holes(rows, area, place)
}

/// Adds the edges of a ring that neither crosses nor touches itself, each with the hand on which the ring's inside lies.
///
/// # Errors
/// `NoMemory`, and then `rows` holds some of them.
pub fn add_ring(rows: &mut EdgeRows, ring: &Path, owner: Owner) -> Result<(), NoMemory>
    requires shaped { IsRingShaped ring.now }
    requires enough { ¬ HasTooFewPoints ring.now }
    requires simple { ¬ CrossesItself ring.now }
    ensures rows { OnOk result (AddsRing ring.now owner rows.old rows.new) }
{
    add_edges(rows, ring, owner, interior_side(ring))
}

/// Adds the edges of an area's holes. The inside of the area lies outside of a hole.
fn add_holes(rows: &mut EdgeRows, area: &Area, place: u32) -> Result<(), NoMemory>
    requires shaped { IsAreaShaped area.now }
    requires few { length area.now.holes ≤ 1048576 }
    requires enough { All (λ ring. ¬ HasTooFewPoints ring) (rings_of area.now) }
    requires simple { All (λ ring. ¬ CrossesItself ring) (rings_of area.now) }
    requires unshared { ¬ RingsShareSegment area.now }
    requires within { ¬ HasHoleOutside area.now }
    requires unlapped { ¬ HasHolesThatOverlap area.now }
    ensures rows { OnOk result (AddsRings area.now place 1 area.now.holes rows.old rows.new) }
{
    for (i, hole) in area.holes.as_slice().iter().enumerate() {
        let owner = Owner::Ring(place, i as u32 + 1);
        let side = interior_side(hole).opposite();
        add_edges(rows, hole, owner, side)?;
    }
    Ok(())
}

/// Adds the edges of a line or a ring, each with one owner and one hand.
fn add_edges(rows: &mut EdgeRows, way: &Path, owner: Owner, hand: Hand) -> Result<(), NoMemory>
    ensures rows { OnOk result (rows.new ≡ rows.old ++ map (row_of owner hand) (edges_of_way way.now)) }
{
    match way.as_slice().split_first() {
        None => Ok(()),
        Some((first, others)) => add_edges_after(rows, *first, others, owner, hand),
    }
}

/// Adds the edges of the way that goes on from `first`.
fn add_edges_after(
    rows: &mut EdgeRows,
    first: Pt,
    others: &[Pt],
    owner: Owner,
    hand: Hand,
) -> Result<(), NoMemory>
    ensures rows { OnOk result (rows.new ≡ rows.old ++ map (row_of owner hand) (edges_after first others.now)) }
{
    let mut last = first;
    for p in others {
        if !is_same(last, *p) {
            let seg = Seg { a: last, b: *p };
            rows.push(Edge { seg, owner, hand })?;
        }
        last = *p;
    }
    Ok(())
}

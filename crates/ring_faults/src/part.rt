ghost use Rattle.std.specs.Prelude.{◌≡◌, ◌∷◌, ◌++◌, IfOk, OnOk, map};
ghost use Rattle.point_set.specs.Location.{rings_of};
ghost use Rattle.point_set.specs.Rings.{edges_after, edges_of, is_same_position};
ghost use Rattle.ring_faults.specs.Parts.{of_part, edges_of_parts};

use plane_exact::{ItemList, NoMemory, Path, Pt, Seg};
use point_set::Area;
use std::alloc::Global;

/// An edge with the number of its part, the ring to which it belongs.
#[derive(Clone, Copy, Debug)]
pub(crate) struct PartEdge {
    pub(crate) seg: Seg,
    pub(crate) part: usize,
}

/// Edges of parts in order.
pub(crate) type PartEdges = ItemList<PartEdge>;

/// The edges of an area's rings. Each ring is a part: 0 is the shell, and the holes follow.
pub(crate) fn edges_by_ring(alloc: Global, area: &Area) -> Result<PartEdges, NoMemory>
    ensures edges { IfOk result (λ edges. edges ≡ edges_of_parts 0 (map edges_of (rings_of area.now))) }
{
    let mut edges = PartEdges::new(alloc);
    add_ring(&mut edges, &area.shell, 0)?;
    for (i, hole) in area.holes.as_slice().iter().enumerate() {
        add_ring(&mut edges, hole, i + 1)?;
    }
    Ok(edges)
}

/// Adds the edges of a ring.
pub(crate) fn add_ring(edges: &mut PartEdges, ring: &Path, part: usize) -> Result<(), NoMemory>
    ensures edges { OnOk result (edges.new ≡ edges.old ++ of_part part (edges_of ring.now)) }
{
    match ring.as_slice().split_first() {
        None => Ok(()),
        Some((first, others)) => add_edges_after(edges, *first, others, part),
    }
}

/// Adds the edges of the way that goes on from `first`.
fn add_edges_after(
    edges: &mut PartEdges,
    first: Pt,
    others: &[Pt],
    part: usize,
) -> Result<(), NoMemory>
    ensures edges { OnOk result (edges.new ≡ edges.old ++ of_part part (edges_after first others.now)) }
{
    let mut last = first;
    for p in others {
        if !is_same(last, *p) {
            let seg = Seg { a: last, b: *p };
            edges.push(PartEdge { seg, part })?;
        }
        last = *p;
    }
    Ok(())
}

/// Whether two positions are one.
fn is_same(a: Pt, b: Pt) -> bool
    ensures same { result ≡ is_same_position a b }
{
    a.x == b.x && a.y == b.y
}

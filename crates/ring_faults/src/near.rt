ghost use Rattle.std.specs.Prelude.{◌≡◌, ◌≤◌, length, IfOk, OnOk};
ghost use Rattle.ring_faults.specs.Parts.{segs_of};
ghost use Rattle.ring_faults.specs.Clashes.{AreNearPlaces};

use crate::part::PartEdges;
use edge_index::EdgeIndex;
use plane_exact::{NoMemory, PlaceList, Seg, SegList, Window};
use std::alloc::Global;

/// Edges with an index, which finds those near an edge.
#[derive(Drop)]
pub(crate) struct NearEdges {
    pub(crate) edges: PartEdges,
    index: EdgeIndex,
    ghost indexed: { index.segs ≡ segs_of edges },
}

impl NearEdges {
    /// Makes an index of edges.
    ///
    /// # Errors
    /// `NoMemory`.
    pub(crate) fn new(alloc: Global, edges: PartEdges) -> Result<NearEdges, NoMemory>
        requires few { length edges ≤ 1048576 }
        ensures edges { IfOk result (λ near. near.edges ≡ edges) }
    {
        let segs = segs_of(alloc, &edges)?;
        let index = EdgeIndex::build(alloc, segs)?;
        Ok(NearEdges { edges, index })
    }

    /// Makes `out` the places of exactly the edges whose windows meet that of `e`, ascending.
    ///
    /// # Errors
    /// `NoMemory`, and then `out` holds any list.
    pub(crate) fn places_near(&self, e: Seg, out: &mut PlaceList) -> Result<(), NoMemory>
        ensures near { OnOk result (AreNearPlaces e (segs_of self.now.edges) out.new) }
    {
        self.index.query(Window::of(e), out)
    }
}

/// The edges without their parts.
fn segs_of(alloc: Global, edges: &PartEdges) -> Result<SegList, NoMemory>
    ensures segs { IfOk result (λ segs. segs ≡ segs_of edges.now) }
{
    let mut segs = SegList::new(alloc);
    for edge in edges.as_slice() {
        segs.push(edge.seg)?;
    }
    Ok(segs)
}

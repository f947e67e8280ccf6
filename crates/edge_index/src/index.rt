ghost use Rattle.std.specs.Prelude.{◌≡◌, ◌↔◌, IsTrue};

use crate::boxes::{BoxRow, Boxes};
use crate::order::order_of;
use crate::rows::{inner_windows, row_at};
use crate::walking::walk;
use plane_exact::{Count, Meter, NoMemory, PlaceList, Seg, SegList, Window};
use std::alloc::Global;
use std::marker::Model;

/// Segments with a tree of boxes over them. It keeps 20 bytes a segment beside its list of segments.
#[derive(Debug, Drop)]
pub struct EdgeIndex {
    /// The segments in order.
    segs: SegList,
    /// The segments' places, in the order of the leaves.
    leaves: Vec<u32>,
    /// The windows of those inner rows that have an inner child. The others are made from two leaves.
    inner: Vec<Window>,
}

impl Model for EdgeIndex {
    ghost use Rattle.edge_index.specs.Index.{SeenIndex};
    ghost use Rattle.edge_index.specs.Rows.{rows_of, IsIndex};

    ghost Value = { SeenIndex };

    ghost view = { λ s. record { segs = s.segs; rows = rows_of s.segs s.leaves.items s.inner.items } };

    ghost invariant = { λ s. IsIndex s.segs s.leaves.items s.inner.items };
}

impl EdgeIndex {
    ghost use Rattle.std.specs.Prelude.{◌≡◌, ◌+◌, ◌*◌, ◌≤◌, ◌^◌, ◌↔◌, length, IfOk, OnOk, IfSome, IsNone};
    ghost use Rattle.edge_index.specs.Segments.{ArePlacesIn, IsFirstDifference};
    ghost use Rattle.edge_index.specs.Trees.{inner_meeting};

    /// The index of a list of at most 1,048,576 segments.
    ///
    /// # Errors
    /// `NoMemory`.
    pub fn build(alloc: Global, segs: SegList) -> Result<EdgeIndex, NoMemory>
        requires few { length segs ≤ 1048576 }
        ensures segments { IfOk result (λ index. index.segs ≡ segs) }
    {
        let leaves = order_of(alloc, segs.as_slice())?;
        let inner = inner_windows(alloc, segs.as_slice(), &leaves)?;
        Ok(EdgeIndex {
            segs,
            leaves,
            inner,
        })
    }

    /// Makes `out` the places of exactly the segments whose windows meet `w`, ascending.
    ///
    /// # Errors
    /// `NoMemory`, and then `out` holds any list.
    pub fn query(&self, w: Window, out: &mut PlaceList) -> Result<(), NoMemory>
        ensures places { OnOk result (ArePlacesIn w self.now.segs out.new) }
    {
        self.query_with(w, out, &mut Count::new())
    }

    /// What `query` does, with each look at a box as a step of the meter. It looks at no more boxes than `walk`.
    ///
    /// # Errors
    /// `NoMemory`, and then `out` holds any list.
    pub fn query_with<M: Meter>(
        &self,
        w: Window,
        out: &mut PlaceList,
        meter: &mut M,
    ) -> Result<(), NoMemory>
        requires room { M.used meter.old ≤ 2 ^ 62 }
        ensures places { OnOk result (ArePlacesIn w self.now.segs out.new) }
        ensures steps { M.used meter.new ≤ M.used meter.old + (2 * inner_meeting w self.now.rows + 1) }
    {
        // The use of a field makes known here what all fields keep.
        let _ = &self.segs;
        walk(self, w, out, meter)
    }

    /// The first place at which the segments and another list differ, or at which the shorter of the two ends; None exactly
    /// where they are equal. Takes no memory.
    pub fn differs_at(&self, segs: &SegList) -> Option<u32>
        ensures equal { IsNone result ↔ (self.now.segs ≡ segs.now) }
        ensures first { IfSome result (λ place. IsFirstDifference self.now.segs segs.now place) }
    {
        let here = self.segs.as_slice();
        let there = segs.as_slice();
        let shared = here.len().min(there.len());
        for place in 0..shared {
            if !is_same(&here[place], &there[place]) {
                return Some(place as u32);
            }
        }
        if here.len() == there.len() {
            None
        } else {
            Some(shared as u32)
        }
    }
}

/// Whether two segments have the same beginning and the same end.
fn is_same(one: &Seg, other: &Seg) -> bool
    ensures same { IsTrue result ↔ (one.now ≡ other.now) }
{
    one == other
}

impl<M: Meter> Boxes<M> for EdgeIndex {
    ghost use Rattle.std.specs.Prelude.{◌≡◌, length};
    ghost use Rattle.edge_index.specs.Segments.{AreLeavesOf};
    ghost use Rattle.edge_index.specs.Trees.{IsBoxTree};

    ghost rows = { λ index. index.rows };

    fn count(&self) -> u32
        ensures count { result ≡ length self.now.rows }
        ensures tree { IsBoxTree self.now.rows }
        ensures leaves { AreLeavesOf self.now.segs self.now.rows }
    {
        (2 * self.leaves.len()).saturating_sub(1) as u32
    }

    fn look(&self, place: u32, meter: &mut M) -> BoxRow {
        meter.tick();
        row_at(
            self.segs.as_slice(),
            &self.leaves,
            &self.inner,
            place as usize,
        )
    }
}

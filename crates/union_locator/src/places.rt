ghost use Rattle.std.specs.Prelude.{◌≡◌, ◌≤◌, length, Some, None, IfOk, OnOk};
ghost use Rattle.edge_index.specs.Index.{SeenIndex};
ghost use Rattle.point_set.specs.Edges.{ArePlacesIn};
ghost use Rattle.ring_sides.specs.Rows.{owned_edges};
ghost use Rattle.union_locator.specs.Plains.{segs_of};

use crate::shells::push_met;
use edge_index::EdgeIndex;
use plane_exact::{NoMemory, PlaceList, SegList, Window};
use point_set::EdgeRows;
use std::alloc::Global;

/// The greatest number of rows that are looked at one by one, since making an index of them would take longer.
const FEW_ROWS: usize = 32;

/// The rows of a figure's edges, with an index that finds those in a window. Where there are more than a few, it is made when a
/// window is first asked for.
#[derive(Drop)]
pub(crate) struct IndexedRows {
    pub(crate) rows: EdgeRows,
    index: Option<EdgeIndex>,
    ghost few: { length rows ≤ 1048576 },
    ghost indexed: { (found : SeenIndex) → index ≡ Some found → found.segs ≡ segs_of rows },
}

impl IndexedRows {
    /// Rows that no window was asked of.
    pub(crate) fn new(rows: EdgeRows) -> IndexedRows
        requires few { length rows ≤ 1048576 }
        ensures rows { result.rows ≡ rows }
    {
        IndexedRows { rows, index: None }
    }

    /// Makes the index where there is none.
    ///
    /// # Errors
    /// `NoMemory`.
    fn make_index(&mut self, alloc: Global) -> Result<(), NoMemory>
        ensures rows { self.new.rows ≡ self.old.rows }
        ensures made { OnOk result (¬ (self.new.index ≡ None)) }
    {
        if self.index.is_none() {
            let segs = segs_of(alloc, &self.rows)?;
            self.index = Some(EdgeIndex::build(alloc, segs)?);
        }
        Ok(())
    }

    /// Makes `out` the places of exactly the rows whose windows meet `w`, ascending.
    ///
    /// # Errors
    /// `NoMemory`, and then `out` holds any list.
    pub(crate) fn places_in(
        &mut self,
        alloc: Global,
        w: Window,
        out: &mut PlaceList,
    ) -> Result<(), NoMemory>
        ensures rows { self.new.rows ≡ self.old.rows }
        ensures places { OnOk result (ArePlacesIn w (owned_edges self.new.rows) out.new) }
    {
        if self.rows.len() <= FEW_ROWS {
            return scan_rows(&self.rows, w, out);
        }
        self.make_index(alloc)?;
        match &self.index {
            Some(index) => index.query(w, out),
            None => unreachable!(),
        }
    }
}

/// Makes `out` the places of exactly the rows whose windows meet `w`, ascending, by a look at each row.
///
/// # Errors
/// `NoMemory`, and then `out` holds any list.
#[tactic(auto, using(crate::proofs::Scans::all_places))]
pub fn scan_rows(rows: &EdgeRows, w: Window, out: &mut PlaceList) -> Result<(), NoMemory>
    requires few { length rows.now ≤ 1048576 }
    ensures places { OnOk result (ArePlacesIn w (owned_edges rows.now) out.new) }
{
    out.clear();
    for (place, row) in rows.as_slice().iter().enumerate() {
        push_met(out, place, Window::of(row.seg).meets(&w))?;
    }
    Ok(())
}

/// The segments of rows, in order.
///
/// # Errors
/// `NoMemory`.
pub fn segs_of(alloc: Global, rows: &EdgeRows) -> Result<SegList, NoMemory>
    ensures segs { IfOk result (λ segs. segs ≡ segs_of rows.now) }
{
    let mut segs = SegList::new(alloc);
    for row in rows.as_slice() {
        segs.push(row.seg)?;
    }
    Ok(segs)
}

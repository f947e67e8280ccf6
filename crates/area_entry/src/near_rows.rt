ghost use Rattle.std.specs.Prelude.{◌≡◌, ◌↔◌, All, IfOk, IsTrue};
ghost use Rattle.area_entry.specs.RowSections.{IsRowSound, segs_of_rows};

use crate::sections::sections_at;
use edge_index::EdgeIndex;
use fan_order::SectionList;
use plane_exact::{NoMemory, Node, PlaceList, Seg, SegList, Window, in_limit};
use point_set::{Edge, EdgeRows};
use std::alloc::Global;
use std::marker::Model;

/// Rows with an index, which finds those near an edge and those near a node.
#[derive(Debug, Drop)]
pub struct NearRows {
    rows: EdgeRows,
    index: EdgeIndex,
}

impl Model for NearRows {
    ghost use Rattle.std.specs.Prelude.{◌≡◌, List};
    ghost use Rattle.area_entry.specs.RowSections.{segs_of_rows};
    ghost use Rattle.point_set.specs.declared.edge.Edge.{Edge};

    ghost Value = { List Edge };

    ghost view = { λ s. s.rows };

    ghost invariant = { λ s. s.index.segs ≡ segs_of_rows s.rows };
}

impl NearRows {
    ghost use Rattle.std.specs.Prelude.{◌≡◌, ◌<◌, ◌≤◌, length, All, IfOk, OnOk, slice_get, Some};
    ghost use Rattle.fan_order.specs.Rays.{IsShort};
    ghost use Rattle.area_entry.specs.RowSections.{AreNear, AreSectionsOfRows, IsRowSound, segs_of_rows};
    ghost use Rattle.plane_exact.specs.NodePoints.{point_at};
    ghost use Rattle.point_set.specs.Validity.{IsOnEdge};

    /// Makes an index of rows.
    ///
    /// # Errors
    /// `NoMemory`.
    pub fn new(alloc: Global, rows: EdgeRows) -> Result<NearRows, NoMemory>
        requires few { length rows ≤ 1048576 }
        ensures rows { IfOk result (λ near. near ≡ rows) }
    {
        let segs = segs_of(alloc, &rows)?;
        let index = EdgeIndex::build(alloc, segs)?;
        Ok(NearRows { rows, index })
    }

    /// The rows in order.
    pub fn rows(&self) -> &EdgeRows
        ensures rows { result.now ≡ self.now }
    {
        &self.rows
    }

    /// The row at a place, counted from 0.
    pub fn at(&self, place: u32) -> &Edge
        requires within { place < length self.now }
        ensures row { slice_get self.now place ≡ Some result.now }
    {
        self.rows.at(place as usize)
    }

    /// The edges of the rows, in order.
    ///
    /// # Errors
    /// `NoMemory`.
    pub fn segs(&self, alloc: Global) -> Result<SegList, NoMemory>
        ensures segs { IfOk result (λ segs. segs ≡ segs_of_rows self.now) }
    {
        segs_of(alloc, &self.rows)
    }

    /// The sections of the rows at a node.
    ///
    /// # Errors
    /// `NoMemory`.
    pub fn sections_at(&self, alloc: Global, n: &Node) -> Result<SectionList, NoMemory>
        requires sound { All IsRowSound self.now }
        ensures sections { IfOk result (AreSectionsOfRows (point_at n.now) self.now) }
        ensures short { IfOk result (All (λ s. IsShort s.dir)) }
    {
        sections_at(alloc, &self.rows, &self.index, n)
    }

    /// The places of exactly the rows whose windows meet that of an edge.
    ///
    /// # Errors
    /// `NoMemory`.
    pub fn places_near(&self, alloc: Global, e: Seg) -> Result<PlaceList, NoMemory>
        ensures near { IfOk result (AreNear (IsOnEdge e) self.now) }
    {
        let mut places = PlaceList::new(alloc);
        self.index.query(Window::of(e), &mut places)?;
        Ok(places)
    }
}

/// The edges of rows.
fn segs_of(alloc: Global, rows: &EdgeRows) -> Result<SegList, NoMemory>
    ensures segs { IfOk result (λ segs. segs ≡ segs_of_rows rows.now) }
{
    let mut segs = SegList::new(alloc);
    for row in rows.as_slice() {
        segs.push(row.seg)?;
    }
    Ok(segs)
}

/// Whether each edge has two different ends within the limit: the condition of a look among edges.
pub fn are_sound(rows: &EdgeRows) -> bool
    ensures sound { IsTrue result ↔ (All IsRowSound rows.now) }
{
    rows.as_slice().iter().all(|row| is_sound(row))
}

fn is_sound(row: &Edge) -> bool
    ensures sound { IsTrue result ↔ (IsRowSound row.now) }
{
    in_limit(row.seg.a) && in_limit(row.seg.b) && row.seg.a != row.seg.b
}

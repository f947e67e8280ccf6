ghost use Rattle.std.specs.Prelude.{◌≡◌, All, IfOk, OnOk};
ghost use Rattle.fan_order.specs.Rays.{IsShort};
ghost use Rattle.area_entry.specs.RowSections.{AddsSectionsOfRow, AreNear, AreSectionsOfRows, IsRowSound, segs_of_rows};
ghost use Rattle.plane_exact.specs.NodePoints.{point_at};
ghost use Rattle.plane_laws.specs.Plane.{IsSamePoint};

use edge_index::EdgeIndex;
use fan_order::{SectionList, add_sections};
use im_matrix::Which;
use plane_exact::{NoMemory, Node, PlaceList, Window, on_segment};
use point_set::{Edge, EdgeRows};
use std::alloc::Global;

/// The sections of rows at a node, each as one of the first figure: for each row whose edge holds the node, one towards each
/// end that isn't the node, and nothing else. The index is that of the rows' edges, in order.
///
/// # Errors
/// `NoMemory`.
pub fn sections_at(
    alloc: Global,
    rows: &EdgeRows,
    index: &EdgeIndex,
    n: &Node,
) -> Result<SectionList, NoMemory>
    requires indexed { index.now.segs ≡ segs_of_rows rows.now }
    requires sound { All IsRowSound rows.now }
    ensures sections { IfOk result (AreSectionsOfRows (point_at n.now) rows.now) }
    ensures short { IfOk result (All (λ s. IsShort s.dir)) }
{
    let mut places = PlaceList::new(alloc);
    index.query(Window::round(n), &mut places)?;
    sections_of_places(alloc, rows, &places, n)
}

/// The sections of rows at a node, from the places of the rows near it.
fn sections_of_places(
    alloc: Global,
    rows: &EdgeRows,
    places: &PlaceList,
    n: &Node,
) -> Result<SectionList, NoMemory>
    requires near { AreNear (IsSamePoint (point_at n.now)) rows.now places.now }
    requires sound { All IsRowSound rows.now }
    ensures sections { IfOk result (AreSectionsOfRows (point_at n.now) rows.now) }
    ensures short { IfOk result (All (λ s. IsShort s.dir)) }
{
    let mut sections = SectionList::new(alloc);
    for place in places.as_slice() {
        add_row(&mut sections, rows.at(*place as usize), n)?;
    }
    Ok(sections)
}

/// Adds the sections of one row: none where its edge doesn't hold the node.
fn add_row(out: &mut SectionList, row: &Edge, n: &Node) -> Result<(), NoMemory>
    requires sound { IsRowSound row.now }
    ensures sections { OnOk result (AddsSectionsOfRow (point_at n.now) row.now out.old out.new) }
    ensures short { OnOk result (All (λ s. IsShort s.dir) out.old → All (λ s. IsShort s.dir) out.new) }
{
    if !on_segment(row.seg, n) {
        return Ok(());
    }
    add_sections(out, row, n, Which::A)
}

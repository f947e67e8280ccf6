ghost use Rattle.std.specs.Prelude.{◌≡◌, ◌≤◌, length, IfSome, OnOk};
ghost use Rattle.edge_index.specs.Segments.{ArePlacesIn as AreSegPlacesIn};
ghost use Rattle.point_set.specs.Edges.{ArePlacesIn};
ghost use Rattle.ring_sides.specs.Rows.{owned_edges};
ghost use Rattle.union_locator.specs.Plains.{segs_of};

use edge_index::EdgeIndex;
use plane_exact::{Count, NoMemory, PlaceList, Window};
use point_set::EdgeRows;
use union_locator::scan_rows;

/// Where the count of looks stays.
const MOST_LOOKS: u64 = 1 << 62;

/// Makes `out` the places of exactly the rows whose windows meet `w`, ascending: by an index of their segments where there is one,
/// else by a look at each row. The index's looks at boxes are counted in `looks`.
///
/// # Errors
/// `NoMemory`, and then `out` holds any list.
pub(crate) fn places_in(
    index: Option<&EdgeIndex>,
    rows: &EdgeRows,
    w: Window,
    out: &mut PlaceList,
    looks: &mut u64,
) -> Result<(), NoMemory>
    requires index { IfSome index (λ index. index.now.segs ≡ segs_of rows.now) }
    requires few { length rows.now ≤ 1048576 }
    ensures places { OnOk result (ArePlacesIn w (owned_edges rows.now) out.new) }
{
    match index {
        Some(index) => query(index, w, out, looks),
        None => scan_rows(rows, w, out),
    }
}

/// Asks an index, and counts its looks at boxes.
fn query(index: &EdgeIndex, w: Window, out: &mut PlaceList, looks: &mut u64) -> Result<(), NoMemory>
    ensures places { OnOk result (AreSegPlacesIn w index.now.segs out.new) }
{
    let mut count = Count::new();
    let answer = index.query_with(w, out, &mut count);
    *looks = looks.saturating_add(count.ticks()).min(MOST_LOOKS);
    answer
}

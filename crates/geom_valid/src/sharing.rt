ghost use Rattle.std.specs.Prelude.{◌↔◌, ◌<◌, length, All, IfOk, IsTrue};
ghost use Rattle.area_entry.specs.RowSections.{IsRowSound, segs_of_rows};
ghost use Rattle.geom_valid.specs.Sharing.{SharesAtSome, SharesWithRow};
ghost use Rattle.point_set.specs.Validity.{EdgesShareSegment};

use area_entry::NearRows;
use plane_exact::{NoMemory, PlaceList};
use point_set::Edge;
use ring_faults::share_segment;
use std::alloc::Global;

/// Whether an edge of some rows and an edge of others have a common segment. The shorter of the two lists is walked, and the
/// index of the other one is asked.
pub(crate) fn rows_share(alloc: Global, one: &NearRows, other: &NearRows) -> Result<bool, NoMemory>
    requires one { All IsRowSound one.now }
    requires other { All IsRowSound other.now }
    ensures share { IfOk result (λ b. IsTrue b ↔ EdgesShareSegment (segs_of_rows one.now) (segs_of_rows other.now)) }
{
    if one.rows().len() <= other.rows().len() {
        some_row_shares(alloc, one, other)
    } else {
        some_row_shares(alloc, other, one)
    }
}

/// Whether an edge of some rows and an edge of others have a common segment, by a walk over the first.
fn some_row_shares(alloc: Global, one: &NearRows, other: &NearRows) -> Result<bool, NoMemory>
    requires one { All IsRowSound one.now }
    requires other { All IsRowSound other.now }
    ensures share { IfOk result (λ b. IsTrue b ↔ EdgesShareSegment (segs_of_rows one.now) (segs_of_rows other.now)) }
{
    for row in one.rows().as_slice() {
        if shares_with_some(alloc, row, other)? {
            return Ok(true);
        }
    }
    Ok(false)
}

/// Whether the edge of a row has a common segment with that of some row.
fn shares_with_some(alloc: Global, row: &Edge, rows: &NearRows) -> Result<bool, NoMemory>
    requires row { IsRowSound row.now }
    requires rows { All IsRowSound rows.now }
    ensures share { IfOk result (λ b. IsTrue b ↔ SharesWithRow rows.now row.now) }
{
    let places = rows.places_near(alloc, row.seg)?;
    Ok(shares_at_some(row, rows, &places))
}

/// Whether the edge of a row has a common segment with that of another row, at one of some places.
fn shares_at_some(row: &Edge, rows: &NearRows, places: &PlaceList) -> bool
    requires row { IsRowSound row.now }
    requires rows { All IsRowSound rows.now }
    requires places { All (λ place. place < length rows.now) places.now }
    ensures share { IsTrue result ↔ SharesAtSome row.now.seg rows.now places.now }
{
    for place in places.as_slice() {
        if share_segment(row.seg, rows.at(*place).seg) {
            return true;
        }
    }
    false
}

ghost use Rattle.std.specs.Prelude.{◌≤◌, length, All, IfOk};
ghost use Rattle.area_entry.specs.RowSections.{IsRowSound};
ghost use Rattle.geom_valid.specs.Grounds.{AreHeightsOf};

use area_entry::NearRows;
use area_locator::AreaIndex;
use plane_exact::NoMemory;
use std::alloc::Global;

/// So many edges are asked one by one where a node lies.
const FEW_EDGES: usize = 32;

/// The index over the heights of rows' edges, where they are more than a few.
pub(crate) fn heights_of(alloc: Global, rows: &NearRows) -> Result<Option<AreaIndex>, NoMemory>
    requires few { length rows.now ≤ 1048576 }
    requires sound { All IsRowSound rows.now }
    ensures heights { IfOk result (λ heights. AreHeightsOf rows.now heights) }
{
    if rows.rows().len() <= FEW_EDGES {
        return Ok(None);
    }
    let index = AreaIndex::over(alloc, rows.segs(alloc)?)?;
    Ok(Some(index))
}

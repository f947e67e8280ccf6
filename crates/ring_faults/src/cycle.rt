ghost use Rattle.std.specs.Prelude.{◌↔◌, ◌≤◌, IfOk, IsTrue};
ghost use Rattle.point_set.specs.Shape.{IsAreaShaped, positions_of_area};
ghost use Rattle.point_set.specs.Validity.{HasTouchCycle, RingsShareSegment};

use crate::forest::have_cycle;
use crate::link::sort_links;
use crate::part::edges_by_ring;
use crate::touch::links_of;
use plane_exact::NoMemory;
use point_set::Area;
use std::alloc::Global;

/// Whether the rings of an area touch in a cycle, so that its interior is cut. No two of them have a common segment.
///
/// # Errors
/// `NoMemory`.
pub fn has_cycle(alloc: Global, area: &Area) -> Result<bool, NoMemory>
    requires few { positions_of_area area.now ≤ 1048576 }
    requires shaped { IsAreaShaped area.now }
    requires unshared { ¬ RingsShareSegment area.now }
    ensures cycle { IfOk result (λ b. IsTrue b ↔ HasTouchCycle area.now) }
{
    if area.holes.len() == 0 {
        return Ok(false);
    }
    let edges = edges_by_ring(alloc, area)?;
    let mut links = links_of(alloc, edges)?;
    sort_links(&mut links);
    have_cycle(alloc, links.as_slice(), area.holes.len())
}

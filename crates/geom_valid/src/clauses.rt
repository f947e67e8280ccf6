ghost use Rattle.std.specs.Prelude.{◌↔◌, ◌≤◌, IfOk, IsTrue};
ghost use Rattle.point_set.specs.Shape.{IsAreaShaped, positions_of_area};
ghost use Rattle.point_set.specs.Validity.{CrossesItself, HasTooFewPoints, SomeRing};

use plane_exact::NoMemory;
use point_set::Area;
use ring_faults::{crosses_itself, has_too_few};
use std::alloc::Global;

/// Whether a ring of an area has fewer than three distinct positions. Takes no memory.
pub(crate) fn has_ring_with_too_few(area: &Area) -> bool
    ensures few { IsTrue result ↔ SomeRing HasTooFewPoints area.now }
{
    has_too_few(&area.shell) || area.holes.as_slice().iter().any(|hole| has_too_few(hole))
}

/// Whether a ring of an area crosses or touches itself.
pub(crate) fn has_ring_that_crosses(alloc: Global, area: &Area) -> Result<bool, NoMemory>
    requires few { positions_of_area area.now ≤ 1048576 }
    requires shaped { IsAreaShaped area.now }
    ensures crosses { IfOk result (λ b. IsTrue b ↔ SomeRing CrossesItself area.now) }
{
    if crosses_itself(alloc, &area.shell)? {
        return Ok(true);
    }
    for hole in area.holes.as_slice() {
        if crosses_itself(alloc, hole)? {
            return Ok(true);
        }
    }
    Ok(false)
}

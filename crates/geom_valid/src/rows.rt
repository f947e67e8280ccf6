ghost use Rattle.std.specs.Prelude.{◌≤◌, length, IfOk, All};
ghost use Rattle.area_entry.specs.Grounds.{AreRowsOf};
ghost use Rattle.geom_valid.specs.Grounds.{IsSoundArea};
ghost use Rattle.area_entry.specs.RowSections.{AreOfOneArea, IsRowSound};
ghost use Rattle.point_set.specs.Shape.{IsRingShaped};
ghost use Rattle.point_set.specs.Validity.{CrossesItself, HasTooFewPoints};
ghost use Rattle.valid_laws.specs.Entering.{disc_of};

use plane_exact::{NoMemory, Path};
use point_set::{Area, EdgeRows, Owner};
use ring_sides::{add_area, add_ring};
use std::alloc::Global;

/// The edges of a ring, each with the hand on which the ring's inside lies.
pub(crate) fn ring_rows(alloc: Global, ring: &Path) -> Result<EdgeRows, NoMemory>
    requires few { length ring.now ≤ 1048576 }
    requires shaped { IsRingShaped ring.now }
    requires enough { ¬ HasTooFewPoints ring.now }
    requires simple { ¬ CrossesItself ring.now }
    ensures rows { IfOk result (AreRowsOf (disc_of ring.now)) }
    ensures one_area { IfOk result AreOfOneArea }
    ensures sound { IfOk result (All IsRowSound) }
    ensures few { IfOk result (λ rows. length rows ≤ 1048576) }
{
    let mut rows = EdgeRows::new(alloc);
    add_ring(&mut rows, ring, Owner::Ring(0, 0))?;
    Ok(rows)
}

/// The edges of an area, each with the hand on which the inside of the area lies.
pub(crate) fn area_rows(alloc: Global, area: &Area) -> Result<EdgeRows, NoMemory>
    requires sound { IsSoundArea area.now }
    ensures rows { IfOk result (AreRowsOf area.now) }
    ensures one_area { IfOk result AreOfOneArea }
    ensures sound { IfOk result (All IsRowSound) }
    ensures few { IfOk result (λ rows. length rows ≤ 1048576) }
{
    let mut rows = EdgeRows::new(alloc);
    add_area(&mut rows, area, 0)?;
    Ok(rows)
}

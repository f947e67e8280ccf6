ghost use Rattle.std.specs.Prelude.{◌≡◌, ◌<◌, ◌↔◌, length, IsTrue};
ghost use Rattle.plane_exact.specs.declared.dir.Dir.{Dir};
ghost use Rattle.point_set.specs.Sectors.{sectors_of, sector_before};
ghost use Rattle.point_set.specs.Validity.{IsAtPlace};
ghost use Rattle.fan_order.specs.Sections.{AreHandsAlike, AreSided};
ghost use Rattle.fan_laws.specs.Parts.{IsSectorFull, IsSectorPart, IsRayPart};

use fan_order::Fan;
use im_matrix::{Loc, Which};
use point_set::DimLoc;

/// Whether a sector is inside the areas of a figure, where `at` is the kind of the node in the figure.
fn is_full(fan: &Fan, at: DimLoc, which: Which, i: usize) -> bool
    requires within { i < sectors_of fan.now.rays }
    ensures full { AreHandsAlike which fan.now.sections → AreSided which fan.now.sections
        → (IsTrue result ↔ IsSectorFull at which fan.now.sections fan.now.rays i) }
{
    at == DimLoc::AreaInterior || fan.is_inside(which, i)
}

/// The part of a figure in which a sector lies.
pub(crate) fn part_of_sector(fan: &Fan, at: DimLoc, which: Which, i: usize) -> Loc
    requires within { i < sectors_of fan.now.rays }
    ensures part { AreHandsAlike which fan.now.sections → AreSided which fan.now.sections
        → IsSectorPart at which fan.now.sections fan.now.rays i result }
{
    if is_full(fan, at, which, i) {
        Loc::Interior
    } else {
        Loc::Exterior
    }
}

/// The place of the sector that ends at ray `i`, of so many rays.
fn place_before(count: usize, i: usize) -> usize
    requires within { i < count }
    ensures before { result ≡ sector_before count i }
{
    if i == 0 { count - 1 } else { i - 1 }
}

/// The part of a figure in which a ray lies, by the two sectors beside it and the lines along it.
pub(crate) fn part_of_ray(fan: &Fan, at: DimLoc, which: Which, i: usize) -> Loc
    requires within { i < length fan.now.rays }
    ensures part { AreHandsAlike which fan.now.sections → AreSided which fan.now.sections
        → (ray : Dir) → IsAtPlace fan.now.rays i ray → IsRayPart at which fan.now.sections fan.now.rays i ray result }
{
    let before = place_before(fan.rays(), i);
    match (is_full(fan, at, which, before), is_full(fan, at, which, i)) {
        (true, true) => Loc::Interior,
        (true, false) | (false, true) => Loc::Boundary,
        (false, false) => {
            if fan.has_line(which, i) {
                Loc::Interior
            } else {
                Loc::Exterior
            }
        }
    }
}

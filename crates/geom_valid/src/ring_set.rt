ghost use Rattle.std.specs.Prelude.{◌≡◌, ◌≤◌, length, All, IfOk};
ghost use Rattle.point_set.specs.Shape.{IsRingShaped};
ghost use Rattle.point_set.specs.Validity.{CrossesItself, HasTooFewPoints};

use crate::boxes::ring_boxes;
use crate::disc::Disc;
use crate::near_boxes::NearBoxes;
use plane_exact::{ItemList, NoMemory};
use point_set::{Area, Paths};
use std::alloc::Global;
use std::marker::Model;

/// An area of which no ring crosses or touches itself and no two have a common segment, with the edges of each ring.
#[derive(Debug, Drop)]
pub(crate) struct RingSet<'a> {
    area: &'a Area,
    shell: Disc<'a>,
    holes: ItemList<Disc<'a>>,
}

impl<'a> Model for RingSet<'a> {
    ghost use Rattle.geom_valid.specs.Grounds.{AreRingsOf};
    ghost use Rattle.point_set.specs.declared.figure.Area.{Area};

    ghost Value = { Area };

    ghost view = { λ s. s.area.now };

    ghost invariant = { λ s. AreRingsOf s.area.now s.shell s.holes };
}

impl<'a> RingSet<'a> {
    ghost use Rattle.std.specs.Prelude.{◌≡◌, ◌<◌, ◌≤◌, ◌↔◌, length, All, IfOk, IsTrue};
    ghost use Rattle.geom_valid.specs.Boxes.{AreRound, IsRoundRing};
    ghost use Rattle.point_set.specs.Location.{rings_of};
    ghost use Rattle.point_set.specs.Shape.{IsAreaShaped, positions_of_area};
    ghost use Rattle.point_set.specs.Validity.{CrossesItself, HasHoleOutside, HasHolesThatOverlap, HasTooFewPoints, RingsShareSegment};
    ghost use Rattle.geom_valid.specs.Grounds.{OverlapsEarlierHole};

    /// The rings of an area.
    pub(crate) fn of(alloc: Global, area: &'a Area) -> Result<RingSet<'a>, NoMemory>
        requires few { positions_of_area area.now ≤ 1048576 }
        requires shaped { IsAreaShaped area.now }
        requires enough { All (λ ring. ¬ HasTooFewPoints ring) (rings_of area.now) }
        requires simple { All (λ ring. ¬ CrossesItself ring) (rings_of area.now) }
        requires unshared { ¬ RingsShareSegment area.now }
        ensures area { IfOk result (λ rings. rings ≡ area.now) }
    {
        let shell = Disc::of(alloc, &area.shell)?;
        let holes = discs_of(alloc, &area.holes)?;
        Ok(RingSet { area, shell, holes })
    }

    /// The area.
    pub(crate) fn area(&self) -> &Area
        ensures area { result.now ≡ self.now }
    {
        self.area
    }

    /// The shell.
    pub(crate) fn shell(&self) -> &Disc<'a>
        ensures shell { result.now ≡ self.now.shell }
    {
        &self.shell
    }

    /// The holes.
    pub(crate) fn holes(&self) -> &[Disc<'a>]
        ensures holes { result.now ≡ self.now.holes }
    {
        self.holes.as_slice()
    }

    /// Whether some point is inside a hole and not inside the shell.
    pub(crate) fn has_hole_outside(&self, alloc: Global) -> Result<bool, NoMemory>
        ensures outside { IfOk result (λ b. IsTrue b ↔ HasHoleOutside self.now) }
    {
        for hole in self.holes.as_slice() {
            if hole.leaves(alloc, &self.shell)? {
                return Ok(true);
            }
        }
        Ok(false)
    }

    /// Whether some point is inside two holes.
    pub(crate) fn has_holes_that_overlap(&self, alloc: Global) -> Result<bool, NoMemory>
        ensures overlap { IfOk result (λ b. IsTrue b ↔ HasHolesThatOverlap self.now) }
    {
        let boxes = NearBoxes::of(alloc, ring_boxes(alloc, self.area.holes.as_slice())?)?;
        for place in 0..self.holes.len() {
            if self.overlaps_earlier(alloc, place, &boxes)? {
                return Ok(true);
            }
        }
        Ok(false)
    }

    /// Whether some point is inside the hole at a place and inside an earlier one. Holes whose boxes are apart aren't compared.
    fn overlaps_earlier(
        &self,
        alloc: Global,
        place: usize,
        boxes: &NearBoxes,
    ) -> Result<bool, NoMemory>
        requires place { place < length self.now.holes }
        requires boxes { AreRound IsRoundRing self.now.holes boxes.now }
        ensures overlap { IfOk result (λ b. IsTrue b ↔ OverlapsEarlierHole self.now.holes place) }
    {
        let hole = self.holes.at(place);
        let near = boxes.near(alloc, place)?;
        for other in near.as_slice() {
            let earlier = *other as usize;
            if earlier < place && self.holes.at(earlier).overlaps(alloc, hole)? {
                return Ok(true);
            }
        }
        Ok(false)
    }
}

/// Holes with their edges.
fn discs_of<'a>(alloc: Global, holes: &'a Paths) -> Result<ItemList<Disc<'a>>, NoMemory>
    requires few { All (λ ring. length ring ≤ 1048576) holes.now }
    requires shaped { All IsRingShaped holes.now }
    requires enough { All (λ ring. ¬ HasTooFewPoints ring) holes.now }
    requires simple { All (λ ring. ¬ CrossesItself ring) holes.now }
    ensures discs { IfOk result (λ discs. discs ≡ holes.now) }
{
    let mut discs = ItemList::new(alloc);
    for hole in holes.as_slice() {
        discs.push(Disc::of(alloc, hole)?)?;
    }
    Ok(discs)
}

ghost use Rattle.std.specs.Prelude.{◌<◌, ◌≤◌, length, IfErr, IfNone, IfOk, IfSome, OnOk};
ghost use Rattle.geom_valid.specs.Boxes.{AreRound, IsRoundArea};
ghost use Rattle.geom_valid.specs.Faults.{AreFirstAreas, IsFirstAt, IsFirstFaultOf, IsSoundAt, IsTestedUpTo};
ghost use Rattle.point_set.specs.Shape.{IsAreaShaped, IsWellShaped, positions_of_area};
ghost use Rattle.point_set.specs.Validity.{IsAtPlace, IsValid};

use crate::boxes::area_boxes;
use crate::clauses::{has_ring_that_crosses, has_ring_with_too_few};
use crate::elements::{Common, has_common_with_earlier};
use crate::kinds::{Fault, InvalidKind};
use crate::near_boxes::NearBoxes;
use crate::ring_set::RingSet;
use crate::sound_area::SoundArea;
use plane_exact::{ItemList, NoMemory};
use point_set::{Area, Figure};
use ring_faults::{has_cycle, rings_share};
use std::alloc::Global;

/// The first fault of a figure, or None where it is valid.
pub(crate) fn first_fault(alloc: Global, f: &Figure) -> Result<Option<Fault>, NoMemory>
    requires shaped { IsWellShaped f.now }
    ensures fault { IfOk result (λ found. IfSome found (λ fault. IsFirstFaultOf f.now fault.kind fault.element)) }
    ensures valid { IfOk result (λ found. IfNone found (IsValid f.now)) }
{
    let boxes = NearBoxes::of(alloc, area_boxes(alloc, f.areas.as_slice())?)?;
    let mut earlier = ItemList::new(alloc);
    for place in 0..f.areas.len() {
        match sound_at(alloc, f, place, &boxes, &earlier)? {
            Ok(sound) => earlier.push(sound)?,
            Err(kind) => {
                let element = place as u32 + 1;
                return Ok(Some(Fault { kind, element }));
            }
        }
    }
    Ok(None)
}

/// The area at a place with its rings and edges, or else the first clause that it fails.
fn sound_at<'a>(
    alloc: Global,
    f: &'a Figure,
    place: usize,
    boxes: &NearBoxes,
    earlier: &ItemList<SoundArea<'a>>,
) -> Result<Result<SoundArea<'a>, InvalidKind>, NoMemory>
    requires shaped { IsWellShaped f.now }
    requires place { place < length f.now.areas }
    requires boxes { AreRound IsRoundArea f.now.areas boxes.now }
    requires earlier { AreFirstAreas f.now place earlier.now }
    ensures fault { IfOk result (λ found. IfErr found (IsFirstAt f.now place)) }
    ensures sound { IfOk result (λ found. OnOk found (IsSoundAt f.now place)) }
    ensures area { IfOk result (λ found. IfOk found (λ area. IsAtPlace f.now.areas place area)) }
{
    let area = f.areas.at(place);
    let sound = match sound_alone(alloc, area)? {
        Ok(sound) => sound,
        Err(kind) => return Ok(Err(kind)),
    };
    if has_common_with_earlier(alloc, f, place, boxes, &sound, earlier, Common::Segment)? {
        return Ok(Err(InvalidKind::ElementsShareEdge));
    }
    if has_common_with_earlier(alloc, f, place, boxes, &sound, earlier, Common::Interior)? {
        return Ok(Err(InvalidKind::ElementsOverlap));
    }
    Ok(Ok(sound))
}

/// An area with its rings and edges, or else the first clause on one area that it fails.
fn sound_alone(alloc: Global, area: &Area) -> Result<Result<SoundArea, InvalidKind>, NoMemory>
    requires few { positions_of_area area.now ≤ 1048576 }
    requires shaped { IsAreaShaped area.now }
    ensures tested { IfOk result (IsTestedUpTo area.now 6) }
{
    let rings = match sound_rings(alloc, area)? {
        Ok(rings) => rings,
        Err(kind) => return Ok(Err(kind)),
    };
    if rings.has_hole_outside(alloc)? {
        return Ok(Err(InvalidKind::HoleOutside));
    }
    if rings.has_holes_that_overlap(alloc)? {
        return Ok(Err(InvalidKind::HolesOverlap));
    }
    if has_cycle(alloc, area)? {
        return Ok(Err(InvalidKind::Disconnected));
    }
    Ok(Ok(SoundArea::of(alloc, rings)?))
}

/// The rings of an area, or else the first clause on their edges that it fails.
fn sound_rings(alloc: Global, area: &Area) -> Result<Result<RingSet, InvalidKind>, NoMemory>
    requires few { positions_of_area area.now ≤ 1048576 }
    requires shaped { IsAreaShaped area.now }
    ensures tested { IfOk result (IsTestedUpTo area.now 3) }
{
    if has_ring_with_too_few(area) {
        return Ok(Err(InvalidKind::TooFewPoints));
    }
    if has_ring_that_crosses(alloc, area)? {
        return Ok(Err(InvalidKind::RingCross));
    }
    if rings_share(alloc, area)? {
        return Ok(Err(InvalidKind::RingsShareEdge));
    }
    Ok(Ok(RingSet::of(alloc, area)?))
}

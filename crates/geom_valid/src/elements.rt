ghost use Rattle.std.specs.Prelude.{◌≡◌, ◌<◌, ◌↔◌, length, IfOk, IsTrue};
ghost use Rattle.geom_valid.specs.Boxes.{AreRound, IsRoundArea};
ghost use Rattle.geom_valid.specs.Elements.{HaveInCommon, OnInterior};
ghost use Rattle.geom_valid.specs.Faults.{AreFirstAreas};
ghost use Rattle.point_set.specs.Shape.{IsWellShaped};
ghost use Rattle.point_set.specs.Validity.{AreasShareSegment, IsAtPlace, SomeEarlier};

use crate::near_boxes::NearBoxes;
use crate::sound_area::SoundArea;
use plane_exact::{ItemList, NoMemory};
use point_set::Figure;
use std::alloc::Global;

/// What areas of one group must not have in common.
#[derive(Clone, Copy, Debug, PartialEq, Eq)]
pub(crate) enum Common {
    /// A segment of their edges.
    Segment,
    /// An interior point. It is asked for where no segment is in common.
    Interior,
}

/// Whether the area at a place has this in common with an earlier one of its group. Areas whose boxes are apart aren't compared.
pub(crate) fn has_common_with_earlier(
    alloc: Global,
    f: &Figure,
    place: usize,
    boxes: &NearBoxes,
    sound: &SoundArea,
    earlier: &ItemList<SoundArea>,
    what: Common,
) -> Result<bool, NoMemory>
    requires place { place < length f.now.areas }
    requires boxes { AreRound IsRoundArea f.now.areas boxes.now }
    requires area { IsAtPlace f.now.areas place sound.now }
    requires earlier { AreFirstAreas f.now place earlier.now }
    requires shaped { OnInterior what (IsWellShaped f.now) }
    requires unshared { OnInterior what (¬ SomeEarlier f.now place AreasShareSegment) }
    ensures common { IfOk result (λ b. IsTrue b ↔ SomeEarlier f.now place (HaveInCommon what)) }
{
    let group = f.areas.at(place).group;
    let near = boxes.near(alloc, place)?;
    for other in near.as_slice() {
        let before = *other as usize;
        if before < place && have_in_group(alloc, group, sound, earlier.at(before), what)? {
            return Ok(true);
        }
    }
    Ok(false)
}

/// Whether an area of a group has this in common with another one of this group.
fn have_in_group(
    alloc: Global,
    group: u32,
    sound: &SoundArea,
    other: &SoundArea,
    what: Common,
) -> Result<bool, NoMemory>
    requires unshared { OnInterior what (¬ ((group ≡ other.now.group) × AreasShareSegment sound.now other.now)) }
    ensures common { IfOk result (λ b. IsTrue b ↔ ((group ≡ other.now.group) × HaveInCommon what sound.now other.now)) }
{
    if group != other.area().group {
        return Ok(false);
    }
    have_in_common(alloc, sound, other, what)
}

/// Whether two areas have this in common.
fn have_in_common(
    alloc: Global,
    sound: &SoundArea,
    other: &SoundArea,
    what: Common,
) -> Result<bool, NoMemory>
    requires unshared { OnInterior what (¬ AreasShareSegment sound.now other.now) }
    ensures common { IfOk result (λ b. IsTrue b ↔ HaveInCommon what sound.now other.now) }
{
    match what {
        Common::Segment => sound.shares(alloc, other),
        Common::Interior => sound.overlaps(alloc, other),
    }
}

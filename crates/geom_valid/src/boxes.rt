ghost use Rattle.std.specs.Prelude.{IfOk};
ghost use Rattle.geom_valid.specs.Boxes.{AreRound, IsInBox, IsRoundArea, IsRoundRing};
ghost use Rattle.plane_exact.specs.Windows.{IsWithin};

use plane_exact::{BoxList, NoMemory, Path, Pt, Window};
use point_set::Area;
use std::alloc::Global;

/// A box that holds nothing.
const NOWHERE: Window = Window {
    low_x: i64::MAX,
    low_y: i64::MAX,
    high_x: i64::MIN,
    high_y: i64::MIN,
};

/// The boxes round rings.
#[tactic(auto, using(crate::proofs::NearPlaces::round_none, crate::proofs::NearPlaces::round_all))]
pub(crate) fn ring_boxes(alloc: Global, rings: &[Path]) -> Result<BoxList, NoMemory>
    ensures round { IfOk result (AreRound IsRoundRing rings.now) }
{
    let mut boxes = BoxList::new(alloc);
    for ring in rings {
        boxes.push(ring_box(ring))?;
    }
    Ok(boxes)
}

/// The boxes round areas.
#[tactic(auto, using(crate::proofs::NearPlaces::round_none, crate::proofs::NearPlaces::round_all))]
pub(crate) fn area_boxes(alloc: Global, areas: &[Area]) -> Result<BoxList, NoMemory>
    ensures round { IfOk result (AreRound IsRoundArea areas.now) }
{
    let mut boxes = BoxList::new(alloc);
    for area in areas {
        boxes.push(area_box(area))?;
    }
    Ok(boxes)
}

/// The box round a ring.
fn ring_box(ring: &Path) -> Window
    ensures round { IsRoundRing result ring.now }
{
    widened(NOWHERE, ring)
}

/// The box round an area.
fn area_box(area: &Area) -> Window
    ensures round { IsRoundArea result area.now }
{
    let mut around = ring_box(&area.shell);
    for hole in area.holes.as_slice() {
        around = widened(around, hole);
    }
    around
}

/// The least box that holds another and the positions of a ring.
fn widened(inner: Window, ring: &Path) -> Window
    ensures kept { IsWithin inner result }
    ensures round { IsRoundRing result ring.now }
    ensures least { (outer : Window) → IsWithin inner outer → IsRoundRing outer ring.now → IsWithin result outer }
{
    let mut around = inner;
    for p in ring.as_slice() {
        around = with_position(around, *p);
    }
    around
}

/// The least box that holds another and a position.
fn with_position(inner: Window, p: Pt) -> Window
    ensures kept { IsWithin inner result }
    ensures held { IsInBox result p }
    ensures least { (outer : Window) → IsWithin inner outer → IsInBox outer p → IsWithin result outer }
{
    Window {
        low_x: inner.low_x.min(p.x),
        low_y: inner.low_y.min(p.y),
        high_x: inner.high_x.max(p.x),
        high_y: inner.high_y.max(p.y),
    }
}

ghost use Rattle.std.specs.Prelude.{◌≡◌, ◌<◌, ◌⊎◌, ◌↔◌, ℕ, pos, ◌<ℤ◌, true, IsTrue, IfOk, All};
ghost use Rattle.fan_order.specs.Fans.{IsFan};
ghost use Rattle.area_entry.specs.Entries.{IsFree};
ghost use Rattle.area_entry.specs.Grounds.{AreRowsOf};
ghost use Rattle.area_entry.specs.RowSections.{AreOfOneArea, IsRowSound};
ghost use Rattle.plane_exact.specs.NodePoints.{point_at};
ghost use Rattle.plane_exact.specs.Orders.{direction_of, IsSameDirection};
ghost use Rattle.plane_exact.specs.declared.dir.Dir.{Dir};
ghost use Rattle.plane_laws.specs.Directions.{bend_of, IsStrictlyWithin};
ghost use Rattle.point_set.specs.declared.figure.Area.{Area};
ghost use Rattle.point_set.specs.Germ.{IsGerm};
ghost use Rattle.point_set.specs.Rings.{is_on_edges};
ghost use Rattle.point_set.specs.Sectors.{IsInSector, sectors_of};
ghost use Rattle.point_set.specs.Validity.{IsAtPlace};
ghost use Rattle.valid_laws.specs.Entering.{edges_in, IsClean};

use crate::near_rows::NearRows;
use fan_order::Fan;
use im_matrix::{Loc, Which};
use plane_exact::{Dir, NoMemory, Node, cmp_turn};
use std::alloc::Global;
use std::cmp::Ordering;

/// The part of an area in which the points near one of its nodes lie, along a direction in which none of its edges runs. The
/// rows are those of the area.
///
/// # Errors
/// `NoMemory`.
pub(crate) fn part_along(alloc: Global, rows: &NearRows, n: &Node, d: Dir) -> Result<Loc, NoMemory>
    requires sound { All IsRowSound rows.now }
    requires one_area { AreOfOneArea rows.now }
    ensures germ { IfOk result (λ part. (area : Area) → IsClean area → AreRowsOf area rows.now
        → is_on_edges (point_at n.now) (edges_in area) ≡ true → IsFree area (point_at n.now) (direction_of d)
        → IsGerm area (point_at n.now) (direction_of d) part) }
{
    let sections = rows.sections_at(alloc, n)?;
    let fan = Fan::gather(alloc, &sections)?;
    let sector = sector_of(&fan, d);
    if fan.is_inside(Which::A, sector) {
        Ok(Loc::Interior)
    } else {
        Ok(Loc::Exterior)
    }
}

/// The sector of a fan in which a direction lies that points along none of its rays.
fn sector_of(fan: &Fan, d: Dir) -> usize
    ensures within { result < sectors_of fan.now.rays }
    ensures sector { ((i : ℕ) (ray : Dir) → IsAtPlace fan.now.rays i ray → ¬ IsSameDirection ray d)
        → IsInSector fan.now.rays result (direction_of d) }
{
    let count = fan.rays();
    for i in 1..count {
        if is_within(fan.ray(i), fan.ray((i + 1) % count), d) {
            return i;
        }
    }
    0
}

/// Whether a direction lies strictly between two others, counter-clockwise after `r` and before `s`.
fn is_within(r: Dir, s: Dir, d: Dir) -> bool
    ensures within { IsTrue result ↔ IsStrictlyWithin (direction_of r) (direction_of s) (direction_of d) }
{
    if is_left(r, s) {
        return is_left_of_both(r, s, d);
    }
    if is_left(s, r) {
        return is_left_of_one(r, s, d);
    }
    if is_same(r, s) {
        return !is_same(r, d);
    }
    is_left(r, d)
}

/// Whether `d` is to the left of `r`, and `s` to the left of `d`.
fn is_left_of_both(r: Dir, s: Dir, d: Dir) -> bool
    ensures both { IsTrue result ↔ ((pos 0 <ℤ bend_of (direction_of r) (direction_of d))
        × (pos 0 <ℤ bend_of (direction_of d) (direction_of s))) }
{
    is_left(r, d) && is_left(d, s)
}

/// Whether `d` is to the left of `r`, or `s` to the left of `d`.
fn is_left_of_one(r: Dir, s: Dir, d: Dir) -> bool
    ensures one { IsTrue result ↔ ((pos 0 <ℤ bend_of (direction_of r) (direction_of d))
        ⊎ (pos 0 <ℤ bend_of (direction_of d) (direction_of s))) }
{
    is_left(r, d) || is_left(d, s)
}

/// Whether `d` is to the left of `r`, less than half a turn away.
fn is_left(r: Dir, d: Dir) -> bool
    ensures left { IsTrue result ↔ (pos 0 <ℤ bend_of (direction_of r) (direction_of d)) }
{
    r.dx * d.dy - r.dy * d.dx > 0
}

/// Whether two directions point the same way.
fn is_same(r: Dir, d: Dir) -> bool
    ensures same { IsTrue result ↔ IsSameDirection r d }
{
    cmp_turn(r, d) == Ordering::Equal
}

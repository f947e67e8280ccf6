ghost use Rattle.std.specs.Prelude.{◌≡◌, ◌&&◌, int_le};
ghost use Rattle.im_matrix.specs.Cells.{cell, dimension_at};
ghost use Rattle.im_matrix.specs.declared.Dim.TheVariants as dim;
ghost use Rattle.im_matrix.specs.declared.Loc.TheVariants as loc;
ghost use Rattle.box_laws.specs.Boxes as boxes;
ghost use Rattle.near_laws.specs.Near as near;
ghost use Rattle.topo_pred.specs.Values.{matrix_of};
ghost use Rattle.relate_core.specs.Taking.{HasTakenIn, IsOne};

use crate::edges::shared;
use crate::samples::take_in_cell;
use im_matrix::{Cell, Dim, Loc};
use plane_exact::Window;
use point_set::Extent;
use topo_pred::Progress;

/// The envelope of a whole figure.
pub(crate) fn frame(x: &Extent) -> Option<Window>
    ensures frame { result ≡ boxes.frame x.now }
{
    join(x.areas, join(x.lines, x.points))
}

/// The least box that holds two boxes, where there are some.
fn join(u: Option<Window>, v: Option<Window>) -> Option<Window>
    ensures join { result ≡ boxes.join u v }
{
    match (u, v) {
        (Some(u), Some(v)) => Some(u.join(&v)),
        (Some(u), None) => Some(u),
        (None, v) => v,
    }
}

/// The box of all points that two boxes hold, or none where they hold none.
pub(crate) fn common_part(u: Option<Window>, v: Option<Window>) -> Option<Window>
    ensures common { boxes.IsCommonPart u v result }
{
    let u = u?;
    let v = v?;
    if u.meets(&v) {
        Some(shared(&u, &v))
    } else {
        None
    }
}

/// Takes in what the envelopes of two figures tell of what they have outside of a box, where the other figure isn't.
pub(crate) fn take_in_far(progress: &mut Progress, x: &Extent, y: &Extent, w: Option<Window>)
    requires start { dimension_at (matrix_of progress.old) (cell loc.Exterior loc.Exterior) ≡ dim.Two }
    ensures taken { HasTakenIn (λ c d. d ≡ near.beyond_cell x.now y.now w c) progress.old progress.new }
{
    take_in_beyond(progress, outside_b(Loc::Interior), x, w, Loc::Interior);
    take_in_beyond(progress, outside_b(Loc::Boundary), x, w, Loc::Boundary);
    take_in_beyond(progress, outside_a(Loc::Interior), y, w, Loc::Interior);
    take_in_beyond(progress, outside_a(Loc::Boundary), y, w, Loc::Boundary);
}

/// Takes in the dimension of what a part of a figure has outside of a box, in a cell.
fn take_in_beyond(progress: &mut Progress, c: Cell, x: &Extent, w: Option<Window>, part: Loc)
    ensures taken { HasTakenIn (IsOne c (near.beyond x.now w part)) progress.old progress.new }
{
    take_in_cell(progress, c, beyond(x, w, part));
}

/// The cell of a part of the first figure and the exterior of the second.
fn outside_b(part: Loc) -> Cell
    ensures cell { result ≡ cell part loc.Exterior }
{
    Cell {
        a: part,
        b: Loc::Exterior,
    }
}

/// The cell of the exterior of the first figure and a part of the second.
fn outside_a(part: Loc) -> Cell
    ensures cell { result ≡ cell loc.Exterior part }
{
    Cell {
        a: Loc::Exterior,
        b: part,
    }
}

/// The dimension of what a part of a figure has outside of a box.
fn beyond(x: &Extent, w: Option<Window>, part: Loc) -> Dim
    ensures beyond { result ≡ near.beyond x.now w part }
{
    let areas = sticks_out(x.areas, w);
    match part {
        Loc::Interior => interior_by(areas, sticks_out(x.lines, w), sticks_out(x.points, w)),
        Loc::Boundary => boundary_by(areas, sticks_out(x.ends, w)),
        Loc::Exterior => Dim::Empty,
    }
}

/// The dimension of an interior by what it has.
fn interior_by(areas: bool, lines: bool, points: bool) -> Dim
    ensures dimension { result ≡ near.interior_by areas lines points }
{
    if areas {
        Dim::Two
    } else if lines {
        Dim::One
    } else if points {
        Dim::Zero
    } else {
        Dim::Empty
    }
}

/// The dimension of a boundary by what it has.
fn boundary_by(areas: bool, ends: bool) -> Dim
    ensures dimension { result ≡ near.boundary_by areas ends }
{
    if areas {
        Dim::One
    } else if ends {
        Dim::Zero
    } else {
        Dim::Empty
    }
}

/// Whether an envelope has a part outside of a box.
fn sticks_out(envelope: Option<Window>, w: Option<Window>) -> bool
    ensures sticks_out { result ≡ boxes.sticks_out envelope w }
{
    match (envelope, w) {
        (None, _) => false,
        (Some(_), None) => true,
        (Some(inner), Some(outer)) => !is_within(&inner, &outer),
    }
}

/// Whether no side of the inner box is outside of the outer one.
fn is_within(inner: &Window, outer: &Window) -> bool
    ensures within { result ≡ boxes.is_within inner.now outer.now }
{
    is_range_within(inner.low_x, inner.high_x, outer.low_x, outer.high_x)
        && is_range_within(inner.low_y, inner.high_y, outer.low_y, outer.high_y)
}

/// Whether the numbers from `low` to `high` have neither end outside of those from `least` to `most`.
fn is_range_within(low: i64, high: i64, least: i64, most: i64) -> bool
    ensures within { result ≡ (int_le least low && int_le high most) }
{
    least <= low && high <= most
}

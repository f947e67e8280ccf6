ghost use Rattle.std.specs.Prelude.{◌≡◌};
ghost use Rattle.std.specs.List.{list_any, list_all};
ghost use Rattle.point_set.specs.Rings.{is_same_position};
ghost use Rattle.point_set.specs.Lines.{is_still as is_still_way};
ghost use Rattle.point_set.specs.Shape.{is_moving as is_moving_way, has_item, dimension_of};

use crate::figure::{Figure, Paths};
use im_matrix::Dim;
use plane_exact::{Path, Pt};

/// The dimension of a figure.
pub(crate) fn dimension(f: &Figure) -> Dim
    ensures dimension { result ≡ dimension_of f.now }
{
    if f.areas.len() > 0 {
        return Dim::Two;
    }
    if is_some_line_moving(&f.lines) {
        return Dim::One;
    }
    if f.lines.len() > 0 || f.points.len() > 0 {
        return Dim::Zero;
    }
    Dim::Empty
}

fn is_at(first: &Pt, p: &Pt) -> bool
    ensures same { result ≡ is_same_position first.now p.now }
{
    first.x == p.x && first.y == p.y
}

fn are_all_at(first: &Pt, others: &[Pt]) -> bool
    ensures still { result ≡ list_all (is_same_position first.now) others.now }
{
    others.iter().all(|p| is_at(first, p))
}

fn is_still(line: &Path) -> bool
    ensures still { result ≡ is_still_way line.now }
{
    match line.as_slice().split_first() {
        None => true,
        Some((first, others)) => are_all_at(first, others),
    }
}

fn is_some_line_moving(lines: &Paths) -> bool
    ensures moving { result ≡ list_any is_moving_way lines.now }
{
    lines.as_slice().iter().any(|line| !is_still(line))
}

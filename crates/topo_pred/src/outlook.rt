// When the value of a name or a pattern is known, though the matrix may still rise.

ghost use Rattle.std.specs.Prelude.{◌≡◌, ◌&&◌, ◌||◌, nat_lt};
ghost use Rattle.std.specs.List.{list_any, list_all};
ghost use Rattle.im_matrix.specs.Cells.{all_cells, cell, dimension_at, rank};
ghost use Rattle.im_matrix.specs.Patterns.{mark_at, text_matches, pattern_text};
ghost use Rattle.im_matrix.specs.declared.Loc.TheVariants.{Interior, Boundary, Exterior};
ghost use Rattle.im_matrix.specs.Common.{has, a_leaves_b, b_leaves_a};
ghost use Rattle.im_matrix.specs.Names.{name_value};
ghost use Rattle.topo_pred.specs.Later.{IsKnown};
ghost use Rattle.topo_pred.specs.Settled.{fails_for_good, holds_for_good};

use im_matrix::{Cell, Dim, Loc, Mark, Matrix, Name, Pattern};

/// The cell of the two interiors.
const INTERIORS: Cell = Cell {
    a: Loc::Interior,
    b: Loc::Interior,
};

/// Whether no dimension that the cell may still come to is one that the mark asks for.
fn fails_for_good(mark: Mark, d: Dim) -> bool
    ensures fails { result ≡ fails_for_good mark d }
{
    let (_, greatest) = mark.range();
    greatest < d
}

/// Whether each dimension that the cell may still come to is one that the mark asks for.
fn holds_for_good(mark: Mark, d: Dim) -> bool
    ensures holds { result ≡ holds_for_good mark d }
{
    let (least, greatest) = mark.range();
    least <= d && greatest == Dim::Two
}

/// Whether some character of the pattern fails for good.
fn some_fails(pattern: &Pattern, m: &Matrix) -> bool
    ensures fails { result ≡ list_any (λ c. fails_for_good (mark_at pattern.now c) (dimension_at m.now c)) all_cells }
{
    Cell::ALL
        .iter()
        .any(|&c| fails_for_good(pattern.at(c), m.get(c)))
}

/// Whether each character of the pattern holds for good.
fn all_hold(pattern: &Pattern, m: &Matrix) -> bool
    ensures holds { result ≡ list_all (λ c. holds_for_good (mark_at pattern.now c) (dimension_at m.now c)) all_cells }
{
    Cell::ALL
        .iter()
        .all(|&c| holds_for_good(pattern.at(c), m.get(c)))
}

/// What is known of a pattern.
pub fn pattern_known(pattern: &Pattern, m: &Matrix) -> Option<bool>
    ensures known { IsKnown (text_matches (pattern_text pattern.now)) m.now result }
{
    if some_fails(pattern, m) {
        Some(false)
    } else if all_hold(pattern, m) {
        Some(true)
    } else {
        None
    }
}

/// Whether the first dimension is below the second.
fn is_below(a: Dim, b: Dim) -> bool
    ensures below { result ≡ nat_lt (rank a) (rank b) }
{
    a < b
}

/// Whether the interiors meet in more than points.
fn meet_in_a_line(m: &Matrix) -> bool
    ensures line { result ≡ nat_lt 1 (rank (dimension_at m.now (cell Interior Interior))) }
{
    matches!(m.get(INTERIORS), Dim::One | Dim::Two)
}

/// Whether the interiors meet in an area.
fn meet_in_an_area(m: &Matrix) -> bool
    ensures area { result ≡ nat_lt 2 (rank (dimension_at m.now (cell Interior Interior))) }
{
    matches!(m.get(INTERIORS), Dim::Two)
}

/// Whether a part of A's interior is in B's, and a part of it outside B.
fn some_in_some_out(m: &Matrix) -> bool
    ensures parts { result ≡ (has m.now Interior Interior && has m.now Interior Exterior) }
{
    m.has(Loc::Interior, Loc::Interior) && m.has(Loc::Interior, Loc::Exterior)
}

/// Whether a part of B's interior is in A's, and a part of it outside A.
fn some_in_some_over(m: &Matrix) -> bool
    ensures parts { result ≡ (has m.now Interior Interior && has m.now Exterior Interior) }
{
    m.has(Loc::Interior, Loc::Interior) && m.has(Loc::Exterior, Loc::Interior)
}

/// Whether the interiors meet, and each has a part outside the other figure.
fn each_in_part(m: &Matrix) -> bool
    ensures parts { result ≡ (has m.now Interior Interior && has m.now Interior Exterior && has m.now Exterior Interior) }
{
    m.has(Loc::Interior, Loc::Interior)
        && m.has(Loc::Interior, Loc::Exterior)
        && m.has(Loc::Exterior, Loc::Interior)
}

/// Whether one of the figures has a point that isn't in the other.
fn differ(m: &Matrix) -> bool
    ensures differs { result ≡ (a_leaves_b m.now || b_leaves_a m.now) }
{
    m.a_leaves_b() || m.b_leaves_a()
}

/// Whether B has a point that isn't in A's interior.
fn b_leaves_interior(m: &Matrix) -> bool
    ensures leaves { result ≡ (has m.now Boundary Interior || has m.now Boundary Boundary || b_leaves_a m.now) }
{
    m.has(Loc::Boundary, Loc::Interior) || m.has(Loc::Boundary, Loc::Boundary) || m.b_leaves_a()
}

/// What is known of Touches.
fn touches_known(dim_a: Dim, dim_b: Dim, m: &Matrix) -> Option<bool>
    ensures known { IsKnown (name_value Name.Touches dim_a dim_b) m.now result }
{
    match (dim_a, dim_b) {
        (Dim::Zero, Dim::Zero) => Some(false),
        _ => m.has(Loc::Interior, Loc::Interior).then_some(false),
    }
}

/// What is known of Crosses.
fn crosses_known(dim_a: Dim, dim_b: Dim, m: &Matrix) -> Option<bool>
    ensures known { IsKnown (name_value Name.Crosses dim_a dim_b) m.now result }
{
    match (dim_a, dim_b) {
        (Dim::One, Dim::One) => meet_in_a_line(m).then_some(false),
        _ if is_below(dim_a, dim_b) => some_in_some_out(m).then_some(true),
        _ if is_below(dim_b, dim_a) => some_in_some_over(m).then_some(true),
        _ => Some(false),
    }
}

/// What is known of Overlaps.
fn overlaps_known(dim_a: Dim, dim_b: Dim, m: &Matrix) -> Option<bool>
    ensures known { IsKnown (name_value Name.Overlaps dim_a dim_b) m.now result }
{
    match (dim_a, dim_b) {
        (Dim::Zero, Dim::Zero) => each_in_part(m).then_some(true),
        (Dim::One, Dim::One) => meet_in_an_area(m).then_some(false),
        (Dim::Two, Dim::Two) => each_in_part(m).then_some(true),
        _ => Some(false),
    }
}

/// What is known of a name, for figures with these dimensions.
///
/// A name that asks for an empty cell is never true before the end, since a point may still come
/// there; one that asks for points alone is never false.
pub fn name_known(name: Name, dim_a: Dim, dim_b: Dim, m: &Matrix) -> Option<bool>
    ensures known { IsKnown (name_value name dim_a dim_b) m.now result }
{
    match name {
        Name::Intersects => m.figures_meet().then_some(true),
        Name::Disjoint => m.figures_meet().then_some(false),
        Name::Contains => m.b_leaves_a().then_some(false),
        Name::Within => m.a_leaves_b().then_some(false),
        Name::Covers => m.b_leaves_a().then_some(false),
        Name::CoveredBy => m.a_leaves_b().then_some(false),
        Name::Touches => touches_known(dim_a, dim_b, m),
        Name::Crosses => crosses_known(dim_a, dim_b, m),
        Name::Overlaps => overlaps_known(dim_a, dim_b, m),
        Name::Equals => differ(m).then_some(false),
        Name::ContainsProperly => b_leaves_interior(m).then_some(false),
    }
}

// The named predicates on a matrix.

ghost use Rattle.std.specs.Prelude.{◌≡◌, ◌&&◌, ◌||◌, not};
ghost use Rattle.im_matrix.specs.Common.{has, figures_meet, a_leaves_b, b_leaves_a};
ghost use Rattle.im_matrix.specs.Names.{name_value};
ghost use Rattle.im_matrix.specs.declared.Loc.TheVariants.{Interior, Boundary, Exterior};

use crate::{Cell, Dim, Loc, Matrix};

/// A named predicate on two figures, A and B.
#[derive(Clone, Copy, Debug, PartialEq, Eq)]
pub enum Name {
    /// The figures have a point in common.
    Intersects,
    /// The figures have no point in common.
    Disjoint,
    /// B lies in A, and the interiors have a point in common.
    Contains,
    /// A lies in B, and the interiors have a point in common.
    Within,
    /// B lies in A.
    Covers,
    /// A lies in B.
    CoveredBy,
    /// The figures have a point in common, and their interiors have none.
    Touches,
    /// The interiors meet in part, in fewer dimensions than the greater of the two figures.
    Crosses,
    /// Two figures of one dimension whose interiors meet in that dimension, and neither lies in the
    /// other.
    Overlaps,
    /// The figures have the same points.
    Equals,
    /// B lies in A's interior.
    ContainsProperly,
}

impl Matrix {
    /// Whether A's part and B's part have a point in common.
    pub fn has(&self, a: Loc, b: Loc) -> bool
        ensures common { result ≡ has self.now a b }
    {
        self.get(Cell { a, b }).is_present()
    }

    /// Whether the figures have a point in common.
    pub fn figures_meet(&self) -> bool
        ensures meets { result ≡ figures_meet self.now }
    {
        self.has(Loc::Interior, Loc::Interior)
            || self.has(Loc::Interior, Loc::Boundary)
            || self.has(Loc::Boundary, Loc::Interior)
            || self.has(Loc::Boundary, Loc::Boundary)
    }

    /// Whether A has a point that isn't in B.
    pub fn a_leaves_b(&self) -> bool
        ensures leaves { result ≡ a_leaves_b self.now }
    {
        self.has(Loc::Interior, Loc::Exterior) || self.has(Loc::Boundary, Loc::Exterior)
    }

    /// Whether B has a point that isn't in A.
    pub fn b_leaves_a(&self) -> bool
        ensures leaves { result ≡ b_leaves_a self.now }
    {
        self.has(Loc::Exterior, Loc::Interior) || self.has(Loc::Exterior, Loc::Boundary)
    }
}

/// Whether the figures touch, by their dimensions.
fn touches(dim_a: Dim, dim_b: Dim, m: &Matrix) -> bool
    ensures value { result ≡ name_value Name.Touches dim_a dim_b m.now }
{
    match (dim_a, dim_b) {
        (Dim::Zero, Dim::Zero) => false,
        _ => m.figures_meet() && !m.has(Loc::Interior, Loc::Interior),
    }
}

/// Whether the figures cross, by their dimensions.
fn crosses(dim_a: Dim, dim_b: Dim, m: &Matrix) -> bool
    ensures value { result ≡ name_value Name.Crosses dim_a dim_b m.now }
{
    match (dim_a, dim_b) {
        (Dim::One, Dim::One) => matches!(m.get(Cell::II), Dim::Zero),
        _ if dim_a < dim_b => {
            m.has(Loc::Interior, Loc::Interior) && m.has(Loc::Interior, Loc::Exterior)
        }
        _ if dim_b < dim_a => {
            m.has(Loc::Interior, Loc::Interior) && m.has(Loc::Exterior, Loc::Interior)
        }
        _ => false,
    }
}

/// Whether the figures overlap, by their dimensions.
fn overlaps(dim_a: Dim, dim_b: Dim, m: &Matrix) -> bool
    ensures value { result ≡ name_value Name.Overlaps dim_a dim_b m.now }
{
    let interiors_meet = match (dim_a, dim_b) {
        (Dim::Zero, Dim::Zero) | (Dim::Two, Dim::Two) => m.has(Loc::Interior, Loc::Interior),
        (Dim::One, Dim::One) => matches!(m.get(Cell::II), Dim::One),
        _ => false,
    };
    interiors_meet && m.has(Loc::Interior, Loc::Exterior) && m.has(Loc::Exterior, Loc::Interior)
}

/// Whether the name is true of two figures with these dimensions and this matrix.
pub fn named(name: Name, dim_a: Dim, dim_b: Dim, m: &Matrix) -> bool
    ensures value { result ≡ name_value name dim_a dim_b m.now }
{
    let interiors_meet = m.has(Loc::Interior, Loc::Interior);
    match name {
        Name::Intersects => m.figures_meet(),
        Name::Disjoint => !m.figures_meet(),
        Name::Contains => interiors_meet && !m.b_leaves_a(),
        Name::Within => interiors_meet && !m.a_leaves_b(),
        Name::Covers => m.figures_meet() && !m.b_leaves_a(),
        Name::CoveredBy => m.figures_meet() && !m.a_leaves_b(),
        Name::Touches => touches(dim_a, dim_b, m),
        Name::Crosses => crosses(dim_a, dim_b, m),
        Name::Overlaps => overlaps(dim_a, dim_b, m),
        Name::Equals => !m.a_leaves_b() && !m.b_leaves_a(),
        Name::ContainsProperly => {
            interiors_meet
                && !m.has(Loc::Boundary, Loc::Interior)
                && !m.has(Loc::Boundary, Loc::Boundary)
                && !m.b_leaves_a()
        }
    }
}

ghost use Rattle.std.specs.Prelude.{◌≡◌};

use im_matrix::Loc;

/// Where a point lies in a figure, with the kind of element that decides.
#[derive(Clone, Copy, Debug, PartialEq, Eq)]
pub enum DimLoc {
    /// In the interior of the union of the areas.
    AreaInterior,
    /// Covered by an area, and not interior to the union.
    AreaBoundary,
    /// On a line, and not boundary by the rule.
    LineInterior,
    /// At line ends, and boundary by the rule.
    LineBoundary,
    /// At a point, or at a line whose positions are all equal.
    PointInterior,
    /// Nowhere in the figure.
    Exterior,
}

impl DimLoc {
    ghost use Rattle.point_set.specs.Location.{part_of};

    /// The part of the plane to which this kind of location belongs.
    pub fn loc(&self) -> Loc
        ensures part { result ≡ part_of self.now }
    {
        match self {
            DimLoc::AreaInterior | DimLoc::LineInterior | DimLoc::PointInterior => Loc::Interior,
            DimLoc::AreaBoundary | DimLoc::LineBoundary => Loc::Boundary,
            DimLoc::Exterior => Loc::Exterior,
        }
    }
}

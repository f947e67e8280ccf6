ghost use Rattle.std.specs.Prelude.{◌≡◌, ◌≢◌};
ghost use Rattle.im_matrix.specs.Cells.{greater};
ghost use Rattle.im_matrix.specs.Parts.{at_part};
ghost use Rattle.im_matrix.specs.declared.Loc.{Loc};

use crate::{Dim, Loc};

/// One value for each part of the plane as a figure cuts it.
#[derive(Clone, Copy, Debug, PartialEq, Eq)]
pub(crate) struct Parts<T> {
    pub(crate) interior: T,
    pub(crate) boundary: T,
    pub(crate) exterior: T,
}

impl<T: Copy> Parts<T> {
    /// The same value for each part.
    pub(crate) fn all(value: T) -> Parts<T>
        ensures interior { result.interior ≡ value }
        ensures boundary { result.boundary ≡ value }
        ensures exterior { result.exterior ≡ value }
    {
        Parts {
            interior: value,
            boundary: value,
            exterior: value,
        }
    }

    /// The value for a part.
    pub(crate) fn at(&self, part: Loc) -> T
        ensures value { result ≡ at_part self.now part }
    {
        match part {
            Loc::Interior => self.interior,
            Loc::Boundary => self.boundary,
            Loc::Exterior => self.exterior,
        }
    }
}

impl Parts<Dim> {
    /// Makes a part's dimension the greater of its own and `d`.
    pub(crate) fn raise(&mut self, part: Loc, d: Dim)
        ensures raised { at_part self.new part ≡ greater (at_part self.old part) d }
        ensures others { (other : Loc) → other ≢ part → at_part self.new other ≡ at_part self.old other }
    {
        match part {
            Loc::Interior => self.interior = self.interior.greater(d),
            Loc::Boundary => self.boundary = self.boundary.greater(d),
            Loc::Exterior => self.exterior = self.exterior.greater(d),
        }
    }
}

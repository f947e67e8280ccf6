use crate::dimension::dimension;
use crate::figure::Figure;
use im_matrix::Dim;
use plane_exact::ItemList;
use std::marker::Model;

/// A figure that is well shaped and valid.
#[derive(Debug, Drop)]
pub struct Valid {
    figure: Figure,
}

/// Valid figures in order.
pub type Valids = ItemList<Valid>;

impl Model for Valid {
    ghost use Rattle.point_set.specs.declared.figure.Figure.{Figure};
    ghost use Rattle.point_set.specs.Shape.{IsWellShaped};
    ghost use Rattle.point_set.specs.Validity.{IsValid};

    ghost Value = { Figure };

    ghost view = { λ v. v.figure };

    ghost invariant = { λ v. IsWellShaped v.figure × IsValid v.figure };
}

impl Valid {
    ghost use Rattle.std.specs.Prelude.{◌≡◌};
    ghost use Rattle.point_set.specs.Shape.{IsWellShaped, dimension_of};
    ghost use Rattle.point_set.specs.Validity.{IsValid};

    /// Takes a figure that is known to be well shaped and valid. Takes no memory.
    pub fn seal(f: Figure) -> Valid
        requires shaped { IsWellShaped f }
        requires valid { IsValid f }
        ensures same { result ≡ f }
    {
        Valid { figure: f }
    }

    /// The figure.
    pub fn figure(&self) -> &Figure
        ensures same { result.now ≡ self.now }
        ensures shaped { IsWellShaped self.now }
        ensures valid { IsValid self.now }
    {
        &self.figure
    }

    /// The figure's dimension: Two where there is an area, else One where there is a line with two different positions,
    /// else Zero where there is a line or a point, else Empty. Takes no memory.
    pub fn dim(&self) -> Dim
        ensures dimension { result ≡ dimension_of self.now }
    {
        dimension(&self.figure)
    }
}

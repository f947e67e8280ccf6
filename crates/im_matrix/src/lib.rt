//! The nine-cell matrix of two figures: which part of A and which part of B have points in
//! common, and of what dimension these are.
#![tactic(auto)]

ghost use Rattle.std.specs.Prelude.{◌≡◌, ◌≢◌};
ghost use Rattle.im_matrix.specs.Cells.{greater, dimension_at, start_dimension, character_of, matrix_text};
ghost use Rattle.im_matrix.specs.Patterns.{is_present};
ghost use Rattle.im_matrix.specs.declared.Loc.{Loc};
ghost use Rattle.im_matrix.specs.declared.Cell.{Cell};

mod names;
mod parts;
mod patterns;

pub use names::{Name, named};
use parts::Parts;
pub use patterns::{BadPattern, Mark, Pattern};

/// One of the two figures of a pair.
#[derive(Clone, Copy, Debug, PartialEq, Eq)]
pub enum Which {
    /// The first figure.
    A,
    /// The second figure.
    B,
}

/// A part of the plane as one figure cuts it.
#[derive(Clone, Copy, Debug, PartialEq, Eq)]
pub enum Loc {
    /// The figure's interior.
    Interior,
    /// The figure's boundary.
    Boundary,
    /// What isn't in the figure.
    Exterior,
}

/// The dimension of a set of points, from the least to the greatest.
#[derive(Clone, Copy, Debug, PartialEq, Eq, PartialOrd, Ord)]
pub enum Dim {
    /// No point.
    Empty,
    /// Points, and no line.
    Zero,
    /// Lines, and no area.
    One,
    /// An area.
    Two,
}

impl Dim {
    /// The greater of the two dimensions.
    fn greater(self, other: Dim) -> Dim
        ensures greater { result ≡ greater self other }
    {
        match (self, other) {
            (Dim::Two, _) | (_, Dim::Two) => Dim::Two,
            (Dim::One, _) | (_, Dim::One) => Dim::One,
            (Dim::Zero, _) | (_, Dim::Zero) => Dim::Zero,
            (Dim::Empty, Dim::Empty) => Dim::Empty,
        }
    }

    /// Whether there is a point.
    fn is_present(self) -> bool
        ensures present { result ≡ is_present self }
    {
        !matches!(self, Dim::Empty)
    }

    /// The character of the dimension in a matrix's text.
    fn character(self) -> u8
        ensures character { result ≡ character_of self }
    {
        match self {
            Dim::Empty => b'F',
            Dim::Zero => b'0',
            Dim::One => b'1',
            Dim::Two => b'2',
        }
    }
}

/// A cell of the matrix: a part of A's plane and a part of B's.
#[derive(Clone, Copy, Debug, PartialEq, Eq)]
pub struct Cell {
    /// The part as A cuts the plane.
    pub a: Loc,
    /// The part as B cuts the plane.
    pub b: Loc,
}

impl Cell {
    const II: Cell = Cell {
        a: Loc::Interior,
        b: Loc::Interior,
    };

    const IB: Cell = Cell {
        a: Loc::Interior,
        b: Loc::Boundary,
    };

    const IE: Cell = Cell {
        a: Loc::Interior,
        b: Loc::Exterior,
    };

    const BI: Cell = Cell {
        a: Loc::Boundary,
        b: Loc::Interior,
    };

    const BB: Cell = Cell {
        a: Loc::Boundary,
        b: Loc::Boundary,
    };

    const BE: Cell = Cell {
        a: Loc::Boundary,
        b: Loc::Exterior,
    };

    const EI: Cell = Cell {
        a: Loc::Exterior,
        b: Loc::Interior,
    };

    const EB: Cell = Cell {
        a: Loc::Exterior,
        b: Loc::Boundary,
    };

    const EE: Cell = Cell {
        a: Loc::Exterior,
        b: Loc::Exterior,
    };

    /// The nine cells in the order II IB IE BI BB BE EI EB EE.
    pub const ALL: [Cell; 9] = [
        Self::II,
        Self::IB,
        Self::IE,
        Self::BI,
        Self::BB,
        Self::BE,
        Self::EI,
        Self::EB,
        Self::EE,
    ];
}

/// For each cell a dimension: that of the points that are in both parts.
#[derive(Clone, Copy, Debug, PartialEq, Eq)]
pub struct Matrix {
    dims: Parts<Parts<Dim>>,
}

impl Matrix {
    /// The matrix before any point is known: every cell is Empty, but the plane's remainder, outside
    /// both figures, is always an area.
    pub fn start() -> Matrix
        ensures start { (c : Cell) → dimension_at result c ≡ start_dimension c }
    {
        let nothing = Parts::all(Dim::Empty);
        Matrix {
            dims: Parts {
                exterior: Parts {
                    exterior: Dim::Two,
                    ..nothing
                },
                ..Parts::all(nothing)
            },
        }
    }

    /// The dimension in a cell.
    pub fn get(&self, c: Cell) -> Dim
        ensures dimension { result ≡ dimension_at self.now c }
    {
        self.dims.at(c.a).at(c.b)
    }

    /// Makes the cell's dimension the greater of its own and `d`. No other cell changes.
    pub fn raise(&mut self, c: Cell, d: Dim)
        ensures raised { dimension_at self.new c ≡ greater (dimension_at self.old c) d }
        ensures others { (other : Cell) → other ≢ c → dimension_at self.new other ≡ dimension_at self.old other }
    {
        match c.a {
            Loc::Interior => self.dims.interior.raise(c.b, d),
            Loc::Boundary => self.dims.boundary.raise(c.b, d),
            Loc::Exterior => self.dims.exterior.raise(c.b, d),
        }
    }

    /// The nine characters `F`, `0`, `1`, `2` in the order II IB IE BI BB BE EI EB EE.
    pub fn text(&self) -> [u8; 9]
        ensures text { result ≡ matrix_text self.now }
    {
        Cell::ALL.map(|c| self.get(c).character())
    }
}

#[cfg(test)]
mod tests;

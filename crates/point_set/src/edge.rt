ghost use Rattle.std.specs.Prelude.{◌≡◌};
ghost use Rattle.point_set.specs.Sides.{other_hand};

use plane_exact::{ItemList, Seg};

/// For an edge of a ring, the side on which the inside of its area lies; an edge of a line has none.
#[derive(Clone, Copy, Debug, PartialEq, Eq)]
pub enum Hand {
    /// An edge of a line.
    Line,
    /// The inside lies on the left of the way from the edge's start to its end.
    Left,
    /// The inside lies on the right.
    Right,
}

impl Hand {
    /// The other hand: left for right, and right for left. An edge of a line has none on either way.
    pub fn opposite(self) -> Hand
        ensures other { result ≡ other_hand self }
    {
        match self {
            Hand::Line => Hand::Line,
            Hand::Left => Hand::Right,
            Hand::Right => Hand::Left,
        }
    }
}

/// The line or the ring to which an edge belongs. Places count from 0.
#[derive(Clone, Copy, Debug, PartialEq, Eq)]
pub enum Owner {
    /// The line at a place.
    Line(u32),
    /// The area at a place, and the place of its ring: 0 is the shell, and the holes follow.
    Ring(u32, u32),
}

/// An edge of a figure.
#[derive(Clone, Copy, Debug, PartialEq, Eq)]
pub struct Edge {
    /// The segment between two neighbouring positions that differ.
    pub seg: Seg,
    /// The line or the ring to which it belongs.
    pub owner: Owner,
    /// The side on which the inside of its area lies.
    pub hand: Hand,
}

/// The place of an edge in the list of a figure's edges, counted from 0.
#[derive(Clone, Copy, Debug, PartialEq, Eq)]
pub struct EdgeId {
    /// The place.
    pub place: u32,
}

/// Edges in order.
pub type EdgeRows = ItemList<Edge>;

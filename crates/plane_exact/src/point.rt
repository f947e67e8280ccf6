ghost use Rattle.std.specs.Prelude.{◌≡◌, IsTrue, ◌↔◌};
ghost use Rattle.plane_exact.specs.Places.{IsInLimit};

/// The greatest size of a coordinate.
pub const LIMIT: i64 = 1_048_575;

/// The greatest number of positions of one figure.
pub const MOST_POSITIONS: usize = 1_048_576;

/// A position with whole-number coordinates.
#[derive(Clone, Copy, Debug, PartialEq, Eq)]
pub struct Pt {
    /// The abscissa: how far to the right of the origin.
    pub x: i64,
    /// The height: how far above the origin.
    pub y: i64,
}

/// The segment from `a` to `b`.
#[derive(Clone, Copy, Debug, PartialEq, Eq)]
pub struct Seg {
    /// The start.
    pub a: Pt,
    /// The end.
    pub b: Pt,
}

/// Whether both coordinates have a size of at most `LIMIT`.
pub fn in_limit(p: Pt) -> bool
    ensures within { IsTrue result ↔ (IsInLimit p) }
{
    -LIMIT <= p.x && p.x <= LIMIT && -LIMIT <= p.y && p.y <= LIMIT
}

use im_matrix::Loc;

/// A part of the plane as the first figure cuts it, and one as the second does.
#[derive(Clone, Copy, Debug, PartialEq, Eq)]
pub struct Pair {
    /// The part as A cuts the plane.
    pub a: Loc,
    /// The part as B cuts the plane.
    pub b: Loc,
}

use plane_exact::{Node, Pt};

/// The common points of two segments.
#[derive(Clone, Copy, Debug, PartialEq, Eq)]
pub enum Meet {
    /// There is none.
    Apart,
    /// There is this one alone.
    At(Node),
    /// They are the segment from the first position to the second, which is before the other by x and then by y.
    Along(Pt, Pt),
}

use plane_exact::Window;

/// The envelopes of what a figure is made of, each `None` where there is nothing of the kind.
#[derive(Clone, Copy, Debug, PartialEq, Eq)]
pub struct Extent {
    /// The envelope of all rings.
    pub areas: Option<Window>,
    /// The envelope of the lines that have two different positions.
    pub lines: Option<Window>,
    /// The envelope of the points and of the other lines.
    pub points: Option<Window>,
    /// The envelope of the line ends that are boundary under a rule.
    pub ends: Option<Window>,
}

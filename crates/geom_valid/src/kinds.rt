use plane_exact::NoMemory;
use thiserror::Error;

/// A clause of validity.
#[derive(Clone, Copy, Debug, PartialEq, Eq)]
pub enum InvalidKind {
    /// A ring has fewer than three distinct positions.
    TooFewPoints,
    /// A point is on two edges of one ring and isn't their joint as neighbours.
    RingCross,
    /// Two rings of the area have a common segment.
    RingsShareEdge,
    /// A point inside a hole isn't inside the shell.
    HoleOutside,
    /// A point is inside two holes.
    HolesOverlap,
    /// The rings touch in a cycle, so that the inside is cut.
    Disconnected,
    /// The area and an earlier one of its group have a common segment of their edges.
    ElementsShareEdge,
    /// The area and an earlier one of its group have a common interior point.
    ElementsOverlap,
}

/// Why a figure isn't admitted.
#[derive(Clone, Copy, Debug, PartialEq, Eq, Error)]
pub enum AdmitFault {
    /// Its first fault: the clause, and the number of the area that fails it, counted from 1.
    #[error("the geometry is not valid")]
    Bad(InvalidKind, u32),
    /// Memory is wanting.
    #[error("out of memory")]
    NoMemory,
}

impl From<NoMemory> for AdmitFault {
    ghost use Rattle.std.specs.Prelude.{◌≡◌};
    ghost use Rattle.geom_valid.specs.declared.kinds.AdmitFault.TheVariants as fault;

    ghost from_gives = { λ _ e. e ≡ fault.NoMemory };

    fn from(_value: NoMemory) -> Self {
        AdmitFault::NoMemory
    }
}

/// A fault of a figure: the clause, and the number of the area that fails it, counted from 1.
#[derive(Clone, Copy, Debug, PartialEq, Eq)]
pub(crate) struct Fault {
    pub(crate) kind: InvalidKind,
    pub(crate) element: u32,
}

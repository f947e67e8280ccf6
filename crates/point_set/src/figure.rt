ghost use Rattle.std.specs.Prelude.{◌≡◌, []};

use plane_exact::{ItemList, Path};
use std::alloc::Global;

/// Lines or rings in order.
pub type Paths = ItemList<Path>;

/// Areas in order.
pub type Areas = ItemList<Area>;

/// An area of the plane: what is inside its shell and inside none of its holes.
#[derive(Debug, Drop)]
pub struct Area {
    /// The outer ring: its first position equals its last.
    pub shell: Path,
    /// The inner rings.
    pub holes: Paths,
    /// Areas of one MULTIPOLYGON have one group; each POLYGON has a group of its own.
    pub group: u32,
}

/// Points, lines and areas, read as their union. Nested collections are flattened in the order of the text.
#[derive(Debug, Drop)]
pub struct Figure {
    /// The loose points.
    pub points: Path,
    /// The lines.
    pub lines: Paths,
    /// The areas.
    pub areas: Areas,
}

/// Figures in order.
pub type FigureList = ItemList<Figure>;

impl Figure {
    /// The figure without any point, line or area. Takes no memory.
    pub fn empty(alloc: Global) -> Figure
        ensures points { result.points ≡ [] }
        ensures lines { result.lines ≡ [] }
        ensures areas { result.areas ≡ [] }
    {
        Figure {
            points: Path::new(alloc),
            lines: Paths::new(alloc),
            areas: Areas::new(alloc),
        }
    }
}

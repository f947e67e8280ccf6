ghost use Rattle.std.specs.Prelude.{◌↔◌, All, IsTrue};
ghost use Rattle.fan_order.specs.Rays.{IsShort};

use im_matrix::Which;
use plane_exact::{Dir, ItemList, LIMIT};
use point_set::Hand;

/// An edge, seen from a node that it holds.
#[derive(Clone, Copy, Debug, PartialEq, Eq)]
pub struct Section {
    /// The direction away from the node.
    pub dir: Dir,
    /// The side of the direction on which the inside of the edge's area lies, or `Line` for an edge of a line.
    pub hand: Hand,
    /// The figure to which the edge belongs.
    pub which: Which,
    /// The place of the edge's area in its figure; None exactly for an edge of a line.
    pub area: Option<u32>,
}

/// An edge of a line of the first figure, along the positive x direction.
impl Default for Section {
    fn default() -> Section {
        Section {
            dir: Dir { dx: 1, dy: 0 },
            hand: Hand::Line,
            which: Which::A,
            area: None,
        }
    }
}

/// Sections in order.
pub type SectionList = ItemList<Section>;

/// Whether the directions of all sections are short enough for a fan: as those between two positions are.
pub fn are_short(sections: &SectionList) -> bool
    ensures short { IsTrue result ↔ (All (λ s. IsShort s.dir) sections.now) }
{
    sections
        .as_slice()
        .iter()
        .all(|section| is_short(section.dir))
}

fn is_short(d: Dir) -> bool
    ensures short { IsTrue result ↔ (IsShort d) }
{
    let spread = 2 * LIMIT.unsigned_abs();
    d.dx.unsigned_abs() <= spread && d.dy.unsigned_abs() <= spread
}

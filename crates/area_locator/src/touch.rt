ghost use Rattle.std.specs.Prelude.{◌≡◌, false, not, ◌&&◌, int_le};
ghost use Rattle.area_locator.specs.Touches.{touch_of, touch_by};
ghost use Rattle.plane_exact.specs.NodePoints.{point_at};
ghost use Rattle.plane_exact.specs.Places.{IsInLimit};
ghost use Rattle.point_set.specs.Rings.{is_same_position};
ghost use Rattle.y_index.specs.Levels.{IsLevel};

use crate::ways::is_same;
use plane_exact::{Node, Pt, Seg, Sign, on_segment, side_of};
use y_index::Level;

/// What an edge does to a node and to the ray to the right of it.
#[derive(Clone, Copy)]
pub(crate) enum Touch {
    /// The node is on the edge.
    Holds,
    /// The node isn't on the edge, and its ray crosses the edge.
    Crosses,
    /// Neither.
    Misses,
}

/// What the edge between two neighbouring positions does to a node of the given level. Equal positions are no edge. The
/// turn is looked at only where the edge reaches the node's height.
pub(crate) fn touch_between(a: Pt, b: Pt, n: &Node, level: Level) -> Touch
    requires a { IsInLimit a }
    requires b { IsInLimit b }
    requires level { IsLevel (point_at n.now) level.floor level.ceiling }
    ensures touch { result ≡ touch_of (is_same_position a b) (point_at n.now) a b }
{
    if a.y > level.floor && b.y > level.floor {
        return Touch::Misses;
    }
    if a.y < level.ceiling && b.y < level.ceiling {
        return Touch::Misses;
    }
    if is_same(a, b) {
        return Touch::Misses;
    }
    touch_of_edge(a, b, n, level)
}

/// What an edge does to a node whose height it reaches.
pub(crate) fn touch_of_edge(a: Pt, b: Pt, n: &Node, level: Level) -> Touch
    requires a { IsInLimit a }
    requires b { IsInLimit b }
    requires level { IsLevel (point_at n.now) level.floor level.ceiling }
    ensures touch { result ≡ touch_of false (point_at n.now) a b }
{
    match side_of(a, b, n) {
        Sign::Zero if on_segment(Seg { a, b }, n) => Touch::Holds,
        Sign::Zero => Touch::Misses,
        Sign::Plus => crossing(rises(a, b, level)),
        Sign::Minus => crossing(rises(b, a, level)),
    }
}

/// Whether only the first of two positions is at most as high as the node.
fn rises(a: Pt, b: Pt, level: Level) -> bool
    ensures rises { result ≡ (int_le a.y level.floor && not (int_le b.y level.floor)) }
{
    a.y <= level.floor && b.y > level.floor
}

/// What an edge does to a node that isn't on it.
fn crossing(crosses: bool) -> Touch
    ensures touch { result ≡ touch_by false crosses }
{
    if crosses {
        Touch::Crosses
    } else {
        Touch::Misses
    }
}

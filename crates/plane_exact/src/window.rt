ghost use Rattle.std.specs.Prelude.{◌≡◌, ◌↔◌, IfOk, IsTrue, map};
ghost use Rattle.std.specs.Int.{int_max, int_min};
ghost use Rattle.plane_exact.specs.Windows.{diagonal_of};

use crate::items::NoMemory;
use crate::lists::SegList;
use crate::node::Node;
use crate::point::{Pt, Seg};
use crate::rounding::whole_range;
use std::alloc::Global;

/// A closed box. It is empty where a low side is beyond its high one.
#[derive(Clone, Copy, Debug, PartialEq, Eq)]
pub struct Window {
    /// The least abscissa.
    pub low_x: i64,
    /// The least height.
    pub low_y: i64,
    /// The greatest abscissa.
    pub high_x: i64,
    /// The greatest height.
    pub high_y: i64,
}

impl Window {
    ghost use Rattle.plane_exact.specs.Places.{point_of};
    ghost use Rattle.plane_exact.specs.NodePoints.{point_at};
    ghost use Rattle.plane_laws.specs.Plane.{IsOnSegment, IsSamePoint};
    ghost use Rattle.plane_exact.specs.Windows.{HasCommonPoint, IsLeastWindow, join_boxes};

    /// The least whole box that holds a segment.
    pub fn of(s: Seg) -> Window
        ensures low_x { result.low_x ≡ int_min s.a.x s.b.x }
        ensures low_y { result.low_y ≡ int_min s.a.y s.b.y }
        ensures high_x { result.high_x ≡ int_max s.a.x s.b.x }
        ensures high_y { result.high_y ≡ int_max s.a.y s.b.y }
        ensures least { IsLeastWindow (IsOnSegment (point_of s.a) (point_of s.b)) result }
    {
        Window {
            low_x: s.a.x.min(s.b.x),
            low_y: s.a.y.min(s.b.y),
            high_x: s.a.x.max(s.b.x),
            high_y: s.a.y.max(s.b.y),
        }
    }

    /// The least whole box that holds a node.
    pub fn round(n: &Node) -> Window
        ensures least { IsLeastWindow (IsSamePoint (point_at n.now)) result }
    {
        let (low_x, high_x) = whole_range(n.x, n.w);
        let (low_y, high_y) = whole_range(n.y, n.w);
        Window {
            low_x,
            low_y,
            high_x,
            high_y,
        }
    }

    /// Whether the closed boxes have a common point.
    pub fn meets(&self, other: &Window) -> bool
        ensures common { IsTrue result ↔ (HasCommonPoint self.now other.now) }
    {
        self.low_x.max(other.low_x) <= self.high_x.min(other.high_x)
            && self.low_y.max(other.low_y) <= self.high_y.min(other.high_y)
    }

    /// The least box that holds both boxes.
    pub fn join(&self, other: &Window) -> Window
        ensures join { result ≡ join_boxes self.now other.now }
    {
        Window {
            low_x: self.low_x.min(other.low_x),
            low_y: self.low_y.min(other.low_y),
            high_x: self.high_x.max(other.high_x),
            high_y: self.high_y.max(other.high_y),
        }
    }

    /// The segment from the corner of the low sides to that of the high sides. Where the box isn't empty, it is the segment's window.
    pub fn diagonal(&self) -> Seg
        ensures diagonal { result ≡ diagonal_of self.now }
    {
        Seg {
            a: Pt {
                x: self.low_x,
                y: self.low_y,
            },
            b: Pt {
                x: self.high_x,
                y: self.high_y,
            },
        }
    }
}

/// The diagonals of boxes, in order: an index of them is one of the boxes.
///
/// # Errors
/// `NoMemory`.
pub fn diagonals_of(alloc: Global, boxes: &[Window]) -> Result<SegList, NoMemory>
    ensures diagonals { IfOk result (λ segs. segs ≡ map diagonal_of boxes.now) }
{
    let mut segs = SegList::new(alloc);
    for around in boxes {
        segs.push(around.diagonal())?;
    }
    Ok(segs)
}

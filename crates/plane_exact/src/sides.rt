ghost use Rattle.std.specs.Prelude.{◌≡◌, ◌≤◌, ◌-ℤ◌, ◌*ℤ◌, ◌≤ℤ◌, unsigned_abs, IsTrue, ◌↔◌};
ghost use Rattle.plane_exact.specs.Limits.{limit, longest};
ghost use Rattle.plane_exact.specs.NodePoints.{point_at};
ghost use Rattle.plane_exact.specs.Nodes.{IsFraction};
ghost use Rattle.plane_exact.specs.Places.{IsInLimit, point_of};
ghost use Rattle.plane_laws.specs.Plane.{IsOnSegment, turn};
ghost use Rattle.plane_exact.specs.Signs.{sign_of};
ghost use Rattle.plane_exact.specs.Windows.{IsInWindow, low_corner, high_corner};

use crate::node::Node;
use crate::point::{Pt, Seg};
use crate::sign::{Sign, wide_sign};
use crate::turns::orient;
use crate::window::Window;

/// The side of the line from `a` to `b` on which `n` is: `Plus` on the left, and `Zero` on the line.
pub fn side_of(a: Pt, b: Pt, n: &Node) -> Sign
    requires a { IsInLimit a }
    requires b { IsInLimit b }
    ensures side { result ≡ sign_of (turn (point_of a) (point_of b) (point_at n.now)) }
{
    match n.position() {
        Some(c) => orient(a, b, c),
        None => wide_side(a, b, n),
    }
}

/// The side of a node with fractions, in 128 bits.
fn wide_side(a: Pt, b: Pt, n: &Node) -> Sign
    requires a { IsInLimit a }
    requires b { IsInLimit b }
    ensures side { result ≡ sign_of (turn (point_of a) (point_of b) (point_at n.now)) }
{
    let right = beyond(n.x, n.w, a.x);
    let up = beyond(n.y, n.w, a.y);
    wide_sign(i128::from(b.x - a.x) * up - i128::from(b.y - a.y) * right)
}

/// How far the fraction `x/w` is beyond a coordinate, times `w`.
fn beyond(x: i128, w: i128, coordinate: i64) -> i128
    requires fraction { IsFraction x w }
    requires limit { unsigned_abs coordinate ≤ limit }
    ensures distance { result ≡ x -ℤ (coordinate *ℤ w) }
    ensures size { unsigned_abs result ≤ longest }
{
    x - i128::from(coordinate) * w
}

/// Whether the fraction `x/w` is between two coordinates, themselves included.
fn is_between(x: i128, w: i128, low: i64, high: i64) -> bool
    requires fraction { IsFraction x w }
    requires low { unsigned_abs low ≤ limit }
    requires high { unsigned_abs high ≤ limit }
    ensures between { IsTrue result ↔ (((low *ℤ w) ≤ℤ x) × (x ≤ℤ (high *ℤ w))) }
{
    beyond(x, w, low) >= 0 && beyond(x, w, high) <= 0
}

/// Whether the closed box holds the node.
fn holds(window: &Window, n: &Node) -> bool
    requires low { IsInLimit (low_corner window.now) }
    requires high { IsInLimit (high_corner window.now) }
    ensures within { IsTrue result ↔ (IsInWindow window.now (point_at n.now)) }
{
    is_between(n.x, n.w, window.low_x, window.high_x)
        && is_between(n.y, n.w, window.low_y, window.high_y)
}

/// Whether the node is on the segment, ends included.
pub fn on_segment(s: Seg, n: &Node) -> bool
    requires a { IsInLimit s.a }
    requires b { IsInLimit s.b }
    ensures on { IsTrue result ↔ (IsOnSegment (point_of s.a) (point_of s.b) (point_at n.now)) }
{
    holds(&Window::of(s), n) && side_of(s.a, s.b, n) == Sign::Zero
}

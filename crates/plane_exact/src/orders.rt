ghost use Rattle.std.specs.Prelude.{◌≡◌, ◌≤◌, ◌↔◌, pos, unsigned_abs, IsTrue};
ghost use Rattle.plane_exact.specs.Limits.{limit};
ghost use Rattle.plane_exact.specs.NodePoints.{point_at};
ghost use Rattle.plane_exact.specs.Nodes.{IsFraction};
ghost use Rattle.plane_laws.specs.Orders.{compare_fractions, compare_points, compare_along, IsBefore};
ghost use Rattle.plane_exact.specs.Orders.{compare_angles, IsSameDirection};
ghost use Rattle.plane_laws.specs.Directions.{past_half};
ghost use Rattle.plane_exact.specs.Places.{IsInLimit, point_of};
ghost use Rattle.plane_laws.specs.Plane.{IsOnSegment};

use crate::dir::Dir;
use crate::node::Node;
use crate::point::{Pt, Seg};
use crate::turns::cross;
use std::cmp::Ordering;

/// The order of the fractions `x/w` and `u/v`.
fn cmp_fractions(x: i128, w: i128, u: i128, v: i128) -> Ordering
    requires first { IsFraction x w }
    requires second { IsFraction u v }
    ensures order { result ≡ compare_fractions x w u v }
{
    if w == v {
        x.cmp(&u)
    } else {
        (x * v).cmp(&(u * w))
    }
}

/// The order of nodes by x, and at the same x by y.
pub fn cmp_nodes(m: &Node, n: &Node) -> Ordering
    ensures order { result ≡ compare_points (point_at m.now) (point_at n.now) }
{
    match cmp_fractions(m.x, m.w, n.x, n.w) {
        Ordering::Equal => cmp_fractions(m.y, m.w, n.y, n.w),
        apart => apart,
    }
}

/// The order of the node's y and the number `y`.
pub fn cmp_height(n: &Node, y: i64) -> Ordering
    requires limited { unsigned_abs y ≤ limit }
    ensures order { result ≡ compare_fractions (point_at n.now).y (point_at n.now).w y (pos 1) }
{
    cmp_fractions(n.y, n.w, i128::from(y), 1)
}

/// Whether `a` is before `b`, by x and at the same x by y.
pub fn is_before(a: Pt, b: Pt) -> bool
    ensures before { IsTrue result ↔ (IsBefore (point_of a) (point_of b)) }
{
    a.x < b.x || a.x == b.x && a.y < b.y
}

/// The order of two nodes of the segment `s` along it, from its end `a`.
pub fn cmp_along(s: Seg, m: &Node, n: &Node) -> Ordering
    requires a { IsInLimit s.a }
    requires b { IsInLimit s.b }
    requires first { IsOnSegment (point_of s.a) (point_of s.b) (point_at m.now) }
    requires second { IsOnSegment (point_of s.a) (point_of s.b) (point_at n.now) }
    ensures order { result ≡ compare_along (point_of s.a) (point_of s.b) (point_at m.now) (point_at n.now) }
{
    if is_before(s.a, s.b) {
        cmp_nodes(m, n)
    } else {
        cmp_nodes(n, m)
    }
}

/// Whether the angle is at least half a turn.
fn is_past_half(d: Dir) -> bool
    ensures half { result ≡ past_half d.dx d.dy }
{
    d.dy < 0 || d.dy == 0 && d.dx < 0
}

/// The order of angles from 0 up to but without a full turn, counter-clockwise from the positive x direction.
pub fn cmp_turn(d: Dir, e: Dir) -> Ordering
    ensures order { result ≡ compare_angles d e }
    ensures same { (result ≡ Ordering.Equal) ↔ (IsSameDirection d e) }
{
    match is_past_half(d).cmp(&is_past_half(e)) {
        Ordering::Equal => 0.cmp(&cross(d.dx, d.dy, e.dx, e.dy)),
        apart => apart,
    }
}

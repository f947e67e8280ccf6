ghost use Rattle.std.specs.Prelude.{◌≡◌};
ghost use Rattle.plane_exact.specs.Places.{IsInLimit, point_of};
ghost use Rattle.plane_laws.specs.Plane.{turn};
ghost use Rattle.point_set.specs.Rings.{is_low, crosses, edges_after, is_odd};
ghost use Rattle.point_set.specs.Shape.{IsWayInLimit};
ghost use Rattle.ring_sides.specs.Middles.{middle_of, is_ray_left as is_left};

use plane_exact::{Pt, Seg, turn_of};

/// Whether a short ray from the middle of an edge, to the right or up where the edge is level, goes to the edge's left.
pub(crate) fn is_ray_left(edge: Seg) -> bool
    ensures left { result ≡ is_left edge }
{
    edge.b.y < edge.a.y || edge.b.y == edge.a.y && edge.a.x < edge.b.x
}

/// Whether a position is at most as high as the middle of an edge.
fn is_low_beside(edge: Seg, p: Pt) -> bool
    requires start { IsInLimit edge.a }
    requires end { IsInLimit edge.b }
    requires p { IsInLimit p }
    ensures low { result ≡ is_low (middle_of edge) (point_of p) }
{
    2 * p.y <= edge.a.y + edge.b.y
}

/// The turn from `a` to `b` and on to the middle of an edge.
fn turn_to_middle(edge: Seg, a: Pt, b: Pt) -> i64
    requires start { IsInLimit edge.a }
    requires end { IsInLimit edge.b }
    requires a { IsInLimit a }
    requires b { IsInLimit b }
    ensures turn { result ≡ turn (point_of a) (point_of b) (middle_of edge) }
{
    turn_of(a, b, edge.a) + turn_of(a, b, edge.b)
}

/// Whether the ray to the right of the middle of an edge crosses the edge from `a` to `b`. The turn is looked at only where
/// that edge reaches the middle's height.
fn crosses_at_middle(edge: Seg, a: Pt, b: Pt) -> bool
    requires start { IsInLimit edge.a }
    requires end { IsInLimit edge.b }
    requires a { IsInLimit a }
    requires b { IsInLimit b }
    ensures crosses { result ≡ crosses (middle_of edge) (record { a = a; b = b }) }
{
    match (is_low_beside(edge, a), is_low_beside(edge, b)) {
        (true, false) => 0 < turn_to_middle(edge, a, b),
        (false, true) => turn_to_middle(edge, a, b) < 0,
        _ => false,
    }
}

/// Whether the ray to the right of the middle of an edge crosses an odd number of the edges of the way that goes on from
/// `first`.
pub(crate) fn is_odd_at_middle(edge: Seg, first: Pt, others: &[Pt]) -> bool
    requires start { IsInLimit edge.a }
    requires end { IsInLimit edge.b }
    requires first { IsInLimit first }
    requires others { IsWayInLimit others.now }
    ensures odd { result ≡ is_odd (middle_of edge) (edges_after first others.now) }
{
    let mut last = first;
    let mut odd = false;
    for p in others {
        if crosses_at_middle(edge, last, *p) {
            odd = !odd;
        }
        last = *p;
    }
    odd
}

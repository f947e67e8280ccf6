ghost use Rattle.std.specs.Prelude.{◌≡◌, ◌≤◌, IsTrue, ◌↔◌, pos, ◌+ℤ◌, ◌*ℤ◌, ◌≤ℤ◌, ◌<ℤ◌, unsigned_abs};
ghost use Rattle.plane_exact.specs.Limits.{limit, widest};
ghost use Rattle.plane_exact.specs.NodePoints.{point_at};
ghost use Rattle.plane_laws.specs.Plane.{IsAt};
ghost use Rattle.plane_exact.specs.Places.{IsInLimit};
ghost use Rattle.seg_cross.specs.Sides.{IsOneSide};

use plane_exact::{Node, Seg};

/// Whether two numbers are both positive or both negative.
pub(crate) fn is_one_side(a: i64, b: i64) -> bool
    ensures side { IsTrue result ↔ (IsOneSide a b) }
{
    a > 0 && b > 0 || a < 0 && b < 0
}

/// The mean of a segment's ends under two weights that aren't both 0.
pub(crate) fn crossing(s: Seg, first: i64, second: i64) -> Node
    requires a { IsInLimit s.a }
    requires b { IsInLimit s.b }
    requires first { pos 0 ≤ℤ first }
    requires second { pos 0 ≤ℤ second }
    requires first_size { unsigned_abs first ≤ widest }
    requires second_size { unsigned_abs second ≤ widest }
    requires some { pos 0 <ℤ (first +ℤ second) }
    ensures mean { IsAt (point_at result) ((first *ℤ s.a.x) +ℤ (second *ℤ s.b.x)) ((first *ℤ s.a.y) +ℤ (second *ℤ s.b.y))
        (first +ℤ second) }
{
    Node::reduce(
        mean(first, s.a.x, second, s.b.x),
        mean(first, s.a.y, second, s.b.y),
        i128::from(first) + i128::from(second),
    )
}

/// The sum of two coordinates times their weights.
fn mean(first: i64, a: i64, second: i64, b: i64) -> i128
    requires first { unsigned_abs first ≤ widest }
    requires second { unsigned_abs second ≤ widest }
    requires a { unsigned_abs a ≤ limit }
    requires b { unsigned_abs b ≤ limit }
    ensures sum { result ≡ (first *ℤ a) +ℤ (second *ℤ b) }
{
    i128::from(first) * i128::from(a) + i128::from(second) * i128::from(b)
}

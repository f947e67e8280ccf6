ghost use Rattle.std.specs.Prelude.{◌≡◌, ◌≤◌, ◌-ℤ◌, ◌*ℤ◌, unsigned_abs};
ghost use Rattle.plane_exact.specs.Limits.{farthest, widest};
ghost use Rattle.plane_exact.specs.Places.{IsInLimit, point_of};
ghost use Rattle.plane_laws.specs.Plane.{turn};
ghost use Rattle.plane_exact.specs.Signs.{sign_of};

use crate::point::Pt;
use crate::sign::{Sign, narrow_sign};

/// The cross product of two ways, `u` and `v`.
pub(crate) fn cross(ux: i64, uy: i64, vx: i64, vy: i64) -> i64
    requires ux { unsigned_abs ux ≤ farthest }
    requires uy { unsigned_abs uy ≤ farthest }
    requires vx { unsigned_abs vx ≤ farthest }
    requires vy { unsigned_abs vy ≤ farthest }
    ensures product { result ≡ (ux *ℤ vy) -ℤ (uy *ℤ vx) }
{
    ux * vy - uy * vx
}

/// The turn of three positions: twice the area of their triangle, positive where `c` is on the left of the way from `a`
/// to `b`.
pub fn turn_of(a: Pt, b: Pt, c: Pt) -> i64
    requires a { IsInLimit a }
    requires b { IsInLimit b }
    requires c { IsInLimit c }
    ensures turn { result ≡ turn (point_of a) (point_of b) (point_of c) }
    ensures size { unsigned_abs result ≤ widest }
{
    cross(b.x - a.x, b.y - a.y, c.x - a.x, c.y - a.y)
}

/// The side of the line from `a` to `b` on which `c` is: `Plus` on the left, and `Zero` on the line.
pub fn orient(a: Pt, b: Pt, c: Pt) -> Sign
    requires a { IsInLimit a }
    requires b { IsInLimit b }
    requires c { IsInLimit c }
    ensures side { result ≡ sign_of (turn (point_of a) (point_of b) (point_of c)) }
{
    narrow_sign(turn_of(a, b, c))
}

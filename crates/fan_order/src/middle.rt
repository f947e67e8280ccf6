ghost use Rattle.std.specs.Prelude.{◌≡◌, ◌+ℤ◌, neg_ℤ, pos, ◌<ℤ◌, IsTrue, ◌↔◌};
ghost use Rattle.fan_order.specs.Rays.{IsShort};
ghost use Rattle.plane_exact.specs.Orders.{direction_of};
ghost use Rattle.plane_laws.specs.Directions.{bend_of, IsMiddleBetween, IsStrictlyWithin};

use plane_exact::Dir;

/// The middle of the sector that lies counter-clockwise after one ray and before the next.
pub(crate) fn middle_between(ray: Dir, next: Dir) -> Dir
    requires ray { IsShort ray }
    requires next { IsShort next }
    ensures middle { IsMiddleBetween (direction_of ray) (direction_of next) (direction_of result) }
    ensures within { IsStrictlyWithin (direction_of ray) (direction_of next) (direction_of result) }
{
    if is_left_of(ray, next) {
        return sum_of(ray, next);
    }
    quarter_left(ray)
}

/// Whether the next ray is to the left of a ray, less than half a turn away.
fn is_left_of(ray: Dir, next: Dir) -> bool
    requires ray { IsShort ray }
    requires next { IsShort next }
    ensures left { IsTrue result ↔ (pos 0 <ℤ bend_of (direction_of ray) (direction_of next)) }
{
    ray.dx * next.dy - ray.dy * next.dx > 0
}

/// The sum of two rays, of which the second is to the left of the first.
fn sum_of(ray: Dir, next: Dir) -> Dir
    requires ray { IsShort ray }
    requires next { IsShort next }
    requires left { pos 0 <ℤ bend_of (direction_of ray) (direction_of next) }
    ensures across { result.dx ≡ ray.dx +ℤ next.dx }
    ensures above { result.dy ≡ ray.dy +ℤ next.dy }
{
    Dir {
        dx: ray.dx + next.dx,
        dy: ray.dy + next.dy,
    }
}

/// The ray turned left by a quarter.
fn quarter_left(ray: Dir) -> Dir
    requires ray { IsShort ray }
    ensures across { result.dx ≡ neg_ℤ ray.dy }
    ensures above { result.dy ≡ ray.dx }
{
    Dir {
        dx: -ray.dy,
        dy: ray.dx,
    }
}

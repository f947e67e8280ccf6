ghost use Rattle.std.specs.Prelude.{◌≤◌, unsigned_abs};
ghost use Rattle.fan_order.specs.Rays.{IsRayOf};

use plane_exact::{Dir, greatest_divisor};

/// The direction in lowest terms.
pub(crate) fn lowest(dir: Dir) -> Dir
    ensures ray { IsRayOf dir result }
    ensures across { unsigned_abs result.dx ≤ unsigned_abs dir.dx }
    ensures above { unsigned_abs result.dy ≤ unsigned_abs dir.dy }
{
    let divisor = greatest_divisor(dir.dx.unsigned_abs(), dir.dy.unsigned_abs()) as i64;
    Dir {
        dx: dir.dx / divisor,
        dy: dir.dy / divisor,
    }
}

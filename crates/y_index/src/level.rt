ghost use Rattle.y_index.specs.Levels.{IsLevel};
ghost use Rattle.plane_exact.specs.NodePoints.{point_at};

use plane_exact::Node;

/// The whole heights next to a node: the greatest that isn't above it, and the least that isn't below it.
#[derive(Clone, Copy)]
pub struct Level {
    pub floor: i64,
    pub ceiling: i64,
}

/// The level of a node.
pub fn level_of(n: &Node) -> Level
    ensures level { IsLevel (point_at n.now) result.floor result.ceiling }
{
    match n.position() {
        Some(p) => Level {
            floor: p.y,
            ceiling: p.y,
        },
        None => level_between(n),
    }
}

/// The level of a node with fractions.
fn level_between(n: &Node) -> Level
    ensures level { IsLevel (point_at n.now) result.floor result.ceiling }
{
    let (_, y, w) = n.parts();
    let floor = y.div_euclid(w);
    let ceiling = if floor * w == y { floor } else { floor + 1 };
    Level {
        floor: floor as i64,
        ceiling: ceiling as i64,
    }
}

ghost use Rattle.plane_exact.specs.Places.{IsInLimit};

use plane_exact::{LIMIT, Node, Pt, Window};

/// Numbers that look random, the same in each run.
#[derive(Drop)]
pub(crate) struct Random(u64);

impl Random {
    pub(crate) fn new() -> Random {
        Random(88172645463325252)
    }

    /// A number of 21 binary digits less 2^20, and so a coordinate, or the one just below the least.
    fn next(&mut self) -> i64 {
        self.0 = self
            .0
            .wrapping_mul(6364136223846793005)
            .wrapping_add(1442695040888963407);
        ((self.0 >> 43) as i64).wrapping_sub(1_048_576)
    }

    /// A node at a position anywhere.
    pub(crate) fn node(&mut self) -> Node {
        Node::at_point(self.position())
    }

    /// A position anywhere.
    pub(crate) fn position(&mut self) -> Pt
        ensures limit { IsInLimit result }
    {
        Pt {
            x: self.next().clamp(-LIMIT, LIMIT),
            y: self.next().clamp(-LIMIT, LIMIT),
        }
    }

    /// A position at most 2048 in each direction from another.
    pub(crate) fn position_near(&mut self, p: Pt) -> Pt {
        Pt {
            x: p.x.wrapping_add(self.next() / 512).clamp(-LIMIT, LIMIT),
            y: p.y.wrapping_add(self.next() / 512).clamp(-LIMIT, LIMIT),
        }
    }

    /// A window that about ten of 100,000 short segments meet.
    pub(crate) fn window(&mut self) -> Window {
        let p = self.position();
        Window {
            low_x: p.x.wrapping_sub(10_000),
            low_y: p.y.wrapping_sub(10_000),
            high_x: p.x.wrapping_add(10_000),
            high_y: p.y.wrapping_add(10_000),
        }
    }
}

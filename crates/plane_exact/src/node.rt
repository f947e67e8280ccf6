ghost use Rattle.plane_exact.specs.Nodes.{IsFraction, IsReduced};

use crate::divisors::common_divisor;
use crate::point::Pt;

/// A point with fractions as coordinates, `x/w` and `y/w`. The three numbers are reduced, so equal points are equal values.
#[derive(Clone, Copy, Debug, PartialEq, Eq)]
pub struct Node {
    pub(crate) x: i128,
    pub(crate) y: i128,
    pub(crate) w: i128,
    pub ghost across: { IsFraction x w },
    pub ghost above: { IsFraction y w },
    pub ghost reduced: { IsReduced x y w },
}

impl Node {
    ghost use Rattle.std.specs.Prelude.{◌≡◌, IfSome, IfNone};
    ghost use Rattle.plane_exact.specs.Nodes.{IsFraction};
    ghost use Rattle.plane_laws.specs.Plane.{IsAt};
    ghost use Rattle.plane_exact.specs.NodePoints.{point_at};
    ghost use Rattle.plane_exact.specs.Places.{IsInLimit, point_of};

    /// The node at a position.
    pub fn at_point(p: Pt) -> Node
        requires limited { IsInLimit p }
        ensures point { point_at result ≡ point_of p }
    {
        Node {
            x: i128::from(p.x),
            y: i128::from(p.y),
            w: 1,
        }
    }

    /// The node of `(x/w, y/w)`.
    pub fn reduce(x: i128, y: i128, w: i128) -> Node
        requires across { IsFraction x w }
        requires above { IsFraction y w }
        ensures same { IsAt (point_at result) x y w }
    {
        if w == 1 {
            return Node { x, y, w };
        }
        let divisor = common_divisor(x, y, w);
        Node {
            x: x / divisor,
            y: y / divisor,
            w: w / divisor,
        }
    }

    /// The three numbers x, y and w.
    pub fn parts(&self) -> (i128, i128, i128)
        ensures x { result.0 ≡ (point_at self.now).x }
        ensures y { result.1 ≡ (point_at self.now).y }
        ensures w { result.2 ≡ (point_at self.now).w }
    {
        (self.x, self.y, self.w)
    }

    /// The position that the node is, where its coordinates are whole.
    pub fn position(&self) -> Option<Pt>
        ensures limit { IfSome result (λ p. IsInLimit p) }
        ensures point { IfSome result (λ p. point_at self.now ≡ point_of p) }
        ensures none { IfNone result ((p : _) → ¬ (point_at self.now ≡ point_of p)) }
    {
        if self.w == 1 {
            Some(Pt {
                x: self.x as i64,
                y: self.y as i64,
            })
        } else {
            None
        }
    }
}

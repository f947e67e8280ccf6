//! The law of nodes: a function that does nothing, and its contract is the law.

ghost use Rattle.std.specs.Prelude.{◌≡◌, ◌↔◌};
ghost use Rattle.plane_exact.specs.NodePoints.{point_at};
ghost use Rattle.plane_laws.specs.Plane.{IsSamePoint};

use crate::node::Node;

/// Two nodes are one value exactly where they are the same point.
pub fn law_node_is_one_value(m: Node, n: Node)
    ensures one { (m ≡ n) ↔ IsSamePoint (point_at m) (point_at n) }
{}

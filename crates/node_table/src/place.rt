ghost use Rattle.std.specs.Cmp.{partial_equiv_from_equiv, eq_by_cmp_equiv, partial_order_from_agreeing_total};
ghost use Rattle.std.specs.Ordering.{eq_by_cmp, as_partial_cmp};
ghost use Rattle.std.specs.Prelude.{refl};
ghost use Rattle.node_table.specs.Orders.{compare_nodes};
ghost use Rattle.std.proofs.lemmas.Cmp.{on_total};
ghost use Rattle.plane_exact.specs.NodePoints.{point_at};
ghost use Rattle.plane_laws.proofs.Points.Order.{compare_points_total};

use plane_exact::{Node, cmp_nodes};
use std::cmp::Ordering;
use std::marker::Model;

/// A node that is compared by x, and then by y.
#[derive(Clone, Copy, Debug)]
pub(crate) struct Place {
    pub(crate) node: Node,
}

impl Model for Place {
    ghost use Rattle.plane_exact.specs.declared.node.Node.{Node};

    ghost Value = { Node };

    ghost view = { λ p. p.node };

    ghost inverse = { λ n. record { node = n } };
}

impl PartialEq for Place {
    ghost eq = { eq_by_cmp compare_nodes };

    ghost laws = { partial_equiv_from_equiv (eq_by_cmp_equiv (on_total point_at compare_points_total)) };

    fn eq(&self, other: &Place) -> bool {
        self.cmp(other) == Ordering::Equal
    }
}

impl Eq for Place {
    ghost laws = { eq_by_cmp_equiv (on_total point_at compare_points_total) };
}

impl PartialOrd for Place {
    ghost partial_cmp = { as_partial_cmp compare_nodes };

    ghost laws = { partial_order_from_agreeing_total compare_nodes (on_total point_at compare_points_total) (λ x y. refl) (λ x y. refl) };

    fn partial_cmp(&self, other: &Place) -> Option<Ordering> {
        Some(self.cmp(other))
    }
}

impl Ord for Place {
    ghost cmp = { compare_nodes };

    ghost total = { on_total point_at compare_points_total };

    ghost matches_partial_cmp = { λ x y. refl };

    ghost matches_eq = { λ x y. refl };

    fn cmp(&self, other: &Place) -> Ordering {
        cmp_nodes(&self.node, &other.node)
    }
}

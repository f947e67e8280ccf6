ghost use Rattle.std.specs.Cmp.{partial_equiv_from_equiv, eq_by_cmp_equiv, partial_order_from_agreeing_total};
ghost use Rattle.std.specs.Ordering.{eq_by_cmp, as_partial_cmp};
ghost use Rattle.std.specs.Prelude.{refl};
ghost use Rattle.std.proofs.lemmas.Cmp.{on_total};
ghost use Rattle.plane_exact.specs.Places.{point_of};
ghost use Rattle.plane_laws.proofs.Points.Order.{compare_points_total};
ghost use Rattle.bound_rule.specs.Positions.{compare_positions};

use plane_exact::Pt;
use std::cmp::Ordering;
use std::marker::Model;

/// A position that is compared by x, and then by y.
#[derive(Clone, Copy, Debug)]
pub(crate) struct Position {
    pub(crate) point: Pt,
}

impl Model for Position {
    ghost use Rattle.plane_exact.specs.declared.point.Pt.{Pt};

    ghost Value = { Pt };

    ghost view = { λ p. p.point };

    ghost inverse = { λ p. record { point = p } };
}

impl PartialEq for Position {
    ghost eq = { eq_by_cmp compare_positions };

    ghost laws = { partial_equiv_from_equiv (eq_by_cmp_equiv (on_total point_of compare_points_total)) };

    fn eq(&self, other: &Position) -> bool {
        self.cmp(other) == Ordering::Equal
    }
}

impl Eq for Position {
    ghost laws = { eq_by_cmp_equiv (on_total point_of compare_points_total) };
}

impl PartialOrd for Position {
    ghost partial_cmp = { as_partial_cmp compare_positions };

    ghost laws = { partial_order_from_agreeing_total _ (on_total point_of compare_points_total) (λ x y. refl) (λ x y. refl) };

    fn partial_cmp(&self, other: &Position) -> Option<Ordering> {
        Some(self.cmp(other))
    }
}

impl Ord for Position {
    ghost cmp = { compare_positions };

    ghost total = { on_total point_of compare_points_total };

    ghost matches_partial_cmp = { λ x y. refl };

    ghost matches_eq = { λ x y. refl };

    fn cmp(&self, other: &Position) -> Ordering {
        match self.point.x.cmp(&other.point.x) {
            Ordering::Equal => self.point.y.cmp(&other.point.y),
            apart => apart,
        }
    }
}

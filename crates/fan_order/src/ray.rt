ghost use Rattle.std.specs.Cmp.{partial_equiv_from_equiv, eq_by_cmp_equiv, partial_order_from_agreeing_total};
ghost use Rattle.std.specs.Ordering.{eq_by_cmp, as_partial_cmp};
ghost use Rattle.std.specs.Prelude.{◌≡◌, ◌<◌, refl, length, AllPairs, Any};
ghost use Rattle.std.specs.declared.cmp.Ordering.TheVariants.{Less};
ghost use Rattle.plane_exact.specs.Orders.{compare_angles, IsSameDirection};
ghost use Rattle.fan_order.specs.Rays.{IsRayPlace};
ghost use Rattle.plane_exact.proofs.Laws.{compare_angles_total};

use plane_exact::{Dir, cmp_turn};
use std::cmp::Ordering;
use std::marker::Model;

/// A direction that is compared by its angle.
#[derive(Clone, Copy, Debug)]
pub(crate) struct Ray {
    pub(crate) dir: Dir,
}

impl Model for Ray {
    ghost use Rattle.plane_exact.specs.declared.dir.Dir.{Dir};

    ghost Value = { Dir };

    ghost view = { λ r. r.dir };

    ghost inverse = { λ d. record { dir = d } };
}

impl Default for Ray {
    fn default() -> Ray {
        Ray {
            dir: Dir { dx: 1, dy: 0 },
        }
    }
}

impl PartialEq for Ray {
    ghost eq = { eq_by_cmp compare_angles };

    ghost laws = { partial_equiv_from_equiv (eq_by_cmp_equiv compare_angles_total) };

    fn eq(&self, other: &Ray) -> bool {
        cmp_turn(self.dir, other.dir) == Ordering::Equal
    }
}

impl Eq for Ray {
    ghost laws = { eq_by_cmp_equiv compare_angles_total };
}

impl PartialOrd for Ray {
    ghost partial_cmp = { as_partial_cmp compare_angles };

    ghost laws = { partial_order_from_agreeing_total compare_angles compare_angles_total (λ x y. refl) (λ x y. refl) };

    fn partial_cmp(&self, other: &Ray) -> Option<Ordering> {
        Some(self.cmp(other))
    }
}

impl Ord for Ray {
    ghost cmp = { compare_angles };

    ghost total = { compare_angles_total };

    ghost matches_partial_cmp = { λ x y. refl };

    ghost matches_eq = { λ x y. refl };

    fn cmp(&self, other: &Ray) -> Ordering {
        cmp_turn(self.dir, other.dir)
    }
}

/// The place of the ray of a direction.
pub(crate) fn place_of(rays: &[Ray], dir: Dir) -> usize
    requires ascending { AllPairs (λ d e. compare_angles d e ≡ Less) rays.now }
    requires there { Any (IsSameDirection dir) rays.now }
    ensures place { IsRayPlace rays.now dir result }
    ensures within { result < length rays.now }
{
    match rays.binary_search(&Ray { dir }) {
        Ok(place) | Err(place) => place,
    }
}

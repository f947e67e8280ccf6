ghost use Rattle.std.specs.Prelude.{◌≡◌, ◌∷◌, ◌⊎◌, IfSome, reverse, slice_get};
ghost use Rattle.plane_exact.specs.Places.{IsInLimit};
ghost use Rattle.point_set.specs.Rings.{edges_after, is_same_position};
ghost use Rattle.point_set.specs.Shape.{IsClosed, IsRingShaped, IsWayInLimit};
ghost use Rattle.point_set.specs.Sides.{IsInsideHand};
ghost use Rattle.point_set.specs.Validity.{HasTooFewPoints, CrossesItself};

use crate::middle::{is_odd_at_middle, is_ray_left};
use plane_exact::{Path, Pt, Seg};
use point_set::Hand;

/// Turns a ring so that its inside lies on the right of every edge: it keeps its positions, or has them reversed. Takes no
/// memory.
pub fn orient_ring(ring: &mut Path)
    requires shaped { IsRingShaped ring.old }
    requires enough { ¬ HasTooFewPoints ring.old }
    requires simple { ¬ CrossesItself ring.old }
    ensures kept { (ring.new ≡ ring.old) ⊎ (ring.new ≡ reverse ring.old) }
    ensures right { IsInsideHand ring.new Hand.Right }
{
    match interior_side(ring) {
        Hand::Left => ring.reverse(),
        Hand::Line | Hand::Right => {}
    }
}

/// The hand of every edge of a ring on which its inside lies: Left or Right. Takes no memory, and two passes at most.
pub fn interior_side(ring: &Path) -> Hand
    requires shaped { IsRingShaped ring.now }
    requires enough { ¬ HasTooFewPoints ring.now }
    requires simple { ¬ CrossesItself ring.now }
    ensures side { IsInsideHand ring.now result }
{
    match ring.as_slice().split_first() {
        None => Hand::Left,
        Some((first, others)) => side_after(*first, others),
    }
}

/// The hand for the ring of a first position and others.
fn side_after(first: Pt, others: &[Pt]) -> Hand
    requires first { IsInLimit first }
    requires others { IsWayInLimit others.now }
    requires closed { IsClosed (first ∷ others.now) }
    requires simple { ¬ CrossesItself (first ∷ others.now) }
    ensures side { IsInsideHand (first ∷ others.now) result }
{
    match first_edge(first, others) {
        None => Hand::Left,
        Some(edge) => {
            let odd = is_odd_at_middle(edge, first, others);
            if is_ray_left(edge) == odd {
                Hand::Left
            } else {
                Hand::Right
            }
        }
    }
}

pub(crate) fn is_same(a: Pt, b: Pt) -> bool
    ensures same { result ≡ is_same_position a b }
{
    a.x == b.x && a.y == b.y
}

/// The first edge of the way that goes on from `first`.
fn first_edge(first: Pt, others: &[Pt]) -> Option<Seg>
    requires first { IsInLimit first }
    requires others { IsWayInLimit others.now }
    ensures first { result ≡ slice_get (edges_after first others.now) 0 }
    ensures start { IfSome result (λ e. IsInLimit e.a) }
    ensures end { IfSome result (λ e. IsInLimit e.b) }
{
    for p in others {
        if !is_same(first, *p) {
            return Some(Seg { a: first, b: *p });
        }
    }
    None
}

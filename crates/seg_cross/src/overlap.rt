ghost use Rattle.std.specs.Prelude.{◌≡◌, ◌≢◌, ◌⊎◌};
ghost use Rattle.plane_laws.specs.Orders.{IsBefore};
ghost use Rattle.plane_exact.specs.Places.{IsInLimit, point_of};
ghost use Rattle.seg_cross.specs.Meets.{IsMeet, HasEndsInLimit, AreOnOneLine};

use crate::answer::Meet;
use plane_exact::{Node, Pt, Seg, is_before};

/// The common points of two segments of one line.
pub(crate) fn overlap(s: Seg, t: Seg) -> Meet
    requires s_a { IsInLimit s.a }
    requires s_b { IsInLimit s.b }
    requires s_apart { s.a ≢ s.b }
    requires t_a { IsInLimit t.a }
    requires t_b { IsInLimit t.b }
    requires t_apart { t.a ≢ t.b }
    requires line { AreOnOneLine s t }
    ensures exact { IsMeet s t result }
    ensures limit { HasEndsInLimit result }
{
    let low = later(earlier(s.a, s.b), earlier(t.a, t.b));
    let high = earlier(later(s.a, s.b), later(t.a, t.b));
    if is_before(low, high) {
        Meet::Along(low, high)
    } else if is_before(high, low) {
        Meet::Apart
    } else {
        Meet::At(Node::at_point(low))
    }
}

/// The one of two positions that is before the other.
fn earlier(p: Pt, q: Pt) -> Pt
    ensures first { IsBefore (point_of p) (point_of q) → result ≡ p }
    ensures second { ¬ (IsBefore (point_of p) (point_of q)) → result ≡ q }
{
    if is_before(p, q) { p } else { q }
}

/// The one of two positions that is after the other.
fn later(p: Pt, q: Pt) -> Pt
    ensures first { IsBefore (point_of p) (point_of q) → result ≡ q }
    ensures second { ¬ (IsBefore (point_of p) (point_of q)) → result ≡ p }
{
    if is_before(p, q) { q } else { p }
}

ghost use Rattle.std.specs.Prelude.{◌≡◌, ◌≢◌};
ghost use Rattle.plane_exact.specs.Places.{IsInLimit};
ghost use Rattle.seg_cross.specs.Meets.{IsMeet, HasEndsInLimit, AreBothSides};

use crate::answer::Meet;
use crate::crossing::{crossing, is_one_side};
use crate::overlap::overlap;
use plane_exact::{Seg, Window, turn_of};

/// The common points of two segments, each with two different ends within the limit.
///
/// Windows that are apart decide without a product.
pub fn meet(s: Seg, t: Seg) -> Meet
    requires s_a { IsInLimit s.a }
    requires s_b { IsInLimit s.b }
    requires s_apart { s.a ≢ s.b }
    requires t_a { IsInLimit t.a }
    requires t_b { IsInLimit t.b }
    requires t_apart { t.a ≢ t.b }
    ensures exact { IsMeet s t result }
    ensures limit { HasEndsInLimit result }
{
    if !Window::of(s).meets(&Window::of(t)) {
        return Meet::Apart;
    }
    let from_a = turn_of(s.a, s.b, t.a);
    let from_b = turn_of(s.a, s.b, t.b);
    if is_one_side(from_a, from_b) {
        Meet::Apart
    } else if from_a == from_b {
        overlap(s, t)
    } else {
        across(s, t)
    }
}

/// The common point of two segments that aren't parallel, where there is one.
fn across(s: Seg, t: Seg) -> Meet
    requires s_a { IsInLimit s.a }
    requires s_b { IsInLimit s.b }
    requires t_a { IsInLimit t.a }
    requires t_b { IsInLimit t.b }
    requires both_sides { AreBothSides s t }
    ensures exact { IsMeet s t result }
    ensures limit { HasEndsInLimit result }
{
    let first = turn_of(t.a, t.b, s.a);
    let second = turn_of(t.a, t.b, s.b);
    if is_one_side(first, second) {
        Meet::Apart
    } else if first < second {
        Meet::At(crossing(s, second, -first))
    } else {
        Meet::At(crossing(s, -second, first))
    }
}

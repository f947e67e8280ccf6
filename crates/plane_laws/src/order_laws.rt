//! Laws of the orders: each is a function that does nothing, and its contract is the law.

ghost use Rattle.std.specs.Prelude.{◌≡◌, ◌↔◌};
ghost use Rattle.std.specs.Cmp.{IsTotalOrder};
ghost use Rattle.std.specs.declared.cmp.Ordering.TheVariants.{Equal, Greater};
ghost use Rattle.plane_laws.specs.Directions.{Direction, compare_ways, PointSameWay};
ghost use Rattle.plane_laws.specs.Orders.{compare_fractions, compare_points, compare_along};
ghost use Rattle.plane_laws.specs.Plane.{Point, IsSamePoint, IsOnSegment};

/// The order by x and then by y is a total order of points, and answers Equal exactly at the same point.
pub fn law_points_are_ordered()
    ensures total { IsTotalOrder compare_points }
    ensures same { (p q : Point) → (compare_points p q ≡ Equal) ↔ IsSamePoint p q }
{}

/// The order by height is a total order of points.
pub fn law_heights_are_ordered()
    ensures total { IsTotalOrder (λ (p q : Point). compare_fractions p.y p.w q.y q.w) }
{}

/// The order along a segment is a total order. It answers Equal exactly at the same point of the segment, and Greater
/// exactly where the first point isn't on the way from the segment's beginning to the second.
pub fn law_points_of_a_segment_are_ordered()
    ensures total { (a b : Point) → IsTotalOrder (compare_along a b) }
    ensures same { (a b p q : Point) → IsOnSegment a b p → IsOnSegment a b q → (compare_along a b p q ≡ Equal) ↔ IsSamePoint p q }
    ensures way { (a b p q : Point) → ¬ IsSamePoint a b → IsOnSegment a b p → IsOnSegment a b q
        → IsOnSegment a q p ↔ (¬ (compare_along a b p q ≡ Greater)) }
{}

/// The order of angles is a total order of directions, and answers Equal exactly where two point the same way.
pub fn law_directions_are_ordered()
    ensures total { IsTotalOrder compare_ways }
    ensures same { (d e : Direction) → (compare_ways d e ≡ Equal) ↔ PointSameWay d e }
{}

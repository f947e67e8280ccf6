//! Laws of the definitions on points: each is a function that does nothing, and its contract is the law.

ghost use Rattle.std.specs.Prelude.{◌≡◌, ℤ, ◌*ℤ◌, true, ◌↔◌};
ghost use Rattle.std.specs.Int.{int_signum};
ghost use Rattle.plane_laws.specs.Plane.{Point, IsSamePoint, IsMix, IsMean, IsOnSegment, IsStrictlyBetween, IsInTriangle};
ghost use Rattle.plane_laws.specs.Plane.{IsStrictlyInTriangle, turn, rise, shift, is_same_point, is_on_segment};

/// To stand for the same point is an equivalence.
pub fn law_same_point_is_equivalence()
    ensures reflexive { (p : Point) → IsSamePoint p p }
    ensures symmetric { (p q : Point) → IsSamePoint p q → IsSamePoint q p }
    ensures transitive { (p q r : Point) → IsSamePoint p q → IsSamePoint q r → IsSamePoint p r }
{}

/// The test answers true exactly where two triples stand for the same point.
pub fn law_same_point_is_tested()
    ensures test { (p q : Point) → (is_same_point p q ≡ true) ↔ IsSamePoint p q }
{}

/// A mix of a and b is one of b and a, with the masses exchanged; so a segment has no direction. Its ends are on it.
pub fn law_order_of_ends_is_free()
    ensures mix { (a b p : Point) (s t : ℤ) → IsMix a b p s t → IsMix b a p t s }
    ensures segment { (a b p : Point) → IsOnSegment a b p → IsOnSegment b a p }
    ensures start { (a b : Point) → IsOnSegment a b a }
    ensures end { (a b : Point) → IsOnSegment a b b }
{}

/// A mix by masses is a mean by weights, and a mean by weights is a mix by masses.
pub fn law_mixes_are_means()
    ensures mean { (a b p : Point) (s t : ℤ) → IsMix a b p s t → IsMean a b p (s *ℤ a.w) (t *ℤ b.w) }
    ensures mix { (a b p : Point) (s t : ℤ) → IsMean a b p s t → IsMix a b p ((s *ℤ b.w) *ℤ p.w) ((t *ℤ a.w) *ℤ p.w) }
{}

/// To be on a segment, or strictly between two points, is said of points: it holds of all triples that stand for them.
pub fn law_segments_are_of_points()
    ensures on { (a a' b b' p p' : Point) → IsSamePoint a a' → IsSamePoint b b' → IsSamePoint p p' → IsOnSegment a b p
        → IsOnSegment a' b' p' }
    ensures between { (a a' b b' p p' : Point) → IsSamePoint a a' → IsSamePoint b b' → IsSamePoint p p' → IsStrictlyBetween a b p
        → IsStrictlyBetween a' b' p' }
{}

/// To be in a triangle, or strictly in it, is said of points.
pub fn law_triangles_are_of_points()
    ensures within { (a a' b b' c c' p p' : Point) → IsSamePoint a a' → IsSamePoint b b' → IsSamePoint c c' → IsSamePoint p p'
        → IsInTriangle a b c p → IsInTriangle a' b' c' p' }
    ensures strictly { (a a' b b' c c' p p' : Point) → IsSamePoint a a' → IsSamePoint b b' → IsSamePoint c c' → IsSamePoint p p'
        → IsStrictlyInTriangle a b c p → IsStrictlyInTriangle a' b' c' p' }
{}

/// The signs of a turn, a rise and a shift belong to the points.
pub fn law_signs_are_of_points()
    ensures turn { (a a' b b' c c' : Point) → IsSamePoint a a' → IsSamePoint b b' → IsSamePoint c c'
        → int_signum (turn a b c) ≡ int_signum (turn a' b' c') }
    ensures rise { (a a' b b' : Point) → IsSamePoint a a' → IsSamePoint b b' → int_signum (rise a b) ≡ int_signum (rise a' b') }
    ensures shift { (a a' b b' : Point) → IsSamePoint a a' → IsSamePoint b b' → int_signum (shift a b) ≡ int_signum (shift a' b') }
{}

/// The computed test of lying on a segment answers true exactly where the point is a mix of the ends.
pub fn law_on_segment_is_tested()
    ensures test { (a b p : Point) → (is_on_segment a b p ≡ true) ↔ IsOnSegment a b p }
{}

/// A segment of two same ends has that one point.
pub fn law_segment_of_same_ends_is_a_point()
    ensures only { (a b p : Point) → IsSamePoint a b → IsOnSegment a b p → IsSamePoint a p }
{}

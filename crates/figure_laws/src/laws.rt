//! Laws of the definitions on figures: each is a function that does nothing, and its contract is the law.

ghost use Rattle.std.specs.Prelude.{◌≡◌, ◌⊎◌, true, false, List, []};
ghost use Rattle.im_matrix.specs.declared.Cell.{Cell};
ghost use Rattle.im_matrix.specs.declared.Dim.{Dim};
ghost use Rattle.im_matrix.specs.declared.Loc.{Loc};
ghost use Rattle.im_matrix.specs.declared.Matrix.{Matrix};
ghost use Rattle.plane_laws.specs.Plane.{Point, IsSamePoint, IsOnSegment};
ghost use Rattle.plane_exact.specs.declared.point.Pt.{Pt};
ghost use Rattle.plane_exact.specs.declared.point.Seg.{Seg};
ghost use Rattle.point_set.specs.Dimension.{HoldsSegment, HoldsTriangle, IsDimension};
ghost use Rattle.point_set.specs.Lines.{is_at_some};
ghost use Rattle.point_set.specs.Location.{location, is_covered, IsAreaInterior, IsKind, IsLocation};
ghost use Rattle.point_set.specs.Relation.{IsInCell, IsMatrixOf};
ghost use Rattle.point_set.specs.Rings.{is_on_edges, is_inside};
ghost use Rattle.point_set.specs.declared.dim_loc.DimLoc.{DimLoc};
ghost use Rattle.point_set.specs.declared.dim_loc.DimLoc.TheVariants.{LineInterior, LineBoundary, PointInterior, Exterior};
ghost use Rattle.point_set.specs.declared.figure.Area.{Area};
ghost use Rattle.point_set.specs.declared.figure.Figure.{Figure};
ghost use Rattle.point_set.specs.declared.rule.Rule.{Rule};

/// Finitely many positions hold no segment and no triangle; on each segment with two different ends there is a point
/// that is at none of them, and some triangle holds none of them.
pub fn law_finitely_many_points_have_no_extent()
    ensures no_segment { (positions : List Pt) → ¬ HoldsSegment (λ p. is_at_some p positions ≡ true) }
    ensures no_triangle { (positions : List Pt) → ¬ HoldsTriangle (λ p. is_at_some p positions ≡ true) }
    ensures point_left { (positions : List Pt) (a b : Point) → ¬ IsSamePoint a b
        → (p : Point) × IsOnSegment a b p × (is_at_some p positions ≡ false) }
    ensures triangle_left { (positions : List Pt) → HoldsTriangle (λ p. is_at_some p positions ≡ false) }
{}

/// To be on an edge is said of the point, and not of the triple that stands for it.
pub fn law_edges_hold_points()
    ensures same { (p q : Point) → IsSamePoint p q → (edges : List Seg) → is_on_edges p edges ≡ is_on_edges q edges }
{}

/// To be inside a ring is said of the point.
pub fn law_rings_hold_points()
    ensures same { (p q : Point) → IsSamePoint p q → (ring : List Pt) → is_inside p ring ≡ is_inside q ring }
{}

/// Where a point lies in an area is said of the point.
pub fn law_areas_hold_points()
    ensures same { (p q : Point) → IsSamePoint p q → (area : Area) → location area p ≡ location area q }
{}

/// To be covered by the areas of a figure, and to be interior to their union, is said of the point.
pub fn law_cover_is_of_points()
    ensures covered { (f : Figure) (p q : Point) → IsSamePoint p q → is_covered f p ≡ is_covered f q }
    ensures interior { (f : Figure) (p q : Point) → IsSamePoint p q → IsAreaInterior f p → IsAreaInterior f q }
{}

/// The kind of a point's location in a figure, and so the part in which it lies, is said of the point.
pub fn law_kind_is_of_points()
    ensures kind { (f : Figure) (rule : Rule) (p q : Point) (k : DimLoc) → IsSamePoint p q → IsKind f rule p k → IsKind f rule q k }
    ensures part { (f : Figure) (rule : Rule) (p q : Point) (part : Loc) → IsSamePoint p q → IsLocation f rule p part
        → IsLocation f rule q part }
{}

/// The six kinds of location exclude each other, and so a point lies in one part of a figure.
pub fn law_kinds_exclude_each_other()
    ensures kind { (f : Figure) (rule : Rule) (p : Point) (k l : DimLoc) → IsKind f rule p k → IsKind f rule p l → k ≡ l }
    ensures part { (f : Figure) (rule : Rule) (p : Point) (a b : Loc) → IsLocation f rule p a → IsLocation f rule p b → a ≡ b }
{}

/// In a figure without areas the kind of every point is decided: one of the four kinds that need no area holds.
pub fn law_lines_and_points_decide()
    ensures decided { (f : Figure) (rule : Rule) (p : Point) → f.areas ≡ []
        → IsKind f rule p LineInterior ⊎ (IsKind f rule p LineBoundary ⊎ (IsKind f rule p PointInterior ⊎ IsKind f rule p Exterior)) }
{}

/// A set of points has at most one dimension; so two figures have at most one matrix.
pub fn law_a_pair_has_one_matrix()
    ensures cell { (a b : Figure) (rule : Rule) (c : Cell) (d e : Dim) → IsDimension (IsInCell a b rule c) d
        → IsDimension (IsInCell a b rule c) e → d ≡ e }
    ensures matrix { (a b : Figure) (rule : Rule) (m n : Matrix) → IsMatrixOf a b rule m → IsMatrixOf a b rule n → m ≡ n }
{}

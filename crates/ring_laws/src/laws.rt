//! Laws of what is inside a ring, and of germs: each is a function that does nothing, and its contract is the law.

ghost use Rattle.std.specs.Prelude.{◌≡◌, pos, ◌<ℤ◌, false, not, List, ◌∷◌, ◌++◌, ℕ, true};
ghost use Rattle.plane_laws.specs.Plane.{Point, IsOnSegment, IsStrictlyBetween, turn};
ghost use Rattle.plane_exact.specs.Places.{point_of};
ghost use Rattle.plane_exact.specs.declared.point.Pt.{Pt};
ghost use Rattle.plane_exact.specs.declared.point.Seg.{Seg};
ghost use Rattle.point_set.specs.Rings.{edges_of, is_on_edges, is_odd, is_inside, is_on_edge};
ghost use Rattle.point_set.specs.Shape.{IsClosed, IsAreaShaped};
ghost use Rattle.im_matrix.specs.declared.Cell.{Cell};
ghost use Rattle.im_matrix.specs.declared.Loc.{Loc};
ghost use Rattle.plane_laws.specs.Directions.{Direction, IsStrictlyWithin};
ghost use Rattle.plane_exact.specs.declared.dir.Dir.{Dir};
ghost use Rattle.point_set.specs.declared.figure.Area.{Area};
ghost use Rattle.point_set.specs.declared.figure.Figure.{Figure};
ghost use Rattle.point_set.specs.declared.rule.Rule.{Rule};
ghost use Rattle.point_set.specs.Germ.{IsGerm, IsPairGerm};
ghost use Rattle.plane_laws.specs.Along.{IsInCone};
ghost use Rattle.point_set.specs.Location.{edges_of_rings, rings_of};
ghost use Rattle.point_set.specs.Sectors.{AreRaysAt, HasNoEdgeWithin, IsInSector};
ghost use Rattle.point_set.specs.Validity.{IsAtPlace};

/// Inside stays inside, and outside stays outside, along a segment that meets no edge of a closed ring.
pub fn law_inside_stays()
    ensures parity { (ring : List Pt) → IsClosed ring → (p q : Point)
        → ((m : Point) → IsOnSegment p q m → is_on_edges m (edges_of ring) ≡ false) → is_odd p (edges_of ring) ≡ is_odd q (edges_of ring) }
    ensures inside { (ring : List Pt) → IsClosed ring → (p q : Point)
        → ((m : Point) → IsOnSegment p q m → is_on_edges m (edges_of ring) ≡ false) → is_inside p ring ≡ is_inside q ring }
{}

/// Inside becomes outside, and outside inside, along a segment that crosses one edge of a closed ring from its left to its
/// right, strictly between its ends, and meets no other edge.
pub fn law_inside_flips()
    ensures flips { (ring : List Pt) → IsClosed ring → (before : List Seg) (e : Seg) (after : List Seg)
        → edges_of ring ≡ before ++ e ∷ after → (p q m : Point) → pos 0 <ℤ turn (point_of e.a) (point_of e.b) p
        → turn (point_of e.a) (point_of e.b) q <ℤ pos 0 → IsStrictlyBetween (point_of e.a) (point_of e.b) m → IsOnSegment p q m
        → ((r : Point) → IsOnSegment p q r → is_on_edges r (before ++ after) ≡ false) → is_inside p ring ≡ not (is_inside q ring) }
{}

/// Near any point, the location in an area settles along every direction, to one location. Two figures have at most one
/// germ along a direction.
pub fn law_germ_is_one_location()
    ensures some { (area : Area) → IsAreaShaped area → (v : Point) (d : Direction) → (germ : Loc) × IsGerm area v d germ }
    ensures one { (area : Area) (v : Point) (d : Direction) (g h : Loc) → IsGerm area v d g → IsGerm area v d h → g ≡ h }
    ensures one_pair { (a b : Figure) (rule : Rule) (v : Point) (d : Direction) (g h : Cell) → IsPairGerm a b rule v d g
        → IsPairGerm a b rule v d h → g ≡ h }
{}

/// The germ of an area at v is the same along two directions that aren't opposite and have no edge of the area between
/// them: none that v is on has an end that lies from v between the two, or along one of them.
pub fn law_germ_is_the_same_between_edges()
    ensures same { (area : Area) → IsAreaShaped area → (v : Point) (d e : Direction) → ¬ IsInCone v d e v
        → ((place : ℕ) (f : Seg) → IsAtPlace (edges_of_rings (rings_of area)) place f → is_on_edge v f ≡ true
        → (¬ IsInCone v d e (point_of f.a)) × (¬ IsInCone v d e (point_of f.b))) → (g h : Loc) → IsGerm area v d g → IsGerm area v e h
        → g ≡ h }
{}

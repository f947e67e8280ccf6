//! Laws of germs: each is a function that does nothing, and its contract is the law.

ghost use Rattle.std.specs.Prelude.{◌≡◌, ℕ, true, false, List};
ghost use Rattle.im_matrix.specs.declared.Cell.{Cell};
ghost use Rattle.im_matrix.specs.declared.Loc.{Loc};
ghost use Rattle.plane_laws.specs.Plane.{Point};
ghost use Rattle.plane_exact.specs.Places.{point_of};
ghost use Rattle.plane_laws.specs.Directions.{Direction, IsStrictlyWithin};
ghost use Rattle.plane_exact.specs.declared.dir.Dir.{Dir};
ghost use Rattle.plane_exact.specs.declared.point.Seg.{Seg};
ghost use Rattle.point_set.specs.declared.figure.Area.{Area};
ghost use Rattle.point_set.specs.declared.figure.Figure.{Figure};
ghost use Rattle.point_set.specs.declared.rule.Rule.{Rule};
ghost use Rattle.point_set.specs.Germ.{IsGerm, IsPairGerm};
ghost use Rattle.plane_laws.specs.Along.{IsInCone};
ghost use Rattle.point_set.specs.Location.{edges_of_rings, rings_of};
ghost use Rattle.point_set.specs.Rings.{is_on_edge, is_on_edges};
ghost use Rattle.point_set.specs.Sectors.{AreRaysAt, HasNoEdgeWithin, IsInSector};
ghost use Rattle.point_set.specs.Shape.{IsAreaShaped};
ghost use Rattle.point_set.specs.Validity.{IsAtPlace};

/// The germ of an area at v is the same along all directions of one sector: of all that lie strictly between two directions
/// r and s, counter-clockwise, where no edge of the area runs from v strictly between them. Where v is on no edge, it is the
/// same along all directions. So it is the same along all directions of one sector of the rays of the area's edges at v,
/// among which other rays may stand.
pub fn law_germ_is_the_same_in_a_sector()
    ensures same { (area : Area) → IsAreaShaped area → (v : Point) (r s : Direction) → HasNoEdgeWithin area v r s → (d e : Direction)
        → IsStrictlyWithin r s d → IsStrictlyWithin r s e → (g h : Loc) → IsGerm area v d g → IsGerm area v e h → g ≡ h }
    ensures bare { (area : Area) → IsAreaShaped area → (v : Point) → is_on_edges v (edges_of_rings (rings_of area)) ≡ false
        → (d e : Direction) (g h : Loc) → IsGerm area v d g → IsGerm area v e h → g ≡ h }
    ensures sector { (area : Area) → IsAreaShaped area → (v : Point) (rays : List Dir) → AreRaysAt v (edges_of_rings (rings_of area)) rays
        → (i : ℕ) (d e : Direction) → IsInSector rays i d → IsInSector rays i e → (g h : Loc) → IsGerm area v d g → IsGerm area v e h
        → g ≡ h }
{}

//! Laws of the two sides of a ring and of an area: each is a function that does nothing, and its contract is the law.

ghost use Rattle.std.specs.Prelude.{ℕ, List};
ghost use Rattle.plane_exact.specs.declared.point.Pt.{Pt};
ghost use Rattle.plane_exact.specs.declared.point.Seg.{Seg};
ghost use Rattle.point_set.specs.declared.edge.Hand.{Hand};
ghost use Rattle.point_set.specs.declared.figure.Area.{Area};
ghost use Rattle.point_set.specs.declared.figure.Figure.{Figure};
ghost use Rattle.point_set.specs.Edges.{IsAreaHand};
ghost use Rattle.point_set.specs.Rings.{edges_of};
ghost use Rattle.point_set.specs.Shape.{IsClosed, IsWellShaped};
ghost use Rattle.point_set.specs.Sides.{IsInsideHand, other_hand};
ghost use Rattle.point_set.specs.Validity.{IsAtPlace, CrossesItself, IsValid};

/// The inside of a closed ring that neither crosses nor touches itself lies on one hand, the same for all its edges.
pub fn law_inside_lies_on_one_hand()
    ensures hand { (ring : List Pt) → IsClosed ring → ¬ CrossesItself ring → (side : Hand) × IsInsideHand ring side }
{}

/// In a valid figure the inside of an area lies, at each edge of its shell, on the hand of the shell's inside, and at each
/// edge of a hole on the other hand than the hole's inside.
pub fn law_area_lies_on_the_hands_of_its_rings()
    ensures shell { (f : Figure) → IsWellShaped f → IsValid f → (place : ℕ) (area : Area) → IsAtPlace f.areas place area → (side : Hand)
        → IsInsideHand area.shell side → (i : ℕ) (e : Seg) → IsAtPlace (edges_of area.shell) i e → IsAreaHand area e side }
    ensures hole { (f : Figure) → IsWellShaped f → IsValid f → (place : ℕ) (area : Area) → IsAtPlace f.areas place area
        → (k : ℕ) (hole : List Pt) → IsAtPlace area.holes k hole → (side : Hand) → IsInsideHand hole side → (i : ℕ) (e : Seg)
        → IsAtPlace (edges_of hole) i e → IsAreaHand area e (other_hand side) }
{}

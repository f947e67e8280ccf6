//! Laws of valid areas: each is a function that does nothing, and its contract is the law.

ghost use Rattle.std.specs.Prelude.{◌≡◌, ℕ, List, false};
ghost use Rattle.area_locator.specs.Indexed.{edges_of_area};
ghost use Rattle.area_locator.specs.Validity.{IsValidArea};
ghost use Rattle.plane_laws.specs.Plane.{Point};
ghost use Rattle.point_set.specs.Location.{location, location_by};
ghost use Rattle.point_set.specs.Rings.{is_on_edges, is_odd};
ghost use Rattle.point_set.specs.Validity.{IsAtPlace, IsValid};
ghost use Rattle.point_set.specs.declared.figure.Area.{Area};
ghost use Rattle.point_set.specs.declared.figure.Figure.{Figure};

/// Each area of a valid figure is valid by itself.
pub fn law_areas_of_valid_figures_are_valid()
    ensures alone { (f : Figure) → IsValid f → (place : ℕ) (area : Area) → IsAtPlace f.areas place area → IsValidArea area }
{}

/// In a valid area a point that is on no edge is interior exactly where its ray crosses an odd number of the edges of all
/// rings together.
pub fn law_one_count_locates_in_valid_areas()
    ensures location { (area : Area) → IsValidArea area → (p : Point) →
        location_by (is_on_edges p (edges_of_area area)) (is_odd p (edges_of_area area)) false ≡ location area p }
{}

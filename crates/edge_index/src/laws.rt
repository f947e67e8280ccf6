//! A law of the definitions: a function that does nothing, and its contract is the law.

ghost use Rattle.std.specs.Prelude.{◌≡◌, true, ◌↔◌};
ghost use Rattle.plane_exact.specs.declared.window.Window.{Window};
ghost use Rattle.plane_exact.specs.Windows.{HasCommonPoint};
ghost use Rattle.edge_index.specs.Trees.{have_common_point};

/// The computed test of two boxes, by which meeting rows are counted, answers true exactly where they have a common point.
pub fn law_common_points_are_tested()
    ensures test { (box other : Window) → (have_common_point box other ≡ true) ↔ HasCommonPoint box other }
{}

ghost use Rattle.std.specs.Prelude.{◌≡◌, IfOk, All};
ghost use Rattle.plane_exact.specs.NodePoints.{point_at};
ghost use Rattle.point_set.specs.Edges.{edges_of_figure};
ghost use Rattle.point_set.specs.Location.{IsKind};
ghost use Rattle.bound_rule.specs.Ends.{AreEndsOf};
ghost use Rattle.ring_sides.specs.Rows.{owned_edges, HasItsHand};
ghost use Rattle.union_locator.specs.Nearby.{ArePlacesRound};

use crate::areas::AreaLocs;
use crate::nearby::Nearby;
use bound_rule::EndTable;
use im_matrix::Loc;
use plane_exact::{NoMemory, Node, PlaceList};
use point_set::{DimLoc, EdgeRows, Rule, Valid};
use std::alloc::Global;

/// Where a node lies in a figure, with the kind of element that decides. It stands on any way to locate in one area: `areas`
/// is one for the figure, `rows` are the figure's edges, `near` are the places of exactly the edges whose windows meet
/// `Window::round(n)`, and `ends` are the ends of the figure's lines with its spots.
///
/// Takes memory where the node is on the boundary of an area and inside none, for the edges of areas that hold it; where the areas
/// are more than 32, for the places of those near the node; and what `areas` takes.
///
/// # Errors
/// `NoMemory`.
#[allow(clippy::too_many_arguments)]
pub fn locate_with<L: AreaLocs>(
    alloc: Global,
    v: &Valid,
    rows: &EdgeRows,
    near: &PlaceList,
    ends: &EndTable,
    areas: &mut L,
    n: &Node,
    rule: Rule,
) -> Result<DimLoc, NoMemory>
    requires figure { L.figure areas.old ≡ v.now }
    requires edges { owned_edges rows.now ≡ edges_of_figure v.now }
    requires hands { All (HasItsHand v.now) rows.now }
    requires near { ArePlacesRound v.now (point_at n.now) near.now }
    requires ends { AreEndsOf v.now ends.now }
    ensures kind { IfOk result (IsKind v.now rule (point_at n.now)) }
    ensures figure { L.figure areas.new ≡ L.figure areas.old }
{
    let around = Nearby {
        figure: v.figure(),
        rows,
        places: near,
        node: n,
    };
    match around.adjacent(alloc, areas)? {
        Loc::Interior => Ok(DimLoc::AreaInterior),
        Loc::Boundary => Ok(DimLoc::AreaBoundary),
        Loc::Exterior => Ok(around.locate_off_areas(ends, rule)),
    }
}

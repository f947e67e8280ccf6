ghost use Rattle.std.specs.Prelude.{◌≡◌, All, false};
ghost use Rattle.std.specs.List.{list_any};
ghost use Rattle.plane_exact.specs.NodePoints.{point_at};
ghost use Rattle.point_set.specs.Location.{location, location_by, edges_of_rings};
ghost use Rattle.point_set.specs.Rings.{is_on_edges, is_inside};
ghost use Rattle.point_set.specs.Shape.{IsWayInLimit};

use crate::ring::ring_locate;
use im_matrix::Loc;
use plane_exact::{Node, Path};
use point_set::Area;

/// Where a node lies in an area: Boundary on an edge of one of its rings, else Interior where it is inside the shell and
/// inside no hole, else Exterior. Takes no memory.
pub fn locate_plain(area: &Area, n: &Node) -> Loc
    requires shell { IsWayInLimit area.now.shell }
    requires holes { All IsWayInLimit area.now.holes }
    ensures location { result ≡ location area.now (point_at n.now) }
{
    let shell = ring_locate(&area.shell, n);
    let holes = locate_in_some(area.holes.as_slice(), n);
    match (shell, holes) {
        (Loc::Boundary, _) | (_, Loc::Boundary) => Loc::Boundary,
        (Loc::Interior, Loc::Exterior) => Loc::Interior,
        _ => Loc::Exterior,
    }
}

/// Where a node lies in several rings: Boundary on an edge of one of them, else Interior where it is inside one of them,
/// else Exterior.
fn locate_in_some(rings: &[Path], n: &Node) -> Loc
    requires limit { All IsWayInLimit rings.now }
    ensures location { result ≡ location_by (is_on_edges (point_at n.now) (edges_of_rings rings.now))
        (list_any (is_inside (point_at n.now)) rings.now) false }
{
    let mut inside = false;
    for ring in rings {
        match ring_locate(ring, n) {
            Loc::Boundary => return Loc::Boundary,
            Loc::Interior => inside = true,
            Loc::Exterior => {}
        }
    }
    if inside { Loc::Interior } else { Loc::Exterior }
}

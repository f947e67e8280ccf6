ghost use Rattle.std.specs.Prelude.{◌≡◌, false};
ghost use Rattle.plane_exact.specs.NodePoints.{point_at};
ghost use Rattle.plane_exact.specs.Places.{IsInLimit};
ghost use Rattle.point_set.specs.Location.{location_by};
ghost use Rattle.point_set.specs.Rings.{edges_of, edges_after, is_on_edges, is_inside, is_odd};
ghost use Rattle.point_set.specs.Shape.{IsWayInLimit};

use crate::touch::{Touch, touch_between};
use im_matrix::Loc;
use plane_exact::{Node, Path, Pt};
use y_index::level_of;

/// Where a node lies in a ring: Boundary on one of its edges, else Interior where the ray to the right of the node crosses
/// an odd number of edges, else Exterior. Takes no memory.
pub fn ring_locate(ring: &Path, n: &Node) -> Loc
    requires limit { IsWayInLimit ring.now }
    ensures location { result ≡ location_by (is_on_edges (point_at n.now) (edges_of ring.now)) (is_inside (point_at n.now) ring.now) false }
{
    match ring.as_slice().split_first() {
        None => Loc::Exterior,
        Some((first, others)) => locate_after(*first, others, n),
    }
}

/// Where a node lies in the ring of a first position and others.
fn locate_after(first: Pt, others: &[Pt], n: &Node) -> Loc
    requires first { IsInLimit first }
    requires others { IsWayInLimit others.now }
    ensures location { result ≡ location_by (is_on_edges (point_at n.now) (edges_after first others.now))
        (is_odd (point_at n.now) (edges_after first others.now)) false }
{
    let level = level_of(n);
    let mut last = first;
    let mut odd = false;
    for p in others {
        match touch_between(last, *p, n, level) {
            Touch::Holds => return Loc::Boundary,
            Touch::Crosses => odd = !odd,
            Touch::Misses => {}
        }
        last = *p;
    }
    if odd { Loc::Interior } else { Loc::Exterior }
}

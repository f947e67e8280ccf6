ghost use Rattle.std.specs.Prelude.{◌≡◌, ◌≤◌, ◌<◌, ◌^◌, All, false, length};
ghost use Rattle.std.specs.List.{slice_get};
ghost use Rattle.area_locator.specs.Indexed.{IsEdge, AreRowsOfEdges, IsLocationBy, edges_at};
ghost use Rattle.area_locator.specs.Touches.{loc_after, touch_of};
ghost use Rattle.plane_exact.specs.NodePoints.{point_at};
ghost use Rattle.point_set.specs.Location.{location_by};
ghost use Rattle.point_set.specs.Rings.{is_on_edges, is_odd};
ghost use Rattle.y_index.specs.Levels.{IsLevel};
ghost use Rattle.y_index.specs.Steps.{RisesWithin};

use crate::touch::{Touch, touch_of_edge};
use im_matrix::Loc;
use plane_exact::{Meter, Node, Seg, SegList};
use y_index::{Level, Spans, level_of, stab};

/// Where a node lies in each valid area that has the edges `segs` in this order, by the edges alone that have the node's
/// height. `rows` are the spans in y of these edges, each with its place as item. Takes no memory.
///
/// One step of the meter is one row looked at. With k edges whose range in y holds the node, and d binary digits that are
/// enough for the number of edges, it rises by at most `2 * (k + 1) * (d + 2)`.
pub fn locate_by<T: Spans<M>, M: Meter>(rows: &T, segs: &SegList, n: &Node, meter: &mut M) -> Loc
    requires edges { All IsEdge segs.now }
    requires rows { AreRowsOfEdges segs.now (T.rows rows.now) }
    requires used { M.used meter.old ≤ 2 ^ 62 }
    ensures location { IsLocationBy segs.now (point_at n.now) result }

    // What it answers for edges of no valid area too.
    ensures parity { result ≡ location_by (is_on_edges (point_at n.now) segs.now) (is_odd (point_at n.now) segs.now) false }

    ensures used { let hits = length (edges_at (point_at n.now) segs.now) in
        RisesWithin hits (length segs.now) (M.used meter.old) (M.used meter.new) }
{
    let level = level_of(n);
    let edges = segs.as_slice();
    let step = |loc: Loc, place: u32| -> Loc
        requires place { place < length edges.now }
        requires edges { All IsEdge edges.now }
        requires level { IsLevel (point_at n.now) level.floor level.ceiling }
        ensures loc { (e : Seg) → slice_get edges.entry.now place ≡ Some e →
            result ≡ loc_after loc (touch_of false (point_at n.entry.now) e.a e.b) }
    { loc_at(loc, edges, place, n, level) };
    stab(rows, n, Loc::Exterior, step, meter)
}

/// The location so far, after the edge at a place of a list.
fn loc_at(loc: Loc, edges: &[Seg], place: u32, n: &Node, level: Level) -> Loc
    requires place { place < length edges.now }
    requires edges { All IsEdge edges.now }
    requires level { IsLevel (point_at n.now) level.floor level.ceiling }
    ensures loc { (e : Seg) → slice_get edges.now place ≡ Some e →
        result ≡ loc_after loc (touch_of false (point_at n.now) e.a e.b) }
{
    let edge = edges[place as usize];
    match (loc, touch_of_edge(edge.a, edge.b, n, level)) {
        (Loc::Boundary, _) | (_, Touch::Holds) => Loc::Boundary,
        (loc, Touch::Misses) => loc,
        (Loc::Interior, Touch::Crosses) => Loc::Exterior,
        (Loc::Exterior, Touch::Crosses) => Loc::Interior,
    }
}

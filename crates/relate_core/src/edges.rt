ghost use Rattle.std.specs.Prelude.{◌≡◌, ◌<◌, IfOk, length};
ghost use Rattle.plane_laws.specs.Plane.{Point};
ghost use Rattle.plane_exact.specs.Windows.{IsInWindow};
ghost use Rattle.point_set.specs.Edges.{edges_of_figure, HasHand, IsEdgeAt};
ghost use Rattle.relate_core.specs.NodeSets.{AreEdgesNear, HasTwoEnds};

use plane_exact::{LIMIT, NoMemory, PlaceList, SegList, Window};
use point_set::{Edge, EdgeId, Target};
use std::alloc::Global;

/// A box that holds every position.
pub(crate) const EVERYWHERE: Window = Window {
    low_x: -LIMIT,
    low_y: -LIMIT,
    high_x: LIMIT,
    high_y: LIMIT,
};

/// The box of all points that two boxes hold.
pub(crate) fn shared(u: &Window, v: &Window) -> Window
    ensures holds { (p : Point) → IsInWindow u.now p → IsInWindow v.now p → IsInWindow result p }
    ensures only { (p : Point) → IsInWindow result p → IsInWindow u.now p × IsInWindow v.now p }
{
    Window {
        low_x: u.low_x.max(v.low_x),
        low_y: u.low_y.max(v.low_y),
        high_x: u.high_x.min(v.high_x),
        high_y: u.high_y.min(v.high_y),
    }
}

/// The edge of a figure at a place of the list of its edges. The figure is well shaped, so the edge has two different ends within
/// the limit. Takes no memory.
pub(crate) fn edge_at<T: Target>(t: &T, place: u32) -> Edge
    requires within { place < length (edges_of_figure (T.figure t.now)) }
    ensures edge { IsEdgeAt (edges_of_figure (T.figure t.now)) place result }
    ensures hand { HasHand (T.figure t.now) result.owner result.seg result.hand }
    ensures ends { HasTwoEnds result.seg }
{
    let _well_shaped = t.valid().figure();
    t.edge(EdgeId { place })
}

/// Those edges of a figure that meet a box.
///
/// # Errors
/// `NoMemory`.
pub(crate) fn edges_near<T: Target>(
    alloc: Global,
    t: &mut T,
    w: Window,
) -> Result<SegList, NoMemory>
    ensures edges { IfOk result (AreEdgesNear w (T.figure t.old)) }
    ensures figure { T.figure t.new ≡ T.figure t.old }
    ensures looks { T.looks t.new ≡ T.looks t.old }
{
    let mut places = PlaceList::new(alloc);
    t.edges_in(w, &mut places)?;
    let mut edges = SegList::new(alloc);
    for place in places.as_slice() {
        edges.push(edge_at(t, *place).seg)?;
    }
    Ok(edges)
}

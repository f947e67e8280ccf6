ghost use Rattle.std.specs.Prelude.{◌≡◌, OnOk, All};
ghost use Rattle.plane_exact.specs.NodePoints.{point_at};
ghost use Rattle.fan_order.specs.Rays.{IsShort};
ghost use Rattle.relate_core.specs.Tables.{AddsSectionsAt};

use crate::edges::edge_at;
use fan_order::{SectionList, add_sections};
use im_matrix::Which;
use plane_exact::{NoMemory, Node, PlaceList, Window, on_segment};
use point_set::Target;
use std::alloc::Global;

/// Adds the sections of a figure at a node: for each edge that holds the node, one towards each end that isn't the node, and
/// nothing else.
///
/// # Errors
/// `NoMemory`, and then `out` holds any list.
pub fn sections_at<T: Target>(
    alloc: Global,
    t: &mut T,
    which: Which,
    n: &Node,
    out: &mut SectionList,
) -> Result<(), NoMemory>
    ensures sections { OnOk result (AddsSectionsAt which (T.figure t.old) (point_at n.now) out.old out.new) }
    ensures short { OnOk result (All (λ s. IsShort s.dir) out.old → All (λ s. IsShort s.dir) out.new) }
    ensures figure { T.figure t.new ≡ T.figure t.old }
    ensures looks { T.looks t.new ≡ T.looks t.old }
{
    let around = Window::round(n);
    let mut near = PlaceList::new(alloc);
    t.edges_in(around, &mut near)?;
    for place in near.as_slice() {
        let edge = edge_at(t, *place);
        if on_segment(edge.seg, n) {
            add_sections(out, &edge, n, which)?;
        }
    }
    Ok(())
}

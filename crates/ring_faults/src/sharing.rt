ghost use Rattle.std.specs.Prelude.{◌↔◌, IsTrue};
ghost use Rattle.point_set.specs.Validity.{ShareSegment};
ghost use Rattle.ring_faults.specs.Parts.{IsEdgeSound};

use plane_exact::Seg;
use seg_cross::{Meet, meet};

/// Whether two edges have a common segment. Takes no memory.
pub fn share_segment(e: Seg, f: Seg) -> bool
    requires e { IsEdgeSound e }
    requires f { IsEdgeSound f }
    ensures share { IsTrue result ↔ ShareSegment e f }
{
    match meet(e, f) {
        Meet::Apart | Meet::At(_) => false,
        Meet::Along(_, _) => true,
    }
}

ghost use Rattle.std.specs.Prelude.{◌≡◌, ◌≤◌, ◌<◌, length, IfOk};
ghost use Rattle.relate_prep.specs.Cells.{area_edges};

use crate::asked::{Indexed, Source};
use area_locator::AreaIndex;
use edge_index::EdgeIndex;
use plane_exact::{NoMemory, SegList};
use point_set::Valid;
use std::alloc::Global;

impl Indexed for EdgeIndex {
    ghost edges = { λ index. index.segs };
}

impl Indexed for AreaIndex {
    ghost edges = { λ index. index };
}

/// All edges of a figure.
#[derive(Clone, Copy)]
pub(crate) struct AllEdges<'a> {
    pub(crate) alloc: Global,
    pub(crate) segs: &'a SegList,
    ghost few: { length segs.now ≤ 1048576 },
}

impl Source<EdgeIndex> for AllEdges<'_> {
    ghost wanted = { λ s. s.segs.now };

    fn build(&self) -> Result<EdgeIndex, NoMemory> {
        EdgeIndex::build(self.alloc, copy_of(self.alloc, self.segs)?)
    }

    fn differs_at(&self, index: &EdgeIndex) -> Option<u32> {
        index.differs_at(self.segs)
    }
}

/// The edges of one area of a figure.
#[derive(Clone, Copy)]
pub(crate) struct AreaEdges<'a> {
    pub(crate) alloc: Global,
    pub(crate) valid: &'a Valid,
    pub(crate) area: u32,
    ghost place: { area < length valid.now.areas },
}

impl Source<AreaIndex> for AreaEdges<'_> {
    ghost wanted = { λ s. area_edges s.valid.now s.area };

    fn build(&self) -> Result<AreaIndex, NoMemory> {
        AreaIndex::build(self.alloc, self.valid, self.area)
    }

    fn differs_at(&self, index: &AreaIndex) -> Option<u32> {
        index.differs_at(self.valid, self.area)
    }
}

/// A copy of a list of segments.
fn copy_of(alloc: Global, segs: &SegList) -> Result<SegList, NoMemory>
    ensures same { IfOk result (λ copy. copy ≡ segs.now) }
{
    let mut copy = SegList::new(alloc);
    for seg in segs.as_slice() {
        copy.push(*seg)?;
    }
    Ok(copy)
}

ghost use Rattle.std.specs.Prelude.{◌≡◌, map, IfOk};

use edge_index::EdgeIndex;
use plane_exact::{BoxList, NoMemory, PlaceList, diagonals_of};
use std::alloc::Global;
use std::marker::Model;

/// Boxes in order, with an index that finds those near each other.
#[derive(Debug, Drop)]
pub(crate) struct NearBoxes {
    boxes: BoxList,
    index: EdgeIndex,
}

impl Model for NearBoxes {
    ghost use Rattle.std.specs.Prelude.{◌≡◌, List, map};
    ghost use Rattle.plane_exact.specs.Windows.{diagonal_of};
    ghost use Rattle.plane_exact.specs.declared.window.Window.{Window};

    ghost Value = { List Window };

    ghost view = { λ s. s.boxes };

    ghost invariant = { λ s. s.index.segs ≡ map diagonal_of s.boxes };
}

impl NearBoxes {
    ghost use Rattle.std.specs.Prelude.{◌≡◌, ◌≤◌, ◌<◌, length, IfOk};
    ghost use Rattle.geom_valid.specs.Boxes.{HoldsNear};

    /// The boxes with their index.
    pub(crate) fn of(alloc: Global, boxes: BoxList) -> Result<NearBoxes, NoMemory>
        requires few { length boxes ≤ 1048576 }
        ensures boxes { IfOk result (λ near. near ≡ boxes) }
    {
        let index = EdgeIndex::build(alloc, diagonals_of(alloc, boxes.as_slice())?)?;
        Ok(NearBoxes { boxes, index })
    }

    /// Places of boxes. Every place whose box has a point in common with the box at `place` is among them.
    pub(crate) fn near(&self, alloc: Global, place: usize) -> Result<PlaceList, NoMemory>
        requires place { place < length self.now }
        ensures near { IfOk result (HoldsNear self.now place) }
    {
        let mut places = PlaceList::new(alloc);
        self.index.query(*self.boxes.at(place), &mut places)?;
        Ok(places)
    }
}

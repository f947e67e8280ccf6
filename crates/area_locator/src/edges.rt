use crate::ways::{beginning, next_edge};
use plane_exact::{Path, Pt, Seg};
use point_set::Area;

/// The edges of an area that are left, in order: of its shell first, and then of its holes.
#[derive(Drop)]
pub(crate) struct AreaEdges<'a> {
    /// Where the present ring goes on from.
    last: Pt,
    /// The positions of the present ring after that.
    positions: &'a [Pt],
    /// The rings after the present one.
    rings: &'a [Path],
}

impl<'a> AreaEdges<'a> {
    ghost use Rattle.std.specs.Prelude.{◌≡◌};
    ghost use Rattle.area_locator.specs.Indexed.{edges_of_area};
    ghost use Rattle.area_locator.specs.AreaEdges.{edges_left};

    /// All edges of an area.
    pub(crate) fn of(area: &'a Area) -> AreaEdges<'a>
        ensures edges { edges_left result ≡ edges_of_area area.now }
    {
        let (last, positions) = beginning(&area.shell);
        AreaEdges {
            last,
            positions,
            rings: area.holes.as_slice(),
        }
    }
}

impl<'a> Iterator for AreaEdges<'a> {
    ghost use Rattle.std.specs.Prelude.{⊤};
    ghost use Rattle.std.specs.Iterator.{YieldsFirst, item_count};
    ghost use Rattle.area_locator.specs.AreaEdges.{edges_left};

    type Item = Seg;

    ghost can_next = { λ _. ⊤ };

    ghost next_gives = { YieldsFirst edges_left };

    ghost remaining = { item_count edges_left };

    fn next(&mut self) -> Option<Seg> {
        loop {
            if let Some((edge, positions)) = next_edge(self.last, self.positions) {
                self.last = edge.b;
                self.positions = positions;
                return Some(edge);
            }
            let (ring, rings) = self.rings.split_first()?;
            (self.last, self.positions) = beginning(ring);
            self.rings = rings;
        }
    }
}

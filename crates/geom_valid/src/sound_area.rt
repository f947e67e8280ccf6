use crate::disc::Disc;
use crate::heights::heights_of;
use crate::ring_set::RingSet;
use crate::rows::area_rows;
use crate::sharing::rows_share;
use area_entry::{NearRows, enters};
use area_locator::{AreaIndex, locate_plain};
use im_matrix::Loc;
use plane_exact::{Count, NoMemory, Node};
use point_set::Area;
use std::alloc::Global;
use std::marker::Model;

/// An area that is valid by itself, with its rings and its edges.
#[derive(Debug, Drop)]
pub(crate) struct SoundArea<'a> {
    rings: RingSet<'a>,
    rows: NearRows,
    heights: Option<AreaIndex>,
}

impl<'a> Model for SoundArea<'a> {
    ghost use Rattle.geom_valid.specs.Grounds.{IsLocatedArea};
    ghost use Rattle.point_set.specs.declared.figure.Area.{Area};

    ghost Value = { Area };

    ghost view = { λ s. s.rings };

    ghost invariant = { λ s. IsLocatedArea s.rings s.rows s.heights };
}

impl<'a> SoundArea<'a> {
    ghost use Rattle.std.specs.Prelude.{◌≡◌, ◌↔◌, IfOk, IsTrue};
    ghost use Rattle.im_matrix.specs.declared.Loc.TheVariants as loc;
    ghost use Rattle.geom_valid.specs.Grounds.{IsSoundArea};
    ghost use Rattle.plane_exact.specs.NodePoints.{point_at};
    ghost use Rattle.point_set.specs.Location.{location};
    ghost use Rattle.point_set.specs.Rings.{edges_of};
    ghost use Rattle.point_set.specs.Validity.{AreasOverlap, AreasShareSegment, EdgesShareSegment};
    ghost use Rattle.valid_laws.specs.Entering.{edges_in, Enters, IsClean};

    /// The area of rings that are clean of each other.
    pub(crate) fn of(alloc: Global, rings: RingSet<'a>) -> Result<SoundArea<'a>, NoMemory>
        requires sound { IsSoundArea rings }
        ensures area { IfOk result (λ sound. sound ≡ rings.entry) }
    {
        let rows = NearRows::new(alloc, area_rows(alloc, rings.area())?)?;
        let heights = heights_of(alloc, &rows)?;
        Ok(SoundArea {
            rings,
            rows,
            heights,
        })
    }

    /// The area.
    pub(crate) fn area(&self) -> &Area
        ensures area { result.now ≡ self.now }
    {
        self.rings.area()
    }

    /// Whether an edge of this area and an edge of another have a common segment.
    pub(crate) fn shares(&self, alloc: Global, other: &SoundArea) -> Result<bool, NoMemory>
        ensures shares { IfOk result (λ b. IsTrue b ↔ AreasShareSegment self.now other.now) }
    {
        rows_share(alloc, &self.rows, &other.rows)
    }

    /// Where a node lies in the area.
    fn locate(&self, n: &Node) -> Loc
        ensures location { result ≡ location self.now (point_at n.now) }
    {
        match &self.heights {
            Some(index) => index.locate(n, &mut Count::new()),
            None => locate_plain(self.rings.area(), n),
        }
    }

    /// Whether some point is interior to both areas.
    pub(crate) fn overlaps(&self, alloc: Global, other: &SoundArea) -> Result<bool, NoMemory>
        requires unshared { ¬ AreasShareSegment self.now other.now }
        ensures overlaps { IfOk result (λ b. IsTrue b ↔ AreasOverlap self.now other.now) }
    {
        Ok(self.enters(alloc, other)? || other.enters(alloc, self)?)
    }

    /// Whether an edge of this area has a point inside another.
    fn enters(&self, alloc: Global, other: &SoundArea) -> Result<bool, NoMemory>
        requires unshared { ¬ AreasShareSegment self.now other.now }
        ensures enters { IfOk result (λ b. IsTrue b ↔ Enters (edges_in self.now) other.now loc.Interior) }
        ensures clean { IsClean self.now × IsClean other.now }
    {
        if other.holds_part_of(alloc, self.rings.shell())? {
            return Ok(true);
        }
        for hole in self.rings.holes() {
            if other.holds_part_of(alloc, hole)? {
                return Ok(true);
            }
        }
        Ok(false)
    }

    /// Whether an edge of a ring has a point inside the area.
    fn holds_part_of(&self, alloc: Global, ring: &Disc) -> Result<bool, NoMemory>
        requires unshared { ¬ EdgesShareSegment (edges_of ring.now) (edges_in self.now) }
        ensures holds { IfOk result (λ b. IsTrue b ↔ Enters (edges_of ring.now) self.now loc.Interior) }
        ensures clean { IsClean self.now }
    {
        let first = self.locate(&ring.start());
        enters(alloc, &ring.rows, &self.rows, first, Loc::Interior)
    }
}

use crate::heights::heights_of;
use crate::rows::ring_rows;
use area_entry::{NearRows, enters};
use area_locator::{AreaIndex, ring_locate};
use im_matrix::Loc;
use plane_exact::{Count, NoMemory, Node, Path};
use std::alloc::Global;
use std::marker::Model;

/// A ring that neither crosses nor touches itself, read as the area inside it, with its edges.
#[derive(Debug, Drop)]
pub(crate) struct Disc<'a> {
    pub(crate) ring: &'a Path,
    pub(crate) rows: NearRows,
    heights: Option<AreaIndex>,
}

impl<'a> Model for Disc<'a> {
    ghost use Rattle.std.specs.Prelude.{List};
    ghost use Rattle.geom_valid.specs.Grounds.{IsLocatedDisc};
    ghost use Rattle.plane_exact.specs.declared.point.Pt.{Pt};

    ghost Value = { List Pt };

    ghost view = { λ d. d.ring.now };

    ghost invariant = { λ d. IsLocatedDisc d.ring.now d.rows d.heights };
}

impl<'a> Disc<'a> {
    ghost use Rattle.std.specs.Prelude.{◌≡◌, ◌↔◌, ◌≤◌, length, IfOk, IsTrue};
    ghost use Rattle.im_matrix.specs.declared.Loc.TheVariants as loc;
    ghost use Rattle.plane_exact.specs.NodePoints.{point_at};
    ghost use Rattle.plane_exact.specs.Places.{point_of};
    ghost use Rattle.plane_exact.specs.declared.point.Pt.{Pt};
    ghost use Rattle.point_set.specs.Location.{location};
    ghost use Rattle.point_set.specs.Rings.{edges_of};
    ghost use Rattle.point_set.specs.Shape.{IsRingShaped};
    ghost use Rattle.point_set.specs.Validity.{CrossesItself, EdgesShareSegment, HasTooFewPoints, IsAtPlace};
    ghost use Rattle.valid_laws.specs.Entering.{disc_of, AreBothInside, Enters, IsSimpleRing, LeavesShell};

    /// The ring with its edges.
    pub(crate) fn of(alloc: Global, ring: &'a Path) -> Result<Disc<'a>, NoMemory>
        requires few { length ring.now ≤ 1048576 }
        requires shaped { IsRingShaped ring.now }
        requires enough { ¬ HasTooFewPoints ring.now }
        requires simple { ¬ CrossesItself ring.now }
        ensures ring { IfOk result (λ disc. disc ≡ ring.now) }
    {
        let rows = NearRows::new(alloc, ring_rows(alloc, ring)?)?;
        let heights = heights_of(alloc, &rows)?;
        Ok(Disc {
            ring,
            rows,
            heights,
        })
    }

    /// Whether some point is inside this hole and not inside the shell.
    #[tactic(auto, using(valid_laws::proofs::Clauses::OverAllPoints::swapped))]
    pub(crate) fn leaves(&self, alloc: Global, shell: &Disc) -> Result<bool, NoMemory>
        requires unshared { ¬ EdgesShareSegment (edges_of shell.now) (edges_of self.now) }
        ensures leaves { IfOk result (λ b. IsTrue b ↔ LeavesShell shell.now self.now) }
    {
        Ok(self.enters(alloc, shell, Loc::Exterior)? || shell.enters(alloc, self, Loc::Interior)?)
    }

    /// Whether some point is inside both rings.
    #[tactic(auto, using(valid_laws::proofs::Clauses::OverAllPoints::swapped))]
    pub(crate) fn overlaps(&self, alloc: Global, other: &Disc) -> Result<bool, NoMemory>
        requires unshared { ¬ EdgesShareSegment (edges_of self.now) (edges_of other.now) }
        ensures overlaps { IfOk result (λ b. IsTrue b ↔ AreBothInside self.now other.now) }
    {
        Ok(self.enters(alloc, other, Loc::Interior)? || other.enters(alloc, self, Loc::Interior)?)
    }

    /// Whether an edge of this ring has a point in a part of the area inside another.
    fn enters(&self, alloc: Global, other: &Disc, part: Loc) -> Result<bool, NoMemory>
        requires part { ¬ (part ≡ loc.Boundary) }
        requires unshared { ¬ EdgesShareSegment (edges_of self.now) (edges_of other.now) }
        ensures enters { IfOk result (λ b. IsTrue b ↔ Enters (edges_of self.now) (disc_of other.now) part) }
        ensures simple { IsSimpleRing self.now × IsSimpleRing other.now }
    {
        let first = other.locate(&self.start());
        enters(alloc, &self.rows, &other.rows, first, part)
    }

    /// Where a node lies in the area inside the ring.
    fn locate(&self, n: &Node) -> Loc
        ensures location { result ≡ location (disc_of self.now) (point_at n.now) }
    {
        match &self.heights {
            Some(index) => index.locate(n, &mut Count::new()),
            None => ring_locate(self.ring, n),
        }
    }

    /// The ring's first position.
    pub(crate) fn start(&self) -> Node
        ensures start { (p : Pt) → IsAtPlace self.now 0 p → point_at result ≡ point_of p }
    {
        Node::at_point(*self.ring.at(0))
    }
}

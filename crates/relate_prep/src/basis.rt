ghost use Rattle.std.specs.Prelude.{◌≡◌, IfOk};

use bound_rule::EndTable;
use figure_extent::Extents;
use plane_exact::{NoMemory, SegList};
use point_set::{EdgeRows, Valid};
use ring_sides::edges_of;
use std::alloc::Global;
use std::marker::Model;
use union_locator::{IndexedShells, segs_of};

/// A valid figure, and what is made of it at once.
#[derive(Drop)]
pub(crate) struct Basis {
    pub(crate) valid: Valid,
    /// The figure's edges, each with its owner and its hand.
    pub(crate) rows: EdgeRows,
    /// The same edges alone.
    pub(crate) segs: SegList,
    /// The ends of the lines, and the spots.
    pub(crate) ends: EndTable,
    pub(crate) extents: Extents,
    /// The box of the shell of each area, with an index where they are more than a few.
    pub(crate) shells: IndexedShells,
}

impl Model for Basis {
    ghost use Rattle.relate_prep.specs.Prepared.{SeenBasis, IsBasis, seen_basis};

    ghost Value = { SeenBasis };

    ghost view = { λ b. seen_basis b.valid b.rows b.segs b.ends b.extents b.shells };

    ghost invariant = { λ b. IsBasis (seen_basis b.valid b.rows b.segs b.ends b.extents b.shells) };
}

impl Basis {
    /// Makes what every session of a figure uses.
    ///
    /// # Errors
    /// `NoMemory`, and then the figure is let go.
    pub(crate) fn new(alloc: Global, valid: Valid) -> Result<Basis, NoMemory>
        ensures figure { IfOk result (λ basis. basis.figure ≡ valid) }
    {
        let rows = edges_of(alloc, &valid)?;
        let segs = segs_of(alloc, &rows)?;
        let ends = EndTable::build(alloc, &valid)?;
        let extents = Extents::of(&valid, &ends);
        let mut shells = IndexedShells::of(alloc, valid.figure())?;
        shells.make_index(alloc)?;
        Ok(Basis {
            valid,
            rows,
            segs,
            ends,
            extents,
            shells,
        })
    }
}

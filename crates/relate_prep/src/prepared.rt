ghost use Rattle.std.specs.Prelude.{◌≡◌, length, IfOk};

use crate::basis::Basis;
use crate::session::Session;
use area_locator::AreaIndex;
use edge_index::EdgeIndex;
use once_cell::race::OnceBox;
use plane_exact::{ItemList, NoMemory};
use point_set::Valid;
use std::alloc::Global;
use std::marker::Model;

/// A valid figure that many relations share, in any threads. Each relation goes through a session.
#[derive(Drop)]
pub struct Prepared {
    basis: Basis,
    /// The cell of the index of all edges.
    edge_cell: OnceBox<EdgeIndex>,
    /// The cell of the index of each area.
    area_cells: ItemList<OnceBox<AreaIndex>>,
    alloc: Global,
}

impl Model for Prepared {
    ghost use Rattle.std.specs.Prelude.{◌≡◌, length, map};
    ghost use Rattle.once_cell.specs.Once.{cell_name};
    ghost use Rattle.relate_prep.specs.Prepared.{SeenPrepared};

    ghost Value = { SeenPrepared };

    ghost view = { λ p. record { figure = p.basis.figure; edge_cell = cell_name p.edge_cell; area_cells = map cell_name p.area_cells } };

    ghost invariant = { λ p. length p.area_cells ≡ length p.basis.figure.areas };
}

impl Prepared {
    ghost use Rattle.std.specs.Prelude.{◌≡◌, IfOk};
    ghost use Rattle.relate_prep.specs.Sessions.{IsNewSession};

    /// Prepares a figure: its edges, line ends and envelopes are made here, and its indexes by the session that first asks for
    /// them.
    ///
    /// # Errors
    /// `NoMemory`, and then the figure is let go.
    pub fn new(alloc: Global, v: Valid) -> Result<Prepared, NoMemory>
        ensures figure { IfOk result (λ prepared. prepared.figure ≡ v) }
    {
        let basis = Basis::new(alloc, v)?;
        let area_cells = cells(alloc, basis.valid.figure().areas.len())?;
        Ok(Prepared {
            basis,
            edge_cell: OnceBox::new(alloc),
            area_cells,
            alloc,
        })
    }

    /// The figure. Takes no memory.
    pub fn valid(&self) -> &Valid
        ensures figure { result.now ≡ self.now.figure }
    {
        &self.basis.valid
    }

    /// A session that has asked for no cell.
    ///
    /// # Errors
    /// `NoMemory`.
    pub fn session(&self) -> Result<Session<'_>, NoMemory>
        ensures new { IfOk result (IsNewSession self.now) }
    {
        Session::over(
            self.alloc,
            &self.basis,
            &self.edge_cell,
            self.area_cells.as_slice(),
        )
    }
}

/// Empty cells.
fn cells(alloc: Global, count: usize) -> Result<ItemList<OnceBox<AreaIndex>>, NoMemory>
    ensures count { IfOk result (λ cells. length cells ≡ count) }
{
    let mut cells = ItemList::new(alloc);
    for _ in 0..count {
        cells.push(OnceBox::new(alloc))?;
    }
    Ok(cells)
}

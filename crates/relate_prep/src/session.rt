ghost use Rattle.std.specs.Prelude.{◌≡◌, map, IfOk};
ghost use Rattle.once_cell.specs.Once.{cell_name};
ghost use Rattle.relate_prep.specs.Cells.{names_of, new_cell};
ghost use Rattle.relate_prep.specs.Sessions.{KnowTheSameEach};

use crate::asked::Asked;
use crate::basis::Basis;
use crate::origin::Origin;
use crate::sources::AllEdges;
use area_locator::AreaIndex;
use edge_index::EdgeIndex;
use once_cell::race::OnceBox;
use plane_exact::{NoMemory, PlaceList};
use std::alloc::Global;
use std::marker::Model;

/// One user's view of a prepared figure.
#[derive(Drop)]
pub struct Session<'a> {
    pub(crate) basis: &'a Basis,
    edge_cell: &'a OnceBox<EdgeIndex>,
    pub(crate) area_cells: &'a [OnceBox<AreaIndex>],
    pub(crate) edge: Asked<'a, EdgeIndex>,
    pub(crate) areas: Vec<Asked<'a, AreaIndex>>,
    pub(crate) near: PlaceList,
    pub(crate) near_areas: PlaceList,
    pub(crate) looks: u64,
    pub(crate) alloc: Global,
}

impl<'a> Model for Session<'a> {
    ghost use Rattle.std.specs.Prelude.{map};
    ghost use Rattle.once_cell.specs.Once.{cell_name};
    ghost use Rattle.relate_prep.specs.Sessions.{SeenSession, IsSession};

    ghost Value = { SeenSession };

    ghost view = { λ s. record { figure = s.basis.now.figure; edge = s.edge; areas = s.areas.items } };

    ghost invariant = { λ s. IsSession s.basis.now.segs (cell_name s.edge_cell.now) (map cell_name s.area_cells.now)
        (record { figure = s.basis.now.figure; edge = s.edge; areas = s.areas.items }) };
}

impl<'a> Session<'a> {
    ghost use Rattle.std.specs.Prelude.{◌≡◌, ◌<◌, length, map, IfOk, OnOk};
    ghost use Rattle.once_cell.specs.Once.{cell_name};
    ghost use Rattle.point_set.specs.Validity.{IsAtPlace};
    ghost use Rattle.relate_prep.specs.Cells.{SeenCell, IsLater, KnowTheSame, WasAsked, new_cell};
    ghost use Rattle.relate_prep.specs.Sessions.{AreOfOnePrepared, KnowTheSameEach};

    /// A session that has asked for no cell.
    pub(crate) fn over(
        alloc: Global,
        basis: &'a Basis,
        edge_cell: &'a OnceBox<EdgeIndex>,
        area_cells: &'a [OnceBox<AreaIndex>],
    ) -> Result<Session<'a>, NoMemory>
        requires count { length area_cells.now ≡ length basis.now.figure.areas }
        ensures figure { IfOk result (λ s. s.figure ≡ basis.now.figure) }
        ensures edge { IfOk result (λ s. s.edge ≡ new_cell (cell_name edge_cell.now)) }
        ensures areas { IfOk result (λ s. s.areas ≡ map new_cell (map cell_name area_cells.now)) }
    {
        Ok(Session {
            basis,
            edge_cell,
            area_cells,
            edge: Asked::nothing(edge_cell),
            areas: nothing_of(alloc, area_cells)?,
            near: PlaceList::new(alloc),
            near_areas: PlaceList::new(alloc),
            looks: 0,
            alloc,
        })
    }

    /// Asks for the index of all edges.
    ///
    /// # Errors
    /// `NoMemory`, and then nothing has changed.
    pub(crate) fn ask_edges(&mut self) -> Result<(), NoMemory>
        ensures figure { self.new.figure ≡ self.old.figure }
        ensures asked { OnOk result (WasAsked self.new.edge) }
        ensures later { IsLater self.old.edge self.new.edge }
        ensures areas { self.new.areas ≡ self.old.areas }
    {
        let basis = self.basis;
        let source = AllEdges {
            alloc: self.alloc,
            segs: &basis.segs,
        };
        self.edge.ask(self.alloc, self.edge_cell, &source)
    }

    /// Compares with another session of the same prepared figure: where both know the value of a cell, the two values have the
    /// same edges. It changes nothing and takes no memory.
    pub fn compare(&mut self, other: &mut Session<'_>)
        requires one_prepared { AreOfOnePrepared self.old other.old }
        ensures edge { KnowTheSame self.old.edge other.old.edge }
        ensures areas { KnowTheSameEach self.old.areas other.old.areas }
        ensures same { self.new ≡ self.old }
        ensures other { other.new ≡ other.old }
    {
        self.edge.compare(&mut other.edge);
        compare_each(self.areas.as_mut_slice(), other.areas.as_mut_slice());
    }

    /// How the session came to know the index of all edges. Takes no memory.
    pub fn edge_origin(&self) -> Origin
        ensures origin { result ≡ self.now.edge.origin }
    {
        self.edge.origin()
    }

    /// How the session came to know the index of an area. Takes no memory.
    pub fn area_origin(&self, area: u32) -> Origin
        requires place { area < length self.now.figure.areas }
        ensures origin { (c : SeenCell) → IsAtPlace self.now.areas area c → result ≡ c.origin }
    {
        self.areas[area as usize].origin()
    }

    /// How many boxes the queries of this session looked at. It stays at 2^62 once it has reached it. Takes no memory.
    pub fn box_looks(&self) -> u64 {
        self.looks
    }
}

/// Nothing is known of any of the cells.
fn nothing_of<'a>(
    alloc: Global,
    cells: &'a [OnceBox<AreaIndex>],
) -> Result<Vec<Asked<'a, AreaIndex>>, NoMemory>
    ensures new { IfOk result (λ asked. asked.items ≡ map new_cell (map cell_name cells.now)) }
{
    let mut asked = Vec::new(alloc);
    for cell in cells {
        if asked.push(Asked::nothing(cell)).is_err() {
            return Err(NoMemory);
        }
    }
    Ok(asked)
}

/// Compares what two sessions know of the same cells, one by one.
fn compare_each(cells: &mut [Asked<'_, AreaIndex>], others: &mut [Asked<'_, AreaIndex>])
    requires names { names_of cells.old ≡ names_of others.old }
    ensures known { KnowTheSameEach cells.old others.old }
    ensures same { cells.new ≡ cells.old }
    ensures others { others.new ≡ others.old }
{
    for place in 0..cells.len() {
        cells[place].compare(&mut others[place]);
    }
}

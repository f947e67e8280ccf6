use crate::areas::IndexedAreas;
use crate::locate::locate_with;
use crate::nearby::Nearby;
use crate::places::IndexedRows;
use bound_rule::EndTable;
use figure_extent::Extents;
use im_matrix::Loc;
use plane_exact::{NoMemory, Node, PlaceList, Window};
use point_set::{DimLoc, Edge, EdgeId, Extent, Rule, Target, Valid};
use ring_sides::edges_of;
use std::alloc::Global;
use std::marker::Model;

/// A valid figure with its edges, its line ends and its envelopes. An index that finds edges in a window, and one of each area, are
/// made when they are first of use.
#[derive(Drop)]
pub struct Plain<'a> {
    valid: &'a Valid,
    edges: IndexedRows,
    areas: IndexedAreas<'a>,
    ends: EndTable,
    extents: Extents,
    near: PlaceList,
    alloc: Global,
}

impl<'a> Model for Plain<'a> {
    ghost use Rattle.union_locator.specs.Plains.{SeenPlain, IsPlain};

    ghost Value = { SeenPlain };

    ghost view = { λ p. record { figure = p.valid.now; rows = p.edges.rows; areas = p.areas.figure; ends = p.ends; extents = p.extents } };

    ghost invariant = { λ p. IsPlain (record {
      figure = p.valid.now;
      rows = p.edges.rows;
      areas = p.areas.figure;
      ends = p.ends;
      extents = p.extents;
    }) };
}

impl<'a> Plain<'a> {
    ghost use Rattle.std.specs.Prelude.{◌≡◌, IfOk};
    ghost use Rattle.plane_exact.specs.NodePoints.{point_at};
    ghost use Rattle.point_set.specs.Cover.{IsAdjacent};

    /// The figure with its edges, its line ends and its envelopes.
    ///
    /// # Errors
    /// `NoMemory`.
    pub fn new(alloc: Global, v: &'a Valid) -> Result<Plain<'a>, NoMemory>
        ensures figure { IfOk result (λ plain. plain.figure ≡ v.now) }
    {
        let ends = EndTable::build(alloc, v)?;
        let extents = Extents::of(v, &ends);
        Ok(Plain {
            valid: v,
            edges: IndexedRows::new(edges_of(alloc, v)?),
            areas: IndexedAreas::new(alloc, v)?,
            ends,
            extents,
            near: PlaceList::new(alloc),
            alloc,
        })
    }

    /// What a node is to the union of the areas: Interior where it is interior to the union, Boundary where it is covered and
    /// not interior, Exterior where no area covers it.
    ///
    /// # Errors
    /// `NoMemory`.
    pub fn adjacent(&mut self, n: &Node) -> Result<Loc, NoMemory>
        ensures adjacent { IfOk result (IsAdjacent self.new.figure (point_at n.now)) }
        ensures same { self.new ≡ self.old }
    {
        self.edges
            .places_in(self.alloc, Window::round(n), &mut self.near)?;
        let edges = &self.edges;
        let around = Nearby {
            figure: self.valid.figure(),
            rows: &edges.rows,
            places: &self.near,
            node: n,
        };
        around.adjacent(self.alloc, &mut self.areas)
    }
}

impl Target for Plain<'_> {
    ghost use Rattle.std.specs.Prelude.{ℕ};
    ghost use Rattle.point_set.specs.declared.figure.Figure.{Figure};

    ghost figure = { λ p. p.figure };

    ghost looks = { λ p. 0 };

    fn valid(&self) -> &Valid {
        self.valid
    }

    fn edge(&self, id: EdgeId) -> Edge {
        *self.edges.rows.at(id.place as usize)
    }

    fn locate(&mut self, n: &Node, rule: Rule) -> Result<DimLoc, NoMemory> {
        self.edges
            .places_in(self.alloc, Window::round(n), &mut self.near)?;
        let edges = &self.edges;
        locate_with(
            self.alloc,
            self.valid,
            &edges.rows,
            &self.near,
            &self.ends,
            &mut self.areas,
            n,
            rule,
        )
    }

    fn edges_in(&mut self, w: Window, out: &mut PlaceList) -> Result<(), NoMemory> {
        self.edges.places_in(self.alloc, w, out)
    }

    fn extent(&self, rule: Rule) -> Extent {
        self.extents.extent(rule)
    }
}

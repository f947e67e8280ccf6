//! A figure that counts how often it is asked where a node lies.
ghost use Rattle.std.specs.Prelude.{◌≡◌, IfOk};

use plane_exact::{NoMemory, Node, PlaceList, Window};
use point_set::{DimLoc, Edge, EdgeId, Extent, Rule, Target, Valid};
use std::alloc::Global;
use union_locator::Plain;

/// A figure with the number of its looks: how often a node was located in it.
#[derive(Drop)]
pub(crate) struct Counting<'a> {
    plain: Plain<'a>,
    looks: u64,
}

impl<'a> Counting<'a> {
    /// The figure, with no look yet.
    pub(crate) fn new(alloc: Global, v: &'a Valid) -> Result<Counting<'a>, NoMemory> {
        Ok(Counting {
            plain: Plain::new(alloc, v)?,
            looks: 0,
        })
    }

    /// How often a node was located.
    pub(crate) fn looks(&self) -> u64 {
        self.looks
    }
}

impl Target for Counting<'_> {
    ghost use Rattle.std.specs.Prelude.{ℕ};
    ghost use Rattle.point_set.specs.declared.figure.Figure.{Figure};

    ghost figure = { λ c. c.plain.figure };

    ghost looks = { λ c. c.looks };

    fn valid(&self) -> &Valid {
        self.plain.valid()
    }

    fn edge(&self, id: EdgeId) -> Edge {
        self.plain.edge(id)
    }

    fn locate(&mut self, n: &Node, rule: Rule) -> Result<DimLoc, NoMemory> {
        self.looks = self.looks.saturating_add(1);
        self.plain.locate(n, rule)
    }

    fn edges_in(&mut self, w: Window, out: &mut PlaceList) -> Result<(), NoMemory> {
        self.plain.edges_in(w, out)
    }

    fn extent(&self, rule: Rule) -> Extent {
        self.plain.extent(rule)
    }
}

use crate::areas::{ask_near, locate_asked};
use crate::edges::places_in;
use crate::session::Session;
use plane_exact::{NoMemory, Node, PlaceList, Window};
use point_set::{DimLoc, Edge, EdgeId, Extent, Rule, Target, Valid};

impl Target for Session<'_> {
    ghost use Rattle.std.specs.Prelude.{◌≡◌, ◌+◌, ◌≤◌, IfOk, OnOk};
    ghost use Rattle.plane_exact.specs.NodePoints.{point_at};
    ghost use Rattle.point_set.specs.Edges.{ArePlacesIn, edges_of_figure};
    ghost use Rattle.point_set.specs.Location.{IsKind};
    ghost use Rattle.relate_prep.specs.Cells.{AreLater, IsLater, WasAsked};
    ghost use Rattle.relate_prep.specs.Sessions.{AreAskedNear, AreKeptFar, looks_of};

    ghost figure = { λ s. s.figure };

    ghost looks = { λ s. looks_of s };

    fn valid(&self) -> &Valid {
        let basis = self.basis;
        &basis.valid
    }

    fn edge(&self, id: EdgeId) -> Edge {
        let basis = self.basis;
        *basis.rows.at(id.place as usize)
    }

    /// Where a node lies, with the kind of element that decides. It asks for the index of all edges, and for that of each area whose
    /// shell's box meets the least box round the node.
    ///
    /// # Errors
    /// `NoMemory`, and then what was asked before is known.
    fn locate(&mut self, n: &Node, rule: Rule) -> Result<DimLoc, NoMemory>
        ensures kind { IfOk result (IsKind self.new.figure rule (point_at n.now)) }
        ensures figure { self.new.figure ≡ self.old.figure }
        ensures looks_kept { looks_of self.old ≤ looks_of self.new }
        ensures looks { looks_of self.new ≤ looks_of self.old + 1 }
        ensures edge_asked { OnOk result (WasAsked self.new.edge) }
        ensures edge_later { IsLater self.old.edge self.new.edge }
        ensures areas_asked { OnOk result (AreAskedNear self.new.figure.areas (point_at n.now) self.new.areas) }
        ensures areas_later { AreLater self.old.areas self.new.areas }
        ensures areas_kept { AreKeptFar self.new.figure.areas (point_at n.now) self.old.areas self.new.areas }
    {
        self.ask_edges()?;
        let basis = self.basis;
        places_in(
            self.edge.index(),
            &basis.rows,
            Window::round(n),
            &mut self.near,
            &mut self.looks,
        )?;
        ask_near(
            self.alloc,
            &basis.valid,
            &basis.shells,
            self.area_cells,
            n,
            &mut self.near_areas,
            self.areas.as_mut_slice(),
        )?;
        locate_asked(
            self.alloc,
            basis,
            self.areas.as_slice(),
            &self.near,
            n,
            rule,
        )
    }

    /// Makes `out` the places of exactly the edges whose windows meet `w`, ascending. It asks for the index of all edges.
    ///
    /// # Errors
    /// `NoMemory`, and then `out` holds any list.
    fn edges_in(&mut self, w: Window, out: &mut PlaceList) -> Result<(), NoMemory>
        ensures places { OnOk result (ArePlacesIn w (edges_of_figure self.new.figure) out.new) }
        ensures figure { self.new.figure ≡ self.old.figure }
        ensures asked { OnOk result (WasAsked self.new.edge) }
        ensures later { IsLater self.old.edge self.new.edge }
        ensures areas { self.new.areas ≡ self.old.areas }
    {
        self.ask_edges()?;
        let basis = self.basis;
        places_in(self.edge.index(), &basis.rows, w, out, &mut self.looks)
    }

    fn extent(&self, rule: Rule) -> Extent {
        let basis = self.basis;
        basis.extents.extent(rule)
    }
}

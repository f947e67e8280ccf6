ghost use Rattle.std.specs.Prelude.{◌≡◌, ◌<◌, ◌↔◌, ℕ, false, IsTrue, None, IfOk, IfSome, IfNone, All, Contains};
ghost use Rattle.im_matrix.specs.declared.Loc.TheVariants as loc;
ghost use Rattle.im_matrix.specs.declared.Which.TheVariants as which;
ghost use Rattle.plane_exact.specs.NodePoints.{point_at};
ghost use Rattle.plane_exact.specs.Places.{IsInLimit};
ghost use Rattle.point_set.specs.Cover.{IsAdjacent};
ghost use Rattle.point_set.specs.Edges.{area_of};
ghost use Rattle.point_set.specs.Location.{IsKind, is_covered, is_on_line as is_on_line_of};
ghost use Rattle.point_set.specs.Sectors.{sectors_of};
ghost use Rattle.point_set.specs.Validity.{IsAtPlace};
ghost use Rattle.point_set.specs.declared.edge.Edge.{Edge};
ghost use Rattle.bound_rule.specs.Ends.{AreEndsOf};
ghost use Rattle.fan_order.specs.Rays.{IsShort};
ghost use Rattle.fan_order.specs.Sections.{AreHandsAlike, AreSectionsAt, AreSided, IsSectorInside};
ghost use Rattle.point_set.specs.Location.{areas_alone};
ghost use Rattle.union_locator.specs.Areas.{IsInAreas};
ghost use Rattle.union_locator.specs.Nearby.{IsNearby, IsAreaEdgeAt, IsLineEdgeAt};

use crate::areas::{AreaLocs, locate_in_areas};
use bound_rule::{EndTable, in_boundary};
use fan_order::{Fan, SectionList, add_sections};
use im_matrix::{Loc, Which};
use plane_exact::{NoMemory, Node, PlaceList, on_segment};
use point_set::{DimLoc, Edge, EdgeRows, Figure, Owner, Rule};
use std::alloc::Global;

/// A node, and the edges of a valid figure near it: the figure's edges and the places of those near the node.
#[derive(Clone, Copy)]
pub(crate) struct Nearby<'a> {
    pub(crate) figure: &'a Figure,
    pub(crate) rows: &'a EdgeRows,
    pub(crate) places: &'a PlaceList,
    pub(crate) node: &'a Node,
}

impl Nearby<'_> {
    /// What the node is to the union of the areas. The edges round it are walked only where it is on the boundary of an area
    /// and inside none.
    pub(crate) fn adjacent<L: AreaLocs>(
        &self,
        alloc: Global,
        areas: &mut L,
    ) -> Result<Loc, NoMemory>
        requires near { IsNearby self.now.figure.now (point_at self.now.node.now) self.now.rows.now self.now.places.now }
        requires figure { L.figure areas.old ≡ self.now.figure.now }
        ensures adjacent { IfOk result (IsAdjacent self.now.figure.now (point_at self.now.node.now)) }
        ensures figure { L.figure areas.new ≡ L.figure areas.old }
    {
        match locate_in_areas(alloc, self.figure, areas, self.node)? {
            Loc::Boundary => self.walk_round(alloc),
            apart => Ok(apart),
        }
    }

    /// Walks round a node that is on the boundary of areas and inside none: it is interior to their union where every sector
    /// is inside one of them.
    fn walk_round(&self, alloc: Global) -> Result<Loc, NoMemory>
        requires near { IsNearby self.now.figure.now (point_at self.now.node.now) self.now.rows.now self.now.places.now }
        requires boundary { IsInAreas self.now.figure.now.areas (point_at self.now.node.now) loc.Boundary }
        ensures adjacent { IfOk result (IsAdjacent self.now.figure.now (point_at self.now.node.now)) }
    {
        let sections = self.area_sections(alloc)?;
        let fan = Fan::gather(alloc, &sections)?;
        if are_all_inside(&fan) {
            Ok(Loc::Interior)
        } else {
            Ok(Loc::Boundary)
        }
    }

    /// The sections at the node of the edges of areas.
    fn area_sections(&self, alloc: Global) -> Result<SectionList, NoMemory>
        requires near { IsNearby self.now.figure.now (point_at self.now.node.now) self.now.rows.now self.now.places.now }
        ensures sections { IfOk result (AreSectionsAt which.A (areas_alone self.now.figure.now) (point_at self.now.node.now)) }
        ensures short { IfOk result (All (λ s. IsShort s.dir)) }
    {
        let mut sections = SectionList::new(alloc);
        for place in self.places.as_slice() {
            if let Some(edge) = self.area_edge(*place) {
                add_sections(&mut sections, &edge, self.node, Which::A)?;
            }
        }
        Ok(sections)
    }

    /// The edge at one of the places, where it is one of an area and holds the node.
    fn area_edge(&self, place: u32) -> Option<Edge>
        requires near { IsNearby self.now.figure.now (point_at self.now.node.now) self.now.rows.now self.now.places.now }
        requires place { Contains self.now.places.now place }
        ensures edge { IfSome result (IsAreaEdgeAt self.now.rows.now place (point_at self.now.node.now)) }
        ensures none { IfNone result ((edge : Edge) → ¬ IsAreaEdgeAt self.now.rows.now place (point_at self.now.node.now) edge) }
    {
        let edge = self.edge_at(place);
        if !is_of_line(edge.owner) && on_segment(edge.seg, self.node) {
            Some(edge)
        } else {
            None
        }
    }

    /// Where a node lies that no area covers: on a line, and there boundary or not by the rule, else at a point, else nowhere.
    /// Takes no memory.
    pub(crate) fn locate_off_areas(&self, ends: &EndTable, rule: Rule) -> DimLoc
        requires near { IsNearby self.now.figure.now (point_at self.now.node.now) self.now.rows.now self.now.places.now }
        requires ends { AreEndsOf self.now.figure.now ends.now }
        requires uncovered { is_covered self.now.figure.now (point_at self.now.node.now) ≡ false }
        ensures kind { IsKind self.now.figure.now rule (point_at self.now.node.now) result }
    {
        if self.is_on_line() {
            return if in_boundary(rule, ends.count(self.node)) {
                DimLoc::LineBoundary
            } else {
                DimLoc::LineInterior
            };
        }
        if ends.is_spot(self.node) {
            DimLoc::PointInterior
        } else {
            DimLoc::Exterior
        }
    }

    /// Whether the node is on an edge of a line.
    fn is_on_line(&self) -> bool
        requires near { IsNearby self.now.figure.now (point_at self.now.node.now) self.now.rows.now self.now.places.now }
        ensures line { result ≡ is_on_line_of self.now.figure.now (point_at self.now.node.now) }
    {
        for place in self.places.as_slice() {
            if self.is_on_line_at(*place) {
                return true;
            }
        }
        false
    }

    /// Whether the edge at one of the places is one of a line and holds the node.
    fn is_on_line_at(&self, place: u32) -> bool
        requires near { IsNearby self.now.figure.now (point_at self.now.node.now) self.now.rows.now self.now.places.now }
        requires place { Contains self.now.places.now place }
        ensures line { IsTrue result ↔ ((edge : Edge) × IsLineEdgeAt self.now.rows.now place (point_at self.now.node.now) edge) }
    {
        let edge = self.edge_at(place);
        is_of_line(edge.owner) && on_segment(edge.seg, self.node)
    }

    /// The edge at one of the places.
    fn edge_at(&self, place: u32) -> Edge
        requires near { IsNearby self.now.figure.now (point_at self.now.node.now) self.now.rows.now self.now.places.now }
        requires place { Contains self.now.places.now place }
        ensures is { IsAtPlace self.now.rows.now place result }
        ensures first { IsInLimit result.seg.a }
        ensures second { IsInLimit result.seg.b }
    {
        *self.rows.at(place as usize)
    }
}

/// Whether an edge belongs to a line.
fn is_of_line(owner: Owner) -> bool
    ensures line { IsTrue result ↔ (area_of owner ≡ None) }
{
    matches!(owner, Owner::Line(_))
}

/// Whether every sector of a fan is inside an area of the first figure.
fn are_all_inside(fan: &Fan) -> bool
    ensures all { AreHandsAlike which.A fan.now.sections → AreSided which.A fan.now.sections
        → (IsTrue result ↔ ((i : ℕ) → i < sectors_of fan.now.rays → IsSectorInside which.A fan.now.sections fan.now.rays i)) }
{
    (0..fan.sectors()).all(|i| fan.is_inside(Which::A, i))
}

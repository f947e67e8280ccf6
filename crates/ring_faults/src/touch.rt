ghost use Rattle.std.specs.Prelude.{◌≡◌, ◌∷◌, ◌++◌, ◌<◌, ◌≤◌, [], List, length, All, Contains, IfOk, OnOk};
ghost use Rattle.point_set.specs.Validity.{ShareSegment};
ghost use Rattle.ring_faults.specs.declared.part.PartEdge.{PartEdge};
ghost use Rattle.ring_faults.specs.declared.clash.Clash.TheVariants.{Sharing};
ghost use Rattle.ring_faults.specs.Clashes.{SomeClash};
ghost use Rattle.ring_faults.specs.Parts.{IsEdgeSound, AreEdgesSound};
ghost use Rattle.ring_faults.specs.Touches.{IsAmong, AddsTouches, AreLinksOfParts};

use crate::link::Link;
use crate::near::NearEdges;
use crate::part::{PartEdge, PartEdges};
use plane_exact::{NoMemory, PlaceList};
use seg_cross::{Meet, meet};
use std::alloc::Global;

/// The links of the points at which edges of two parts touch. No two such edges have a common segment.
pub(crate) fn links_of(alloc: Global, edges: PartEdges) -> Result<Vec<Link>, NoMemory>
    requires few { length edges ≤ 1048576 }
    requires sound { AreEdgesSound edges }
    requires unshared { ¬ SomeClash Sharing edges }
    ensures links { IfOk result (λ links. AreLinksOfParts edges (λ e. Contains edges e) links.items) }
{
    let near = NearEdges::new(alloc, edges)?;
    let mut places = PlaceList::new(alloc);
    let mut links = Vec::new(alloc);
    for i in 0..near.edges.len() {
        let e = *near.edges.at(i);
        near.places_near(e.seg, &mut places)?;
        add_touches(&mut links, &near.edges, e, &places)?;
    }
    Ok(links)
}

/// Adds the links of the points at which an edge touches one of an earlier part, among those at some places.
fn add_touches(
    links: &mut Vec<Link>,
    edges: &PartEdges,
    e: PartEdge,
    places: &PlaceList,
) -> Result<(), NoMemory>
    requires sound { AreEdgesSound edges.now }
    requires unshared { ¬ SomeClash Sharing edges.now }
    requires there { Contains edges.now e }
    requires places { All (λ place. place < length edges.now) places.now }
    ensures adds { OnOk result (AddsTouches edges.now e (IsAmong edges.now places.now) links.old.items links.new.items) }
{
    for place in places.as_slice() {
        let f = *edges.at(*place as usize);
        if f.part < e.part {
            add_touch(links, e, f)?;
        }
    }
    Ok(())
}

/// Adds the links of the point at which two edges touch.
fn add_touch(links: &mut Vec<Link>, e: PartEdge, f: PartEdge) -> Result<(), NoMemory>
    requires e { IsEdgeSound e.seg }
    requires f { IsEdgeSound f.seg }
    requires unshared { ¬ ShareSegment e.seg f.seg }
    ensures adds { OnOk result ((edges : List PartEdge) → Contains edges e → Contains edges f
        → AddsTouches edges e (λ other. other ≡ f) links.old.items links.new.items) }
{
    match meet(e.seg, f.seg) {
        Meet::Apart | Meet::Along(_, _) => Ok(()),
        Meet::At(node) => {
            push_link(links, Link { node, ring: e.part })?;
            push_link(links, Link { node, ring: f.part })
        }
    }
}

/// Adds a link.
fn push_link(links: &mut Vec<Link>, link: Link) -> Result<(), NoMemory>
    ensures ok { OnOk result (links.new.items ≡ links.old.items ++ link ∷ []) }
{
    match links.push(link) {
        Ok(()) => Ok(()),
        Err(_) => Err(NoMemory),
    }
}

use crate::asked::Asked;
use crate::sources::AllEdges;
use crate::{Origin, Prepared};
use edge_index::EdgeIndex;
use once_cell::race::OnceBox;
use plane_exact::{NoMemory, Node, Path, PlaceList, Pt, Seg, SegList, Window};
use point_set::{Areas, DimLoc, Figure, Paths, Rule, Target, Valid, well_shaped};
use std::alloc::Global;
use std::test::*;

/// The figure of one line from the origin, or None where it isn't well shaped.
fn line(alloc: Global) -> Result<Option<Valid>, NoMemory> {
    let mut way = Path::new(alloc);
    way.push(Pt { x: 0, y: 0 })?;
    way.push(Pt { x: 4, y: 2 })?;
    let mut lines = Paths::new(alloc);
    lines.push(way)?;
    let figure = Figure {
        points: Path::new(alloc),
        lines,
        areas: Areas::new(alloc),
    };
    if well_shaped(&figure) {
        Ok(Some(Valid::seal(figure)))
    } else {
        Ok(None)
    }
}

#[test]
fn a_new_session_has_asked_for_nothing(rt: HostRuntime) -> Result<(), Fail> {
    let figure = line(rt.alloc())?.ok_or("not well shaped")?;
    let prepared = Prepared::new(rt.alloc(), figure)?;
    let session = prepared.session()?;
    assert_eq!(rt; session.edge_origin(), Origin::Unused);
    assert_eq!(rt; session.box_looks(), 0);
    Ok(())
}

#[test]
fn the_first_makes_and_the_second_finds(rt: HostRuntime) -> Result<(), Fail> {
    let mut segs = SegList::new(rt.alloc());
    segs.push(Seg {
        a: Pt { x: 0, y: 0 },
        b: Pt { x: 4, y: 2 },
    })?;
    assert_eq!(rt; segs.len(), 1);
    let source = AllEdges {
        alloc: rt.alloc(),
        segs: &segs,
    };
    let cell: OnceBox<EdgeIndex> = OnceBox::new(rt.alloc());
    let mut first = Asked::nothing(&cell);
    assert_eq!(rt; first.origin(), Origin::Unused);
    first.ask(rt.alloc(), &cell, &source)?;
    assert_eq!(rt; first.origin(), Origin::Made);
    let mut second = Asked::nothing(&cell);
    second.ask(rt.alloc(), &cell, &source)?;
    assert_eq!(rt; second.origin(), Origin::Found);
    assert!(rt; second.index().is_some());
    Ok(())
}

/// How many edges of a target meet the box of one position.
fn edges_at<T: Target>(alloc: Global, target: &mut T, p: Pt) -> Result<usize, NoMemory> {
    let mut places = PlaceList::new(alloc);
    target.edges_in(Window::of(Seg { a: p, b: p }), &mut places)?;
    Ok(places.len())
}

#[test]
fn sessions_share_the_index_of_all_edges(rt: HostRuntime) -> Result<(), Fail> {
    let figure = line(rt.alloc())?.ok_or("not well shaped")?;
    let prepared = Prepared::new(rt.alloc(), figure)?;
    let mut first = prepared.session()?;
    assert_eq!(rt; edges_at(rt.alloc(), &mut first, Pt { x: 1, y: 1 })?, 1);
    assert_eq!(rt; first.edge_origin(), Origin::Made);
    assert!(rt; first.box_looks() >= 1);
    let mut second = prepared.session()?;
    assert_eq!(rt; edges_at(rt.alloc(), &mut second, Pt { x: 5, y: 5 })?, 0);
    assert_eq!(rt; second.edge_origin(), Origin::Found);
    Ok(())
}

#[test]
fn two_sessions_can_be_compared(rt: HostRuntime) -> Result<(), Fail> {
    let figure = line(rt.alloc())?.ok_or("not well shaped")?;
    let prepared = Prepared::new(rt.alloc(), figure)?;
    let mut first = prepared.session()?;
    let mut second = prepared.session()?;
    let mut places = PlaceList::new(rt.alloc());
    let everywhere = Window::of(Seg {
        a: Pt { x: 0, y: 0 },
        b: Pt { x: 4, y: 2 },
    });
    first.edges_in(everywhere, &mut places)?;
    second.edges_in(everywhere, &mut places)?;
    first.compare(&mut second);
    assert_eq!(rt; first.edge_origin(), Origin::Made);
    assert_eq!(rt; second.edge_origin(), Origin::Found);
    Ok(())
}

#[test]
fn a_session_locates_nodes(rt: HostRuntime) -> Result<(), Fail> {
    let figure = line(rt.alloc())?.ok_or("not well shaped")?;
    let prepared = Prepared::new(rt.alloc(), figure)?;
    let mut session = prepared.session()?;
    let middle = Node::at_point(Pt { x: 2, y: 1 });
    assert_eq!(rt; session.locate(&middle, Rule::Mod2)?, DimLoc::LineInterior);
    let end = Node::at_point(Pt { x: 4, y: 2 });
    assert_eq!(rt; session.locate(&end, Rule::Mod2)?, DimLoc::LineBoundary);
    assert_eq!(rt; session.edge_origin(), Origin::Made);
    Ok(())
}

fn can_be_shared<T: Send + Sync>() -> bool {
    true
}

#[test]
fn a_prepared_figure_can_be_shared_by_threads(rt: HostRuntime) {
    assert!(rt; can_be_shared::<Prepared>());
    assert!(rt; can_be_shared::<Origin>());
}

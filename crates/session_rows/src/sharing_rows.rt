//! Sessions of one prepared figure: which makes an index and which finds it, and at how many boxes a query looks.
use plane_exact::{NoMemory, Node, PlaceList, Pt, Window};
use point_set::{DimLoc, Rule, Target};
use relate_prep::{Origin, Prepared, Session};
use row_figures::{SQUARE, comb_of_sample, figure_of};
use std::alloc::Global;
use std::test::Fail;

/// How a session came to know the index of all edges, and that of the first area.
#[derive(Clone, Copy, Debug, PartialEq, Eq)]
struct Origins {
    edges: Origin,
    area: Origin,
}

const NOTHING: Origins = Origins {
    edges: Origin::Unused,
    area: Origin::Unused,
};

/// What a session knows of a figure with an area.
fn known(session: &Session) -> Option<Origins> {
    if session.valid().figure().areas.len() == 0 {
        return None;
    }
    Some(Origins {
        edges: session.edge_origin(),
        area: session.area_origin(0),
    })
}

/// The places of the edges whose windows hold a position.
fn edges_at<T: Target>(
    alloc: Global,
    target: &mut T,
    x: i64,
    y: i64,
) -> Result<PlaceList, NoMemory> {
    let mut near = PlaceList::new(alloc);
    let here = Window {
        low_x: x,
        low_y: y,
        high_x: x,
        high_y: y,
    };
    target.edges_in(here, &mut near)?;
    Ok(near)
}

/// Where the position (1, 1) lies.
fn locate_inside<T: Target>(target: &mut T) -> Result<DimLoc, NoMemory> {
    target.locate(&Node::at_point(Pt { x: 1, y: 1 }), Rule::Mod2)
}

/// The square, prepared.
fn square(alloc: Global) -> Result<Prepared, Fail> {
    let figure = figure_of(alloc, SQUARE)?;
    Ok(Prepared::new(alloc, figure)?)
}

/// What a session knows that asks for nothing.
fn of_new(prepared: &Prepared) -> Result<Option<Origins>, NoMemory> {
    let session = prepared.session()?;
    Ok(known(&session))
}

/// What a session knows that asks for the edges at a position, and their places.
fn of_edges(
    alloc: Global,
    prepared: &Prepared,
    x: i64,
    y: i64,
) -> Result<(Option<Origins>, PlaceList), NoMemory> {
    let mut session = prepared.session()?;
    let near = edges_at(alloc, &mut session, x, y)?;
    Ok((known(&session), near))
}

/// What a session knows that locates a position, and where that lies.
fn of_locating(prepared: &Prepared) -> Result<(Option<Origins>, DimLoc), NoMemory> {
    let mut session = prepared.session()?;
    let loc = locate_inside(&mut session)?;
    Ok((known(&session), loc))
}

/// What two sessions know that are made before either asks: the one that asks first, and the other.
fn of_two(prepared: &Prepared) -> Result<(Option<Origins>, Option<Origins>), NoMemory> {
    let mut late = prepared.session()?;
    let mut early = prepared.session()?;
    locate_inside(&mut early)?;
    locate_inside(&mut late)?;
    Ok((known(&early), known(&late)))
}

/// Whether these are the places.
fn are(places: &PlaceList, wanted: &[u32]) -> bool {
    places.as_slice() == wanted
}

/// Whether a session that asks for the edges at a position finds these, and what it knows then.
fn finds(
    alloc: Global,
    prepared: &Prepared,
    at: Pt,
    wanted: &[u32],
) -> Result<Option<Origins>, NoMemory> {
    let (known, near) = of_edges(alloc, prepared, at.x, at.y)?;
    Ok(if are(&near, wanted) { known } else { None })
}

#[test]
fn the_first_query_makes_an_index(rt: HostRuntime) -> Result<(), Fail> {
    let prepared = square(rt.alloc())?;
    let made = finds(rt.alloc(), &prepared, Pt { x: 0, y: 2 }, &[3])?;
    let edges = Origin::Made;
    assert!(rt; made == Some(Origins { edges, ..NOTHING }));
    Ok(())
}

#[test]
fn another_session_finds_the_index(rt: HostRuntime) -> Result<(), Fail> {
    let prepared = square(rt.alloc())?;
    finds(rt.alloc(), &prepared, Pt { x: 0, y: 2 }, &[3])?;
    let found = finds(rt.alloc(), &prepared, Pt { x: 4, y: 4 }, &[1, 2])?;
    let edges = Origin::Found;
    assert!(rt; found == Some(Origins { edges, ..NOTHING }));
    Ok(())
}

#[test]
fn a_session_that_asks_nothing_knows_nothing(rt: HostRuntime) -> Result<(), Fail> {
    let prepared = square(rt.alloc())?;
    assert!(rt; of_new(&prepared)? == Some(NOTHING));
    Ok(())
}

const MADE: Origins = Origins {
    edges: Origin::Made,
    area: Origin::Made,
};

const FOUND: Origins = Origins {
    edges: Origin::Found,
    area: Origin::Found,
};

#[test]
fn of_two_new_sessions_the_first_to_ask_makes_the_indexes(rt: HostRuntime) -> Result<(), Fail> {
    let prepared = square(rt.alloc())?;
    let (early, late) = of_two(&prepared)?;
    assert_eq!(rt; early, Some(MADE));
    assert_eq!(rt; late, Some(FOUND));
    let (third, loc) = of_locating(&prepared)?;
    assert_eq!(rt; third, Some(FOUND));
    assert_eq!(rt; loc, DimLoc::AreaInterior);
    Ok(())
}

/// At how many boxes a session looks that asks for the edges at a position, and their places.
fn looks_at(
    alloc: Global,
    prepared: &Prepared,
    x: i64,
    y: i64,
) -> Result<(u64, PlaceList), NoMemory> {
    let mut session = prepared.session()?;
    let near = edges_at(alloc, &mut session, x, y)?;
    Ok((session.box_looks(), near))
}

/// The comb has 800 edges, and only the last one, its left side, is at that position.
#[test]
fn a_query_looks_at_few_boxes(rt: HostRuntime) -> Result<(), Fail> {
    let prepared = Prepared::new(rt.alloc(), comb_of_sample(rt.alloc(), 200)?)?;
    let (looks, near) = looks_at(rt.alloc(), &prepared, 0, 50)?;
    assert_eq!(rt; near.as_slice(), [799].as_slice());
    assert!(rt; 1 <= looks && looks <= 200, "{looks} looks");
    Ok(())
}

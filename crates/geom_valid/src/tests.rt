//! Figures that are valid, and figures with each fault; the faults were found by hand.
use super::{AdmitFault, InvalidKind, admit};
use plane_exact::{NoMemory, Path, Pt};
use point_set::{Area, Figure, Paths, well_shaped};
use std::alloc::Global;
use std::test::Fail;

const SQUARE: &[(i64, i64)] = &[(0, 0), (9, 0), (9, 9), (0, 9), (0, 0)];

/// A line or a ring by its positions.
fn way(alloc: Global, positions: &[(i64, i64)]) -> Result<Path, NoMemory> {
    let mut way = Path::new(alloc);
    for p in positions {
        way.push(Pt { x: p.0, y: p.1 })?;
    }
    Ok(way)
}

/// Adds an area without holes.
fn add_area(
    alloc: Global,
    figure: &mut Figure,
    group: u32,
    shell: &[(i64, i64)],
) -> Result<(), NoMemory> {
    figure.areas.push(Area {
        shell: way(alloc, shell)?,
        holes: Paths::new(alloc),
        group,
    })
}

/// The figure of one area without holes.
fn plain(alloc: Global, shell: &[(i64, i64)]) -> Result<Figure, NoMemory> {
    let mut figure = Figure::empty(alloc);
    add_area(alloc, &mut figure, 0, shell)?;
    Ok(figure)
}

/// The figure of one area with one hole.
fn holed(alloc: Global, shell: &[(i64, i64)], hole: &[(i64, i64)]) -> Result<Figure, NoMemory> {
    let mut holes = Paths::new(alloc);
    holes.push(way(alloc, hole)?)?;
    let mut figure = Figure::empty(alloc);
    figure.areas.push(Area {
        shell: way(alloc, shell)?,
        holes,
        group: 0,
    })?;
    Ok(figure)
}

/// The square with two holes.
fn twice_holed(
    alloc: Global,
    one: &[(i64, i64)],
    other: &[(i64, i64)],
) -> Result<Figure, NoMemory> {
    let mut holes = Paths::new(alloc);
    holes.push(way(alloc, one)?)?;
    holes.push(way(alloc, other)?)?;
    let mut figure = Figure::empty(alloc);
    figure.areas.push(Area {
        shell: way(alloc, SQUARE)?,
        holes,
        group: 0,
    })?;
    Ok(figure)
}

/// Two areas without holes, each of its group.
fn two(
    alloc: Global,
    one: &[(i64, i64)],
    other: &[(i64, i64)],
    groups: (u32, u32),
) -> Result<Figure, NoMemory> {
    let mut figure = Figure::empty(alloc);
    add_area(alloc, &mut figure, groups.0, one)?;
    add_area(alloc, &mut figure, groups.1, other)?;
    Ok(figure)
}

/// Why a figure isn't admitted, or None where it is.
fn refusal(alloc: Global, figure: Figure) -> Option<AdmitFault> {
    if !well_shaped(&figure) {
        return Some(AdmitFault::NoMemory);
    }
    match admit(alloc, figure) {
        Ok(_) => None,
        Err(fault) => Some(fault),
    }
}

fn bad(kind: InvalidKind, element: u32) -> Option<AdmitFault> {
    Some(AdmitFault::Bad(kind, element))
}

#[test]
fn a_ring_of_two_positions(rt: HostRuntime) -> Result<(), Fail> {
    let figure = plain(rt.alloc(), &[(0, 0), (4, 0), (0, 0), (0, 0)])?;
    assert_eq!(rt;
        refusal(rt.alloc(), figure),
        bad(InvalidKind::TooFewPoints, 1)
    );
    Ok(())
}

#[test]
fn a_bow_tie(rt: HostRuntime) -> Result<(), Fail> {
    let figure = plain(rt.alloc(), &[(0, 0), (4, 4), (4, 0), (0, 4), (0, 0)])?;
    assert_eq!(rt; refusal(rt.alloc(), figure), bad(InvalidKind::RingCross, 1));
    Ok(())
}

#[test]
fn a_hole_along_the_shell(rt: HostRuntime) -> Result<(), Fail> {
    let figure = holed(
        rt.alloc(),
        SQUARE,
        &[(0, 3), (3, 3), (3, 6), (0, 6), (0, 3)],
    )?;
    assert_eq!(rt;
        refusal(rt.alloc(), figure),
        bad(InvalidKind::RingsShareEdge, 1)
    );
    Ok(())
}

#[test]
fn a_hole_apart_from_the_shell(rt: HostRuntime) -> Result<(), Fail> {
    let figure = holed(
        rt.alloc(),
        SQUARE,
        &[(20, 20), (22, 20), (22, 22), (20, 22), (20, 20)],
    )?;
    assert_eq!(rt;
        refusal(rt.alloc(), figure),
        bad(InvalidKind::HoleOutside, 1)
    );
    Ok(())
}

#[test]
fn holes_that_overlap(rt: HostRuntime) -> Result<(), Fail> {
    let one = [(1, 1), (5, 1), (5, 5), (1, 5), (1, 1)];
    let other = [(3, 3), (7, 3), (7, 7), (3, 7), (3, 3)];
    let figure = twice_holed(rt.alloc(), &one, &other)?;
    assert_eq!(rt;
        refusal(rt.alloc(), figure),
        bad(InvalidKind::HolesOverlap, 1)
    );
    Ok(())
}

#[test]
fn a_hole_that_touches_the_shell_twice(rt: HostRuntime) -> Result<(), Fail> {
    let shell = [(0, 0), (8, 0), (8, 8), (0, 8), (0, 0)];
    let figure = holed(
        rt.alloc(),
        &shell,
        &[(0, 4), (4, 1), (8, 4), (4, 7), (0, 4)],
    )?;
    assert_eq!(rt;
        refusal(rt.alloc(), figure),
        bad(InvalidKind::Disconnected, 1)
    );
    Ok(())
}

#[test]
fn areas_of_one_group_side_by_side(rt: HostRuntime) -> Result<(), Fail> {
    let left = [(0, 0), (4, 0), (4, 4), (0, 4), (0, 0)];
    let right = [(4, 0), (8, 0), (8, 4), (4, 4), (4, 0)];
    let figure = two(rt.alloc(), &left, &right, (0, 0))?;
    assert_eq!(rt;
        refusal(rt.alloc(), figure),
        bad(InvalidKind::ElementsShareEdge, 2)
    );
    Ok(())
}

#[test]
fn areas_that_overlap(rt: HostRuntime) -> Result<(), Fail> {
    let low = [(0, 0), (4, 0), (4, 4), (0, 4), (0, 0)];
    let high = [(2, 2), (6, 2), (6, 6), (2, 6), (2, 2)];
    let figure = two(rt.alloc(), &low, &high, (0, 0))?;
    assert_eq!(rt;
        refusal(rt.alloc(), figure),
        bad(InvalidKind::ElementsOverlap, 2)
    );
    let apart = two(rt.alloc(), &low, &high, (0, 1))?;
    assert_eq!(rt; refusal(rt.alloc(), apart), None);
    Ok(())
}

#[test]
fn a_hole_that_touches_the_shell_once(rt: HostRuntime) -> Result<(), Fail> {
    let figure = holed(rt.alloc(), SQUARE, &[(0, 4), (4, 2), (4, 6), (0, 4)])?;
    assert_eq!(rt; refusal(rt.alloc(), figure), None);
    Ok(())
}

#[test]
fn a_hole_that_leaves_the_shell_at_two_vertices(rt: HostRuntime) -> Result<(), Fail> {
    let figure = holed(
        rt.alloc(),
        SQUARE,
        &[(5, 4), (9, 0), (12, 4), (9, 9), (5, 4)],
    )?;
    assert_eq!(rt;
        refusal(rt.alloc(), figure),
        bad(InvalidKind::HoleOutside, 1)
    );
    Ok(())
}

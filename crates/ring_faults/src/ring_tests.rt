//! Rings and areas whose faults were found by hand.
ghost use Rattle.std.specs.Prelude.{◌<◌, ◌≤◌, length};
ghost use Rattle.point_set.specs.Shape.{IsAreaShaped, IsWellShaped, positions_of_area};

use super::{crosses_itself, has_cycle, has_too_few, rings_share};
use plane_exact::{NoMemory, Path, Pt};
use point_set::{Area, Figure, Paths, well_shaped};
use std::alloc::Global;
use std::process::Abort;
use std::test::Fail;

const SQUARE: &[(i64, i64)] = &[(0, 0), (12, 0), (12, 12), (0, 12), (0, 0)];

const BOW_TIE: &[(i64, i64)] = &[(0, 0), (4, 4), (4, 0), (0, 4), (0, 0)];

const SPIKE: &[(i64, i64)] = &[(0, 0), (4, 0), (8, 0), (4, 0), (4, 4), (0, 0)];

const SPIKE_AT_THE_END: &[(i64, i64)] = &[(4, 0), (4, 4), (0, 0), (4, 0), (8, 0), (4, 0)];

const FIGURE_EIGHT: &[(i64, i64)] = &[(0, 0), (2, 2), (4, 0), (4, 4), (2, 2), (0, 4), (0, 0)];

const VERTEX_ON_AN_EDGE: &[(i64, i64)] = &[(0, 0), (4, 0), (4, 4), (2, 0), (0, 4), (0, 0)];

const TWICE_ROUND: &[(i64, i64)] = &[(0, 0), (4, 0), (0, 4), (0, 0), (4, 0), (0, 4), (0, 0)];

const TRIANGLE: &[(i64, i64)] = &[(0, 0), (4, 0), (0, 4), (0, 0)];

const REPEATED: &[(i64, i64)] = &[(0, 0), (0, 0), (4, 0), (4, 0), (4, 4), (0, 0), (0, 0)];

const THREE_ON_A_LINE: &[(i64, i64)] = &[(0, 0), (1, 1), (2, 2), (0, 0)];

const TO_AND_FRO: &[(i64, i64)] = &[(0, 0), (4, 0), (0, 0), (4, 0), (0, 0)];

const ONE_POSITION: &[(i64, i64)] = &[(3, 3), (3, 3), (3, 3), (3, 3)];

const HOLE_ON_THE_SHELL: &[(i64, i64)] = &[(0, 2), (2, 2), (2, 4), (0, 4), (0, 2)];

const LEFT_WEDGE: &[(i64, i64)] = &[(0, 6), (4, 4), (3, 8), (0, 6)];

const LOWER_WEDGE: &[(i64, i64)] = &[(6, 0), (8, 3), (4, 4), (6, 0)];

const ACROSS_THE_CORNER: &[(i64, i64)] = &[(0, 6), (6, 0), (6, 6), (0, 6)];

const CHEVRON: &[(i64, i64)] = &[(2, 2), (5, 3), (8, 2), (5, 4), (2, 2)];

const BELOW_THE_CHEVRON: &[(i64, i64)] = &[(2, 2), (5, 1), (8, 2), (2, 2)];

const LEFT_OF_THREE: &[(i64, i64)] = &[(4, 6), (3, 3), (6, 2), (4, 6)];

const RIGHT_OF_THREE: &[(i64, i64)] = &[(6, 2), (9, 3), (8, 6), (6, 2)];

const TOP_OF_THREE: &[(i64, i64)] = &[(8, 6), (6, 9), (4, 6), (8, 6)];

const TOP_LEFT_OPEN: &[(i64, i64)] = &[(8, 6), (6, 9), (4, 7), (8, 6)];

const WEST_OF_SIX: &[(i64, i64)] = &[(6, 6), (3, 5), (3, 7), (6, 6)];

const EAST_OF_SIX: &[(i64, i64)] = &[(6, 6), (9, 5), (9, 7), (6, 6)];

const NORTH_OF_SIX: &[(i64, i64)] = &[(6, 6), (7, 9), (5, 9), (6, 6)];

/// The first area of a figure.
fn first_area(figure: &Figure) -> &Area
    requires shaped { IsWellShaped figure.now }
    requires some { 0 < length figure.now.areas }
    ensures shaped { IsAreaShaped result.now }
    ensures few { positions_of_area result.now ≤ 1048576 }
{
    figure.areas.at(0)
}

fn ring_of(alloc: Global, positions: &[(i64, i64)]) -> Result<Path, NoMemory> {
    let mut ring = Path::new(alloc);
    for (x, y) in positions {
        ring.push(Pt { x: *x, y: *y })?;
    }
    Ok(ring)
}

/// The figure of one area.
fn figure_of(
    alloc: Global,
    shell: &[(i64, i64)],
    holes: &[&[(i64, i64)]],
) -> Result<Figure, NoMemory> {
    let mut rings = Paths::new(alloc);
    for hole in holes {
        rings.push(ring_of(alloc, hole)?)?;
    }
    let mut figure = Figure::empty(alloc);
    figure.areas.push(Area {
        shell: ring_of(alloc, shell)?,
        holes: rings,
        group: 0,
    })?;
    Ok(figure)
}

/// Whether the ring crosses itself.
fn crosses(rt: &impl Abort, alloc: Global, positions: &[(i64, i64)]) -> Result<bool, Fail> {
    let figure = figure_of(alloc, positions, &[])?;
    assert!(rt; well_shaped(&figure));
    assert!(rt; figure.areas.len() > 0);
    let crosses = crosses_itself(alloc, &first_area(&figure).shell)?;
    Ok(crosses)
}

/// Whether rings of the area with this shell and these holes have a common segment.
fn shares(
    rt: &impl Abort,
    alloc: Global,
    shell: &[(i64, i64)],
    holes: &[&[(i64, i64)]],
) -> Result<bool, Fail> {
    let figure = figure_of(alloc, shell, holes)?;
    assert!(rt; well_shaped(&figure));
    assert!(rt; figure.areas.len() > 0);
    let shares = rings_share(alloc, first_area(&figure))?;
    Ok(shares)
}

/// Whether holes of the square touch in a cycle, with each other or with the square.
fn cycle_in(rt: &impl Abort, alloc: Global, holes: &[&[(i64, i64)]]) -> Result<bool, Fail> {
    let figure = figure_of(alloc, SQUARE, holes)?;
    assert!(rt; well_shaped(&figure));
    assert!(rt; figure.areas.len() > 0);
    let area = first_area(&figure);
    let shares = rings_share(alloc, area)?;
    assert!(rt; !shares);
    let cycle = has_cycle(alloc, area)?;
    Ok(cycle)
}

#[test]
fn positions_are_counted_once_each(rt: HostRuntime) -> Result<(), Fail> {
    assert!(rt; has_too_few(&ring_of(rt.alloc(), TO_AND_FRO)?));
    assert!(rt; has_too_few(&ring_of(rt.alloc(), ONE_POSITION)?));
    assert!(rt; !has_too_few(&ring_of(rt.alloc(), THREE_ON_A_LINE)?));
    assert!(rt; !has_too_few(&ring_of(rt.alloc(), REPEATED)?));
    assert!(rt; !has_too_few(&ring_of(rt.alloc(), SQUARE)?));
    Ok(())
}

#[test]
fn rings_that_cross_or_touch_themselves(rt: HostRuntime) -> Result<(), Fail> {
    assert!(rt; crosses(&rt, rt.alloc(), BOW_TIE)?);
    assert!(rt; crosses(&rt, rt.alloc(), SPIKE)?);
    assert!(rt; crosses(&rt, rt.alloc(), SPIKE_AT_THE_END)?);
    assert!(rt; crosses(&rt, rt.alloc(), FIGURE_EIGHT)?);
    assert!(rt; crosses(&rt, rt.alloc(), VERTEX_ON_AN_EDGE)?);
    assert!(rt; crosses(&rt, rt.alloc(), TWICE_ROUND)?);
    Ok(())
}

#[test]
fn rings_that_meet_themselves_at_joints_alone(rt: HostRuntime) -> Result<(), Fail> {
    assert!(rt; !crosses(&rt, rt.alloc(), SQUARE)?);
    assert!(rt; !crosses(&rt, rt.alloc(), TRIANGLE)?);
    assert!(rt; !crosses(&rt, rt.alloc(), REPEATED)?);
    assert!(rt; !crosses(&rt, rt.alloc(), CHEVRON)?);
    Ok(())
}

#[test]
fn rings_with_a_common_segment(rt: HostRuntime) -> Result<(), Fail> {
    assert!(rt; shares(&rt, rt.alloc(), SQUARE, &[LEFT_WEDGE, HOLE_ON_THE_SHELL])?);
    assert!(rt; shares(&rt, rt.alloc(), SQUARE, &[SQUARE])?);
    assert!(rt; !shares(&rt, rt.alloc(), SQUARE, &[LEFT_WEDGE, LOWER_WEDGE])?);
    assert!(rt; !shares(&rt, rt.alloc(), SPIKE, &[LEFT_OF_THREE])?);
    Ok(())
}

#[test]
fn rings_that_touch_in_a_cycle(rt: HostRuntime) -> Result<(), Fail> {
    assert!(rt; cycle_in(&rt, rt.alloc(), &[ACROSS_THE_CORNER])?);
    assert!(rt; cycle_in(&rt, rt.alloc(), &[LEFT_WEDGE, LOWER_WEDGE])?);
    assert!(rt; cycle_in(&rt, rt.alloc(), &[CHEVRON, BELOW_THE_CHEVRON])?);
    assert!(rt;
        cycle_in(
            &rt,
            rt.alloc(),
            &[LEFT_OF_THREE, RIGHT_OF_THREE, TOP_OF_THREE]
        )?
    );
    Ok(())
}

#[test]
fn rings_that_touch_without_a_cycle(rt: HostRuntime) -> Result<(), Fail> {
    assert!(rt; !cycle_in(&rt, rt.alloc(), &[])?);
    assert!(rt; !cycle_in(&rt, rt.alloc(), &[LEFT_WEDGE])?);
    assert!(rt;
        !cycle_in(
            &rt,
            rt.alloc(),
            &[LEFT_OF_THREE, RIGHT_OF_THREE, TOP_LEFT_OPEN]
        )?
    );
    assert!(rt; !cycle_in(&rt, rt.alloc(), &[WEST_OF_SIX, EAST_OF_SIX, NORTH_OF_SIX])?);
    Ok(())
}

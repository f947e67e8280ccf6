use super::Extents;
use super::parts::of_areas;
use bound_rule::EndTable;
use plane_exact::{NoMemory, Path, Pt, Window};
use point_set::{Area, Areas, Extent, Figure, Paths, Rule, Valid, well_shaped};
use std::alloc::Global;
use std::process::Abort;
use std::test::Fail;

fn way(alloc: Global, positions: &[(i64, i64)]) -> Result<Path, NoMemory> {
    let mut way = Path::new(alloc);
    for (x, y) in positions {
        way.push(Pt { x: *x, y: *y })?;
    }
    Ok(way)
}

fn ways(alloc: Global, list: &[&[(i64, i64)]]) -> Result<Paths, NoMemory> {
    let mut ways = Paths::new(alloc);
    for positions in list {
        ways.push(way(alloc, positions)?)?;
    }
    Ok(ways)
}

/// The envelopes of some points and lines.
fn extents_of(
    alloc: Global,
    points: &[(i64, i64)],
    lines: &[&[(i64, i64)]],
) -> Result<Extents, Fail> {
    let figure = Figure {
        points: way(alloc, points)?,
        lines: ways(alloc, lines)?,
        areas: Areas::new(alloc),
    };
    if !well_shaped(&figure) {
        return Err("not well shaped".into());
    }
    let figure = Valid::seal(figure);
    let ends = EndTable::build(alloc, &figure)?;
    Ok(Extents::of(&figure, &ends))
}

fn window(low_x: i64, low_y: i64, high_x: i64, high_y: i64) -> Option<Window> {
    Some(Window {
        low_x,
        low_y,
        high_x,
        high_y,
    })
}

const NOTHING: Extent = Extent {
    areas: None,
    lines: None,
    points: None,
    ends: None,
};

fn assert_ends(rt: &impl Abort, extents: &Extents, rule: Rule, ends: Option<Window>) {
    assert_eq!(rt; extents.extent(rule).ends, ends);
}

#[test]
fn an_empty_figure_has_no_envelope(rt: HostRuntime) -> Result<(), Fail> {
    let extents = extents_of(rt.alloc(), &[], &[])?;
    assert_eq!(rt; extents.extent(Rule::Mod2), NOTHING);
    assert_eq!(rt; extents.extent(Rule::Endpoint), NOTHING);
    Ok(())
}

#[test]
fn a_polygon_and_its_hole(rt: HostRuntime) -> Result<(), Fail> {
    let mut areas = Areas::new(rt.alloc());
    areas.push(Area {
        shell: way(rt.alloc(), &[(0, 0), (10, -1), (12, 8), (-3, 5), (0, 0)])?,
        holes: ways(rt.alloc(), &[&[(2, 2), (3, 2), (2, 3), (2, 2)]])?,
        group: 0,
    })?;
    assert_eq!(rt; of_areas(&areas), window(-3, -1, 12, 8));
    Ok(())
}

#[test]
fn a_line_and_a_point(rt: HostRuntime) -> Result<(), Fail> {
    let extents = extents_of(rt.alloc(), &[(7, 7)], &[&[(1, 5), (4, 2), (3, 9)]])?;
    let extent = extents.extent(Rule::Mod2);
    assert_eq!(rt; extent.areas, None);
    assert_eq!(rt; extent.lines, window(1, 2, 4, 9));
    assert_eq!(rt; extent.points, window(7, 7, 7, 7));
    assert_eq!(rt; extent.ends, window(1, 5, 3, 9));
    Ok(())
}

#[test]
fn a_still_line_counts_as_a_point(rt: HostRuntime) -> Result<(), Fail> {
    let extents = extents_of(rt.alloc(), &[(-2, 4)], &[&[(1, 1), (1, 1)]])?;
    let extent = extents.extent(Rule::Endpoint);
    assert_eq!(rt; extent.lines, None);
    assert_eq!(rt; extent.points, window(-2, 1, 1, 4));
    assert_eq!(rt; extent.ends, None);
    Ok(())
}

#[test]
fn a_closed_line_and_an_open_one_under_the_four_rules(rt: HostRuntime) -> Result<(), Fail> {
    let closed = [(0, 0), (4, 0), (4, 4), (0, 0)];
    let extents = extents_of(rt.alloc(), &[], &[&closed, &[(6, 1), (9, 3)]])?;
    assert_ends(&rt, &extents, Rule::Mod2, window(6, 1, 9, 3));
    assert_ends(&rt, &extents, Rule::Endpoint, window(0, 0, 9, 3));
    assert_ends(&rt, &extents, Rule::Multivalent, window(0, 0, 0, 0));
    assert_ends(&rt, &extents, Rule::Monovalent, window(6, 1, 9, 3));
    Ok(())
}

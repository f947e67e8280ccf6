ghost use Rattle.plane_exact.specs.Places.{IsInLimit};

use super::{EndTable, in_boundary};
use plane_exact::{NoMemory, Node, Path, Pt};
use point_set::{Areas, Figure, Paths, Rule, Valid, well_shaped};
use std::alloc::Global;
use std::process::Abort;
use std::test::*;

fn line(alloc: Global, positions: &[(i64, i64)]) -> Result<Path, NoMemory> {
    let mut path = Path::new(alloc);
    for (x, y) in positions {
        path.push(Pt { x: *x, y: *y })?;
    }
    Ok(path)
}

/// The figure of some points and lines, or None where it isn't well shaped.
fn sealed(alloc: Global, points: Path, lines: Paths) -> Option<Valid> {
    let figure = Figure {
        points,
        lines,
        areas: Areas::new(alloc),
    };
    if well_shaped(&figure) {
        Some(Valid::seal(figure))
    } else {
        None
    }
}

fn count_at(table: &EndTable, p: Pt) -> u32
    requires limit { IsInLimit p }
{
    table.count(&Node::at_point(p))
}

fn is_spot(table: &EndTable, p: Pt) -> bool
    requires limit { IsInLimit p }
{
    table.is_spot(&Node::at_point(p))
}

const ORIGIN: Pt = Pt { x: 0, y: 0 };

#[test]
fn three_lines_from_one_position(rt: HostRuntime) -> Result<(), Fail> {
    let mut lines = Paths::new(rt.alloc());
    lines.push(line(rt.alloc(), &[(0, 0), (1, 0)])?)?;
    lines.push(line(rt.alloc(), &[(0, 0), (0, 1)])?)?;
    lines.push(line(rt.alloc(), &[(0, 0), (-1, 0)])?)?;
    let figure = sealed(rt.alloc(), Path::new(rt.alloc()), lines).ok_or("not well shaped")?;
    let table = EndTable::build(rt.alloc(), &figure)?;
    assert_eq!(rt; count_at(&table, ORIGIN), 3);
    assert_eq!(rt; count_at(&table, Pt { x: 1, y: 0 }), 1);
    assert_eq!(rt; count_at(&table, Pt { x: 5, y: 5 }), 0);
    assert_eq!(rt; table.count(&Node::reduce(1, 0, 2)), 0);
    Ok(())
}

#[test]
fn a_closed_line_and_a_still_one(rt: HostRuntime) -> Result<(), Fail> {
    let mut lines = Paths::new(rt.alloc());
    lines.push(line(rt.alloc(), &[(0, 0), (4, 0), (4, 4), (0, 0)])?)?;
    lines.push(line(rt.alloc(), &[(4, 0), (4, 0), (4, 0)])?)?;
    let figure = sealed(rt.alloc(), Path::new(rt.alloc()), lines).ok_or("not well shaped")?;
    let table = EndTable::build(rt.alloc(), &figure)?;
    assert_eq!(rt; count_at(&table, ORIGIN), 2);
    assert_eq!(rt; count_at(&table, Pt { x: 4, y: 0 }), 0);
    Ok(())
}

#[test]
fn points_and_still_lines_are_spots(rt: HostRuntime) -> Result<(), Fail> {
    let points = line(rt.alloc(), &[(1, 1), (7, 7)])?;
    let mut lines = Paths::new(rt.alloc());
    lines.push(line(rt.alloc(), &[(0, 0), (4, 0)])?)?;
    lines.push(line(rt.alloc(), &[(2, 3), (2, 3), (2, 3)])?)?;
    let figure = sealed(rt.alloc(), points, lines).ok_or("not well shaped")?;
    let table = EndTable::build(rt.alloc(), &figure)?;
    assert_eq!(rt; is_spot(&table, Pt { x: 1, y: 1 }), true);
    assert_eq!(rt; is_spot(&table, Pt { x: 7, y: 7 }), true);
    assert_eq!(rt; is_spot(&table, Pt { x: 2, y: 3 }), true);
    assert_eq!(rt; is_spot(&table, ORIGIN), false);
    assert_eq!(rt; is_spot(&table, Pt { x: 4, y: 0 }), false);
    assert_eq!(rt; table.is_spot(&Node::reduce(3, 3, 2)), false);
    Ok(())
}

fn assert_rule(
    rt: &impl Abort,
    rule: Rule,
    of_none: bool,
    of_one: bool,
    of_two: bool,
    of_three: bool,
) {
    assert_eq!(rt; in_boundary(rule, 0), of_none);
    assert_eq!(rt; in_boundary(rule, 1), of_one);
    assert_eq!(rt; in_boundary(rule, 2), of_two);
    assert_eq!(rt; in_boundary(rule, 3), of_three);
}

#[test]
fn the_four_rules(rt: HostRuntime) {
    assert_rule(&rt, Rule::Mod2, false, true, false, true);
    assert_rule(&rt, Rule::Endpoint, false, true, true, true);
    assert_rule(&rt, Rule::Multivalent, false, false, true, true);
    assert_rule(&rt, Rule::Monovalent, false, true, false, false);
}

fn can_be_shared<T: Send + Sync>() -> bool {
    true
}

#[test]
fn tables_can_be_shared_by_threads(rt: HostRuntime) {
    assert!(rt; can_be_shared::<EndTable>());
}

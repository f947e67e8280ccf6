//! The answers to queries on two figures.
use crate::figures::{NOTHING, SQUARE, figure_of};
use im_matrix::Name;
use plane_exact::NoMemory;
use point_set::{Rule, Valid};
use relate_core::evaluate;
use std::alloc::Global;
use std::process::Abort;
use std::test::Fail;
use topo_pred::{Answer, Query};
use union_locator::Plain;

/// The answer of two valid figures.
fn answer_on(
    alloc: Global,
    a: &Valid,
    b: &Valid,
    rule: Rule,
    query: Query,
) -> Result<Answer, NoMemory> {
    let mut first = Plain::new(alloc, a)?;
    let mut second = Plain::new(alloc, b)?;
    evaluate(alloc, &mut first, &mut second, rule, query)
}

/// The answer of the figures of two texts.
fn answer_of(alloc: Global, a: &str, b: &str, rule: Rule, query: Query) -> Result<Answer, Fail> {
    let a = figure_of(alloc, a)?;
    let b = figure_of(alloc, b)?;
    let answer = answer_on(alloc, &a, &b, rule, query)?;
    Ok(answer)
}

fn assert_matrix(
    rt: &impl Abort,
    alloc: Global,
    a: &str,
    b: &str,
    rule: Rule,
    text: &[u8; 9],
) -> Result<(), Fail> {
    match answer_of(alloc, a, b, rule, Query::Relate)? {
        Answer::Im(m) => assert_eq!(rt; m.text(), *text),
        Answer::Truth(_) => assert!(rt; false, "no matrix"),
    }
    Ok(())
}

fn assert_truth(
    rt: &impl Abort,
    alloc: Global,
    a: &str,
    b: &str,
    name: Name,
    truth: bool,
) -> Result<(), Fail> {
    let answer = answer_of(alloc, a, b, Rule::Mod2, Query::Named(name))?;
    assert_eq!(rt; answer, Answer::Truth(truth));
    Ok(())
}

#[test]
fn lines_that_cross(rt: HostRuntime) -> Result<(), Fail> {
    let alloc = rt.alloc();
    let (up, down) = ("LINESTRING (0 0, 3 2)", "LINESTRING (0 2, 3 0)");
    assert_matrix(&rt, alloc, up, down, Rule::Mod2, b"0F1FF0102")?;
    assert_truth(&rt, alloc, up, down, Name::Crosses, true)?;
    assert_truth(&rt, alloc, up, down, Name::Disjoint, false)
}

#[test]
fn lines_and_areas_with_a_common_part(rt: HostRuntime) -> Result<(), Fail> {
    let alloc = rt.alloc();
    let (left, right) = ("LINESTRING (0 0, 4 0)", "LINESTRING (2 0, 6 0)");
    assert_matrix(&rt, alloc, left, right, Rule::Mod2, b"1010F0102")?;
    assert_truth(&rt, alloc, left, right, Name::Overlaps, true)?;
    let high = "POLYGON ((2 2, 6 2, 6 6, 2 6, 2 2))";
    assert_matrix(&rt, alloc, SQUARE, high, Rule::Mod2, b"212101212")?;
    assert_truth(&rt, alloc, SQUARE, high, Name::Contains, false)
}

#[test]
fn a_point_where_a_closed_line_starts(rt: HostRuntime) -> Result<(), Fail> {
    let alloc = rt.alloc();
    let (start, round) = ("POINT (0 0)", "LINESTRING (0 0, 4 0, 4 4, 0 0)");
    assert_matrix(&rt, alloc, start, round, Rule::Mod2, b"0FFFFF1F2")?;
    assert_matrix(&rt, alloc, start, round, Rule::Endpoint, b"F0FFFF1F2")?;
    assert_matrix(&rt, alloc, start, round, Rule::Multivalent, b"F0FFFF1F2")?;
    assert_matrix(&rt, alloc, start, round, Rule::Monovalent, b"0FFFFF1F2")
}

#[test]
fn a_still_line_and_an_empty_figure(rt: HostRuntime) -> Result<(), Fail> {
    let alloc = rt.alloc();
    let (still, point) = ("LINESTRING (1 1, 1 1)", "POINT (1 1)");
    assert_matrix(&rt, alloc, still, point, Rule::Mod2, b"0FFFFFFF2")?;
    assert_matrix(&rt, alloc, NOTHING, point, Rule::Mod2, b"FFFFFF0F2")
}

/// The line turns back along the ring at (4, 0) and at (6, 0), and leaves the piece between the two free.
#[test]
fn a_line_that_turns_back_along_a_ring(rt: HostRuntime) -> Result<(), Fail> {
    let alloc = rt.alloc();
    let ring = "POLYGON ((0 0, 10 0, 10 10, 0 10, 0 0))";
    let line = "LINESTRING (0 0, 4 0, 0 0, 0 10, 10 10, 10 0, 6 0, 10 0)";
    assert_matrix(&rt, alloc, ring, line, Rule::Mod2, b"FF2101FF2")
}

/// The square between the four bars is free of them, and only their crossings show it.
#[test]
fn bars_round_a_square(rt: HostRuntime) -> Result<(), Fail> {
    let alloc = rt.alloc();
    let bars =
        "GEOMETRYCOLLECTION (POLYGON ((0 -2, 2 -2, 2 8, 0 8, 0 -2)), POLYGON ((4 -2, 6 -2, 6 8, 4 8, 4 -2)), \
        POLYGON ((-2 0, 8 0, 8 2, -2 2, -2 0)), POLYGON ((-2 4, 8 4, 8 6, -2 6, -2 4)))";
    let square = "POLYGON ((1 1, 5 1, 5 5, 1 5, 1 1))";
    assert_matrix(&rt, alloc, bars, square, Rule::Mod2, b"2121F12F2")
}

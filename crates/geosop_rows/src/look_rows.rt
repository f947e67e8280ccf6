//! How often two figures are asked where a node lies before the answer to a query is known.
use crate::counting::Counting;
use crate::figures::{NOTHING, SQUARE, comb, figure_of};
use im_matrix::{Name, Pattern};
use plane_exact::NoMemory;
use point_set::{Rule, Valid};
use relate_core::evaluate;
use std::alloc::{AllocError, Global};
use std::process::Abort;
use std::test::*;
use topo_pred::{Answer, Query};

/// The answer of two valid figures, and the looks at both.
fn looks_on(
    alloc: Global,
    a: &Valid,
    b: &Valid,
    query: Query,
) -> Result<(Answer, u64, u64), NoMemory> {
    let mut first = Counting::new(alloc, a)?;
    let mut second = Counting::new(alloc, b)?;
    let answer = evaluate(alloc, &mut first, &mut second, Rule::Mod2, query)?;
    Ok((answer, first.looks(), second.looks()))
}

/// What an answer is to be: the text of a matrix, or a truth.
#[derive(Clone, Copy)]
enum Told {
    Matrix(&'static [u8; 9]),
    Truth(bool),
}

fn assert_told(rt: &impl Abort, answer: Answer, told: Told) {
    match (answer, told) {
        (Answer::Im(m), Told::Matrix(text)) => assert_eq!(rt; m.text(), *text),
        (Answer::Truth(truth), Told::Truth(expected)) => assert_eq!(rt; truth, expected),
        _ => assert!(rt; false, "an answer of another kind"),
    }
}

/// Asserts the answer on the figures of two texts, and that they are looked at no more often than that, both together.
fn assert_looks(
    rt: &impl Abort,
    alloc: Global,
    texts: (&str, &str),
    query: Query,
    told: Told,
    most: u64,
) -> Result<(), Fail> {
    let a = figure_of(alloc, texts.0)?;
    let b = figure_of(alloc, texts.1)?;
    let (answer, first, second) = looks_on(alloc, &a, &b, query)?;
    assert_told(rt, answer, told);
    assert!(rt;
        first <= most && second <= most - first,
        "{first} and {second} looks"
    );
    Ok(())
}

/// How many teeth the saw has.
const TEETH: u16 = 999;

/// The text of a polygon of 2,000 vertices: its upper side goes up and down by one.
fn saw(alloc: Global) -> Result<String, AllocError> {
    let mut text = format!(in alloc; "POLYGON ((0 0, {} 0", 2 * TEETH - 1)?;
    for tooth in (0..TEETH).rev() {
        write!(text, ", {} 101, {} 100", 2 * tooth + 1, 2 * tooth)?;
    }
    text.push_str(", 0 0))")?;
    Ok(text)
}

#[test]
fn nothing_to_ask_where_the_exteriors_meet(rt: HostRuntime) -> Result<(), Fail> {
    let query = Query::Match(Pattern::parse("********F")?);
    let texts = (SQUARE, "POLYGON ((2 2, 6 2, 6 6, 2 6, 2 2))");
    assert_looks(&rt, rt.alloc(), texts, query, Told::Truth(false), 0)
}

#[test]
fn a_comb_meets_itself_at_its_first_nodes(rt: HostRuntime) -> Result<(), Fail> {
    let comb = comb(rt.alloc())?;
    let texts = (comb.as_str(), comb.as_str());
    let query = Query::Named(Name::Intersects);
    assert_looks(&rt, rt.alloc(), texts, query, Told::Truth(true), 4)
}

#[test]
fn a_point_inside_of_many_edges(rt: HostRuntime) -> Result<(), Fail> {
    let saw = saw(rt.alloc())?;
    let texts = (saw.as_str(), "POINT (1000 50)");
    let told = Told::Matrix(b"0F2FF1FF2");
    assert_looks(&rt, rt.alloc(), texts, Query::Relate, told, 4)
}

/// The line meets the teeth once, at (1000.5, 100.5). Besides that its ends and two positions of the saw are near.
#[test]
fn a_short_line_at_one_of_many_edges(rt: HostRuntime) -> Result<(), Fail> {
    let saw = saw(rt.alloc())?;
    let texts = (saw.as_str(), "LINESTRING (1000 99, 1001 102)");
    let told = Told::Matrix(b"1020F1102");
    assert_looks(&rt, rt.alloc(), texts, Query::Relate, told, 10)
}

#[test]
fn frames_that_do_not_meet(rt: HostRuntime) -> Result<(), Fail> {
    let texts = (SQUARE, "LINESTRING (10 10, 20 20, 20 10, 10 20)");
    let told = Told::Matrix(b"FF2FF1102");
    assert_looks(&rt, rt.alloc(), texts, Query::Relate, told, 0)
}

#[test]
fn a_figure_that_is_empty(rt: HostRuntime) -> Result<(), Fail> {
    let told = Told::Matrix(b"FF2FF1FF2");
    assert_looks(&rt, rt.alloc(), (SQUARE, NOTHING), Query::Relate, told, 0)
}

/// What sticks out of the square's frame refuses these.
#[test]
fn what_contains_what_by_frames_alone(rt: HostRuntime) -> Result<(), Fail> {
    let alloc = rt.alloc();
    let long = "LINESTRING (1 1, 9 1)";
    let no = Told::Truth(false);
    assert_looks(
        &rt,
        alloc,
        (SQUARE, long),
        Query::Named(Name::Contains),
        no,
        0,
    )?;
    assert_looks(
        &rt,
        alloc,
        (SQUARE, long),
        Query::Named(Name::Covers),
        no,
        0,
    )?;
    assert_looks(
        &rt,
        alloc,
        (long, SQUARE),
        Query::Named(Name::Within),
        no,
        0,
    )
}

/// The bars cross each other far from the point.
#[test]
fn crossings_of_one_figure_far_from_the_other(rt: HostRuntime) -> Result<(), Fail> {
    let bars =
        "GEOMETRYCOLLECTION (POLYGON ((0 0, 20 0, 20 2, 0 2, 0 0)), POLYGON ((14 -4, 16 -4, 16 6, 14 6, 14 -4)))";
    let told = Told::Matrix(b"0F2FF1FF2");
    assert_looks(
        &rt,
        rt.alloc(),
        (bars, "POINT (1 1)"),
        Query::Relate,
        told,
        2,
    )
}

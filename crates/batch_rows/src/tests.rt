use im_matrix::Name;
use pair_batch::{AnswerList, Free, answers};
use plane_exact::{NoMemory, PlaceList, Window};
use point_set::{Rule, Target, Valid};
use relate_prep::{Origin, Prepared};
use row_figures::{SQUARE, figure_of};
use std::alloc::Global;
use std::process::Abort;
use std::test::Fail;
use std::thread::Threads;
use topo_pred::{Answer, Query};

// Figures of each dimension. The square meets all of them but the last.
const FIVE: [&str; 5] = [
    "POINT (1 1)",
    "POINT (0 0)",
    "LINESTRING (0 4, 4 0)",
    "POLYGON ((2 2, 6 2, 6 6, 2 6, 2 2))",
    "POINT EMPTY",
];

// Which of the five figures the square meets.
const MEETS: [Answer; 5] = [
    Answer::Truth(true),
    Answer::Truth(true),
    Answer::Truth(true),
    Answer::Truth(true),
    Answer::Truth(false),
];

// The five figures.
fn five(alloc: Global) -> Result<Vec<Valid>, Fail> {
    let mut figures = Vec::new(alloc);
    for text in FIVE {
        figures.push(figure_of(alloc, text)?)?;
    }
    Ok(figures)
}

// The square, prepared.
fn square(alloc: Global) -> Result<Prepared, Fail> {
    let figure = figure_of(alloc, SQUARE)?;
    Ok(Prepared::new(alloc, figure)?)
}

// The answers under the rule Mod2, by so many threads.
fn answers_by<R: Threads + Sync + Abort + AllocGlobal>(
    rt: &R,
    prepared: &Prepared,
    figures: &[Valid],
    query: Query,
    threads: u32,
) -> Result<AnswerList, NoMemory> {
    assert!(rt; 0 < threads && threads <= 64);
    assert!(rt; figures.len() < 4_294_967_296);
    let alloc = rt.alloc();
    answers(
        rt,
        alloc,
        prepared,
        figures,
        Rule::Mod2,
        query,
        threads,
        &Free,
    )
}

// Which of the five figures meet the square, by so many threads.
fn meets_by<R: Threads + Sync + Abort + AllocGlobal>(
    rt: &R,
    threads: u32,
) -> Result<AnswerList, Fail> {
    let prepared = square(rt.alloc())?;
    let figures = five(rt.alloc())?;
    let query = Query::Named(Name::Intersects);
    Ok(answers_by(rt, &prepared, figures.as_slice(), query, threads)?)
}

#[test]
fn a_square_meets_four_of_five_by_any_threads(rt: HostRuntime) -> Result<(), Fail> {
    for threads in [1, 2, 64] {
        let told = meets_by(&rt, threads)?;
        assert_eq!(rt; told.as_slice(), MEETS.as_slice(), "by {threads} threads");
    }
    Ok(())
}

// How a new session comes to know the index of all edges, when it is asked for those near a corner of the square.
fn origin_of_new(alloc: Global, prepared: &Prepared) -> Result<Origin, NoMemory> {
    let mut session = prepared.session()?;
    let corner = Window {
        low_x: 0,
        low_y: 0,
        high_x: 1,
        high_y: 1,
    };
    session.edges_in(corner, &mut PlaceList::new(alloc))?;
    Ok(session.edge_origin())
}

// The matrices of the square and the five figures, by one thread.
fn matrices<R: Threads + Sync + Abort + AllocGlobal>(
    rt: &R,
    prepared: &Prepared,
) -> Result<AnswerList, Fail> {
    let figures = five(rt.alloc())?;
    Ok(answers_by(rt, prepared, figures.as_slice(), Query::Relate, 1)?)
}

#[test]
fn a_session_after_a_batch_finds_the_index(rt: HostRuntime) -> Result<(), Fail> {
    let prepared = square(rt.alloc())?;
    let told = matrices(&rt, &prepared)?;
    assert_eq!(rt; told.len(), 5);
    assert_eq!(rt; origin_of_new(rt.alloc(), &prepared)?, Origin::Found);
    Ok(())
}

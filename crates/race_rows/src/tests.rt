use pair_batch::{AnswerList, Free, answers};
use point_set::{Rule, Valid};
use relate_prep::Prepared;
use row_figures::{comb_of_sample, turned_comb_of_sample};
use std::alloc::Global;
use std::process::Abort;
use std::test::Fail;
use std::thread::Threads;
use topo_pred::{Answer, Query};

// How many teeth each comb has.
const TEETH: u32 = 10;

// How many figures the sessions race on.
const COPIES: u32 = 64;

// Combs that lie on their sides.
fn turned_combs(alloc: Global) -> Result<Vec<Valid>, Fail> {
    let mut combs = Vec::new(alloc);
    for _ in 0..COPIES {
        combs.push(turned_comb_of_sample(alloc, TEETH)?)?;
    }
    Ok(combs)
}

// The matrices of a comb, prepared anew, and each of some figures.
fn matrices_by<R: Threads + Sync + Abort + AllocGlobal>(
    rt: &R,
    figures: &[Valid],
    threads: u32,
) -> Result<AnswerList, Fail> {
    assert!(rt; 0 < threads && threads <= 64);
    assert!(rt; figures.len() < 4_294_967_296);
    let alloc = rt.alloc();
    let prepared = Prepared::new(alloc, comb_of_sample(alloc, TEETH)?)?;
    let told = answers(
        rt,
        alloc,
        &prepared,
        figures,
        Rule::Mod2,
        Query::Relate,
        threads,
        &Free,
    )?;
    Ok(told)
}

// Whether an answer is the matrix of two combs that cross: each tooth of either crosses each of the other.
fn is_crossing(answer: &Answer) -> bool {
    match answer {
        Answer::Im(matrix) => matrix.text() == *b"212111212",
        Answer::Truth(_) => false,
    }
}

#[test]
fn sessions_that_race_answer_as_one_thread_does(rt: HostRuntime) -> Result<(), Fail> {
    let figures = turned_combs(rt.alloc())?;
    let alone = matrices_by(&rt, figures.as_slice(), 1)?;
    assert_eq!(rt; alone.len(), 64);
    assert!(rt; alone.as_slice().iter().all(|answer| is_crossing(answer)));
    for round in 0..100u32 {
        let raced = matrices_by(&rt, figures.as_slice(), 64)?;
        assert!(rt; raced.as_slice() == alone.as_slice(), "in round {round}");
    }
    Ok(())
}

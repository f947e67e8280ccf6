ghost use Rattle.std.specs.Prelude.{◌≡◌, ◌<◌, ◌≤◌, length, IfOk};
ghost use Rattle.pair_batch.specs.Answers.{AreAnswersTo};
ghost use Rattle.pair_batch.specs.Shares.{share_begin, share_of};

use crate::batch::AnswerList;
use crate::gate::Gate;
use plane_exact::NoMemory;
use point_set::{Rule, Valid};
use relate_core::evaluate;
use relate_prep::Prepared;
use std::alloc::Global;
use topo_pred::Query;
use union_locator::Plain;

/// What is asked of each pair.
#[derive(Clone, Copy, Debug)]
pub(crate) struct Question {
    /// The boundary node rule.
    pub(crate) rule: Rule,
    /// The query.
    pub(crate) query: Query,
}

/// The place at which the share of a worker begins.
fn begin_of(count: usize, workers: usize, worker: usize) -> usize
    requires few { count < 4294967296 }
    requires workers { (0 < workers) × (workers ≤ 64) }
    requires worker { worker ≤ workers }
    ensures begin { result ≡ share_begin count workers worker }
    ensures within { result ≤ count }
{
    worker * count / workers
}

/// The figures that a worker has.
fn figures_of(list: &[Valid], workers: usize, worker: usize) -> &[Valid]
    requires few { length list.now < 4294967296 }
    requires workers { (0 < workers) × (workers ≤ 64) }
    requires worker { worker < workers }
    ensures share { result.now ≡ share_of list.now workers worker }
{
    let from = begin_of(list.len(), workers, worker);
    let to = begin_of(list.len(), workers, worker + 1);
    &list[from..to]
}

/// The answers on a prepared figure and each of some figures, by a session of their own.
///
/// # Errors
/// `NoMemory`.
fn answers_to_all(
    alloc: Global,
    prepared: &Prepared,
    figures: &[Valid],
    asked: Question,
) -> Result<AnswerList, NoMemory>
    ensures answers { IfOk result (AreAnswersTo asked.query prepared.now.figure asked.rule figures.now) }
{
    let mut session = prepared.session()?;
    let mut answers = AnswerList::new(alloc);
    for figure in figures {
        let mut plain = Plain::new(alloc, figure)?;
        answers.push(evaluate(alloc, &mut session, &mut plain, asked.rule, asked.query)?)?;
    }
    Ok(answers)
}

/// The answers on a prepared figure and each figure of a worker's share. A worker that has a figure passes the gate before, and one
/// without does nothing.
///
/// # Errors
/// `NoMemory`.
pub(crate) fn answers_of_worker<G: Gate>(
    alloc: Global,
    prepared: &Prepared,
    list: &[Valid],
    asked: Question,
    workers: usize,
    worker: usize,
    gate: &G,
) -> Result<AnswerList, NoMemory>
    requires few { length list.now < 4294967296 }
    requires workers { (0 < workers) × (workers ≤ 64) }
    requires worker { worker < workers }
    ensures answers { IfOk result (AreAnswersTo asked.query prepared.now.figure asked.rule (share_of list.now workers worker)) }
{
    let figures = figures_of(list, workers, worker);
    if figures.is_empty() {
        return Ok(AnswerList::new(alloc));
    }
    gate.pass(worker as u32);
    answers_to_all(alloc, prepared, figures, asked)
}

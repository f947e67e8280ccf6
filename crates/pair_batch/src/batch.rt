ghost use Rattle.std.specs.Prelude.{◌<◌, ◌≤◌, length, IfOk};
ghost use Rattle.pair_batch.specs.Answers.{AreAnswersTo};

use crate::gate::Gate;
use crate::joining::joined;
use crate::share::{Question, answers_of_worker};
use plane_exact::{ItemList, NoMemory};
use point_set::{Rule, Valid};
use relate_prep::Prepared;
use std::alloc::Global;
use std::thread::{Threads, map_indices};
use topo_pred::{Answer, Query};

/// Answers in order.
pub type AnswerList = ItemList<Answer>;

/// The answers to a query on a prepared figure and each figure of a list, in the list's order. The list is shared out among as many
/// workers as threads are asked for, each in a thread of its own where one can be made. A worker that has a figure passes the gate
/// once, before its first pair.
///
/// # Errors
/// `NoMemory`.
pub fn answers<R: Threads + Sync, G: Gate>(
    rt: &R,
    alloc: Global,
    prepared: &Prepared,
    list: &[Valid],
    rule: Rule,
    query: Query,
    threads: u32,
    gate: &G,
) -> Result<AnswerList, NoMemory>
    requires some { 0 < threads }
    requires most { threads ≤ 64 }
    requires few { length list.now < 4294967296 }
    ensures answers { IfOk result (AreAnswersTo query prepared.now.figure rule list.now) }
{
    let asked = Question { rule, query };
    let workers = threads as usize;
    let of_worker = |worker: usize| -> Result<AnswerList, NoMemory>
        requires few { length list.now < 4294967296 }
        requires workers { (0 < workers) × (workers ≤ 64) }
        requires worker { worker < workers }
    { answers_of_worker(alloc, prepared, list, asked, workers, worker, gate) };
    let made = map_indices(rt, alloc, workers, &of_worker)?;
    joined(alloc, made)
}

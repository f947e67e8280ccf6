ghost use Rattle.std.specs.Prelude.{◌≤◌, length, All, flat_map};
ghost use Rattle.geosop_io.specs.Sink.{IsOffered};
ghost use Rattle.geosop_run.specs.Sources.{IsSound};
ghost use Rattle.geosop_run.specs.Text.{line_of, IsRowOf, IsTextOf, IsTextWritten};

use crate::means::{Means, Way, Workers};
use crate::pairs::{PairFault, Question, offer_answer, offer_plain};
use geosop_io::{Failed, Sink};
use pair_batch::{Gate, answers};
use point_set::{Valid, Valids};
use relate_prep::Prepared;
use std::thread::Threads;
use topo_pred::Answer;

/// The greatest number of figures of B whose answers are made before their lines are offered.
const MOST_IN_BATCH: usize = 65_536;

/// Offers the lines of answers in order, until one isn't taken.
fn offer_answers<O: Sink>(out: &mut O, answers: &[Answer]) -> Result<(), Failed>
    ensures offered { IsOffered result (O.seen out.old) (O.seen out.new) (flat_map line_of answers.now) }
{
    for answer in answers {
        offer_answer(out, *answer)?;
    }
    Ok(())
}

/// Makes the answers of a prepared figure with each of a list, and offers their lines.
fn offer_batch<R: Threads + Sync, O: Sink, G: Gate>(
    means: &Means<'_, R, G>,
    workers: Workers,
    out: &mut O,
    a: &Prepared,
    batch: &[Valid],
    asked: Question,
) -> Result<(), PairFault>
    requires few { length batch.now ≤ 65536 }
    requires a_sound { IsSound a.now.figure }
    requires b_sound { All IsSound batch.now }
    ensures written { IsTextWritten (IsRowOf asked.rule asked.query batch.now a.now.figure) result (O.seen out.old) (O.seen out.new) }
{
    let made = answers(
        means.rt,
        means.alloc,
        a,
        batch,
        asked.rule,
        asked.query,
        workers.for_batch(batch).count,
        means.gate,
    )?;
    offer_answers(out, made.as_slice())?;
    Ok(())
}

/// Offers the lines of a prepared figure with each of a list, batch by batch.
fn offer_batches<R: Threads + Sync, O: Sink, G: Gate>(
    means: &Means<'_, R, G>,
    workers: Workers,
    out: &mut O,
    a: &Prepared,
    in_b: &[Valid],
    asked: Question,
) -> Result<(), PairFault>
    requires a_sound { IsSound a.now.figure }
    requires b_sound { All IsSound in_b.now }
    ensures written { IsTextWritten (IsRowOf asked.rule asked.query in_b.now a.now.figure) result (O.seen out.old) (O.seen out.new) }
{
    for batch in in_b.chunks(MOST_IN_BATCH) {
        offer_batch(means, workers, out, a, batch, asked)?;
    }
    Ok(())
}

/// Offers the lines of all pairs, A outer and B inner. Each figure of A is prepared when its turn comes, and let go after it.
fn offer_prepared<R: Threads + Sync, O: Sink, G: Gate>(
    means: &Means<'_, R, G>,
    workers: Workers,
    out: &mut O,
    mut in_a: Valids,
    in_b: &[Valid],
    asked: Question,
) -> Result<(), PairFault>
    requires a_sound { All IsSound in_a }
    requires b_sound { All IsSound in_b.now }
    ensures written { IsTextWritten (IsTextOf asked.rule asked.query in_a in_b.now) result (O.seen out.old) (O.seen out.new) }
{
    in_a.reverse();
    while let Some(figure) = in_a.pop() {
        let a = Prepared::new(means.alloc, figure)?;
        offer_batches(means, workers, out, &a, in_b, asked)?;
    }
    Ok(())
}

/// Offers the lines of all pairs, A outer and B inner, with answers that are made in the way of these means.
pub(crate) fn offer_pairs<R: Threads + Sync, O: Sink, G: Gate>(
    means: &Means<'_, R, G>,
    out: &mut O,
    in_a: Valids,
    in_b: &[Valid],
    asked: Question,
) -> Result<(), PairFault>
    requires a_sound { All IsSound in_a }
    requires b_sound { All IsSound in_b.now }
    ensures written { IsTextWritten (IsTextOf asked.rule asked.query in_a in_b.now) result (O.seen out.old) (O.seen out.new) }
{
    match means.way {
        Way::Plain => offer_plain(means.alloc, out, in_a.as_slice(), in_b, asked),
        Way::Prepared(workers) => offer_prepared(means, workers, out, in_a, in_b, asked),
    }
}

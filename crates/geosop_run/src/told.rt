ghost use Rattle.std.specs.Prelude.{◌≡◌, true, All, IfSome};
ghost use Rattle.im_matrix.specs.declared.Which.TheVariants.{A, B};
ghost use Rattle.geosop_run.specs.Sources.{IsSound};
ghost use Rattle.geosop_run.specs.Text.{IsOutcome, IsSummedUp, IsTextOf, IsTextUnless, IsTextWritten, IsToldOf};
ghost use Rattle.sample_figures.specs.Samples.{IsSampleNumber, figures_of_sample};

use crate::batches::offer_pairs;
use crate::discard::Discard;
use crate::means::Means;
use crate::pairs::{PairFault, Question};
use crate::samples::sum_up;
use geosop_io::{Sink, offer_whole};
use pair_batch::Gate;
use point_set::{Valid, Valids};
use std::thread::Threads;

/// What a command asks of all pairs.
#[derive(Clone, Copy, Debug)]
pub(crate) struct Task {
    /// What is asked of each.
    pub(crate) asked: Question,
    /// The number of the sample, where one stands in place of the sources.
    pub(crate) sample: Option<u32>,
    /// Whether nothing is written.
    pub(crate) quiet: bool,
}

/// Offers the lines of all pairs, or, where the run is quiet, makes the answers and offers nothing.
fn offer_unless_quiet<R: Threads + Sync, O: Sink, G: Gate>(
    means: &Means<'_, R, G>,
    out: &mut O,
    in_a: Valids,
    in_b: &[Valid],
    asked: Question,
    quiet: bool,
) -> Result<(), PairFault>
    requires a_sound { All IsSound in_a }
    requires b_sound { All IsSound in_b.now }
    ensures written { IsTextWritten (IsTextUnless quiet (IsTextOf asked.rule asked.query in_a in_b.now))
        result (O.seen out.old) (O.seen out.new) }
    ensures quiet { quiet ≡ true → O.seen out.new ≡ O.seen out.old }
{
    if quiet {
        offer_pairs(means, &mut Discard, in_a, in_b, asked)
    } else {
        offer_pairs(means, out, in_a, in_b, asked)
    }
}

/// Offers the summary of a sample's lines, or, where the run is quiet, makes it and offers nothing.
fn offer_summary<R: Threads + Sync, O: Sink, G: Gate>(
    means: &Means<'_, R, G>,
    out: &mut O,
    number: u32,
    asked: Question,
    quiet: bool,
) -> Result<(), PairFault>
    requires number { IsSampleNumber number }
    ensures written { IsOutcome
        (IsTextUnless quiet (IsSummedUp (IsTextOf asked.rule asked.query (figures_of_sample number A) (figures_of_sample number B))))
        result (O.seen out.old) (O.seen out.new) }
    ensures quiet { quiet ≡ true → O.seen out.new ≡ O.seen out.old }
{
    let summary = sum_up(means, number, asked)?;
    if quiet {
        return Ok(());
    }
    offer_whole(out, summary.as_slice())?;
    Ok(())
}

/// Offers what is told of all pairs: their lines or, under a sample, the summary of its lines. A quiet run offers nothing.
pub(crate) fn offer_told<R: Threads + Sync, O: Sink, G: Gate>(
    means: &Means<'_, R, G>,
    out: &mut O,
    in_a: Valids,
    in_b: &[Valid],
    task: Task,
) -> Result<(), PairFault>
    requires a_sound { All IsSound in_a }
    requires b_sound { All IsSound in_b.now }
    requires number { IfSome task.sample IsSampleNumber }
    ensures written { IsOutcome (IsTextUnless task.quiet (IsToldOf task.sample task.asked.rule task.asked.query in_a in_b.now))
        result (O.seen out.old) (O.seen out.new) }
    ensures quiet { task.quiet ≡ true → O.seen out.new ≡ O.seen out.old }
{
    match task.sample {
        None => offer_unless_quiet(means, out, in_a, in_b, task.asked, task.quiet),
        Some(number) => offer_summary(means, out, number, task.asked, task.quiet),
    }
}

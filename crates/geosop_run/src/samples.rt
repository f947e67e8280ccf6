ghost use Rattle.std.specs.Prelude.{◌≡◌, IfOk, All};
ghost use Rattle.im_matrix.specs.declared.Which.TheVariants.{A, B};
ghost use Rattle.geosop_run.specs.Sources.{IsSound};
ghost use Rattle.geosop_run.specs.Text.{IsSummedUp, IsTextOf};
ghost use Rattle.sample_figures.specs.Samples.{IsSampleNumber, figures_of_sample};

use crate::batches::offer_pairs;
use crate::gathered::Gathered;
use crate::means::Means;
use crate::pairs::Question;
use geom_valid::admit;
use line_summary::summary_of;
use pair_batch::Gate;
use plane_exact::NoMemory;
use point_set::{Figure, FigureList, Valid, Valids};
use sample_figures::{SamplePair, law_samples_are_valid, sample};
use std::alloc::Global;
use std::thread::Threads;

/// A figure that is known to be valid, admitted.
///
/// # Errors
/// `NoMemory`, since there is no fault to be found.
fn admit_sound(alloc: Global, figure: Figure) -> Result<Valid, NoMemory>
    requires sound { IsSound figure }
    ensures same { IfOk result (λ v. v ≡ figure) }
{
    match admit(alloc, figure) {
        Ok(valid) => Ok(valid),
        Err(_) => Err(NoMemory),
    }
}

/// Figures that are known to be valid, admitted in their order.
///
/// # Errors
/// `NoMemory`.
fn admit_all(alloc: Global, mut figures: FigureList) -> Result<Valids, NoMemory>
    requires sound { All IsSound figures }
    ensures same { IfOk result (λ valids. valids ≡ figures) }
{
    let mut valids = Valids::new(alloc);
    while let Some(figure) = figures.pop() {
        valids.push(admit_sound(alloc, figure)?)?;
    }
    valids.reverse();
    Ok(valids)
}

/// The text of the lines of all pairs.
///
/// # Errors
/// `NoMemory`.
fn gather<R: Threads + Sync, G: Gate>(
    means: &Means<'_, R, G>,
    in_a: Valids,
    in_b: &[Valid],
    asked: Question,
) -> Result<Vec<u8>, NoMemory>
    requires a_sound { All IsSound in_a }
    requires b_sound { All IsSound in_b.now }
    ensures text { IfOk result (λ text. IsTextOf asked.rule asked.query in_a in_b.now text.items) }
{
    let mut gathered = Gathered::new(means.alloc);
    match offer_pairs(means, &mut gathered, in_a, in_b, asked) {
        Ok(()) => Ok(gathered.text),
        Err(_) => Err(NoMemory),
    }
}

/// The summary of the lines that the pairs of a sample give.
///
/// # Errors
/// `NoMemory`.
pub(crate) fn sum_up<R: Threads + Sync, G: Gate>(
    means: &Means<'_, R, G>,
    number: u32,
    asked: Question,
) -> Result<Vec<u8>, NoMemory>
    requires number { IsSampleNumber number }
    ensures summary { IfOk result (λ summary. IsSummedUp
        (IsTextOf asked.rule asked.query (figures_of_sample number A) (figures_of_sample number B)) summary.items) }
{
    law_samples_are_valid();
    let alloc = means.alloc;
    let SamplePair { a, b } = sample(alloc, number)?;
    let in_a = admit_all(alloc, a)?;
    let in_b = admit_all(alloc, b)?;
    let text = gather(means, in_a, in_b.as_slice(), asked)?;
    summary_of(alloc, text.as_slice())
}

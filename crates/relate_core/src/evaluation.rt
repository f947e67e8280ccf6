ghost use Rattle.std.specs.Prelude.{◌≡◌, OnOk, IfOk};
ghost use Rattle.near_laws.specs.Near.{IsNearNode};
ghost use Rattle.point_set.specs.Samples.{IsSample};
ghost use Rattle.point_set.specs.Shape.{dimension_of};
ghost use Rattle.topo_pred.specs.declared.Query.TheVariants.{Relate};
ghost use Rattle.relate_core.specs.Answers.{IsValueOnSamples, IsSampleMatrixItself, IsAnswerTo};
ghost use Rattle.relate_core.specs.Looks.{AreLooksFew, IsNearRun};
ghost use Rattle.relate_core.specs.Taking.{HasTakenIn};

use crate::far::{common_part, frame, take_in_far};
use crate::filling::fill_in;
use crate::samples::{are_valid, take_in_all};
use plane_exact::{NoMemory, Window};
use point_set::{Rule, Target};
use std::alloc::Global;
use topo_pred::{Answer, Progress, Query};

/// The answer to a query on two figures: its value on their matrix. What the envelopes of the figures tell comes first, and then the
/// few nodes near the common part of their frames, in order, until the value is known: each figure is looked at no more often than
/// the first few nodes are that decide it.
///
/// # Errors
/// `NoMemory`.
pub fn evaluate<A: Target, B: Target>(
    alloc: Global,
    a: &mut A,
    b: &mut B,
    rule: Rule,
    query: Query,
) -> Result<Answer, NoMemory>
    ensures points { IfOk result (IsAnswerTo query (A.figure a.old) (B.figure b.old) rule) }
    ensures samples { IfOk result (IsValueOnSamples (A.figure a.old) (B.figure b.old) rule query) }
    ensures matrix { IfOk result (λ answer. query ≡ Relate → IsSampleMatrixItself (A.figure a.old) (B.figure b.old) rule answer) }
    ensures figure_a { A.figure a.new ≡ A.figure a.old }
    ensures figure_b { B.figure b.new ≡ B.figure b.old }
    ensures looks_a { AreLooksFew (A.figure a.old) (B.figure b.old) rule query (dimension_of (A.figure a.old))
        (dimension_of (B.figure b.old)) (A.looks a.old) (A.looks a.new) }
    ensures looks_b { AreLooksFew (A.figure a.old) (B.figure b.old) rule query (dimension_of (A.figure a.old))
        (dimension_of (B.figure b.old)) (B.looks b.old) (B.looks b.new) }
{
    are_valid(a, b);
    let mut progress = Progress::new(query, a.valid().dim(), b.valid().dim());
    let x = a.extent(rule);
    let y = b.extent(rule);
    let w = common_part(frame(&x), frame(&y));
    take_in_far(&mut progress, &x, &y, w);
    take_in_near(alloc, a, b, w, rule, &mut progress)?;
    Ok(progress.finish())
}

/// Takes in the samples at the few nodes that are near a box, where there is one, until the value is known.
fn take_in_near<A: Target, B: Target>(
    alloc: Global,
    a: &mut A,
    b: &mut B,
    w: Option<Window>,
    rule: Rule,
    progress: &mut Progress,
) -> Result<(), NoMemory>
    ensures taken { OnOk result (HasTakenIn (IsSample (IsNearNode w (A.figure a.old) (B.figure b.old)) (A.figure a.old) (B.figure b.old)
        rule) progress.old progress.new) }
    ensures figure_a { A.figure a.new ≡ A.figure a.old }
    ensures figure_b { B.figure b.new ≡ B.figure b.old }
    ensures looks_a { IsNearRun w (A.figure a.old) (B.figure b.old) rule progress.old (A.looks a.old) (A.looks a.new) }
    ensures looks_b { IsNearRun w (A.figure a.old) (B.figure b.old) rule progress.old (B.looks b.old) (B.looks b.new) }
{
    are_valid(a, b);
    let Some(w) = w else {
        return Ok(());
    };
    if progress.known().is_some() {
        return Ok(());
    }
    let mut table = fill_in(alloc, a, b, w)?;
    take_in_all(alloc, &mut table, a, b, rule, progress)
}

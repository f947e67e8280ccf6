#![tactic(auto, using(crate::proofs::Visits::none_taken))]

ghost use Rattle.std.specs.Prelude.{◌≡◌, ◌+◌, ◌≤◌, OnOk, All};
ghost use Rattle.im_matrix.specs.Cells.{cell};
ghost use Rattle.im_matrix.specs.declared.Dim.TheVariants as dim;
ghost use Rattle.plane_laws.specs.Plane.{Point};
ghost use Rattle.plane_exact.specs.NodePoints.{point_at};
ghost use Rattle.point_set.specs.Samples.{IsSample, IsSampleAt};
ghost use Rattle.point_set.specs.Visible.{AreValid};
ghost use Rattle.point_set.specs.declared.figure.Figure.{Figure};
ghost use Rattle.point_set.specs.declared.rule.Rule.{Rule};
ghost use Rattle.fan_order.specs.Rays.{AreRaysOf};
ghost use Rattle.fan_label.specs.Seen.{AreSeenAt};
ghost use Rattle.relate_core.specs.Tables.{IsListed};
ghost use Rattle.relate_core.specs.Taking.{HasTakenIn, HasAllSections, IsOne, IsSampleOf};
ghost use Rattle.relate_core.specs.Looks.{IsRunOf};

use fan_label::{Pair, label_ray, label_sector};
use fan_order::Fan;
use im_matrix::{Cell, Dim};
use node_table::{Entry, NodeTable};
use plane_exact::NoMemory;
use point_set::{DimLoc, Rule, Target};
use std::alloc::Global;
use topo_pred::Progress;

/// Takes in the samples at node after node of a table, until the value is known. Each figure is looked at once for each node that
/// is taken out, and none is taken out when the value is known.
///
/// # Errors
/// `NoMemory`.
pub fn take_in_all<A: Target, B: Target>(
    alloc: Global,
    table: &mut NodeTable,
    a: &mut A,
    b: &mut B,
    rule: Rule,
    progress: &mut Progress,
) -> Result<(), NoMemory>
    requires sections { All (HasAllSections (A.figure a.old) (B.figure b.old)) table.old }
    ensures taken { OnOk result (HasTakenIn (IsSample (IsListed table.old) (A.figure a.old) (B.figure b.old) rule)
        progress.old progress.new) }
    ensures figure_a { A.figure a.new ≡ A.figure a.old }
    ensures figure_b { B.figure b.new ≡ B.figure b.old }
    ensures run_a { IsRunOf (A.figure a.old) (B.figure b.old) rule table.old progress.old (A.looks a.old) (A.looks a.new) }
    ensures run_b { IsRunOf (A.figure a.old) (B.figure b.old) rule table.old progress.old (B.looks b.old) (B.looks b.new) }
{
    are_valid(a, b);
    while progress.known().is_none() {
        match table.take_next() {
            Some(entry) => take_in_node(alloc, &entry, a, b, rule, progress)?,
            None => return Ok(()),
        }
    }
    Ok(())
}

/// A law, with nothing to run: the figures of targets are valid.
pub(crate) fn are_valid<A: Target, B: Target>(a: &A, b: &B)
    ensures valid { AreValid (A.figure a.now) (B.figure b.now) }
{
    a.valid().figure();
    b.valid().figure();
}

/// Takes in the samples at a node: the pair of the node itself, and those along its rays and in its sectors.
fn take_in_node<A: Target, B: Target>(
    alloc: Global,
    entry: &Entry,
    a: &mut A,
    b: &mut B,
    rule: Rule,
    progress: &mut Progress,
) -> Result<(), NoMemory>
    requires valid { AreValid (A.figure a.old) (B.figure b.old) }
    requires sections { HasAllSections (A.figure a.old) (B.figure b.old) entry.now }
    ensures taken { OnOk result (HasTakenIn (IsSampleAt (A.figure a.old) (B.figure b.old) rule (point_at entry.now.node))
        progress.old progress.new) }
    ensures figure_a { A.figure a.new ≡ A.figure a.old }
    ensures figure_b { B.figure b.new ≡ B.figure b.old }
    ensures looks_a { A.looks a.new ≤ A.looks a.old + 1 }
    ensures looks_b { B.looks b.new ≤ B.looks b.old + 1 }
{
    let fan = Fan::gather(alloc, &entry.sections)?;
    let at_a = a.locate(&entry.node, rule)?;
    let at_b = b.locate(&entry.node, rule)?;
    let here = Cell {
        a: at_a.loc(),
        b: at_b.loc(),
    };
    take_in_cell(progress, here, Dim::Zero);
    take_in_rays(progress, &fan, at_a, at_b);
    take_in_sectors(progress, &fan, at_a, at_b);
    Ok(())
}

/// Takes in the samples along the rays of a node.
fn take_in_rays(progress: &mut Progress, fan: &Fan, at_a: DimLoc, at_b: DimLoc)
    requires rays { AreRaysOf fan.now.sections fan.now.rays }
    ensures taken { (a b : Figure) (rule : Rule) (v : Point) → AreSeenAt a b rule v at_a at_b fan.now.sections
        → HasTakenIn (IsSampleOf dim.One a b rule v) progress.old progress.new }
{
    for i in 0..fan.rays() {
        take_in_cell(progress, cell_of(label_ray(fan, at_a, at_b, i)), Dim::One);
    }
}

/// Takes in the samples in the sectors of a node.
fn take_in_sectors(progress: &mut Progress, fan: &Fan, at_a: DimLoc, at_b: DimLoc)
    requires rays { AreRaysOf fan.now.sections fan.now.rays }
    ensures taken { (a b : Figure) (rule : Rule) (v : Point) → AreSeenAt a b rule v at_a at_b fan.now.sections
        → HasTakenIn (IsSampleOf dim.Two a b rule v) progress.old progress.new }
{
    for i in 0..fan.sectors() {
        take_in_cell(
            progress,
            cell_of(label_sector(fan, at_a, at_b, i)),
            Dim::Two,
        );
    }
}

/// Takes in a cell's dimension, unless the value is known.
pub(crate) fn take_in_cell(progress: &mut Progress, c: Cell, d: Dim)
    ensures taken { HasTakenIn (IsOne c d) progress.old progress.new }
{
    if progress.known().is_none() {
        progress.feed(c, d);
    }
}

/// The cell of a pair of parts.
fn cell_of(pair: Pair) -> Cell
    ensures cell { result ≡ cell pair.a pair.b }
{
    Cell {
        a: pair.a,
        b: pair.b,
    }
}

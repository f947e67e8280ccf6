ghost use Rattle.std.specs.Prelude.{◌≡◌, ℕ, ◌+◌, ◌-◌, ◌<◌, ◌≤◌, ◌^◌, All, ◌≤ℤ◌, length, fold, slice_range, ◌∷◌, []};
ghost use Rattle.std.specs.List.{FoldsTo};
ghost use Rattle.plane_exact.specs.NodePoints.{point_at};
ghost use Rattle.y_index.specs.Heights.{rows_at, items_at};
ghost use Rattle.y_index.specs.Parts.{rows_between, items_between, AreLow, RisesInPart, RisesInLowPart};
ghost use Rattle.y_index.specs.Steps.{RisesWithin};
ghost use Rattle.y_index.specs.Trees.{IsPartOf};

use crate::level::{Level, level_of};
use crate::rows::SpanRow;
use crate::spans::Spans;
use plane_exact::{Meter, Node};

/// Folds `step` over the items of exactly those rows that hold the height of `n`, in the order of the rows, and gives what
/// becomes of `start`. Takes no memory.
///
/// One step of the meter is one row looked at. With k such rows, and d binary digits that are enough for the number of all
/// rows, it rises by at most `2 * (k + 1) * (d + 2)`.
pub fn stab<T: Spans<M>, S, F: Fn(S, u32) -> S, M: Meter>(
    rows: &T,
    n: &Node,
    start: S,
    step: F,
    meter: &mut M,
) -> S
    requires used { M.used meter.old ≤ 2 ^ 62 }
    requires callable { (s : S) → All (λ row. F.pre step s row.item) (T.rows rows.now) }
    ensures fold { FoldsTo (λ s item t. F.post step s item t) start (items_at (point_at n.now) (T.rows rows.now)) result }

    // Where `step` gives the values of a function, the answer is that function's fold.
    ensures value { (f : S → ℕ → S) → ((s : S) (item : ℕ) (t : S) → F.post step s item t → t ≡ f s item) →
        result ≡ fold f start (items_at (point_at n.now) (T.rows rows.now)) }

    ensures used { let hits = length (rows_at (point_at n.now) (T.rows rows.now)) in
        RisesWithin hits (length (T.rows rows.now)) (M.used meter.old) (M.used meter.new) }
{
    let level = level_of(n);
    let count = rows.count();
    stab_part(rows, level, 0, count, start, &step, meter)
}

/// The same for the part of the tree from the place `from` up to but without the place `to`.
fn stab_part<T: Spans<M>, S, F: Fn(S, u32) -> S, M: Meter>(
    rows: &T,
    level: Level,
    from: u32,
    to: u32,
    state: S,
    step: &F,
    meter: &mut M,
) -> S
    requires part { IsPartOf 0 (length (T.rows rows.now)) from to }
    requires within { to ≤ length (T.rows rows.now) }
    requires used { M.used meter.old + (to - from) ≤ 2 ^ 63 }
    requires callable { (s : S) → All (λ row. F.pre step.now s row.item) (T.rows rows.now) }
    ensures fold { let items = items_between level.floor level.ceiling (slice_range (T.rows rows.now) from to) in
        FoldsTo (λ s item t. F.post step.now s item t) state items result }
    ensures looked { M.used meter.new ≤ M.used meter.old + (to - from) }
    ensures used { let hits = length (rows_between level.floor level.ceiling (slice_range (T.rows rows.now) from to)) in
        RisesInPart hits (to - from) (M.used meter.old) (M.used meter.new) }
    ensures used_low { let part = slice_range (T.rows rows.now) from to in
        AreLow level.floor part →
        RisesInLowPart (length (rows_between level.floor level.ceiling part)) (to - from) (M.used meter.old) (M.used meter.new) }
{
    if from >= to {
        return state;
    }
    let middle = from + (to - from) / 2;
    let root = rows.look(middle, meter);
    if root.most < level.ceiling {
        return state;
    }
    let before = stab_part(rows, level, from, middle, state, step, meter);
    if level.floor < root.low {
        return before;
    }
    let through = step_at(root, level, before, step);
    stab_part(rows, level, middle + 1, to, through, step, meter)
}

/// One step with the item of a row that doesn't begin above the height, where it holds the height.
fn step_at<S, F: Fn(S, u32) -> S>(row: SpanRow, level: Level, state: S, step: &F) -> S
    requires low { row.low ≤ℤ level.floor }
    requires callable { F.pre step.now state row.item }
    ensures fold { FoldsTo (λ s item t. F.post step.now s item t) state (items_between level.floor level.ceiling (row ∷ [])) result }
{
    if level.ceiling <= row.high {
        step(state, row.item)
    } else {
        state
    }
}

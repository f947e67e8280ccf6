ghost use Rattle.std.specs.Prelude.{◌≡◌, ◌≤◌, All, IfOk, length, map};
ghost use Rattle.std.specs.List.{enumerate_from};
ghost use Rattle.y_index.specs.Rows.{row_of, IsFilled, SameOutside};
ghost use Rattle.y_index.specs.Trees.{IsSpan, placed};

use crate::row::Row;
use crate::rows::Span;
use std::alloc::{AllocError, Global};

/// A row for each span, with its place as item, in the order of the spans.
pub(crate) fn rows_of_spans(alloc: Global, spans: &[Span]) -> Result<Vec<Row>, AllocError>
    requires few { length spans.now ≤ 1048576 }
    requires spans { All IsSpan spans.now }
    ensures rows { IfOk result (λ rows. map placed (map row_of rows.items) ≡ enumerate_from 0 spans.now) }
{
    let mut rows = Vec::with_capacity(alloc, spans.len())?;
    for (place, span) in spans.iter().enumerate() {
        rows.push(row_at(place as u32, *span))?;
    }
    Ok(rows)
}

/// The row of a span, before anything stands below it.
fn row_at(item: u32, span: Span) -> Row
    requires span { IsSpan span }
    ensures placed { placed (row_of result) ≡ (item, span) }
{
    Row {
        low: span.low as i32,
        high: span.high as i32,
        item,
        most: i32::MIN,
    }
}

/// Fills in `most` in the part of the tree from the place `from` up to but without the place `to`, and gives the greatest
/// `high` of the part, or the least number where it has no row.
pub(crate) fn fill_most(rows: &mut [Row], from: usize, to: usize) -> i32
    requires part { from ≤ to }
    requires within { to ≤ length rows.old }
    ensures spans { map placed (map row_of rows.new) ≡ map placed (map row_of rows.old) }
    ensures others { SameOutside from to (map row_of rows.old) (map row_of rows.new) }
    ensures filled { IsFilled from to (map row_of rows.new) result }
{
    if from >= to {
        return i32::MIN;
    }
    let middle = from + (to - from) / 2;
    let before = fill_most(rows, from, middle);
    let after = fill_most(rows, middle + 1, to);
    let most = before.max(rows[middle].high).max(after);
    rows[middle].most = most;
    most
}

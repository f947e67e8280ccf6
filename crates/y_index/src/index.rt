ghost use Rattle.std.specs.Prelude.{◌≤◌, map, vec_len};
ghost use Rattle.y_index.specs.Rows.{row_of};
ghost use Rattle.y_index.specs.Trees.{IsSpanTree};

use crate::build::{fill_most, rows_of_spans};
use crate::row::Row;
use crate::rows::{SpanList, SpanRow};
use crate::spans::Spans;
use plane_exact::{Meter, NoMemory};
use std::alloc::Global;

/// Spans, sorted into rows that stand as a tree.
#[derive(Debug, Drop)]
pub struct YIndex {
    rows: Vec<Row>,
    pub ghost few: { vec_len rows ≤ 1048576 },
    pub ghost tree: { IsSpanTree (map row_of rows.items) },
}

impl YIndex {
    ghost use Rattle.std.specs.Prelude.{◌≤◌, All, IfOk, length};
    ghost use Rattle.y_index.specs.Index.{rows_of};
    ghost use Rattle.y_index.specs.Trees.{AreRowsOf, IsSpan};

    /// The index over spans, each with its place in the list as item.
    ///
    /// # Errors
    /// `NoMemory`.
    pub fn build(alloc: Global, spans: &SpanList) -> Result<YIndex, NoMemory>
        requires few { length spans.now ≤ 1048576 }
        requires spans { All IsSpan spans.now }
        ensures rows { IfOk result (λ index. AreRowsOf spans.now (rows_of index)) }
    {
        let mut rows = rows_of_spans(alloc, spans.as_slice())?;
        rows.sort_unstable();
        let count = rows.len();
        fill_most(rows.as_mut_slice(), 0, count);
        Ok(YIndex { rows })
    }
}

impl<M: Meter> Spans<M> for YIndex {
    ghost use Rattle.y_index.specs.Index.{rows_of};

    ghost rows = { rows_of };

    ghost tree = { λ index. index.tree };

    fn count(&self) -> u32 {
        self.rows.len() as u32
    }

    fn look(&self, place: u32, meter: &mut M) -> SpanRow {
        meter.tick();
        self.rows[place as usize].widened()
    }
}

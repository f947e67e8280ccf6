ghost use Rattle.std.specs.Prelude.{◌≡◌};

use crate::rows::SpanRow;

/// A row as the index keeps it. Rows are ordered by low, then high, then item; `most` is filled in once they are sorted.
#[derive(Clone, Copy, Debug, PartialEq, Eq, PartialOrd, Ord)]
pub(crate) struct Row {
    pub(crate) low: i32,
    pub(crate) high: i32,
    pub(crate) item: u32,
    pub(crate) most: i32,
}

impl Row {
    ghost use Rattle.y_index.specs.Rows.{row_of};

    /// The row as callers see it.
    pub(crate) fn widened(self) -> SpanRow
        ensures row { result ≡ row_of self }
    {
        SpanRow {
            low: i64::from(self.low),
            high: i64::from(self.high),
            most: i64::from(self.most),
            item: self.item,
        }
    }
}

ghost use Rattle.std.specs.Prelude.{◌≡◌, ◌↔◌, All, IsTrue};
ghost use Rattle.y_index.specs.Trees.{IsSpan};

use plane_exact::{ItemList, LIMIT};

/// An interval of heights, its ends included.
#[derive(Clone, Copy, Debug, PartialEq, Eq)]
pub struct Span {
    /// The least height.
    pub low: i64,
    /// The greatest height.
    pub high: i64,
}

/// Spans in order.
pub type SpanList = ItemList<Span>;

/// Whether no span's greatest height is below its least, and all are within the limit: what an index is built of.
pub fn are_spans(spans: &[Span]) -> bool
    ensures spans { IsTrue result ↔ (All IsSpan spans.now) }
{
    spans.iter().all(|span| is_span(*span))
}

fn is_span(span: Span) -> bool
    ensures span { IsTrue result ↔ (IsSpan span) }
{
    span.low <= span.high && -LIMIT <= span.low && span.high <= LIMIT
}

/// A span with its item, and what stands below it in the tree.
#[derive(Clone, Copy, Debug, PartialEq, Eq)]
pub struct SpanRow {
    /// The least height of the span.
    pub low: i64,
    /// The greatest height of the span.
    pub high: i64,
    /// The greatest `high` of the row's subtree, of which this row is the root.
    pub most: i64,
    /// What the row stands for.
    pub item: u32,
}

use crate::rows::SpanRow;
use plane_exact::Meter;

/// Rows of spans that stand as a tree, and can be looked at one by one.
pub trait Spans<M: Meter> {
    ghost use Rattle.std.specs.Prelude.{◌≡◌, ◌+◌, ◌<◌, ◌^◌, List, length, Some, slice_get};
    ghost use Rattle.y_index.specs.Trees.{IsSpanTree};
    ghost use Rattle.y_index.specs.declared.rows.SpanRow.{SpanRow};

    /// The rows in order.
    ghost rows: { Self → List SpanRow };

    /// How many rows there are.
    fn count(&self) -> u32
        ensures count { result ≡ length (rows self.now) };

    /// The row at a place, counted from 0. Counts one step.
    fn look(&self, place: u32, meter: &mut M) -> SpanRow
        requires place { place < length (rows self.now) }
        requires used { M.used meter.old < 2 ^ 63 }
        ensures row { slice_get (rows self.now) place ≡ Some result }
        ensures used { M.used meter.new ≡ M.used meter.old + 1 };

    /// The rows are sorted, and each has the greatest `high` of its subtree.
    ghost tree: { (s : Self) → IsSpanTree (rows s) };
}

use plane_exact::{Meter, Window};

/// A row of a tree of boxes.
#[derive(Clone, Copy, Debug, PartialEq, Eq)]
pub struct BoxRow {
    /// The window of a leaf's item, or the least box that holds the windows of an inner row's two children.
    pub window: Window,
    /// What a leaf stands for. An inner row has any number.
    pub item: u32,
}

/// The rows of a tree of boxes, which a walk looks at one by one.
///
/// There is no row, or there are `2 * n - 1` for some n from 1 to 1,048,576. The rows from place `n - 1` on are the n leaves,
/// and their items are different. Each row i before them has the children `2 * i + 1` and `2 * i + 2`.
pub trait Boxes<M: Meter> {
    ghost use Rattle.std.specs.Prelude.{◌≡◌, ◌+◌, ◌<◌, ◌^◌, List, length};
    ghost use Rattle.edge_index.specs.declared.boxes.BoxRow.{BoxRow};
    ghost use Rattle.edge_index.specs.Trees.{IsBoxTree, IsRowAt};

    /// The rows in order.
    ghost rows: { Self → List BoxRow };

    /// How many rows there are. Takes no memory.
    fn count(&self) -> u32
        ensures count { result ≡ length (rows self.now) }
        ensures tree { IsBoxTree (rows self.now) };

    /// The row at a place. It is one step of the meter. Takes no memory.
    fn look(&self, place: u32, meter: &mut M) -> BoxRow
        requires place { place < length (rows self.now) }
        requires room { M.used meter.old < 2 ^ 63 }
        ensures row { IsRowAt (rows self.now) place result }
        ensures step { M.used meter.new ≡ M.used meter.old + 1 };
}

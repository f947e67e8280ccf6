ghost use Rattle.std.specs.Prelude.{◌≡◌, IfOk};
ghost use Rattle.plane_exact.specs.NodePoints.{point_at};
ghost use Rattle.point_set.specs.Lines.{ends_of_lines, count_at, is_at_some};
ghost use Rattle.point_set.specs.Location.{is_at_point};
ghost use Rattle.point_set.specs.declared.figure.Figure.{Figure};
ghost use Rattle.bound_rule.specs.Ends.{AreEndsOf};

use crate::ends::EndCounts;
use crate::spots::Spots;
use plane_exact::{NoMemory, Node};
use point_set::Valid;
use std::alloc::Global;
use std::marker::Model;

/// The ends of the lines of a figure, and its spots: the positions of its points and of its lines whose positions are all
/// equal. It is built once, and then each node takes the logarithm of their number.
#[derive(Debug, Drop)]
pub struct EndTable {
    ends: EndCounts,
    spots: Spots,
}

impl Model for EndTable {
    ghost use Rattle.bound_rule.specs.Ends.{SeenEnds};

    ghost Value = { SeenEnds };

    ghost view = { λ t. record { ends = t.ends; spots = t.spots } };
}

impl EndTable {
    /// The ends of all lines of the figure, and its spots. A closed line gives two ends at its start, and a line whose
    /// positions are all equal gives none, and is a spot.
    ///
    /// # Errors
    /// `NoMemory`.
    pub fn build(alloc: Global, v: &Valid) -> Result<EndTable, NoMemory>
        ensures ends { IfOk result (AreEndsOf v.now) }
    {
        Ok(EndTable {
            ends: EndCounts::build(alloc, v)?,
            spots: Spots::build(alloc, v)?,
        })
    }

    /// How many line ends are at the node. Takes no memory.
    pub fn count(&self, n: &Node) -> u32
        ensures count { result ≡ count_at (point_at n.now) self.now.ends }
        ensures figure { (f : Figure) → AreEndsOf f self.now → result ≡ count_at (point_at n.now) (ends_of_lines f.lines) }
    {
        self.ends.count(n)
    }

    /// Whether the node is at a point of the figure, or at a line whose positions are all equal. Takes no memory.
    pub fn is_spot(&self, n: &Node) -> bool
        ensures spot { result ≡ is_at_some (point_at n.now) self.now.spots }
        ensures figure { (f : Figure) → AreEndsOf f self.now → result ≡ is_at_point f (point_at n.now) }
    {
        self.spots.has(n)
    }
}

ghost use Rattle.std.specs.Prelude.{◌≡◌, ◌+◌, ◌<◌, ◌^◌, [], ◌∷◌, ◌++◌, length, IfOk, OnOk, MatchOption};
ghost use Rattle.std.specs.List.{list_all};
ghost use Rattle.std.specs.List.Sorted.{IsPermutation};
ghost use Rattle.plane_exact.specs.NodePoints.{point_at};
ghost use Rattle.plane_exact.specs.Places.{point_of};
ghost use Rattle.point_set.specs.Lines.{ends_of, ends_of_lines, count_at};
ghost use Rattle.point_set.specs.Rings.{is_same_position};

use crate::position::Position;
use plane_exact::{NoMemory, Node, Path, Pt};
use point_set::Valid;
use std::alloc::Global;
use std::collections::BTreeMap;
use std::marker::Model;

/// The ends of the lines of a figure: at each position as many as lines begin or end there.
#[derive(Debug, Drop)]
pub(crate) struct EndCounts {
    counts: BTreeMap<Position, u32>,
}

impl Model for EndCounts {
    ghost use Rattle.std.specs.Prelude.{List};
    ghost use Rattle.std.specs.List.Sorted.{IsStrictlySortedBy};
    ghost use Rattle.std.specs.Map.{keys_of};
    ghost use Rattle.plane_exact.specs.declared.point.Pt.{Pt};
    ghost use Rattle.bound_rule.specs.Counts.{ends_in};
    ghost use Rattle.bound_rule.specs.Positions.{compare_positions};

    ghost Value = { List Pt };

    ghost view = { λ t. ends_in t.counts.entries };

    ghost invariant = { λ t. IsStrictlySortedBy compare_positions (keys_of t.counts.entries) };
}

impl EndCounts {
    /// The ends of all lines of the figure. A closed line gives two at its start, and a line whose positions are all equal
    /// gives none.
    ///
    /// # Errors
    /// `NoMemory`.
    pub(crate) fn build(alloc: Global, v: &Valid) -> Result<EndCounts, NoMemory>
        ensures ends { IfOk result (IsPermutation (ends_of_lines v.now.lines)) }
    {
        let mut table = EndCounts {
            counts: BTreeMap::new(alloc),
        };
        for line in v.figure().lines.as_slice() {
            table.add_ends(line)?;
        }
        Ok(table)
    }

    /// How many line ends are at the node. Takes no memory.
    pub(crate) fn count(&self, n: &Node) -> u32
        ensures count { result ≡ count_at (point_at n.now) self.now }
    {
        match n.position() {
            Some(p) => self.count_at_position(p),
            None => 0,
        }
    }

    fn count_at_position(&self, p: Pt) -> u32
        ensures count { result ≡ count_at (point_of p) self.now }
    {
        self.counts
            .get(&Position { point: p })
            .copied()
            .unwrap_or(0)
    }

    /// Puts the ends of a line in.
    fn add_ends(&mut self, line: &Path) -> Result<(), NoMemory>
        requires room { length self.old + length (ends_of line.now) < 2 ^ 32 }
        ensures added { OnOk result (IsPermutation (self.old ++ ends_of line.now) self.new) }
    {
        if let Some((first, last)) = two_ends(line) {
            self.add(first)?;
            self.add(last)?;
        }
        Ok(())
    }

    /// Puts one end in.
    fn add(&mut self, p: Pt) -> Result<(), NoMemory>
        requires room { length self.old + 1 < 2 ^ 32 }
        ensures added { OnOk result (IsPermutation (p ∷ self.old) self.new) }
    {
        let count = self.count_at_position(p) + 1;
        match self.counts.insert(Position { point: p }, count) {
            Ok(_) => Ok(()),
            Err(_) => Err(NoMemory),
        }
    }
}

/// The first and the last position of a line, unless its positions are all equal. Takes no memory.
pub fn two_ends(line: &Path) -> Option<(Pt, Pt)>
    ensures ends { MatchOption result (ends_of line.now ≡ []) (λ ends. ends_of line.now ≡ ends.0 ∷ ends.1 ∷ []) }
{
    let (first, others) = line.as_slice().split_first()?;
    if are_all_at(*first, others) {
        return None;
    }
    Some((*first, *others.last()?))
}

/// Whether all of the positions are the first one.
pub(crate) fn are_all_at(first: Pt, others: &[Pt]) -> bool
    ensures still { result ≡ list_all (is_same_position first) others.now }
{
    others.iter().all(|p| first.x == p.x && first.y == p.y)
}

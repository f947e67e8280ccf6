ghost use Rattle.std.specs.Prelude.{◌≡◌, false, ◌||◌, ◌&&◌, IfOk, OnOk, MatchOption};
ghost use Rattle.plane_laws.specs.Plane.{Point};
ghost use Rattle.plane_exact.specs.NodePoints.{point_at};
ghost use Rattle.point_set.specs.Lines.{is_at, is_at_some, is_still};
ghost use Rattle.point_set.specs.Location.{is_at_point};

use crate::ends::are_all_at;
use crate::position::Position;
use plane_exact::{NoMemory, Node, Path, Pt};
use point_set::Valid;
use std::alloc::Global;
use std::collections::BTreeSet;
use std::marker::Model;

/// The spots of a figure: the positions of its points, and of its lines whose positions are all equal.
#[derive(Debug, Drop)]
pub(crate) struct Spots {
    positions: BTreeSet<Position>,
}

impl Model for Spots {
    ghost use Rattle.std.specs.Prelude.{List};
    ghost use Rattle.plane_exact.specs.declared.point.Pt.{Pt};

    ghost Value = { List Pt };

    ghost view = { λ s. s.positions.keys };
}

impl Spots {
    /// The spots of the figure.
    ///
    /// # Errors
    /// `NoMemory`.
    pub(crate) fn build(alloc: Global, v: &Valid) -> Result<Spots, NoMemory>
        ensures spots { IfOk result (λ spots. (p : Point) → is_at_some p spots ≡ is_at_point v.now p) }
    {
        let figure = v.figure();
        let mut spots = Spots::of_points(alloc, &figure.points)?;
        for line in figure.lines.as_slice() {
            spots.add_line(line)?;
        }
        Ok(spots)
    }

    /// The positions of points.
    fn of_points(alloc: Global, points: &Path) -> Result<Spots, NoMemory>
        ensures spots { IfOk result (λ spots. (p : Point) → is_at_some p spots ≡ is_at_some p points.now) }
    {
        let mut spots = Spots {
            positions: BTreeSet::new(alloc),
        };
        for point in points.as_slice() {
            spots.add(*point)?;
        }
        Ok(spots)
    }

    /// Puts the position of a line in, where its positions are all equal.
    fn add_line(&mut self, line: &Path) -> Result<(), NoMemory>
        ensures added { OnOk result ((p : Point) → is_at_some p self.new
            ≡ (is_at_some p self.old || (is_still line.now && is_at_some p line.now))) }
    {
        if let Some(position) = still_position(line) {
            self.add(position)?;
        }
        Ok(())
    }

    /// Puts one position in.
    fn add(&mut self, position: Pt) -> Result<(), NoMemory>
        ensures added { OnOk result ((p : Point) → is_at_some p self.new ≡ (is_at_some p self.old || is_at p position)) }
    {
        match self.positions.insert(Position { point: position }) {
            Ok(_) => Ok(()),
            Err(_) => Err(NoMemory),
        }
    }

    /// Whether the node is at one of the spots. Takes no memory.
    pub(crate) fn has(&self, n: &Node) -> bool
        ensures spot { result ≡ is_at_some (point_at n.now) self.now }
    {
        match n.position() {
            Some(p) => self.positions.contains(&Position { point: p }),
            None => false,
        }
    }
}

/// The position of a line whose positions are all equal.
fn still_position(line: &Path) -> Option<Pt>
    ensures position { MatchOption result ((p : Point) → (is_still line.now && is_at_some p line.now) ≡ false)
        (λ position. (p : Point) → (is_still line.now && is_at_some p line.now) ≡ is_at p position) }
{
    let (first, others) = line.as_slice().split_first()?;
    if are_all_at(*first, others) {
        Some(*first)
    } else {
        None
    }
}

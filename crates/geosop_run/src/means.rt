ghost use Rattle.std.specs.Prelude.{◌≤◌};

use point_set::{Figure, Paths, Valid};
use std::alloc::Global;

/// How many positions make one worker more worth its start.
const POSITIONS_A_WORKER: usize = 4_096;

/// How many workers share the answers.
#[derive(Clone, Copy, Debug)]
pub(crate) struct Workers {
    /// Their number, from 1 to 64.
    pub(crate) count: u32,
    ghost some: { 1 ≤ count },
    ghost most: { count ≤ 64 },
}

impl Workers {
    /// As many of these workers as a batch of figures is worth: one, and one more for every so many positions.
    pub(crate) fn for_batch(self, batch: &[Valid]) -> Workers {
        let mut size: usize = 0;
        for figure in batch {
            size = size.saturating_add(size_of(figure.figure()));
        }
        let more = (size / POSITIONS_A_WORKER).min(63) as u32;
        Workers {
            count: self.count.min(more + 1),
        }
    }
}

/// How many positions a figure has.
fn size_of(figure: &Figure) -> usize {
    let mut size = figure
        .points
        .len()
        .saturating_add(size_of_ways(&figure.lines));
    for area in figure.areas.as_slice() {
        size = size
            .saturating_add(area.shell.len())
            .saturating_add(size_of_ways(&area.holes));
    }
    size
}

/// How many positions ways have.
fn size_of_ways(ways: &Paths) -> usize {
    let mut size: usize = 0;
    for way in ways.as_slice() {
        size = size.saturating_add(way.len());
    }
    size
}

/// How the answers are made. They are the same in each way.
#[derive(Clone, Copy, Debug)]
pub(crate) enum Way {
    /// One pair after the other.
    Plain,
    /// Each figure of A is prepared, and these workers share its pairs.
    Prepared(Workers),
}

/// What the answers are made with.
#[derive(Drop)]
pub(crate) struct Means<'r, R, G> {
    /// Where threads come from.
    pub(crate) rt: &'r R,
    /// Where memory comes from.
    pub(crate) alloc: Global,
    /// What each worker passes.
    pub(crate) gate: &'r G,
    /// How the answers are made.
    pub(crate) way: Way,
}

impl Way {
    ghost use Rattle.std.specs.Prelude.{◌≤◌};

    /// The way of a command: where it asks for prepared figures, or for two or more threads, the figures of A are prepared.
    pub(crate) fn of(prepared: bool, threads: u32) -> Way
        requires some { 1 ≤ threads }
        requires most { threads ≤ 64 }
    {
        if prepared || threads >= 2 {
            Way::Prepared(Workers { count: threads })
        } else {
            Way::Plain
        }
    }
}

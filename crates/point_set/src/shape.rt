ghost use Rattle.std.specs.Prelude.{◌≡◌, ℕ, ◌+◌, ◌≤◌, IsTrue, ◌↔◌, length, All, sum_by, min};
ghost use Rattle.plane_exact.specs.Limits.{most_positions};
ghost use Rattle.point_set.specs.Shape.{IsWayInLimit, IsLineShaped, IsClosed, IsRingShaped, IsAreaShaped, IsWellShaped, positions_of};
ghost use Rattle.point_set.specs.Shape.{positions_of_area};

use crate::figure::{Area, Figure, Paths};
use plane_exact::{MOST_POSITIONS, Path, in_limit};

/// Whether a figure has the shape of a geometry: coordinates within the limit, lines of two positions or more, closed
/// rings of four or more, and at most 1,048,576 positions in all. Takes no memory.
pub fn well_shaped(f: &Figure) -> bool
    ensures shaped { IsTrue result ↔ (IsWellShaped f.now) }
{
    has_shaped_parts(f) && count_positions(f) <= MOST_POSITIONS
}

fn has_shaped_parts(f: &Figure) -> bool
    ensures points { IsTrue result ↔ ((IsWayInLimit f.now.points) × (All IsLineShaped f.now.lines) × (All IsAreaShaped f.now.areas)) }
{
    is_way_in_limit(&f.points) && are_lines_shaped(&f.lines) && are_areas_shaped(f)
}

fn is_way_in_limit(way: &Path) -> bool
    ensures within { IsTrue result ↔ (IsWayInLimit way.now) }
{
    way.as_slice().iter().all(|p| in_limit(*p))
}

fn is_line_shaped(line: &Path) -> bool
    ensures shaped { IsTrue result ↔ (IsLineShaped line.now) }
{
    line.len() >= 2 && is_way_in_limit(line)
}

fn are_lines_shaped(lines: &Paths) -> bool
    ensures shaped { IsTrue result ↔ (All IsLineShaped lines.now) }
{
    lines.as_slice().iter().all(|line| is_line_shaped(line))
}

fn is_closed(way: &Path) -> bool
    ensures closed { IsTrue result ↔ (IsClosed way.now) }
{
    let positions = way.as_slice();
    positions.first().copied() == positions.last().copied()
}

fn is_ring_shaped(ring: &Path) -> bool
    ensures shaped { IsTrue result ↔ (IsRingShaped ring.now) }
{
    ring.len() >= 4 && is_way_in_limit(ring) && is_closed(ring)
}

fn is_area_shaped(area: &Area) -> bool
    ensures shaped { IsTrue result ↔ (IsAreaShaped area.now) }
{
    is_ring_shaped(&area.shell)
        && area
            .holes
            .as_slice()
            .iter()
            .all(|hole| is_ring_shaped(hole))
}

fn are_areas_shaped(f: &Figure) -> bool
    ensures shaped { IsTrue result ↔ (All IsAreaShaped f.now.areas) }
{
    f.areas.as_slice().iter().all(|area| is_area_shaped(area))
}

/// Adds to a count, and stops counting just above the limit.
fn add_up(count: usize, more: usize) -> usize
    requires few { count ≤ most_positions + 1 }
    ensures sum { result ≡ min (most_positions + 1) (count + more) }
{
    count.saturating_add(more).min(MOST_POSITIONS + 1)
}

fn count_in_ways(count: usize, ways: &Paths) -> usize
    requires few { count ≤ most_positions + 1 }
    ensures sum { result ≡ min (most_positions + 1) (count + sum_by length ways.now) }
{
    let mut total = count;
    for way in ways.as_slice() {
        total = add_up(total, way.len());
    }
    total
}

fn count_in_area(count: usize, area: &Area) -> usize
    requires few { count ≤ most_positions + 1 }
    ensures sum { result ≡ min (most_positions + 1) (count + positions_of_area area.now) }
{
    count_in_ways(add_up(count, area.shell.len()), &area.holes)
}

fn count_positions(f: &Figure) -> usize
    ensures count { result ≡ min (most_positions + 1) (positions_of f.now) }
{
    let mut total = count_in_ways(add_up(0, f.points.len()), &f.lines);
    for area in f.areas.as_slice() {
        total = count_in_area(total, area);
    }
    total
}

ghost use Rattle.std.specs.Prelude.{◌≡◌};
ghost use Rattle.point_set.specs.Extents.{IsEnvelope, moving_positions, still_positions};
ghost use Rattle.point_set.specs.Lines.{is_still as is_still_way};
ghost use Rattle.point_set.specs.Location.{rings_of};
ghost use Rattle.point_set.specs.Nodes.{positions_of_ways, rings_of_areas};

use crate::envelopes::{joined, of_way, of_ways};
use bound_rule::two_ends;
use plane_exact::{Path, Window};
use point_set::{Area, Areas, Paths};

/// The envelope of all rings of areas.
pub(crate) fn of_areas(areas: &Areas) -> Option<Window>
    ensures envelope { IsEnvelope (positions_of_ways (rings_of_areas areas.now)) result }
{
    let mut envelope = None;
    for area in areas.as_slice() {
        envelope = joined(envelope, of_area(area));
    }
    envelope
}

/// The envelope of the rings of an area.
fn of_area(area: &Area) -> Option<Window>
    ensures envelope { IsEnvelope (positions_of_ways (rings_of area.now)) result }
{
    joined(of_way(&area.shell), of_ways(&area.holes))
}

/// The envelope of the lines that have two different positions.
pub(crate) fn of_moving(lines: &Paths) -> Option<Window>
    ensures envelope { IsEnvelope (moving_positions lines.now) result }
{
    let mut envelope = None;
    for line in lines.as_slice() {
        if !is_still(line) {
            envelope = joined(envelope, of_way(line));
        }
    }
    envelope
}

/// The envelope of the lines whose positions are all equal.
pub(crate) fn of_still(lines: &Paths) -> Option<Window>
    ensures envelope { IsEnvelope (still_positions lines.now) result }
{
    let mut envelope = None;
    for line in lines.as_slice() {
        if is_still(line) {
            envelope = joined(envelope, of_way(line));
        }
    }
    envelope
}

/// Whether all positions of a line are equal.
fn is_still(line: &Path) -> bool
    ensures still { result ≡ is_still_way line.now }
{
    two_ends(line).is_none()
}

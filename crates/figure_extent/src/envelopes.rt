ghost use Rattle.std.specs.Prelude.{List, [], ◌∷◌, ◌++◌, Some};
ghost use Rattle.plane_exact.specs.declared.point.Pt.{Pt};
ghost use Rattle.point_set.specs.Extents.{IsEnvelope};
ghost use Rattle.point_set.specs.Nodes.{positions_of_ways};

use plane_exact::{Path, Pt, Window};
use point_set::Paths;

/// The envelope of one position.
pub(crate) fn at_position(p: Pt) -> Window
    ensures envelope { IsEnvelope (p ∷ []) (Some result) }
{
    Window {
        low_x: p.x,
        low_y: p.y,
        high_x: p.x,
        high_y: p.y,
    }
}

/// The envelope of some positions and some others, out of the envelopes of each.
pub(crate) fn joined(one: Option<Window>, other: Option<Window>) -> Option<Window>
    ensures envelope { (xs ys : List Pt) → IsEnvelope xs one → IsEnvelope ys other → IsEnvelope (xs ++ ys) result }
{
    match (one, other) {
        (Some(first), Some(second)) => Some(first.join(&second)),
        (one, None) => one,
        (None, other) => other,
    }
}

/// The envelope of the positions of a way. Takes no memory.
pub fn of_way(way: &Path) -> Option<Window>
    ensures envelope { IsEnvelope way.now result }
{
    let mut envelope = None;
    for p in way.as_slice() {
        envelope = joined(envelope, Some(at_position(*p)));
    }
    envelope
}

/// The envelope of the positions of several ways.
pub(crate) fn of_ways(ways: &Paths) -> Option<Window>
    ensures envelope { IsEnvelope (positions_of_ways ways.now) result }
{
    let mut envelope = None;
    for way in ways.as_slice() {
        envelope = joined(envelope, of_way(way));
    }
    envelope
}

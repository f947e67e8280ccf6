ghost use Rattle.std.specs.Prelude.{◌≡◌, [], ◌∷◌, IfSome, IfNone};
ghost use Rattle.point_set.specs.Rings.{edges_of, edges_after, is_same_position};

use plane_exact::{Path, Pt, Seg};

/// The first position of a way and those after it; of a way without a position, any and none.
pub(crate) fn beginning(way: &Path) -> (Pt, &[Pt])
    ensures edges { edges_after result.0 result.1.now ≡ edges_of way.now }
{
    let positions = way.as_slice();
    match positions.split_first() {
        Some((first, others)) => (*first, others),
        None => (Pt { x: 0, y: 0 }, positions),
    }
}

/// The next edge of the way that goes on from `last`, and the positions after its end.
pub(crate) fn next_edge(last: Pt, positions: &[Pt]) -> Option<(Seg, &[Pt])>
    ensures some { IfSome result (λ r. edges_after last positions.now ≡ r.0 ∷ edges_after r.0.b r.1.now) }
    ensures none { IfNone result (edges_after last positions.now ≡ []) }
{
    let mut rest = positions;
    while let Some((p, others)) = rest.split_first() {
        if !is_same(last, *p) {
            return Some((Seg { a: last, b: *p }, others));
        }
        rest = others;
    }
    None
}

/// Whether two positions are equal.
pub(crate) fn is_same(a: Pt, b: Pt) -> bool
    ensures same { result ≡ is_same_position a b }
{
    a.x == b.x && a.y == b.y
}

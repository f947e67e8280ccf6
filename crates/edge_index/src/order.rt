ghost use Rattle.std.specs.Prelude.{◌≡◌, ◌≤◌, length, map, IfOk};
ghost use Rattle.std.specs.List.{range_with_len};
ghost use Rattle.edge_index.specs.Rows.{AreAllPlaces};

use plane_exact::{ItemList, LIMIT, NoMemory, Seg};
use std::alloc::Global;

/// How many times the square of all positions is divided into quarters: its side is below 2^22 half units.
const LEVELS: u32 = 22;

/// A segment's place, ordered by where the middle of its window is along the curve.
#[derive(Clone, Copy, PartialEq, Eq, PartialOrd, Ord)]
struct Spot {
    along: u64,
    place: u32,
}

/// The places of the segments, in the order in which a Hilbert curve passes the middles of their windows: segments that are
/// near each other in this order are near each other in the plane.
///
/// # Errors
/// `NoMemory`.
pub(crate) fn order_of(alloc: Global, segs: &[Seg]) -> Result<Vec<u32>, NoMemory>
    requires few { length segs.now ≤ 1048576 }
    ensures places { IfOk result (λ leaves. AreAllPlaces segs.now leaves.items) }
{
    let mut spots = spots_of(alloc, segs)?;
    spots.sort();
    places_of(alloc, spots.as_slice())
}

/// The place of each spot.
fn places_of(alloc: Global, spots: &[Spot]) -> Result<Vec<u32>, NoMemory>
    ensures places { IfOk result (λ places. places.items ≡ map (λ spot. spot.place) spots.now) }
{
    let places = spots.iter().map(|spot| spot.place).collect(alloc)?;
    Ok(places)
}

/// The spot of each segment.
fn spots_of(alloc: Global, segs: &[Seg]) -> Result<ItemList<Spot>, NoMemory>
    requires few { length segs.now ≤ 1048576 }
    ensures places { IfOk result (λ spots. map (λ spot. spot.place) spots ≡ range_with_len 0 (length segs.now)) }
{
    let mut spots = ItemList::new(alloc);
    for (place, seg) in segs.iter().enumerate() {
        spots.push(Spot {
            along: along_curve(middle(seg.a.x, seg.b.x), middle(seg.a.y, seg.b.y)),
            place: place as u32,
        })?;
    }
    Ok(spots)
}

/// Twice the middle of two coordinates, counted from the least coordinate.
fn middle(a: i64, b: i64) -> u32 {
    (a.clamp(-LIMIT, LIMIT) + b.clamp(-LIMIT, LIMIT) + 2 * LIMIT) as u32
}

/// How far along the Hilbert curve a cell is. At each level the curve passes the lower left quarter, the upper left, the upper
/// right and the lower right, and the first and the last of these are turned.
fn along_curve(mut x: u32, mut y: u32) -> u64 {
    let mut along = 0;
    for level in (0..LEVELS).rev() {
        let right = x >> level & 1 == 1;
        let up = y >> level & 1 == 1;
        let quarter = match (right, up) {
            (false, false) => 0,
            (false, true) => 1,
            (true, true) => 2,
            (true, false) => 3,
        };
        along = along << 2 | quarter;
        if !up {
            if right {
                x = !x;
                y = !y;
            }
            (x, y) = (y, x);
        }
    }
    along
}

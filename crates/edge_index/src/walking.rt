ghost use Rattle.std.specs.Prelude.{◌≡◌, ◌+◌, ◌*◌, ◌≤◌, ◌<◌, ◌^◌, OnOk};
ghost use Rattle.edge_index.specs.Trees.{AreItemsIn, inner_meeting};
ghost use Rattle.edge_index.specs.Walks.{IsAfter};

use crate::boxes::Boxes;
use plane_exact::{Meter, NoMemory, PlaceList, Window};

/// Makes `out` the items of exactly the leaves whose windows meet `w`, ascending. It looks at no more than the root and the
/// children of inner rows whose windows meet `w`.
///
/// # Errors
/// `NoMemory`, and then `out` holds any list.
pub fn walk<T: Boxes<M>, M: Meter>(
    rows: &T,
    w: Window,
    out: &mut PlaceList,
    meter: &mut M,
) -> Result<(), NoMemory>
    requires room { M.used meter.old ≤ 2 ^ 62 }
    ensures items { OnOk result (AreItemsIn w (T.rows rows.now) out.new) }
    ensures steps { M.used meter.new ≤ M.used meter.old + (2 * inner_meeting w (T.rows rows.now) + 1) }
{
    out.clear();
    let count = rows.count();
    if count == 0 {
        return Ok(());
    }
    let mut next = Some(0);
    while let Some(place) = next {
        let row = rows.look(place, meter);
        let meets = row.window.meets(&w);
        if !meets {
            next = after(place);
        } else if place < count / 2 {
            next = Some(2 * place + 1);
        } else {
            out.push(row.item)?;
            next = after(place);
        }
    }
    out.sort();
    Ok(())
}

/// The row that follows the subtree of the row at `place`, or None where the walk ends with it.
fn after(place: u32) -> Option<u32>
    requires room { place < 2 ^ 31 }
    ensures after { IsAfter place result }
{
    let mut place = place;
    while place > 0 && place % 2 == 0 {
        place = place / 2 - 1;
    }
    if place > 0 { Some(place + 1) } else { None }
}

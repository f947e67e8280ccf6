ghost use Rattle.std.specs.Prelude.{◌≡◌, ◌+◌, ◌-◌, ◌*◌, ◌/◌, ◌<◌, ◌≤◌, length, IfOk, All};
ghost use Rattle.std.specs.Int.{int_max, int_min};
ghost use Rattle.edge_index.specs.Rows.{leaf_window, window_at, row_at, AreJoined};

use crate::boxes::BoxRow;
use plane_exact::{NoMemory, Seg, Window};
use std::alloc::Global;

/// What a place has before its window is known.
const NO_WINDOW: Window = Window {
    low_x: 0,
    low_y: 0,
    high_x: 0,
    high_y: 0,
};

/// The least box round two boxes.
fn join(one: Window, other: Window) -> Window
    ensures low_x { result.low_x ≡ int_min one.low_x other.low_x }
    ensures low_y { result.low_y ≡ int_min one.low_y other.low_y }
    ensures high_x { result.high_x ≡ int_max one.high_x other.high_x }
    ensures high_y { result.high_y ≡ int_max one.high_y other.high_y }
{
    Window {
        low_x: one.low_x.min(other.low_x),
        low_y: one.low_y.min(other.low_y),
        high_x: one.high_x.max(other.high_x),
        high_y: one.high_y.max(other.high_y),
    }
}

/// The window of the segment of a leaf, counted from 0.
fn leaf_window(segs: &[Seg], leaves: &[u32], leaf: usize) -> Window
    requires leaf { leaf < length leaves.now }
    requires places { All (λ place. place < length segs.now) leaves.now }
    ensures window { result ≡ leaf_window segs.now leaves.now leaf }
{
    Window::of(segs[leaves[leaf] as usize])
}

/// The window of the row at a place: kept, joined from its two leaves, or that of its leaf.
fn window_at(segs: &[Seg], leaves: &[u32], inner: &[Window], place: usize) -> Window
    requires place { place < 2 * length leaves.now - 1 }
    requires places { All (λ place. place < length segs.now) leaves.now }
    requires inner { length inner.now ≡ (length leaves.now - 1) / 2 }
    ensures window { result ≡ window_at segs.now leaves.now inner.now place }
{
    let count = leaves.len();
    if place < inner.len() {
        inner[place]
    } else if place + 1 < count {
        let left = 2 * place + 2 - count;
        join(
            leaf_window(segs, leaves, left),
            leaf_window(segs, leaves, left + 1),
        )
    } else {
        leaf_window(segs, leaves, place + 1 - count)
    }
}

/// The row at a place.
pub(crate) fn row_at(segs: &[Seg], leaves: &[u32], inner: &[Window], place: usize) -> BoxRow
    requires place { place < 2 * length leaves.now - 1 }
    requires places { All (λ place. place < length segs.now) leaves.now }
    requires inner { length inner.now ≡ (length leaves.now - 1) / 2 }
    ensures row { result ≡ row_at segs.now leaves.now inner.now place }
{
    let count = leaves.len();
    BoxRow {
        window: window_at(segs, leaves, inner, place),
        item: if place + 1 < count {
            0
        } else {
            leaves[place + 1 - count]
        },
    }
}

/// The windows of those inner rows that have an inner child, each made from the windows of its children.
///
/// # Errors
/// `NoMemory`.
pub(crate) fn inner_windows(
    alloc: Global,
    segs: &[Seg],
    leaves: &[u32],
) -> Result<Vec<Window>, NoMemory>
    requires places { All (λ place. place < length segs.now) leaves.now }
    ensures joined { IfOk result (λ inner. AreJoined segs.now leaves.now inner.items) }
{
    let count = leaves.len().saturating_sub(1) / 2;
    let mut inner = vec![in alloc; NO_WINDOW; count]?;
    for place in (0..count).rev() {
        let left = window_at(segs, leaves, &inner, 2 * place + 1);
        let right = window_at(segs, leaves, &inner, 2 * place + 2);
        inner[place] = join(left, right);
    }
    Ok(inner)
}

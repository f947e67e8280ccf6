ghost use Rattle.std.specs.Prelude.{◌≡◌, ◌≤◌, ◌<◌, ◌++◌, map, IfOk, OnOk};
ghost use Rattle.sample_figures.specs.Samples.{IsSampleNumber, comb_ring, exchanged as with_exchanged, most_teeth, over_tooth, position_at};
ghost use Rattle.sample_figures.specs.Samples.{rectangle_ring};

use plane_exact::{NoMemory, Path, Pt};
use std::alloc::Global;

/// The position `x` to the right of the origin and `y` above it.
pub(crate) fn position(x: u32, y: u32) -> Pt
    ensures place { result ≡ position_at x y }
{
    Pt {
        x: i64::from(x),
        y: i64::from(y),
    }
}

/// Goes over a tooth: along its top to the left, and along the bottom of the gap on its left, where it has one.
fn add_tooth(ring: &mut Path, tooth: u32, height: u32) -> Result<(), NoMemory>
    requires number { tooth < most_teeth }
    ensures added { OnOk result (ring.new ≡ ring.old ++ over_tooth height tooth) }
{
    let left = 2 * tooth;
    ring.push(position(left + 1, height))?;
    ring.push(position(left, height))?;
    if tooth > 0 {
        ring.push(position(left, 1))?;
        ring.push(position(left - 1, 1))?;
    }
    Ok(())
}

/// The ring of the comb with this many teeth.
///
/// # Errors
/// `NoMemory`.
pub(crate) fn comb(alloc: Global, teeth: u32) -> Result<Path, NoMemory>
    requires number { IsSampleNumber teeth }
    ensures ring { IfOk result (λ ring. ring ≡ comb_ring teeth) }
{
    let height = 2 * teeth + 1;
    let mut ring = Path::new(alloc);
    ring.push(position(0, 0))?;
    ring.push(position(2 * teeth - 1, 0))?;
    for tooth in (0..teeth).rev() {
        add_tooth(&mut ring, tooth, height)?;
    }
    ring.push(position(0, 0))?;
    Ok(ring)
}

/// The positions with x and y exchanged.
///
/// # Errors
/// `NoMemory`.
pub(crate) fn exchanged(alloc: Global, way: &Path) -> Result<Path, NoMemory>
    ensures way { IfOk result (λ other. other ≡ map with_exchanged way.now) }
{
    let mut other = Path::new(alloc);
    for p in way.as_slice() {
        other.push(Pt { x: p.y, y: p.x })?;
    }
    Ok(other)
}

/// The ring of the rectangle of height 1 that stands on the line y = 0 from `left` to `right`.
///
/// # Errors
/// `NoMemory`.
pub(crate) fn rectangle(alloc: Global, left: u32, right: u32) -> Result<Path, NoMemory>
    ensures ring { IfOk result (λ ring. ring ≡ rectangle_ring left right) }
{
    let mut ring = Path::new(alloc);
    ring.push(position(left, 0))?;
    ring.push(position(right, 0))?;
    ring.push(position(right, 1))?;
    ring.push(position(left, 1))?;
    ring.push(position(left, 0))?;
    Ok(ring)
}

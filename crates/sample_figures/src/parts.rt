ghost use Rattle.std.specs.Prelude.{◌≡◌, ◌≤◌, ◌<◌, IfOk};
ghost use Rattle.sample_figures.specs.Samples.{IsSampleNumber, area_inside, figure_of_ring, most_teeth, points_in_row, square_at};
ghost use Rattle.sample_figures.specs.Samples.{squares_and_line};

use crate::rings::{position, rectangle};
use plane_exact::{NoMemory, Path};
use point_set::{Area, Figure, Paths};
use std::alloc::Global;

/// The area inside a ring, without holes, in a group. Takes no memory.
fn area_inside(alloc: Global, ring: Path, group: u32) -> Area
    ensures area { result ≡ area_inside ring group }
{
    Area {
        shell: ring,
        holes: Paths::new(alloc),
        group,
    }
}

/// The figure of the one area inside a ring.
///
/// # Errors
/// `NoMemory`.
pub(crate) fn figure_of_ring(alloc: Global, ring: Path) -> Result<Figure, NoMemory>
    ensures figure { IfOk result (λ f. f ≡ figure_of_ring ring) }
{
    let mut figure = Figure::empty(alloc);
    figure.areas.push(area_inside(alloc, ring, 0))?;
    Ok(figure)
}

/// The unit square at a place of the row of squares, in a group of its own.
///
/// # Errors
/// `NoMemory`.
fn square(alloc: Global, place: u32) -> Result<Area, NoMemory>
    requires place { place < most_teeth }
    ensures square { IfOk result (λ area. area ≡ square_at place) }
{
    let ring = rectangle(alloc, place, place + 1)?;
    Ok(area_inside(alloc, ring, place))
}

/// A row of `count` unit squares along the line y = 0, and a line along their feet and as far again.
///
/// # Errors
/// `NoMemory`.
pub(crate) fn squares_and_line(alloc: Global, count: u32) -> Result<Figure, NoMemory>
    requires number { IsSampleNumber count }
    ensures figure { IfOk result (λ f. f ≡ squares_and_line count) }
{
    let mut line = Path::new(alloc);
    line.push(position(0, 0))?;
    line.push(position(2 * count, 0))?;
    let mut figure = Figure::empty(alloc);
    figure.lines.push(line)?;
    for place in 0..count {
        figure.areas.push(square(alloc, place)?)?;
    }
    Ok(figure)
}

/// The points along the line y = 0 from abscissa 0 to twice `count`.
///
/// # Errors
/// `NoMemory`.
pub(crate) fn points_in_row(alloc: Global, count: u32) -> Result<Figure, NoMemory>
    requires number { IsSampleNumber count }
    ensures figure { IfOk result (λ f. f ≡ points_in_row count) }
{
    let mut figure = Figure::empty(alloc);
    for x in 0..2 * count + 1 {
        figure.points.push(position(x, 0))?;
    }
    Ok(figure)
}

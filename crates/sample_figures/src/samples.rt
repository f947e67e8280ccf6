ghost use Rattle.std.specs.Prelude.{◌≡◌, ◌≤◌, IfOk};
ghost use Rattle.im_matrix.specs.declared.Which.TheVariants as which;
ghost use Rattle.sample_figures.specs.Samples.{IsSampleNumber, figures_of_sample};

use crate::parts::{figure_of_ring, points_in_row, squares_and_line};
use crate::rings::{comb, exchanged, rectangle};
use plane_exact::NoMemory;
use point_set::FigureList;
use std::alloc::Global;

/// The greatest number of a sample.
pub const MOST_TEETH: u32 = 200;

/// The figures of a sample.
#[derive(Debug, Drop)]
pub struct SamplePair {
    /// Those of A: a comb, and a row of squares with a line along their feet.
    pub a: FigureList,
    /// Those of B: the comb with x and y exchanged, a rectangle as long as the squares, and points along the line.
    pub b: FigureList,
}

/// The figures of the sample with the number n, which is the number of the comb's teeth.
///
/// # Errors
/// `NoMemory`.
pub fn sample(alloc: Global, n: u32) -> Result<SamplePair, NoMemory>
    requires number { IsSampleNumber n }
    ensures a { IfOk result (λ pair. pair.a ≡ figures_of_sample n which.A) }
    ensures b { IfOk result (λ pair. pair.b ≡ figures_of_sample n which.B) }
{
    let ring = comb(alloc, n)?;
    let mut b = FigureList::new(alloc);
    b.push(figure_of_ring(alloc, exchanged(alloc, &ring)?)?)?;
    b.push(figure_of_ring(alloc, rectangle(alloc, 0, n)?)?)?;
    b.push(points_in_row(alloc, n)?)?;
    let mut a = FigureList::new(alloc);
    a.push(figure_of_ring(alloc, ring)?)?;
    a.push(squares_and_line(alloc, n)?)?;
    Ok(SamplePair { a, b })
}

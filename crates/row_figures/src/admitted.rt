ghost use Rattle.std.specs.Prelude.{IfOk};
ghost use Rattle.point_set.specs.Shape.{IsWellShaped};
ghost use Rattle.sample_figures.specs.Samples.{IsSampleNumber};

use geom_valid::admit;
use point_set::{Figure, FigureList, Valid, well_shaped};
use sample_figures::sample;
use std::alloc::Global;
use std::test::Fail;
use wkt_text::{Scale, read_next};

/// The text of a square.
pub const SQUARE: &str = "POLYGON ((0 0, 4 0, 4 4, 0 4, 0 0))";

/// The figure that a text says.
fn read(alloc: Global, text: &str) -> Result<Figure, Fail>
    ensures shaped { IfOk result IsWellShaped }
{
    match read_next(alloc, text.as_bytes(), 0, Scale { digits: 0 })? {
        Some(parsed) => Ok(parsed.figure),
        None => Err(Fail::new("no geometry")),
    }
}

/// The valid figure that a text says.
///
/// # Errors
/// The text says none, or memory is wanting.
pub fn figure_of(alloc: Global, text: &str) -> Result<Valid, Fail> {
    let figure = read(alloc, text)?;
    let valid = admit(alloc, figure)?;
    Ok(valid)
}

/// The first of some figures, admitted.
fn first_of(alloc: Global, mut figures: FigureList) -> Result<Valid, Fail> {
    figures.reverse();
    let figure = figures.pop().ok_or("no figure")?;
    if !well_shaped(&figure) {
        return Err(Fail::new("not well shaped"));
    }
    let valid = admit(alloc, figure)?;
    Ok(valid)
}

/// The first figure of A in a sample: a comb with so many teeth.
///
/// # Errors
/// Memory is wanting.
pub fn comb_of_sample(alloc: Global, teeth: u32) -> Result<Valid, Fail>
    requires number { IsSampleNumber teeth }
{
    let pair = sample(alloc, teeth)?;
    first_of(alloc, pair.a)
}

/// The first figure of B in a sample: a comb with so many teeth that lies on its side.
///
/// # Errors
/// Memory is wanting.
pub fn turned_comb_of_sample(alloc: Global, teeth: u32) -> Result<Valid, Fail>
    requires number { IsSampleNumber teeth }
{
    let pair = sample(alloc, teeth)?;
    first_of(alloc, pair.b)
}

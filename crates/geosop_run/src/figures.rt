ghost use Rattle.std.specs.Prelude.{◌≡◌, ◌≤◌, length, IfOk, IfErr, OnOk, All};
ghost use Rattle.point_set.specs.Shape.{IsWellShaped};
ghost use Rattle.point_set.specs.Validity.{IsValid};
ghost use Rattle.geosop_run.specs.Asking.{IsTextFault};
ghost use Rattle.geosop_run.specs.Sources.{IsSound, IsSource, most_bytes};
ghost use Rattle.geosop_run.specs.Steps.{HasNoText, IsNext, IsNextText, IsUnfit, StopsAt};

use crate::sources::SideFault;
use crate::status::Refusal;
use geom_valid::{AdmitFault, admit};
use im_matrix::Which;
use point_set::{Figure, Valid, Valids};
use std::alloc::Global;
use wkt_text::{Parsed, Scale, WktFault, read_next};

/// The figure of the text at a place, with the place after it; or None where only white space follows.
///
/// # Errors
/// The fault of the text of this geometry, which has this number on its side, or want of memory.
fn read_figure(
    alloc: Global,
    side: Which,
    number: u32,
    bytes: &[u8],
    at: usize,
    scale: Scale,
) -> Result<Option<Parsed>, SideFault>
    requires within { at ≤ length bytes.now }
    ensures next { IfOk result (IsNextText scale.digits bytes.now at) }
    ensures fault { IfErr result (HasNoText scale.digits side number bytes.now at) }
{
    match read_next(alloc, bytes, at, scale) {
        Ok(found) => Ok(found),
        Err(WktFault::Bad(kind, place)) => Err(SideFault::from(Refusal::Text(
            side, number, kind, place,
        ))),
        Err(WktFault::NoMemory) => Err(SideFault::NoMemory),
    }
}

/// The figure, where it is valid.
///
/// # Errors
/// The first fault of this figure, whose geometry has this number on its side, or want of memory.
fn admit_figure(alloc: Global, side: Which, number: u32, figure: Figure) -> Result<Valid, SideFault>
    requires shaped { IsWellShaped figure }
    ensures same { IfOk result (λ v. v ≡ figure) }
    ensures valid { OnOk result (IsValid figure) }
    ensures fault { IfErr result (IsUnfit side number figure) }
{
    match admit(alloc, figure) {
        Ok(valid) => Ok(valid),
        Err(AdmitFault::Bad(kind, element)) => Err(SideFault::from(Refusal::Shape(
            side, number, kind, element,
        ))),
        Err(AdmitFault::NoMemory) => Err(SideFault::NoMemory),
    }
}

/// The geometry at a place, read and admitted, with the place after its text; or None where only white space follows.
///
/// # Errors
/// The refusal of this geometry, which has this number on its side, or want of memory.
fn admit_next(
    alloc: Global,
    side: Which,
    number: u32,
    bytes: &[u8],
    at: usize,
    scale: Scale,
) -> Result<Option<(Valid, usize)>, SideFault>
    requires within { at ≤ length bytes.now }
    ensures next { IfOk result (IsNext scale.digits bytes.now at) }
    ensures fault { IfErr result (StopsAt scale.digits side number bytes.now at) }
{
    match read_figure(alloc, side, number, bytes, at, scale)? {
        Some(Parsed { figure, end }) => {
            let valid = admit_figure(alloc, side, number, figure)?;
            Ok(Some((valid, end)))
        }
        None => Ok(None),
    }
}

/// The figures of a side's bytes, each read and admitted before the next one is looked at.
///
/// # Errors
/// The refusal of the first geometry with a fault, or want of memory.
pub(crate) fn admit_figures(
    alloc: Global,
    side: Which,
    bytes: &[u8],
    scale: Scale,
) -> Result<Valids, SideFault>
    requires short { length bytes.now ≤ most_bytes }
    ensures source { IfOk result (IsSource scale.digits bytes.now) }
    ensures sound { IfOk result (All IsSound) }
    ensures fault { IfErr result (IsTextFault scale.digits side bytes.now) }
{
    let mut figures = Valids::new(alloc);
    let mut at = 0;
    while let Some((figure, end)) = admit_next(
        alloc,
        side,
        figures.len() as u32 + 1,
        bytes,
        at,
        scale,
    )? {
        figures.push(figure)?;
        at = end;
    }
    Ok(figures)
}

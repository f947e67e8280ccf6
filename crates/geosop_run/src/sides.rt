ghost use Rattle.std.specs.Prelude.{◌≡◌, None, IfOk, IfErr, OnOk, All};
ghost use Rattle.geosop_io.specs.Inputs.{KeepsOthers};
ghost use Rattle.geosop_run.specs.Asking.{IsAdmittedFrom, IsAskedOrNot, IsSideFault};
ghost use Rattle.geosop_run.specs.Sources.{IsSound};

use crate::figures::admit_figures;
use crate::sources::{SideFault, read_side};
use geosop_io::Inputs;
use geosop_line::Source;
use im_matrix::Which;
use point_set::Valids;
use std::alloc::Global;
use wkt_text::Scale;

/// The figures of a side: its source is read whole, and then its geometries are read and admitted one after the other.
///
/// # Errors
/// The side's refusal, a read fault, or want of memory.
pub(crate) fn admit_side<I: Inputs>(
    alloc: Global,
    inputs: &mut I,
    side: Which,
    source: Source,
    scale: Scale,
) -> Result<Valids, SideFault>
    requires new { (I.seen inputs.old).asked side ≡ None }
    ensures ok { IfOk result (IsAdmittedFrom scale.digits side source (I.seen inputs.old) (I.seen inputs.new)) }
    ensures sound { IfOk result (All IsSound) }
    ensures uncounted { OnOk result ((I.seen inputs.new).faults ≡ (I.seen inputs.old).faults) }
    ensures err { IfErr result (IsSideFault scale.digits side source (I.seen inputs.old) (I.seen inputs.new)) }
    ensures asked { IsAskedOrNot source ((I.seen inputs.new).asked side) }
    ensures others { KeepsOthers side (I.seen inputs.old) (I.seen inputs.new) }
{
    let bytes = read_side(alloc, inputs, side, source)?;
    admit_figures(alloc, side, bytes.as_slice(), scale)
}

ghost use Rattle.plane_exact.specs.Nodes.{IsFraction, IsRange};

/// The whole numbers next to the fraction `x/w`, below and above it, or itself twice where it is whole.
pub(crate) fn whole_range(x: i128, w: i128) -> (i64, i64)
    requires fraction { IsFraction x w }
    ensures range { IsRange x w result.0 result.1 }
{
    let quotient = (x / w) as i64;
    let rest = x % w;
    if rest < 0 {
        (quotient - 1, quotient)
    } else if rest > 0 {
        (quotient, quotient + 1)
    } else {
        (quotient, quotient)
    }
}

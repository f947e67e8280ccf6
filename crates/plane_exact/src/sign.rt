ghost use Rattle.std.specs.Prelude.{◌≡◌};
ghost use Rattle.plane_exact.specs.Signs.{sign_of};

use std::cmp::Ordering;

/// The sign of a number.
#[derive(Clone, Copy, Debug, PartialEq, Eq)]
pub enum Sign {
    /// Below 0; for a turn, to the right.
    Minus,
    /// 0; for a turn, straight on or back.
    Zero,
    /// Above 0; for a turn, to the left.
    Plus,
}

/// The sign of a number of 64 bits.
pub(crate) fn narrow_sign(number: i64) -> Sign
    ensures sign { result ≡ sign_of number }
{
    match number.cmp(&0) {
        Ordering::Less => Sign::Minus,
        Ordering::Equal => Sign::Zero,
        Ordering::Greater => Sign::Plus,
    }
}

/// The sign of a number of 128 bits.
pub(crate) fn wide_sign(number: i128) -> Sign
    ensures sign { result ≡ sign_of number }
{
    match number.cmp(&0) {
        Ordering::Less => Sign::Minus,
        Ordering::Equal => Sign::Zero,
        Ordering::Greater => Sign::Plus,
    }
}

ghost use Rattle.std.specs.Prelude.{◌≡◌, ℕ, ◌*◌, ◌<◌, ◌≤◌, ℤ, pos, ◌<ℤ◌, unsigned_abs};
ghost use Rattle.std.specs.Int.{IsGcd};
ghost use Prim.Native.Nat.{◌∣◌};
ghost use Rattle.plane_exact.specs.Nodes.{IsFraction};

/// The greatest common divisor of two numbers, by Euclid's way; of a number and 0 it is the number. Takes no memory.
pub fn greatest_divisor(a: u64, b: u64) -> u64
    ensures greatest { IsGcd a b result }
{
    let mut x = a;
    let mut y = b;
    while y != 0 {
        (x, y) = (y, x % y);
    }
    x
}

/// The greatest common divisor of the three numbers of a point.
pub(crate) fn common_divisor(x: i128, y: i128, w: i128) -> i128
    requires across { IsFraction x w }
    requires above { IsFraction y w }
    ensures positive { pos 0 <ℤ result }
    ensures x { unsigned_abs result ∣ unsigned_abs x }
    ensures y { unsigned_abs result ∣ unsigned_abs y }
    ensures w { unsigned_abs result ∣ unsigned_abs w }
    ensures greatest { (d : ℕ) → d ∣ unsigned_abs x → d ∣ unsigned_abs y → d ∣ unsigned_abs w → d ∣ unsigned_abs result }
{
    let of_two = greatest_divisor(w as u64, x.unsigned_abs() as u64);
    i128::from(greatest_divisor(of_two, y.unsigned_abs() as u64))
}

ghost use Rattle.std.specs.Prelude.{◌≡◌, ◌≤◌};

/// By how many digits the point of every number is moved to the right.
#[derive(Clone, Copy, Debug, PartialEq, Eq)]
pub struct Scale {
    /// The power of ten by which every number is multiplied.
    pub digits: u8,
    ghost within: { digits ≤ 0 },
}

impl Scale {
    ghost use Rattle.std.specs.Prelude.{◌<◌, IfSome, IsNone, ◌↔◌};

    /// The scale of so many digits. There is one for 0 alone. Takes no memory.
    pub fn new(digits: u32) -> Option<Scale>
        ensures scale { IfSome result (λ s. s.digits ≡ digits) }
        ensures none { IsNone result ↔ (0 < digits) }
    {
        if digits == 0 {
            Some(Scale { digits: 0 })
        } else {
            None
        }
    }
}

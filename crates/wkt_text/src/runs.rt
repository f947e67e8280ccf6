ghost use Rattle.std.specs.Prelude.{◌≡◌, ◌+◌, ◌≤◌, length, drop};
ghost use Rattle.std.specs.List.{prefix_len};
ghost use Rattle.wkt_text.specs.Bytes.{in_class};

/// A class of bytes.
#[derive(Clone, Copy, Debug, PartialEq, Eq)]
pub enum Class {
    /// Space, tab, line feed and carriage return.
    White,
    /// The ASCII letters.
    Letter,
    /// The decimal digits.
    Digit,
    /// The decimal digits and the point.
    Mantissa,
    /// The bytes that a number may have.
    Numeric,
}

impl Class {
    /// Whether the class has the byte.
    #[inline(always)]
    pub fn has(self, byte: u8) -> bool
        ensures member { result ≡ in_class self byte }
    {
        match self {
            Class::White => byte == b' ' || byte == b'\t' || byte == b'\n' || byte == b'\r',
            Class::Letter => byte.is_ascii_alphabetic(),
            Class::Digit => byte.is_ascii_digit(),
            Class::Mantissa => byte.is_ascii_digit() || byte == b'.',
            Class::Numeric => {
                byte.is_ascii_digit()
                    || byte == b'+'
                    || byte == b'-'
                    || byte == b'.'
                    || byte == b'e'
                    || byte == b'E'
            }
        }
    }
}

/// The place of the first byte from `at` on that isn't of the class.
#[inline(always)]
pub fn run_end(bytes: &[u8], at: usize, class: Class) -> usize
    requires within { at ≤ length bytes.now }
    ensures end { result ≡ at + prefix_len (in_class class) (drop at bytes.now) }
    ensures within { result ≤ length bytes.now }
    ensures onward { at ≤ result }
{
    let mut end = at;
    while end < bytes.len() && class.has(bytes[end]) {
        end += 1;
    }
    end
}

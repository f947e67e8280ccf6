//! Numbers in the words.
ghost use Rattle.std.specs.Prelude.{ℕ, MatchOption};
ghost use Rattle.geosop_line.specs.Numbers.{IsNumber, IsDigit};

/// The number of a text of 1 to 4 digits, where it is from 1 to a limit.
pub(crate) fn number_to(most: u32, text: &str) -> Option<u32>
    ensures number { MatchOption result ((n : ℕ) → ¬ IsNumber most text.now n) (IsNumber most text.now) }
{
    if text.len() > 4 || text.starts_with('+') {
        return None;
    }
    let Ok(number) = text.parse::<u32>() else {
        return None;
    };
    if number < 1 || number > most {
        return None;
    }
    Some(number)
}

/// The number of a text of one digit.
pub(crate) fn digit_of(text: &str) -> Option<u32>
    ensures digit { MatchOption result ((d : ℕ) → ¬ IsDigit text.now d) (IsDigit text.now) }
{
    match text.as_bytes() {
        [digit @ b'0'..=b'9'] => Some(u32::from(*digit - b'0')),
        _ => None,
    }
}

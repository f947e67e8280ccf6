ghost use Rattle.std.specs.Prelude.{◌≡◌, ◌<◌, ◌≤◌, ◌+◌, ◌-◌, ◌*◌, ◌^◌, ◌++◌, IsTrue, ◌&&◌, nat_lt, length};
ghost use Rattle.std.specs.List.{list_all, fold};
ghost use Rattle.std.specs.Char.{is_ascii_digit};
ghost use Rattle.wkt_text.specs.Limits.{most_bytes};
ghost use Rattle.plane_exact.specs.Limits.{limit};
ghost use Rattle.text_laws.specs.Numbers.{mantissa, after_mantissa, whole_part, fraction_part, unsigned, is_minus, is_zero, is_exponent};
ghost use Rattle.text_laws.specs.Numbers.{exponent_size, is_exponent_minus, up_of, down_of, read_on, capped, kept_value};
ghost use Rattle.wkt_text.specs.Numbers.{numeral_of, judged};

use crate::runs::{Class, run_end};
use crate::scale::Scale;
use plane_exact::LIMIT;

/// What is said of a number.
#[derive(Clone, Copy, Debug, PartialEq, Eq)]
pub enum Numeral {
    /// It has more than 64 bytes.
    Long,
    /// It hasn't the form of a number.
    Malformed,
    /// Its value isn't whole.
    Fraction,
    /// Its value is whole, and above the limit in size.
    Wide,
    /// Its value.
    Whole(i64),
}

/// The most bytes that a number may have.
const LONGEST: usize = 64;

/// One more than the greatest size of a value: all greater values are taken for this one.
const CAP: u32 = LIMIT as u32 + 1;

/// Exponents from here on are taken for this one: it moves the point past all digits.
const FAR: u32 = 1000;

/// By how many zeros digits become longer, and by how many digits shorter. One of the two is 0.
#[derive(Clone, Copy, Debug, PartialEq, Eq)]
struct Shift {
    zeros: usize,
    dropped: usize,
}

fn skip_sign(text: &[u8]) -> &[u8]
    ensures rest { result.now ≡ unsigned text.now }
    ensures within { length result.now ≤ length text.now }
{
    match text {
        [b'+' | b'-', rest @ ..] => rest,
        _ => text,
    }
}

fn is_minus(text: &[u8]) -> bool
    ensures minus { result ≡ is_minus text.now }
{
    match text {
        [b'-', ..] => true,
        _ => false,
    }
}

fn all_digits(text: &[u8]) -> bool
    ensures digits { result ≡ list_all is_ascii_digit text.now }
{
    text.iter().all(|b| b.is_ascii_digit())
}

fn all_zeros(text: &[u8]) -> bool
    ensures zeros { result ≡ list_all is_zero text.now }
{
    text.iter().all(|b| *b == b'0')
}

/// Whether the mantissa has digits alone, but for one point, and at least one digit.
fn is_mantissa(whole: &[u8], fraction: &[u8]) -> bool
    ensures mantissa { result ≡ (list_all is_ascii_digit fraction.now && nat_lt 0 (length whole.now + length fraction.now)) }
{
    all_digits(fraction) && !(whole.is_empty() && fraction.is_empty())
}

/// Whether the text may follow a mantissa: nothing, or an exponent.
fn is_exponent(text: &[u8]) -> bool
    ensures exponent { result ≡ is_exponent text.now }
{
    match text {
        [] => true,
        [b'e' | b'E', rest @ ..] => {
            let digits = skip_sign(rest);
            all_digits(digits) && !digits.is_empty()
        }
        _ => false,
    }
}

/// The number whose digits are those of `start` and then the text's, or the cap where it is greater.
fn read_on(cap: u32, start: u32, text: &[u8]) -> u32
    requires small { cap ≤ CAP }
    requires under { start ≤ cap }
    requires digits { IsTrue (list_all is_ascii_digit text.now) }
    ensures sum { result ≡ capped cap (read_on start text.now) }
{
    let mut sum = start;
    for b in text {
        sum = (sum * 10 + u32::from(*b - b'0')).min(cap);
    }
    sum
}

/// Whether the exponent is negative, and its size up to `FAR`.
fn exponent_of(text: &[u8]) -> (bool, u32)
    requires formed { IsTrue (is_exponent text.now) }
    ensures minus { result.0 ≡ is_exponent_minus text.now }
    ensures size { result.1 ≡ capped FAR (exponent_size text.now) }
    ensures near { result.1 ≤ FAR }
{
    match text {
        [] => (false, 0),
        [_, rest @ ..] => (is_minus(rest), read_on(FAR, 0, skip_sign(rest))),
    }
}

/// The shift by an exponent and a scale of digits of which `places` stand after the point.
fn shift_by(minus: bool, size: u32, places: usize, scale: Scale) -> Shift
    requires near { size ≤ FAR }
    requires few { places ≤ most_bytes }
    ensures zeros { result.zeros ≡ up_of minus size scale.digits - down_of minus size places }
    ensures dropped { result.dropped ≡ down_of minus size places - up_of minus size scale.digits }
{
    let far = size as usize;
    let moved = scale.digits as usize;
    let (up, down) = if minus {
        (moved, far + places)
    } else {
        (far + moved, places)
    };
    Shift {
        zeros: up.saturating_sub(down),
        dropped: down.saturating_sub(up),
    }
}

/// The number with so many zeros after it, or the cap where it is greater.
fn lengthen(start: u32, zeros: usize) -> u32
    requires small { start ≤ CAP }
    ensures size { result ≡ capped CAP (start * 10 ^ zeros) }
{
    let mut size = start;
    for _step in 0..zeros {
        if size == 0 || size == CAP {
            return size;
        }
        size = (size * 10).min(CAP);
    }
    size
}

/// The value of the digits under a shift, up to the cap, or None where it isn't whole.
fn kept_value(whole: &[u8], fraction: &[u8], shift: Shift) -> Option<u32>
    requires few { length whole.now + length fraction.now ≤ most_bytes }
    requires whole { IsTrue (list_all is_ascii_digit whole.now) }
    requires fraction { IsTrue (list_all is_ascii_digit fraction.now) }
    ensures value { result ≡ kept_value (limit + 1) (whole.now ++ fraction.now)
        (length whole.now + length fraction.now - shift.dropped) shift.zeros }
{
    let kept = (whole.len() + fraction.len()).saturating_sub(shift.dropped);
    let split = kept.min(whole.len());
    let (front, dropped) = whole.split_at(split);
    if !all_zeros(dropped) {
        return None;
    }
    let (more, dropped) = fraction.split_at(kept - split);
    if !all_zeros(dropped) {
        return None;
    }
    let size = read_on(CAP, read_on(CAP, 0, front), more);
    Some(lengthen(size, shift.zeros))
}

/// What is said of a whole number of this sign and size, or of one that isn't whole.
fn judged(minus: bool, size: Option<u32>) -> Numeral
    ensures judged { result ≡ judged minus size }
{
    match size {
        None => Numeral::Fraction,
        Some(size) if i64::from(size) > LIMIT => Numeral::Wide,
        Some(size) if minus => Numeral::Whole(-i64::from(size)),
        Some(size) => Numeral::Whole(i64::from(size)),
    }
}

/// The mantissa of a text without sign, and what comes after it.
fn split_mantissa(text: &[u8]) -> (&[u8], &[u8])
    ensures front { result.0.now ≡ mantissa text.now }
    ensures back { result.1.now ≡ after_mantissa text.now }
    ensures within { length result.0.now ≤ length text.now }
{
    text.split_at(run_end(text, 0, Class::Mantissa))
}

/// The digits before the point, and what stands after it.
fn split_point(mantissa: &[u8]) -> (&[u8], &[u8])
    ensures whole { result.0.now ≡ whole_part mantissa.now }
    ensures fraction { result.1.now ≡ fraction_part mantissa.now }
    ensures digits { IsTrue (list_all is_ascii_digit result.0.now) }
    ensures within { length result.0.now + length result.1.now ≤ length mantissa.now }
{
    let (whole, rest) = mantissa.split_at(run_end(mantissa, 0, Class::Digit));
    match rest {
        [] => (whole, rest),
        [_, fraction @ ..] => (whole, fraction),
    }
}

/// What is said of a number's text, times ten to the power of the scale.
pub fn read_number(text: &[u8], scale: Scale) -> Numeral
    ensures numeral { result ≡ numeral_of scale.digits text.now }
{
    if text.len() > LONGEST {
        return Numeral::Long;
    }
    let (mantissa, exponent) = split_mantissa(skip_sign(text));
    let (whole, fraction) = split_point(mantissa);
    if !is_mantissa(whole, fraction) {
        return Numeral::Malformed;
    }
    if !is_exponent(exponent) {
        return Numeral::Malformed;
    }
    let (minus, size) = exponent_of(exponent);
    judged(
        is_minus(text),
        kept_value(
            whole,
            fraction,
            shift_by(minus, size, fraction.len(), scale),
        ),
    )
}

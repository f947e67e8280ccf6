ghost use Rattle.std.specs.Prelude.{◌≡◌, ◌&&◌};
ghost use Rattle.wkt_text.specs.Words.{is_named as is_named_so, is_unread_curve as is_curve, is_unread_surface as is_surface, is_type_name};
ghost use Rattle.wkt_text.specs.Words.{is_delimited_so, is_text as is_text_so};

use crate::runs::{Class, run_end};
use crate::word::{after_name, tag_of, type_of};

/// Whether a word is a name in any case, with or without a joined tag.
fn is_named(word: &[u8], name: &[u8]) -> bool
    ensures named { result ≡ is_named_so name.now word.now }
{
    match after_name(word, name) {
        Some(letters) => tag_of(letters).is_some(),
        None => false,
    }
}

/// Whether a word is the type of a curve that isn't read.
fn is_unread_curve(word: &[u8]) -> bool
    ensures curve { result ≡ is_curve word.now }
{
    is_named(word, b"CIRCULARSTRING")
        || is_named(word, b"COMPOUNDCURVE")
        || is_named(word, b"MULTICURVE")
        || is_named(word, b"LINEARRING")
}

/// Whether a word is the type of a surface that isn't read.
fn is_unread_surface(word: &[u8]) -> bool
    ensures surface { result ≡ is_surface word.now }
{
    is_named(word, b"CURVEPOLYGON")
        || is_named(word, b"MULTISURFACE")
        || is_named(word, b"TRIANGLE")
        || is_named(word, b"TIN")
        || is_named(word, b"POLYHEDRALSURFACE")
}

/// Whether a word is the type of a geometry, read or not.
fn names_type(word: &[u8]) -> bool
    ensures named { result ≡ is_type_name word.now }
{
    type_of(word).is_some() || is_unread_curve(word) || is_unread_surface(word)
}

/// Whether a word may end before these bytes: they are none, or begin with white space or an opening bracket.
fn is_delimited(rest: &[u8]) -> bool
    ensures delimited { result ≡ is_delimited_so rest.now }
{
    match rest.first() {
        None => true,
        Some(byte) => Class::White.has(*byte) || *byte == b'(',
    }
}

/// Whether a word is the type of a geometry and may end before these bytes.
fn is_type_before(word: &[u8], rest: &[u8]) -> bool
    ensures before { result ≡ (is_type_name word.now && is_delimited_so rest.now) }
{
    names_type(word) && is_delimited(rest)
}

/// Whether a value is a geometry's text and no file's name: after white space or none it begins with letters that name a
/// type, read or not, with or without a joined tag, and then ends, or has white space or an opening bracket. Takes no
/// memory.
pub fn is_text(value: &[u8]) -> bool
    ensures text { result ≡ is_text_so value.now }
{
    let start = run_end(value, 0, Class::White);
    let end = run_end(value, start, Class::Letter);
    is_type_before(&value[start..end], &value[end..])
}

ghost use Rattle.std.specs.Prelude.{◌≡◌, ◌≤◌, length, option_copied, option_map, take_while};
ghost use Rattle.wkt_text.specs.Bytes.{in_class};
ghost use Rattle.wkt_text.specs.Words.{after_name, tag_of, split_type, type_of, from_token, type_at};

use crate::runs::{Class, run_end};

/// The type of a geometry.
#[derive(Clone, Copy, Debug, PartialEq, Eq)]
pub enum TypeWord {
    /// POINT.
    Point,
    /// LINESTRING.
    LineString,
    /// POLYGON.
    Polygon,
    /// MULTIPOINT.
    MultiPoint,
    /// MULTILINESTRING.
    MultiLineString,
    /// MULTIPOLYGON.
    MultiPolygon,
    /// GEOMETRYCOLLECTION.
    GeometryCollection,
}

/// What is said of the ordinates of a geometry's positions.
#[derive(Clone, Copy, Debug, PartialEq, Eq)]
pub enum Tag {
    /// Nothing: a position has two to four.
    Plain,
    /// Z: exactly three.
    Z,
    /// M: exactly three.
    M,
    /// ZM: exactly four.
    Zm,
}

/// What follows the name where the word begins with it, in any case.
pub fn after_name<'a>(word: &'a [u8], name: &[u8]) -> Option<&'a [u8]>
    ensures rest { option_copied result ≡ after_name name.now word.now }
{
    let mut i = 0;
    while i < name.len() {
        if i >= word.len() {
            return None;
        }
        if word[i].to_ascii_uppercase() != name[i] {
            return None;
        }
        i += 1;
    }
    Some(&word[i..])
}

/// The tag that these letters are; no letters are no tag.
pub fn tag_of(letters: &[u8]) -> Option<Tag>
    ensures tag { result ≡ tag_of letters.now }
{
    match letters {
        [] => Some(Tag::Plain),
        [b'Z' | b'z'] => Some(Tag::Z),
        [b'M' | b'm'] => Some(Tag::M),
        [b'Z' | b'z', b'M' | b'm'] => Some(Tag::Zm),
        _ => None,
    }
}

/// The type with whose name the word begins, and the letters after the name.
fn split_type(word: &[u8]) -> Option<(TypeWord, &[u8])>
    ensures split { option_map (λ r. (r.0, r.1.now)) result ≡ split_type word.now }
{
    if let Some(rest) = after_name(word, b"POINT") {
        return Some((TypeWord::Point, rest));
    }
    if let Some(rest) = after_name(word, b"LINESTRING") {
        return Some((TypeWord::LineString, rest));
    }
    if let Some(rest) = after_name(word, b"POLYGON") {
        return Some((TypeWord::Polygon, rest));
    }
    if let Some(rest) = after_name(word, b"MULTIPOINT") {
        return Some((TypeWord::MultiPoint, rest));
    }
    if let Some(rest) = after_name(word, b"MULTILINESTRING") {
        return Some((TypeWord::MultiLineString, rest));
    }
    if let Some(rest) = after_name(word, b"MULTIPOLYGON") {
        return Some((TypeWord::MultiPolygon, rest));
    }
    let rest = after_name(word, b"GEOMETRYCOLLECTION")?;
    Some((TypeWord::GeometryCollection, rest))
}

/// The type and the tag that a word names, the tag joined to the type or left out.
pub fn type_of(word: &[u8]) -> Option<(TypeWord, Tag)>
    ensures named { result ≡ type_of word.now }
{
    let (kind, letters) = split_type(word)?;
    Some((kind, tag_of(letters)?))
}

/// The letters from the first byte after white space on.
fn first_word(bytes: &[u8], at: usize) -> &[u8]
    requires within { at ≤ length bytes.now }
    ensures word { result.now ≡ take_while (in_class Class.Letter) (from_token bytes.now at) }
{
    let start = run_end(bytes, at, Class::White);
    let end = run_end(bytes, start, Class::Letter);
    &bytes[start..end]
}

/// The type that the first token from `at` on names, where it is a type word, with or without a joined tag.
pub fn type_word(bytes: &[u8], at: usize) -> Option<TypeWord>
    requires within { at ≤ length bytes.now }
    ensures kind { result ≡ type_at bytes.now at }
{
    type_of(first_word(bytes, at)).map(|named| named.0)
}

ghost use Rattle.std.specs.Prelude.{◌≡◌, ◌≤◌, ◌+◌, length, drop};
ghost use Rattle.wkt_text.specs.Tokens.{is_name, word_token, word_in, number_in, mark, token_in, is_number_start, lexeme_at};

use crate::number::{Numeral, read_number};
use crate::runs::{Class, run_end};
use crate::scale::Scale;
use crate::word::{Tag, TypeWord, after_name, tag_of, type_of};

/// A token of a text.
#[derive(Clone, Copy, Debug, PartialEq, Eq)]
pub enum Token {
    /// `(`.
    Open,
    /// `)`.
    Close,
    /// `,`.
    Comma,
    /// A type word, with the tag that is joined to it.
    Type(TypeWord, Tag),
    /// A tag as a word of its own.
    Tag(Tag),
    /// The word EMPTY.
    Empty,
    /// The word NaN.
    Nan,
    /// Another word.
    Word,
    /// A number.
    Number(Numeral),
    /// A byte that begins no token.
    Bad,
    /// The end of the source.
    End,
}

/// A token with its place in the source, and the place after it.
#[derive(Clone, Copy, Debug, PartialEq, Eq)]
pub struct Lexeme {
    pub token: Token,
    pub start: usize,
    pub end: usize,
}

/// Whether the text is the name and nothing more, in any case.
fn is_name(text: &[u8], name: &[u8]) -> bool
    ensures named { result ≡ is_name text.now name.now }
{
    match after_name(text, name) {
        Some([]) => true,
        _ => false,
    }
}

/// The token that a word is.
fn word_token(word: &[u8]) -> Token
    ensures token { result ≡ word_token word.now }
{
    if is_name(word, b"EMPTY") {
        return Token::Empty;
    }
    if is_name(word, b"NAN") {
        return Token::Nan;
    }
    if let Some((kind, tag)) = type_of(word) {
        return Token::Type(kind, tag);
    }
    match tag_of(word) {
        Some(tag) => Token::Tag(tag),
        None => Token::Word,
    }
}

/// Whether a number may begin with the byte: a digit, a sign or the point.
fn is_number_start(byte: u8) -> bool
    ensures start { result ≡ is_number_start byte }
{
    byte.is_ascii_digit() || byte == b'+' || byte == b'-' || byte == b'.'
}

/// The word at the front of a text, and its length.
fn word_in(text: &[u8]) -> (Token, usize)
    ensures word { result ≡ word_in text.now }
    ensures within { result.1 ≤ length text.now }
{
    let end = run_end(text, 0, Class::Letter);
    let (word, _) = text.split_at(end);
    (word_token(word), end)
}

/// The number at the front of a text, and its length.
fn number_in(text: &[u8], scale: Scale) -> (Token, usize)
    ensures number { result ≡ number_in scale.digits text.now }
    ensures within { result.1 ≤ length text.now }
{
    let end = run_end(text, 0, Class::Numeric);
    let (number, _) = text.split_at(end);
    (Token::Number(read_number(number, scale)), end)
}

/// The token that a byte is by itself.
fn mark(byte: u8) -> Token
    ensures token { result ≡ mark byte }
{
    match byte {
        b'(' => Token::Open,
        b')' => Token::Close,
        b',' => Token::Comma,
        _ => Token::Bad,
    }
}

/// The token at the front of a text without white space in front, and how many bytes it has.
fn token_in(text: &[u8], scale: Scale) -> (Token, usize)
    ensures token { result ≡ token_in scale.digits text.now }
    ensures within { result.1 ≤ length text.now }
{
    match text {
        [] => (Token::End, 0),
        [first, ..] => {
            if first.is_ascii_alphabetic() {
                return word_in(text);
            }
            if is_number_start(*first) {
                return number_in(text, scale);
            }
            (mark(*first), 1)
        }
    }
}

/// The first token from `at` on.
#[tactic(auto, unfolding(crate::specs::Tokens::lexeme_at))]
pub fn next_token(bytes: &[u8], at: usize, scale: Scale) -> Lexeme
    requires within { at ≤ length bytes.now }
    ensures token { result ≡ lexeme_at scale.digits bytes.now at }
    ensures within { result.end ≤ length bytes.now }
    ensures onward { at ≤ result.end }
{
    let start = run_end(bytes, at, Class::White);
    let (token, size) = token_in(&bytes[start..], scale);
    Lexeme {
        token,
        start,
        end: start + size,
    }
}

// Patterns of nine characters over the cells of a matrix.

ghost use Rattle.std.specs.Prelude.{◌≡◌, ◌+◌, ◌<◌, ◌≤◌, ℕ, true, false, ◌↔◌, IfOk, IfErr, OnOk, MatchOption, slice_get};
ghost use Rattle.im_matrix.specs.Patterns.{accepts, range_of, text_matches, mark_character, mark_at, pattern_text, is_right, HasRowAt};
ghost use Rattle.im_matrix.specs.Patterns.{RightBelow, HasFaultAt};

use crate::parts::Parts;
use crate::{Cell, Dim, Matrix};

/// What a pattern asks of the dimension in one cell.
#[derive(Clone, Copy, Debug, PartialEq, Eq)]
pub enum Mark {
    /// `T`: any dimension but Empty.
    Present,
    /// `F`: Empty.
    Absent,
    /// `*`: nothing.
    Any,
    /// `0`: Zero.
    Points,
    /// `1`: One.
    Lines,
    /// `2`: Two.
    Areas,
}

impl Mark {
    /// The mark of a character, if it is one of the six.
    fn of(character: u8) -> Option<Mark>
        ensures mark { MatchOption result (is_right (Some character) ≡ false) (λ k. mark_character k ≡ character) }
    {
        match character {
            b'T' => Some(Mark::Present),
            b'F' => Some(Mark::Absent),
            b'*' => Some(Mark::Any),
            b'0' => Some(Mark::Points),
            b'1' => Some(Mark::Lines),
            b'2' => Some(Mark::Areas),
            _ => None,
        }
    }

    /// The mark's character.
    fn character(self) -> u8
        ensures character { result ≡ mark_character self }
    {
        match self {
            Mark::Present => b'T',
            Mark::Absent => b'F',
            Mark::Any => b'*',
            Mark::Points => b'0',
            Mark::Lines => b'1',
            Mark::Areas => b'2',
        }
    }

    /// The least and the greatest dimension that the mark accepts.
    pub fn range(self) -> (Dim, Dim)
        ensures range { result ≡ range_of self }
    {
        match self {
            Mark::Present => (Dim::Zero, Dim::Two),
            Mark::Absent => (Dim::Empty, Dim::Empty),
            Mark::Any => (Dim::Empty, Dim::Two),
            Mark::Points => (Dim::Zero, Dim::Zero),
            Mark::Lines => (Dim::One, Dim::One),
            Mark::Areas => (Dim::Two, Dim::Two),
        }
    }

    /// Whether the dimension is one that the mark asks for.
    fn accepts(self, d: Dim) -> bool
        ensures accepts { result ≡ accepts (mark_character self) d }
    {
        let (least, greatest) = self.range();
        least <= d && d <= greatest
    }
}

/// A pattern: for each cell of a matrix, what it asks of the dimension there.
#[derive(Clone, Copy, Debug, PartialEq, Eq)]
pub struct Pattern {
    marks: Parts<Parts<Mark>>,
}

/// A text that is no pattern.
#[derive(Clone, Copy, Debug, PartialEq, Eq)]
pub struct BadPattern {
    /// The place, in bytes from 0, of the first of nine bytes that is absent or isn't `T`, `F`, `*`,
    /// `0`, `1` or `2`; 9 where these nine are right and more follow.
    pub place: u32,
}

/// The mark that stands at a place of the text. All before it are right.
fn parse_mark(text: &[u8], place: u32) -> Result<Mark, BadPattern>
    requires below_nine { place < 9 }
    requires right { RightBelow text.now place }
    ensures ok { IfOk result (λ k. slice_get text.now place ≡ Some (mark_character k)) }
    ensures right { OnOk result (RightBelow text.now (place + 1)) }
    ensures err { IfErr result (λ e. HasFaultAt text.now e.place) }
{
    let character = text.get(place as usize).copied();
    character.and_then(Mark::of).ok_or(BadPattern { place })
}

/// The marks at three places of the text. All before them are right.
fn parse_row(text: &[u8], first: u32) -> Result<Parts<Mark>, BadPattern>
    requires below_nine { first + 2 < 9 }
    requires right { RightBelow text.now first }
    ensures ok { IfOk result (HasRowAt text.now first) }
    ensures right { OnOk result (RightBelow text.now (first + 3)) }
    ensures err { IfErr result (λ e. HasFaultAt text.now e.place) }
{
    Ok(Parts {
        interior: parse_mark(text, first)?,
        boundary: parse_mark(text, first + 1)?,
        exterior: parse_mark(text, first + 2)?,
    })
}

impl Pattern {
    /// The pattern of a text of nine characters out of `T`, `F`, `*`, `0`, `1`, `2`, for the cells II
    /// IB IE BI BB BE EI EB EE. Any other text is refused, with the place where it first goes wrong.
    pub fn parse(text: &str) -> Result<Pattern, BadPattern>
        ensures ok { IfOk result (λ p. pattern_text p ≡ text.now) }
        ensures err { (place : ℕ) → (result ≡ Err (record { place = place })) ↔ HasFaultAt text.now place }
    {
        Pattern::of(text.as_bytes())
    }

    /// As `parse`, from the bytes of the text.
    fn of(text: &[u8]) -> Result<Pattern, BadPattern>
        ensures ok { IfOk result (λ p. pattern_text p ≡ text.now) }
        ensures err { IfErr result (λ e. HasFaultAt text.now e.place) }
    {
        let interior = parse_row(text, 0)?;
        let boundary = parse_row(text, 3)?;
        let exterior = parse_row(text, 6)?;
        if text.len() > 9 {
            return Err(BadPattern { place: 9 });
        }
        Ok(Pattern {
            marks: Parts {
                interior,
                boundary,
                exterior,
            },
        })
    }

    /// What the pattern asks of a cell.
    pub fn at(&self, c: Cell) -> Mark
        ensures mark { result ≡ mark_at self.now c }
    {
        self.marks.at(c.a).at(c.b)
    }

    /// The nine characters of the pattern.
    pub fn text(&self) -> [u8; 9]
        ensures text { result ≡ pattern_text self.now }
    {
        Cell::ALL.map(|c| self.at(c).character())
    }

    /// Whether the matrix matches: `T` asks for a cell that isn't Empty, `F` for an empty one, `*` for
    /// nothing, and a digit for that dimension.
    pub fn matches(&self, m: &Matrix) -> bool
        ensures matches { result ≡ text_matches (pattern_text self.now) m.now }
    {
        Cell::ALL.iter().all(|&c| self.at(c).accepts(m.get(c)))
    }
}

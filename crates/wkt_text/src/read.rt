ghost use Rattle.std.specs.Prelude.{◌≡◌, ℕ, ◌≤◌, IfOk, IfErr, IfSome, IfNone, length};
ghost use Rattle.point_set.specs.declared.figure.Figure.{Figure};
ghost use Rattle.point_set.specs.Shape.{IsWellShaped};
ghost use Rattle.wkt_text.specs.Limits.{most_depth};
ghost use Rattle.wkt_text.specs.Building.{IsCounted};
ghost use Rattle.wkt_text.specs.Faults.{Reads, IsOnlyWhite, FirstFault};
ghost use Rattle.wkt_text.specs.declared.control.WktKind.{WktKind};
ghost use Rattle.wkt_text.specs.Results.{IsFirstFault, IsReadAs, IsFaultAt};
ghost use Rattle.wkt_text.specs.Reading.{IsTaken, FailsAt};

use crate::build::Build;
use crate::control::{WktKind, advance, refused_kind};
use crate::runs::{Class, run_end};
use crate::scale::Scale;
use crate::state::Control;
use crate::token::{Lexeme, next_token};
use point_set::Figure;
use std::alloc::Global;
use thiserror::Error;

/// Why a text isn't read.
#[derive(Clone, Copy, Debug, PartialEq, Eq, Error)]
pub enum WktFault {
    /// Its first fault, and the place of that token's first byte.
    #[error("the text is not a geometry that can be read")]
    Bad(WktKind, usize),
    /// Memory is wanting.
    #[error("out of memory")]
    NoMemory,
}

/// A geometry that was read.
#[derive(Debug, Drop)]
pub struct Parsed {
    /// What the text says.
    pub figure: Figure,
    /// The place after its last token.
    pub end: usize,
}

/// Takes the next token.
fn take(
    alloc: Global,
    build: &mut Build,
    control: Control,
    lexeme: Lexeme,
) -> Result<Control, WktFault>
    requires shallow { control.depth ≤ most_depth }
    requires counted { IsCounted build.old }
    ensures taken { IfOk result (λ c. IsTaken control build.old lexeme.token c build.new) }
    ensures fault { IfErr result (λ e. FailsAt e lexeme.start control build.old lexeme.token) }
    ensures shallow { IfOk result (λ c. c.depth ≤ most_depth) }
{
    let Some((role, next)) = advance(control, lexeme.token) else {
        return Err(WktFault::Bad(refused_kind(control, lexeme.token), lexeme.start));
    };
    build
        .act(alloc, role, lexeme.token)
        .map_err(|stop| stop.at(lexeme.start))?;
    Ok(next)
}

/// Reads the geometry whose first token is the first from `at` on.
fn read_geometry(alloc: Global, bytes: &[u8], at: usize, scale: Scale) -> Result<Parsed, WktFault>
    requires within { at ≤ length bytes.now }
    requires some { ¬ IsOnlyWhite bytes.now at }
    ensures read { IfOk result (λ p. Reads scale.digits bytes.now at p.figure p.end) }
    ensures within { IfOk result (λ p. p.end ≤ length bytes.now) }
    ensures fault { IfErr result (λ e. IsFirstFault e scale.digits bytes.now at) }
{
    let mut build = Build::new(alloc);
    let mut control = Control::START;
    let mut place = at;
    'tokens: while !control.is_done() {
        let lexeme = next_token(bytes, place, scale);
        control = take(alloc, &mut build, control, lexeme)?;
        place = lexeme.end;
    }
    Ok(Parsed {
        figure: build.figure,
        end: place,
    })
}

/// Reads the first geometry from `at` on, or answers None where only white space follows.
///
/// # Errors
/// The first fault of the text from `at` on, or `NoMemory`.
pub fn read_next(
    alloc: Global,
    bytes: &[u8],
    at: usize,
    scale: Scale,
) -> Result<Option<Parsed>, WktFault>
    requires within { at ≤ length bytes.now }
    // Some: there stands the text of a geometry in which every rule is kept, and this is its figure. It is the only one.
    ensures read { IfOk result (λ found. IfSome found (λ p. Reads scale.digits bytes.now at p.figure p.end)) }
    ensures shaped { IfOk result (λ found. IfSome found (λ p. IsWellShaped p.figure)) }
    ensures within { IfOk result (λ found. IfSome found (λ p. p.end ≤ length bytes.now)) }
    ensures only { (figure : Figure) (last : ℕ) → Reads scale.digits bytes.now at figure last → IsReadAs result figure last }
    // None: only white space follows.
    ensures none { IfOk result (λ found. IfNone found (IsOnlyWhite bytes.now at)) }
    ensures white { IsOnlyWhite bytes.now at → result ≡ Ok None }
    // An error: the first fault.
    ensures fault { IfErr result (λ e. IsFirstFault e scale.digits bytes.now at) }
    ensures faulty { (kind : WktKind) (place : ℕ) → FirstFault scale.digits bytes.now at kind place → IsFaultAt result kind place }
{
    if run_end(bytes, at, Class::White) == bytes.len() {
        return Ok(None);
    }
    Ok(Some(read_geometry(alloc, bytes, at, scale)?))
}

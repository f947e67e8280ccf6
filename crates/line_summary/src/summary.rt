ghost use Rattle.std.specs.Prelude.{◌≡◌, [], ◌∷◌, ◌++◌, IfOk, OnOk, codes};
ghost use Rattle.line_summary.specs.Summary.{line_feed, tally_of, total_of, IsSummaryOf};

use crate::lines::{Line, count_of, distinct_of, lines_of};
use itoa::Buffer;
use plane_exact::NoMemory;
use std::alloc::Global;

/// Puts a line of a word and a number at the end of a text, where the word has its space.
fn push_line(text: &mut Vec<u8>, first: &[u8], second: &[u8]) -> Result<(), NoMemory>
    ensures pushed { OnOk result (text.new.items ≡ text.old.items ++ first.now ++ codes " " ++ second.now ++ line_feed ∷ []) }
{
    text.extend_from_slice(first)?;
    text.extend_from_slice(b" ")?;
    text.extend_from_slice(second)?;
    text.extend_from_slice(b"\n")?;
    Ok(())
}

/// Tells a line and how often it is among some.
fn push_tally(text: &mut Vec<u8>, lines: &[Line], line: &[u8]) -> Result<(), NoMemory>
    ensures told { OnOk result (text.new.items ≡ text.old.items ++ tally_of lines.now line.now) }
{
    let count = count_of(lines, line);
    push_line(text, line, Buffer::new().format(count).as_bytes())
}

/// Tells how many pairs there are, by their lines.
fn push_total(text: &mut Vec<u8>, lines: &[Line]) -> Result<(), NoMemory>
    ensures told { OnOk result (text.new.items ≡ text.old.items ++ total_of lines.now) }
{
    push_line(text, b"pairs", Buffer::new().format(lines.len()).as_bytes())
}

/// The summary of a text that has one line for each pair: for each distinct line, in ascending order of bytes, the line, a
/// space and how often it is there; and then `pairs` and how many lines there are.
///
/// # Errors
/// `NoMemory`.
pub fn summary_of(alloc: Global, text: &[u8]) -> Result<Vec<u8>, NoMemory>
    ensures summary { IfOk result (λ summary. IsSummaryOf text.now summary.items) }
{
    let lines = lines_of(alloc, text)?;
    let distinct = distinct_of(alloc, lines.as_slice())?;
    let mut summary = Vec::new(alloc);
    for line in distinct.iter() {
        push_tally(&mut summary, lines.as_slice(), line.as_slice())?;
    }
    push_total(&mut summary, lines.as_slice())?;
    Ok(summary)
}

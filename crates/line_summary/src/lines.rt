ghost use Rattle.std.specs.Prelude.{◌≡◌, IfOk, map};
ghost use Rattle.line_summary.specs.Summary.{count_of as times_among, lines_of as lines_in, AreDistinctOf};

use plane_exact::{ItemList, NoMemory};
use std::alloc::Global;
use std::collections::BTreeSet;

/// A line, without its line feed.
pub(crate) type Line = ItemList<u8>;

/// The lines of a text: what stands before each line feed.
///
/// # Errors
/// `NoMemory`.
pub(crate) fn lines_of(alloc: Global, text: &[u8]) -> Result<ItemList<Line>, NoMemory>
    ensures lines { IfOk result (λ lines. lines ≡ lines_in text.now) }
{
    let mut lines = ItemList::new(alloc);
    let mut begun = Line::new(alloc);
    for byte in text {
        if *byte == b'\n' {
            lines.push(begun)?;
            begun = Line::new(alloc);
        } else {
            begun.push(*byte)?;
        }
    }
    Ok(lines)
}

/// The distinct lines among some, in ascending order of their bytes.
///
/// # Errors
/// `NoMemory`.
pub(crate) fn distinct_of(alloc: Global, lines: &[Line]) -> Result<BTreeSet<Vec<u8>>, NoMemory>
    ensures distinct { IfOk result (λ distinct. AreDistinctOf lines.now (map (λ line. line.items) distinct.keys)) }
{
    let mut distinct = BTreeSet::new(alloc);
    for line in lines {
        let bytes = Vec::from_slice(alloc, line.as_slice())?;
        match distinct.insert(bytes) {
            Ok(_) => {}
            Err(_) => return Err(NoMemory),
        }
    }
    Ok(distinct)
}

/// How often a line is among some.
pub(crate) fn count_of(lines: &[Line], line: &[u8]) -> usize
    ensures count { result ≡ times_among lines.now line.now }
{
    lines
        .iter()
        .filter(|other| other.as_slice() == line)
        .count()
}

//! Texts of figures with many edges at one node.
use std::alloc::{AllocError, Global};

/// Adds a line that is cut in half at the position (0, 0).
fn push_line(text: &mut String, across: i32) -> Result<(), AllocError> {
    let opposite = -i64::from(across);
    write!(text, "({across} 1000, {opposite} -1000)")
}

/// The text of a thousand lines through the position (0, 0), no two of them along each other.
///
/// # Errors
/// Memory is wanting.
pub fn star(alloc: Global) -> Result<String, AllocError> {
    let mut text = "MULTILINESTRING (".to_string(alloc)?;
    for step in 0u16..1000 {
        if step > 0 {
            text.push_str(", ")?;
        }
        push_line(&mut text, i32::from(step) - 500)?;
    }
    text.push_str(")")?;
    Ok(text)
}

/// Adds a square hole, whose sides are 2 long and whose least corner is so many of them along each axis.
fn push_hole(text: &mut String, step: u16) -> Result<(), AllocError> {
    let low = 2 * u32::from(step);
    let high = low + 2;
    text.push_str(", (")?;
    for (x, y) in [(low, low), (high, low), (high, high), (low, high)] {
        write!(text, "{x} {y}, ")?;
    }
    write!(text, "{low} {low})")
}

/// The text of a square with two thousand square holes, each of which touches the next one at a corner, and with a further hole.
///
/// # Errors
/// Memory is wanting.
pub fn chain(alloc: Global, further: &str) -> Result<String, AllocError> {
    let mut text = "POLYGON ((0 0, 8000 0, 8000 8000, 0 8000, 0 0)".to_string(alloc)?;
    for step in 1u16..=2000 {
        push_hole(&mut text, step)?;
    }
    text.push_str(further)?;
    text.push_str(")")?;
    Ok(text)
}

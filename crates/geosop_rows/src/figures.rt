//! Figures for the tests, by their texts.
ghost use Rattle.std.specs.Prelude.{IfOk};
ghost use Rattle.point_set.specs.Shape.{IsWellShaped};

use geom_valid::admit;
use plane_exact::{Node, Pt, in_limit};
use point_set::{Figure, Rule, Valid};
use std::alloc::{AllocError, Global};
use std::process::Abort;
use std::test::*;
use wkt_text::{Scale, read_next};

pub(crate) const NOTHING: &str = "POINT EMPTY";

pub(crate) const SQUARE: &str = "POLYGON ((0 0, 4 0, 4 4, 0 4, 0 0))";

/// Two squares with a common edge, as a union.
pub(crate) const BOTH_SQUARES: &str =
    "GEOMETRYCOLLECTION (POLYGON ((0 0, 4 0, 4 4, 0 4, 0 0)), POLYGON ((4 0, 8 0, 8 4, 4 4, 4 0)))";

/// Four squares round the position (0, 0), as a union.
pub(crate) const FOUR_SQUARES: &str = "GEOMETRYCOLLECTION (POLYGON ((0 0, 4 0, 4 4, 0 4, 0 0)), \
    POLYGON ((0 0, 0 4, -4 4, -4 0, 0 0)), POLYGON ((0 0, -4 0, -4 -4, 0 -4, 0 0)), POLYGON ((0 0, 0 -4, 4 -4, 4 0, 0 0)))";

/// A line that ends where it starts.
pub(crate) const ROUND: &str = "LINESTRING (0 0, 4 0, 0 4, 0 0)";

pub(crate) const RULES: [Rule; 4] = [
    Rule::Mod2,
    Rule::Endpoint,
    Rule::Multivalent,
    Rule::Monovalent,
];

/// The figure that a text says. The test fails where it says none.
pub(crate) fn read(alloc: Global, text: &str) -> Result<Figure, Fail>
    ensures shaped { IfOk result IsWellShaped }
{
    match read_next(alloc, text.as_bytes(), 0, Scale { digits: 0 })? {
        Some(parsed) => Ok(parsed.figure),
        None => Err(Fail::new("no geometry")),
    }
}

/// The valid figure that a text says. The test fails where it says none.
pub(crate) fn figure_of(alloc: Global, text: &str) -> Result<Valid, Fail> {
    let figure = read(alloc, text)?;
    let valid = admit(alloc, figure)?;
    Ok(valid)
}

/// The node at a position.
pub(crate) fn node_at(rt: &impl Abort, x: i64, y: i64) -> Node {
    let position = Pt { x, y };
    assert!(rt; in_limit(position), "({x}, {y})");
    Node::at_point(position)
}

/// How many teeth the comb has.
const TEETH: u8 = 50;

/// The text of a comb: teeth of width 1 on a base, with gaps of width 1 between them down to the height 1.
pub(crate) fn comb(alloc: Global) -> Result<String, AllocError> {
    let height = 2 * i64::from(TEETH) + 1;
    let mut text = format!(in alloc; "POLYGON ((0 0, {} 0", 2 * i64::from(TEETH) - 1)?;
    for tooth in (0..TEETH).rev() {
        let left = 2 * i64::from(tooth);
        write!(text, ", {} {height}, {left} {height}", left + 1)?;
        if tooth > 0 {
            write!(text, ", {left} 1, {} 1", left - 1)?;
        }
    }
    text.push_str(", 0 0))")?;
    Ok(text)
}

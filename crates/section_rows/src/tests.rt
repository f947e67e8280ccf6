use area_entry::{NearRows, are_sound};
use node_table::{Entry, NodeTable};
use plane_exact::{MOST_POSITIONS, NoMemory, Node, Pt};
use point_set::{EdgeRows, Target, Valid};
use relate_core::laws::fill;
use ring_sides::edges_of;
use row_figures::{chain, figure_of, star};
use std::alloc::Global;
use std::test::Fail;
use union_locator::Plain;

// The entry of a node in the first entries of a table.
fn entry_at(mut table: NodeTable, node: Node, most: u32) -> Option<Entry> {
    for _ in 0..most {
        let entry = table.take_next()?;
        if entry.node == node {
            return Some(entry);
        }
    }
    None
}

// How many sections two figures have at the position (0, 0), where it is among the first nodes of their table.
fn sections_at_origin<A: Target, B: Target>(
    alloc: Global,
    a: &mut A,
    b: &mut B,
    most: u32,
) -> Result<Option<usize>, NoMemory> {
    let table = fill(alloc, a, b)?;
    let origin = Node::at_point(Pt { x: 0, y: 0 });
    match entry_at(table, origin, most) {
        Some(entry) => Ok(Some(entry.sections.len())),
        None => Ok(None),
    }
}

// How many a figure with itself has there.
fn sections_of_itself(alloc: Global, figure: &Valid, most: u32) -> Result<Option<usize>, NoMemory> {
    let mut first = Plain::new(alloc, figure)?;
    let mut second = Plain::new(alloc, figure)?;
    sections_at_origin(alloc, &mut first, &mut second, most)
}

// The nodes are the 2,000 ends of the lines and the position (0, 0), which no line ends at and which is on every line of either
// figure.
#[test]
fn a_thousand_lines_with_themselves_at_their_common_point(rt: HostRuntime) -> Result<(), Fail> {
    let text = star(rt.alloc())?;
    let lines = figure_of(rt.alloc(), text.as_str())?;
    assert_eq!(rt; sections_of_itself(rt.alloc(), &lines, 2_001)?, Some(4_000));
    Ok(())
}

// The edges of the area whose holes are a chain.
fn rows_of_chain(alloc: Global) -> Result<EdgeRows, Fail> {
    let text = chain(alloc, "")?;
    let area = figure_of(alloc, text.as_str())?;
    Ok(edges_of(alloc, &area)?)
}

// Two holes touch at (4, 4), and each has two edges that end there.
#[test]
fn two_of_many_holes_where_they_touch(rt: HostRuntime) -> Result<(), Fail> {
    let edges = rows_of_chain(rt.alloc())?;
    assert!(rt; edges.len() <= MOST_POSITIONS);
    assert!(rt; are_sound(&edges));
    let rows = NearRows::new(rt.alloc(), edges)?;
    let sections = rows.sections_at(rt.alloc(), &Node::at_point(Pt { x: 4, y: 4 }))?;
    assert_eq!(rt; sections.len(), 4);
    Ok(())
}

//! The edges of figures in order, with their owners and the hands on which the insides of their areas lie.
use crate::figures::{SQUARE, figure_of};
use plane_exact::{Pt, Seg};
use point_set::{Edge, Hand, Owner};
use ring_sides::edges_of;
use std::alloc::Global;
use std::process::Abort;
use std::test::Fail;

/// Both ends of an edge, its owner, and its hand.
type Row = ((i64, i64), (i64, i64), Owner, Hand);

fn edge((start, end, owner, hand): Row) -> Edge {
    let a = Pt {
        x: start.0,
        y: start.1,
    };
    let b = Pt { x: end.0, y: end.1 };
    Edge {
        seg: Seg { a, b },
        owner,
        hand,
    }
}

fn assert_edges(rt: &impl Abort, alloc: Global, text: &str, expected: &[Row]) -> Result<(), Fail> {
    let valid = figure_of(alloc, text)?;
    let edges = edges_of(alloc, &valid)?;
    assert_eq!(rt; edges.len(), expected.len());
    for (found, row) in edges.as_slice().iter().zip(expected) {
        assert_eq!(rt; *found, edge(*row));
    }
    Ok(())
}

const SHELL: Owner = Owner::Ring(0, 0);

const EDGES_OF_SQUARE: [Row; 4] = [
    ((0, 0), (4, 0), SHELL, Hand::Left),
    ((4, 0), (4, 4), SHELL, Hand::Left),
    ((4, 4), (0, 4), SHELL, Hand::Left),
    ((0, 4), (0, 0), SHELL, Hand::Left),
];

#[test]
fn edges_of_a_square(rt: HostRuntime) -> Result<(), Fail> {
    assert_edges(&rt, rt.alloc(), SQUARE, &EDGES_OF_SQUARE)
}

/// A triangle given clockwise with a hole of each way round, and a line with a position twice.
const HOLED: &str =
    "GEOMETRYCOLLECTION (POLYGON ((0 0, 0 20, 20 0, 0 0), (3 3, 6 3, 3 6, 3 3), (1 1, 1 2, 2 1, 1 1)), \
    LINESTRING (5 7, 5 7, 6 8))";

const EDGES_OF_HOLED: [Row; 10] = [
    ((5, 7), (6, 8), Owner::Line(0), Hand::Line),
    ((0, 0), (0, 20), SHELL, Hand::Right),
    ((0, 20), (20, 0), SHELL, Hand::Right),
    ((20, 0), (0, 0), SHELL, Hand::Right),
    ((3, 3), (6, 3), Owner::Ring(0, 1), Hand::Right),
    ((6, 3), (3, 6), Owner::Ring(0, 1), Hand::Right),
    ((3, 6), (3, 3), Owner::Ring(0, 1), Hand::Right),
    ((1, 1), (1, 2), Owner::Ring(0, 2), Hand::Left),
    ((1, 2), (2, 1), Owner::Ring(0, 2), Hand::Left),
    ((2, 1), (1, 1), Owner::Ring(0, 2), Hand::Left),
];

#[test]
fn the_inside_of_an_area_lies_outside_of_its_holes(rt: HostRuntime) -> Result<(), Fail> {
    assert_edges(&rt, rt.alloc(), HOLED, &EDGES_OF_HOLED)
}

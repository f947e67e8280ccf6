//! Rings that enter squares and touch them, with answers worked by hand.
ghost use Rattle.std.specs.Prelude.{◌≡◌, IsTrue, All, Some};
ghost use Rattle.area_entry.specs.RowSections.{AreOfOneArea};
ghost use Rattle.point_set.specs.Edges.{area_of};

use crate::entering::enters;
use crate::near_rows::{NearRows, are_sound};
use im_matrix::{Loc, Which};
use plane_exact::{MOST_POSITIONS, NoMemory, Node, Pt, Seg};
use point_set::{Edge, EdgeRows, Hand, Owner};
use std::alloc::Global;
use std::process::Abort;
use std::test::Fail;

/// The square with the corners (0, 0) and (8, 8), counter-clockwise.
const SQUARE: [(i64, i64); 5] = [(0, 0), (8, 0), (8, 8), (0, 8), (0, 0)];

/// Adds the edges of a ring of the first area, each with one hand.
fn add_ring(rows: &mut EdgeRows, ring: &[(i64, i64)], hand: Hand) -> Result<(), NoMemory> {
    for (from, to) in ring.iter().zip(ring.iter().skip(1)) {
        rows.push(Edge {
            seg: Seg {
                a: Pt {
                    x: from.0,
                    y: from.1,
                },
                b: Pt { x: to.0, y: to.1 },
            },
            owner: Owner::Ring(0, 0),
            hand,
        })?;
    }
    Ok(())
}

/// The edges of a ring whose inside is on the left.
fn rows_of(alloc: Global, ring: &[(i64, i64)]) -> Result<EdgeRows, NoMemory> {
    let mut rows = EdgeRows::new(alloc);
    add_ring(&mut rows, ring, Hand::Left)?;
    Ok(rows)
}

/// Whether the rows are those of rings of the first area.
fn are_of_first(rows: &EdgeRows) -> bool
    ensures first { IsTrue result → AreOfOneArea rows.now }
{
    is_first_of_all(rows)
}

/// Whether each row is of the first area.
fn is_first_of_all(rows: &EdgeRows) -> bool
    ensures first { IsTrue result → All (λ row. area_of row.owner ≡ Some 0) rows.now }
{
    rows.as_slice().iter().all(|row| is_of_first(row))
}

fn is_of_first(row: &Edge) -> bool
    ensures first { IsTrue result → area_of row.now.owner ≡ Some 0 }
{
    matches!(row.owner, Owner::Ring(0, _))
}

/// Whether a ring enters the inside of an area, and whether it enters the outside. The area's rings come with their hands.
fn assert_enters(
    rt: &impl Abort,
    alloc: Global,
    ring: &[(i64, i64)],
    rings: &[(&[(i64, i64)], Hand)],
    first: Loc,
    parts: (bool, bool),
) -> Result<(), Fail> {
    let ring = rows_of(alloc, ring)?;
    assert!(rt; are_sound(&ring));
    assert!(rt; ring.len() <= MOST_POSITIONS);
    let mut rows = EdgeRows::new(alloc);
    for (positions, hand) in rings {
        add_ring(&mut rows, positions, *hand)?;
    }
    assert!(rt; are_sound(&rows));
    assert!(rt; are_of_first(&rows));
    assert!(rt; rows.len() <= MOST_POSITIONS);
    let ring = NearRows::new(alloc, ring)?;
    let rows = NearRows::new(alloc, rows)?;
    let inside = enters(alloc, &ring, &rows, first, Loc::Interior)?;
    let outside = enters(alloc, &ring, &rows, first, Loc::Exterior)?;
    assert_eq!(rt; (inside, outside), parts);
    Ok(())
}

#[test]
fn rings_that_meet_a_square(rt: HostRuntime) -> Result<(), Fail> {
    let rings = [(&SQUARE[..], Hand::Left)];
    let through_corner = [(-2, -2), (4, 4), (-2, 4), (-2, -2)];
    assert_enters(
        &rt,
        rt.alloc(),
        &through_corner,
        &rings,
        Loc::Exterior,
        (true, true),
    )?;
    let at_corner = [(-2, -2), (0, 0), (-2, 2), (-2, -2)];
    assert_enters(
        &rt,
        rt.alloc(),
        &at_corner,
        &rings,
        Loc::Exterior,
        (false, true),
    )?;
    let from_side_in = [(4, 0), (6, 4), (2, 4), (4, 0)];
    assert_enters(
        &rt,
        rt.alloc(),
        &from_side_in,
        &rings,
        Loc::Boundary,
        (true, false),
    )?;
    let from_side_out = [(0, 4), (-4, 6), (-4, 2), (0, 4)];
    assert_enters(
        &rt,
        rt.alloc(),
        &from_side_out,
        &rings,
        Loc::Boundary,
        (false, true),
    )?;
    let through_sides = [(0, 4), (12, 4), (12, 6), (0, 4)];
    assert_enters(
        &rt,
        rt.alloc(),
        &through_sides,
        &rings,
        Loc::Boundary,
        (true, true),
    )?;
    let within = [(2, 2), (4, 2), (2, 4), (2, 2)];
    assert_enters(
        &rt,
        rt.alloc(),
        &within,
        &rings,
        Loc::Interior,
        (true, false),
    )?;
    let far = [(20, 20), (24, 20), (20, 24), (20, 20)];
    assert_enters(&rt, rt.alloc(), &far, &rings, Loc::Exterior, (false, true))
}

#[test]
fn rings_that_meet_a_square_with_a_hole(rt: HostRuntime) -> Result<(), Fail> {
    let hole = [(2, 2), (6, 2), (6, 6), (2, 6), (2, 2)];
    let rings = [(&SQUARE[..], Hand::Left), (&hole[..], Hand::Right)];
    let in_hole = [(2, 2), (4, 3), (3, 4), (2, 2)];
    assert_enters(
        &rt,
        rt.alloc(),
        &in_hole,
        &rings,
        Loc::Boundary,
        (false, true),
    )?;
    let out_of_hole = [(4, 4), (7, 7), (4, 5), (4, 4)];
    assert_enters(
        &rt,
        rt.alloc(),
        &out_of_hole,
        &rings,
        Loc::Exterior,
        (true, true),
    )?;
    let round_hole = [(1, 1), (7, 1), (7, 7), (1, 7), (1, 1)];
    assert_enters(
        &rt,
        rt.alloc(),
        &round_hole,
        &rings,
        Loc::Interior,
        (true, false),
    )
}

#[test]
fn sections_of_squares_that_share_a_corner(rt: HostRuntime) -> Result<(), Fail> {
    let mut rows = rows_of(rt.alloc(), &[(2, 2), (4, 2), (4, 4), (2, 4), (2, 2)])?;
    add_ring(
        &mut rows,
        &[(4, 4), (6, 4), (6, 6), (4, 6), (4, 4)],
        Hand::Right,
    )?;
    assert!(rt; are_sound(&rows));
    assert!(rt; rows.len() <= MOST_POSITIONS);
    let rows = NearRows::new(rt.alloc(), rows)?;
    let corner = rows.sections_at(rt.alloc(), &Node::at_point(Pt { x: 4, y: 4 }))?;
    let mut found = Vec::new(rt.alloc());
    for section in corner.as_slice() {
        assert_eq!(rt; (section.which, section.area), (Which::A, Some(0)));
        found.push((section.dir.dx, section.dir.dy, section.hand))?;
    }
    let expected = [
        (0, -2, Hand::Right),
        (-2, 0, Hand::Left),
        (2, 0, Hand::Right),
        (0, 2, Hand::Left),
    ];
    assert_eq!(rt; found.as_slice(), &expected[..]);
    let side = rows.sections_at(rt.alloc(), &Node::at_point(Pt { x: 3, y: 2 }))?;
    assert_eq!(rt; side.len(), 2);
    let nowhere = rows.sections_at(rt.alloc(), &Node::at_point(Pt { x: 3, y: 3 }))?;
    assert_eq!(rt; nowhere.len(), 0);
    Ok(())
}

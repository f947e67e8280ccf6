//! Rings and an area beside tables that were worked out apart from this code.
//! A table has a row for each height from minus one half on in steps of one half, the lowest first, and in it a sign for
//! each abscissa from minus one half on: `.` outside, `#` inside, `+` on the ring.
ghost use Rattle.std.specs.Prelude.{IsTrue, ◌↔◌, All};
ghost use Rattle.point_set.specs.Shape.{IsWayInLimit};

use super::{locate_plain, ring_locate};
use im_matrix::Loc;
use plane_exact::{NoMemory, Node, Path, Pt, in_limit};
use point_set::{Area, Paths};
use std::alloc::Global;
use std::process::Abort;
use std::test::Fail;

/// A square.
const SQUARE: &[(i64, i64)] = &[(0, 0), (4, 0), (4, 4), (0, 4), (0, 0)];

const SQUARE_ROWS: &[&str] = &[
    "...........",
    ".+++++++++.",
    ".+#######+.",
    ".+#######+.",
    ".+#######+.",
    ".+#######+.",
    ".+#######+.",
    ".+#######+.",
    ".+#######+.",
    ".+++++++++.",
    "...........",
];

/// A comb of three teeth.
const COMB: &[(i64, i64)] = &[
    (0, 0),
    (10, 0),
    (10, 4),
    (8, 4),
    (8, 1),
    (6, 1),
    (6, 4),
    (4, 4),
    (4, 1),
    (2, 1),
    (2, 4),
    (0, 4),
    (0, 0),
];

const COMB_ROWS: &[&str] = &[
    ".......................",
    ".+++++++++++++++++++++.",
    ".+###################+.",
    ".+###+++++###+++++###+.",
    ".+###+...+###+...+###+.",
    ".+###+...+###+...+###+.",
    ".+###+...+###+...+###+.",
    ".+###+...+###+...+###+.",
    ".+###+...+###+...+###+.",
    ".+++++...+++++...+++++.",
    ".......................",
];

/// A star.
const STAR: &[(i64, i64)] = &[
    (0, 3),
    (2, 2),
    (3, 0),
    (4, 2),
    (6, 3),
    (4, 4),
    (3, 6),
    (2, 4),
    (0, 3),
];

const STAR_ROWS: &[&str] = &[
    "...............",
    ".......+.......",
    ".......#.......",
    "......+#+......",
    "......###......",
    ".....+###+.....",
    "...+#######+...",
    ".+###########+.",
    "...+#######+...",
    ".....+###+.....",
    "......###......",
    "......+#+......",
    ".......#.......",
    ".......+.......",
    "...............",
];

/// A square with repeated positions.
const REPEATED: &[(i64, i64)] = &[
    (0, 0),
    (0, 0),
    (3, 0),
    (3, 0),
    (3, 3),
    (3, 3),
    (3, 3),
    (0, 3),
    (0, 0),
    (0, 0),
];

const REPEATED_ROWS: &[&str] = &[
    ".........",
    ".+++++++.",
    ".+#####+.",
    ".+#####+.",
    ".+#####+.",
    ".+#####+.",
    ".+#####+.",
    ".+++++++.",
    ".........",
];

/// A ring whose last edge is horizontal, at the height of another vertex.
const LEVEL: &[(i64, i64)] = &[
    (0, 2),
    (3, 0),
    (6, 2),
    (8, 1),
    (8, 5),
    (3, 5),
    (2, 2),
    (0, 2),
];

const LEVEL_ROWS: &[&str] = &[
    "...................",
    ".......+...........",
    "......###..........",
    "....+#####+......+.",
    "...#########...+#+.",
    ".+++++#######+###+.",
    "......###########+.",
    "......###########+.",
    "......+##########+.",
    ".......##########+.",
    ".......##########+.",
    ".......+++++++++++.",
    "...................",
];

/// An area of a shell and three holes, of which one touches the shell and one lies outside it.
const SHELL: &[(i64, i64)] = &[(0, 0), (5, 0), (5, 3), (0, 3), (0, 0)];

const HOLE: &[(i64, i64)] = &[(1, 1), (2, 1), (2, 2), (1, 2), (1, 1)];

const HOLE_AT_SHELL: &[(i64, i64)] = &[(3, 1), (4, 1), (5, 2), (3, 2), (3, 1)];

const HOLE_OUTSIDE: &[(i64, i64)] = &[(6, 1), (7, 1), (7, 2), (6, 1)];

const AREA_ROWS: &[&str] = &[
    ".................",
    ".+++++++++++.....",
    ".+#########+.....",
    ".+#+++#+++#+.+++.",
    ".+#+.+#+..++..++.",
    ".+#+++#+++++...+.",
    ".+#########+.....",
    ".+++++++++++.....",
    ".................",
];

fn is_in_limit(ring: &Path) -> bool
    ensures limit { IsTrue result ↔ (IsWayInLimit ring.now) }
{
    ring.as_slice().iter().all(|p| in_limit(*p))
}

fn are_in_limit(rings: &Paths) -> bool
    ensures limit { IsTrue result ↔ (All IsWayInLimit rings.now) }
{
    rings.as_slice().iter().all(|ring| is_in_limit(ring))
}

fn ring_of(alloc: Global, positions: &[(i64, i64)]) -> Result<Path, NoMemory> {
    let mut ring = Path::new(alloc);
    for (x, y) in positions {
        ring.push(Pt { x: *x, y: *y })?;
    }
    Ok(ring)
}

fn rings_of(alloc: Global, list: &[&[(i64, i64)]]) -> Result<Paths, NoMemory> {
    let mut rings = Paths::new(alloc);
    for positions in list {
        rings.push(ring_of(alloc, positions)?)?;
    }
    Ok(rings)
}

fn part_of(sign: u8) -> Loc {
    match sign {
        b'#' => Loc::Interior,
        b'+' => Loc::Boundary,
        _ => Loc::Exterior,
    }
}

fn node_at(row: usize, column: usize) -> Result<Node, Fail> {
    let x = i128::from(u16::try_from(column)?) - 1;
    let y = i128::from(u16::try_from(row)?) - 1;
    Ok(Node::reduce(x, y, 2))
}

/// One row of a ring's table.
fn assert_ring_row(rt: &impl Abort, ring: &Path, row: usize, signs: &str) -> Result<(), Fail> {
    assert!(rt; is_in_limit(ring));
    for (column, sign) in signs.bytes().enumerate() {
        let node = node_at(row, column)?;
        assert_eq!(rt;
            ring_locate(ring, &node),
            part_of(sign),
            "at {row} {column}"
        );
    }
    Ok(())
}

fn assert_ring(rt: &impl Abort, ring: &Path, rows: &[&str]) -> Result<(), Fail> {
    for (row, signs) in rows.iter().enumerate() {
        assert_ring_row(rt, ring, row, signs)?;
    }
    Ok(())
}

#[test]
fn rings_agree_with_their_tables(rt: HostRuntime) -> Result<(), Fail> {
    assert_ring(&rt, &ring_of(rt.alloc(), SQUARE)?, SQUARE_ROWS)?;
    assert_ring(&rt, &ring_of(rt.alloc(), COMB)?, COMB_ROWS)?;
    assert_ring(&rt, &ring_of(rt.alloc(), STAR)?, STAR_ROWS)?;
    assert_ring(&rt, &ring_of(rt.alloc(), REPEATED)?, REPEATED_ROWS)?;
    assert_ring(&rt, &ring_of(rt.alloc(), LEVEL)?, LEVEL_ROWS)?;
    Ok(())
}

/// One row of an area's table.
fn assert_area_row(rt: &impl Abort, area: &Area, row: usize, signs: &str) -> Result<(), Fail> {
    assert!(rt; is_in_limit(&area.shell));
    assert!(rt; are_in_limit(&area.holes));
    for (column, sign) in signs.bytes().enumerate() {
        let node = node_at(row, column)?;
        assert_eq!(rt;
            locate_plain(area, &node),
            part_of(sign),
            "at {row} {column}"
        );
    }
    Ok(())
}

#[test]
fn an_area_agrees_with_its_table(rt: HostRuntime) -> Result<(), Fail> {
    let area = Area {
        shell: ring_of(rt.alloc(), SHELL)?,
        holes: rings_of(rt.alloc(), &[HOLE, HOLE_AT_SHELL, HOLE_OUTSIDE])?,
        group: 0,
    };
    for (row, signs) in AREA_ROWS.iter().enumerate() {
        assert_area_row(&rt, &area, row, signs)?;
    }
    Ok(())
}

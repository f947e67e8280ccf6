//! An index over the heights of an area's edges: where positions lie by it, and which area it is of.
use crate::figures::{comb, figure_of, node_at};
use area_locator::AreaIndex;
use im_matrix::Loc;
use plane_exact::Count;
use std::process::Abort;
use std::test::Fail;

/// A square with a hole, and the same square without it.
const SQUARES: &str =
    "GEOMETRYCOLLECTION (POLYGON ((0 0, 9 0, 9 9, 0 9, 0 0), (3 3, 6 3, 6 6, 3 6, 3 3)), \
    POLYGON ((0 0, 9 0, 9 9, 0 9, 0 0)))";

/// Asserts where a position lies by an index.
fn assert_location(rt: &impl Abort, index: &AreaIndex, at: (i64, i64), expected: Loc) {
    let node = node_at(rt, at.0, at.1);
    let mut meter = Count::new();
    assert_eq!(rt; index.locate(&node, &mut meter), expected);
}

#[test]
fn an_index_of_a_square_with_a_hole(rt: HostRuntime) -> Result<(), Fail> {
    let squares = figure_of(rt.alloc(), SQUARES)?;
    assert_eq!(rt; squares.figure().areas.len(), 2);
    let holed = AreaIndex::build(rt.alloc(), &squares, 0)?;
    assert_location(&rt, &holed, (4, 4), Loc::Exterior);
    assert_location(&rt, &holed, (3, 4), Loc::Boundary);
    assert_location(&rt, &holed, (1, 1), Loc::Interior);
    Ok(())
}

#[test]
fn the_areas_of_indexes(rt: HostRuntime) -> Result<(), Fail> {
    let squares = figure_of(rt.alloc(), SQUARES)?;
    assert_eq!(rt; squares.figure().areas.len(), 2);
    let holed = AreaIndex::build(rt.alloc(), &squares, 0)?;
    assert_eq!(rt; holed.differs_at(&squares, 0), None);
    assert_eq!(rt; holed.differs_at(&squares, 1), Some(4));
    let plain = AreaIndex::build(rt.alloc(), &squares, 1)?;
    assert_eq!(rt; plain.differs_at(&squares, 0), Some(4));
    assert_eq!(rt; plain.differs_at(&squares, 1), None);
    Ok(())
}

/// Of the comb's 200 edges 100 have the height 50, and eight binary digits are enough for 200, so that at most
/// `2 * (100 + 1) * (8 + 2)` rows are looked at.
#[test]
fn an_index_looks_at_the_edges_of_one_height(rt: HostRuntime) -> Result<(), Fail> {
    let comb = figure_of(rt.alloc(), comb(rt.alloc())?.as_str())?;
    assert_eq!(rt; comb.figure().areas.len(), 1);
    let index = AreaIndex::build(rt.alloc(), &comb, 0)?;
    let mut meter = Count::new();
    assert_eq!(rt;
        index.locate(&node_at(&rt, 1, 50), &mut meter),
        Loc::Boundary
    );
    let looks = meter.ticks();
    assert!(rt; 100 <= looks && looks <= 2_020, "{looks} looks");
    Ok(())
}

//! Where positions lie in figures, and what they are to the union of the areas.
use crate::figures::{BOTH_SQUARES, FOUR_SQUARES, RULES, figure_of, node_at};
use im_matrix::Loc;
use plane_exact::{PlaceList, Window};
use point_set::{DimLoc, Rule, Target};
use std::alloc::Global;
use std::process::Abort;
use std::test::Fail;
use union_locator::Plain;

/// A position with the kind of its location.
type Place = (i64, i64, DimLoc);

/// What a position of this kind is to the union of the areas.
fn to_areas(kind: DimLoc) -> Loc {
    match kind {
        DimLoc::AreaInterior => Loc::Interior,
        DimLoc::AreaBoundary => Loc::Boundary,
        _ => Loc::Exterior,
    }
}

fn assert_places(
    rt: &impl Abort,
    alloc: Global,
    text: &str,
    rule: Rule,
    places: &[Place],
) -> Result<(), Fail> {
    let valid = figure_of(alloc, text)?;
    let mut plain = Plain::new(alloc, &valid)?;
    for (x, y, kind) in places {
        let node = node_at(rt, *x, *y);
        assert_eq!(rt; plain.locate(&node, rule)?, *kind, "({x}, {y})");
        assert_eq!(rt; plain.adjacent(&node)?, to_areas(*kind), "({x}, {y})");
    }
    Ok(())
}

const IN_BOTH_SQUARES: [Place; 6] = [
    (4, 2, DimLoc::AreaInterior),
    (4, 0, DimLoc::AreaBoundary),
    (9, 9, DimLoc::Exterior),
    (2, 2, DimLoc::AreaInterior),
    (4, 4, DimLoc::AreaBoundary),
    (8, 2, DimLoc::AreaBoundary),
];

#[test]
fn an_edge_of_two_squares_is_within_their_union(rt: HostRuntime) -> Result<(), Fail> {
    for rule in RULES {
        assert_places(&rt, rt.alloc(), BOTH_SQUARES, rule, &IN_BOTH_SQUARES)?;
    }
    Ok(())
}

#[test]
fn a_window_meets_one_edge_of_two_squares(rt: HostRuntime) -> Result<(), Fail> {
    let valid = figure_of(rt.alloc(), BOTH_SQUARES)?;
    let mut plain = Plain::new(rt.alloc(), &valid)?;
    let window = Window {
        low_x: 8,
        low_y: 1,
        high_x: 8,
        high_y: 2,
    };
    let mut places = PlaceList::new(rt.alloc());
    plain.edges_in(window, &mut places)?;
    assert_eq!(rt; places.as_slice(), [5].as_slice());
    Ok(())
}

const IN_FOUR_SQUARES: [Place; 4] = [
    (0, 0, DimLoc::AreaInterior),
    (0, -3, DimLoc::AreaInterior),
    (4, 0, DimLoc::AreaBoundary),
    (5, 0, DimLoc::Exterior),
];

const THREE_SQUARES: &str = "GEOMETRYCOLLECTION (POLYGON ((0 0, 4 0, 4 4, 0 4, 0 0)), \
    POLYGON ((0 0, 0 4, -4 4, -4 0, 0 0)), POLYGON ((0 0, -4 0, -4 -4, 0 -4, 0 0)))";

const IN_THREE_SQUARES: [Place; 3] = [
    (0, 0, DimLoc::AreaBoundary),
    (0, 3, DimLoc::AreaInterior),
    (0, -3, DimLoc::AreaBoundary),
];

/// A square with a hole, and a triangle that fills the half of the hole below its diagonal.
const HALF_FILLED: &str =
    "GEOMETRYCOLLECTION (POLYGON ((0 0, 9 0, 9 9, 0 9, 0 0), (3 3, 6 3, 6 6, 3 6, 3 3)), \
    POLYGON ((3 3, 6 3, 6 6, 3 3)))";

const IN_HALF_FILLED: [Place; 6] = [
    (6, 4, DimLoc::AreaInterior),
    (4, 3, DimLoc::AreaInterior),
    (3, 3, DimLoc::AreaBoundary),
    (4, 4, DimLoc::AreaBoundary),
    (3, 4, DimLoc::AreaBoundary),
    (4, 5, DimLoc::Exterior),
];

/// The same square, and one that fills the hole.
const FILLED: &str =
    "GEOMETRYCOLLECTION (POLYGON ((0 0, 9 0, 9 9, 0 9, 0 0), (3 3, 6 3, 6 6, 3 6, 3 3)), \
    POLYGON ((3 3, 6 3, 6 6, 3 6, 3 3)))";

const IN_FILLED: [Place; 4] = [
    (3, 3, DimLoc::AreaInterior),
    (3, 4, DimLoc::AreaInterior),
    (4, 4, DimLoc::AreaInterior),
    (0, 4, DimLoc::AreaBoundary),
];

#[test]
fn areas_surround_positions_together(rt: HostRuntime) -> Result<(), Fail> {
    let alloc = rt.alloc();
    assert_places(&rt, alloc, FOUR_SQUARES, Rule::Mod2, &IN_FOUR_SQUARES)?;
    assert_places(&rt, alloc, THREE_SQUARES, Rule::Mod2, &IN_THREE_SQUARES)?;
    assert_places(&rt, alloc, FILLED, Rule::Mod2, &IN_FILLED)?;
    assert_places(&rt, alloc, HALF_FILLED, Rule::Mod2, &IN_HALF_FILLED)
}

/// Lines of which one ends at (1, 0), two at (5, 0), where a closed line starts, and three at (0, 0).
const LINES: &str = "MULTILINESTRING ((0 0, 1 0), (0 0, 0 1), (0 0, -1 0), (5 0, 9 0, 9 4, 5 0))";

/// The kinds of the positions at which one, two and three lines end.
fn assert_ends(rt: &impl Abort, alloc: Global, rule: Rule, kinds: [DimLoc; 3]) -> Result<(), Fail> {
    let [one, two, three] = kinds;
    let places = [
        (1, 0, one),
        (5, 0, two),
        (0, 0, three),
        (9, 4, DimLoc::LineInterior),
        (6, 1, DimLoc::LineInterior),
    ];
    assert_places(rt, alloc, LINES, rule, &places)
}

#[test]
fn each_rule_at_one_two_and_three_line_ends(rt: HostRuntime) -> Result<(), Fail> {
    let (within, end) = (DimLoc::LineInterior, DimLoc::LineBoundary);
    assert_ends(&rt, rt.alloc(), Rule::Mod2, [end, within, end])?;
    assert_ends(&rt, rt.alloc(), Rule::Endpoint, [end, end, end])?;
    assert_ends(&rt, rt.alloc(), Rule::Multivalent, [within, end, end])?;
    assert_ends(&rt, rt.alloc(), Rule::Monovalent, [end, within, within])
}

/// A square, points and a line that it hides in part, and a line whose positions are all equal.
const HIDDEN: &str =
    "GEOMETRYCOLLECTION (POINT (1 1), POINT (4 3), POINT (9 9), POLYGON ((0 0, 4 0, 4 4, 0 4, 0 0)), \
    LINESTRING (2 2, 8 2), LINESTRING (7 7, 7 7))";

const IN_HIDDEN: [Place; 8] = [
    (1, 1, DimLoc::AreaInterior),
    (4, 3, DimLoc::AreaBoundary),
    (9, 9, DimLoc::PointInterior),
    (2, 2, DimLoc::AreaInterior),
    (4, 2, DimLoc::AreaBoundary),
    (6, 2, DimLoc::LineInterior),
    (8, 2, DimLoc::LineBoundary),
    (7, 7, DimLoc::PointInterior),
];

#[test]
fn areas_hide_lines_and_points(rt: HostRuntime) -> Result<(), Fail> {
    assert_places(&rt, rt.alloc(), HIDDEN, Rule::Mod2, &IN_HIDDEN)
}

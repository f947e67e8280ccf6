//! The parts of both figures along the rays and in the sectors round a node of the two.
use crate::figures::{
    BOTH_SQUARES, FOUR_SQUARES, NOTHING, ROUND, RULES, SQUARE, figure_of, node_at,
};
use fan_label::{Pair, label_ray, label_sector};
use fan_order::{Fan, SectionList, are_short};
use im_matrix::Loc;
use plane_exact::Node;
use point_set::{DimLoc, Rule, Target, Valid};
use relate_core::laws::fill;
use std::alloc::Global;
use std::process::Abort;
use std::test::Fail;
use union_locator::Plain;

/// The direction of a ray in lowest terms, and the parts along it.
type Ray = (i64, i64, Pair);

/// What is seen round a position of two figures.
struct View<'a> {
    a: &'a str,
    b: &'a str,
    at: (i64, i64),
    rays: &'a [Ray],
    sectors: &'a [Pair],
}

/// The parts of A's plane, outside B.
const INTERIOR: Pair = Pair {
    a: Loc::Interior,
    b: Loc::Exterior,
};

const BOUNDARY: Pair = Pair {
    a: Loc::Boundary,
    b: Loc::Exterior,
};

const EXTERIOR: Pair = Pair {
    a: Loc::Exterior,
    b: Loc::Exterior,
};

/// B's interior, outside A.
const IN_B: Pair = Pair {
    a: Loc::Exterior,
    b: Loc::Interior,
};

/// More nodes than any two figures here have.
const MANY: u32 = 64;

/// The sections at a node of two figures. The test fails where they have no such node.
fn sections_at(
    alloc: Global,
    a: &mut Plain<'_>,
    b: &mut Plain<'_>,
    node: &Node,
) -> Result<SectionList, Fail> {
    let mut table = fill(alloc, a, b)?;
    for _ in 0..MANY {
        let entry = table.take_next().ok_or("no such node")?;
        if entry.node == *node {
            return Ok(entry.sections);
        }
    }
    Err(Fail::new("too many nodes"))
}

/// A fan at a node of two figures, and the kinds of the node in both.
#[derive(Drop)]
struct Seen {
    fan: Fan,
    at_a: DimLoc,
    at_b: DimLoc,
}

/// What two figures show at a node.
fn seen_at(
    alloc: Global,
    a: &mut Plain<'_>,
    b: &mut Plain<'_>,
    node: &Node,
    rule: Rule,
) -> Result<Seen, Fail> {
    let sections = sections_at(alloc, a, b, node)?;
    if !are_short(&sections) {
        return Err(Fail::new("a long direction"));
    }
    let fan = Fan::gather(alloc, &sections)?;
    let at_a = a.locate(node, rule)?;
    let at_b = b.locate(node, rule)?;
    Ok(Seen { fan, at_a, at_b })
}

/// What two valid figures show at a node.
fn seen_on(alloc: Global, a: &Valid, b: &Valid, node: &Node, rule: Rule) -> Result<Seen, Fail> {
    let mut first = Plain::new(alloc, a)?;
    let mut second = Plain::new(alloc, b)?;
    seen_at(alloc, &mut first, &mut second, node, rule)
}

/// What the figures of two texts show at a position.
fn seen_of(rt: &impl Abort, alloc: Global, view: &View<'_>, rule: Rule) -> Result<Seen, Fail> {
    let node = node_at(rt, view.at.0, view.at.1);
    let a = figure_of(alloc, view.a)?;
    let b = figure_of(alloc, view.b)?;
    seen_on(alloc, &a, &b, &node, rule)
}

fn assert_rays(rt: &impl Abort, seen: &Seen, rays: &[Ray]) {
    assert_eq!(rt; seen.fan.rays(), rays.len());
    for (i, (dx, dy, pair)) in rays.iter().enumerate() {
        assert!(rt; i < seen.fan.rays());
        let ray = seen.fan.ray(i);
        assert_eq!(rt; (ray.dx, ray.dy), (*dx, *dy), "ray {i}");
        assert_eq!(rt;
            label_ray(&seen.fan, seen.at_a, seen.at_b, i),
            *pair,
            "ray {i}"
        );
    }
}

fn assert_sectors(rt: &impl Abort, seen: &Seen, sectors: &[Pair]) {
    assert_eq!(rt; seen.fan.sectors(), sectors.len());
    for (i, sector) in sectors.iter().enumerate() {
        assert!(rt; i < seen.fan.sectors());
        assert_eq!(rt;
            label_sector(&seen.fan, seen.at_a, seen.at_b, i),
            *sector,
            "sector {i}"
        );
    }
}

fn assert_view(rt: &impl Abort, alloc: Global, view: &View<'_>, rule: Rule) -> Result<(), Fail> {
    let seen = seen_of(rt, alloc, view, rule)?;
    assert_rays(rt, &seen, view.rays);
    assert_sectors(rt, &seen, view.sectors);
    Ok(())
}

/// The same is seen under every rule: none changes what is along a line.
fn assert_views(rt: &impl Abort, alloc: Global, views: &[View<'_>]) -> Result<(), Fail> {
    for view in views {
        for rule in RULES {
            assert_view(rt, alloc, view, rule)?;
        }
    }
    Ok(())
}

const ONE_CORNER: View<'static> = View {
    a: SQUARE,
    b: "POINT (0 0)",
    at: (0, 0),
    rays: &[(1, 0, BOUNDARY), (0, 1, BOUNDARY)],
    sectors: &[INTERIOR, EXTERIOR],
};

const COMMON_EDGE: View<'static> = View {
    a: BOTH_SQUARES,
    b: NOTHING,
    at: (4, 0),
    rays: &[(1, 0, BOUNDARY), (0, 1, INTERIOR), (-1, 0, BOUNDARY)],
    sectors: &[INTERIOR, INTERIOR, EXTERIOR],
};

const FOUR_CORNERS: View<'static> = View {
    a: "POINT (0 0)",
    b: FOUR_SQUARES,
    at: (0, 0),
    rays: &[(1, 0, IN_B), (0, 1, IN_B), (-1, 0, IN_B), (0, -1, IN_B)],
    sectors: &[IN_B, IN_B, IN_B, IN_B],
};

#[test]
fn corners_of_areas(rt: HostRuntime) -> Result<(), Fail> {
    assert_views(&rt, rt.alloc(), &[ONE_CORNER, COMMON_EDGE, FOUR_CORNERS])
}

const TOUCH: View<'static> = View {
    a: "POLYGON ((0 0, 9 0, 9 9, 0 9, 0 0), (0 4, 4 2, 4 6, 0 4))",
    b: NOTHING,
    at: (0, 4),
    rays: &[
        (2, 1, BOUNDARY),
        (0, 1, BOUNDARY),
        (0, -1, BOUNDARY),
        (2, -1, BOUNDARY),
    ],
    sectors: &[INTERIOR, EXTERIOR, INTERIOR, EXTERIOR],
};

#[test]
fn a_hole_touches_its_shell(rt: HostRuntime) -> Result<(), Fail> {
    assert_views(&rt, rt.alloc(), &[TOUCH])
}

const ALONG: View<'static> = View {
    a: "GEOMETRYCOLLECTION (POLYGON ((-4 0, 4 0, 4 4, -4 4, -4 0)), LINESTRING (4 0, 0 0, 0 -4))",
    b: "LINESTRING (0 0, 4 0)",
    at: (0, 0),
    rays: &[
        (
            1,
            0,
            Pair {
                a: Loc::Boundary,
                b: Loc::Interior,
            },
        ),
        (-1, 0, BOUNDARY),
        (0, -1, INTERIOR),
    ],
    sectors: &[INTERIOR, EXTERIOR, EXTERIOR],
};

#[test]
fn a_line_along_an_edge_of_an_area(rt: HostRuntime) -> Result<(), Fail> {
    assert_views(&rt, rt.alloc(), &[ALONG])
}

const CLOSED: View<'static> = View {
    a: ROUND,
    b: NOTHING,
    at: (0, 0),
    rays: &[(1, 0, INTERIOR), (0, 1, INTERIOR)],
    sectors: &[EXTERIOR, EXTERIOR],
};

const STILL: View<'static> = View {
    a: "LINESTRING (2 2, 2 2)",
    b: SQUARE,
    at: (2, 2),
    rays: &[],
    sectors: &[IN_B],
};

#[test]
fn closed_and_still_lines(rt: HostRuntime) -> Result<(), Fail> {
    assert_views(&rt, rt.alloc(), &[CLOSED, STILL])
}

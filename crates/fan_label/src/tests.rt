use super::{Pair, label_ray, label_sector};
use fan_order::{Fan, Section, SectionList, are_short};
use im_matrix::{Loc, Which};
use plane_exact::{Dir, NoMemory};
use point_set::{DimLoc, Hand};
use std::alloc::Global;
use std::process::Abort;
use std::test::Fail;

const EAST: Dir = Dir { dx: 1, dy: 0 };

const NORTH: Dir = Dir { dx: 0, dy: 1 };

const WEST: Dir = Dir { dx: -1, dy: 0 };

const SOUTH: Dir = Dir { dx: 0, dy: -1 };

const NORTHEAST: Dir = Dir { dx: 2, dy: 1 };

const SOUTHEAST: Dir = Dir { dx: 2, dy: -1 };

/// The parts of A's plane, outside B.
const INTERIOR: Pair = Pair {
    a: Loc::Interior,
    b: Loc::Exterior,
};

const BOUNDARY: Pair = Pair {
    a: Loc::Boundary,
    b: Loc::Exterior,
};

const EXTERIOR: Pair = Pair {
    a: Loc::Exterior,
    b: Loc::Exterior,
};

/// B's interior, outside A.
const IN_B: Pair = Pair {
    a: Loc::Exterior,
    b: Loc::Interior,
};

/// A section of the first area of a figure, or of its second one, and so on.
fn of_area(which: Which, area: u32, dir: Dir, hand: Hand) -> Section {
    Section {
        dir,
        hand,
        which,
        area: Some(area),
    }
}

fn of_line(which: Which, dir: Dir) -> Section {
    Section {
        dir,
        hand: Hand::Line,
        which,
        area: None,
    }
}

fn list_of(alloc: Global, sections: &[Section]) -> Result<SectionList, NoMemory> {
    let mut list = SectionList::new(alloc);
    for section in sections {
        list.push(*section)?;
    }
    Ok(list)
}

/// The labels of the rays and the sectors of some sections at a node of these kinds.
fn assert_labels(
    rt: &impl Abort,
    alloc: Global,
    sections: &[Section],
    at_a: DimLoc,
    at_b: DimLoc,
    rays: &[Pair],
    sectors: &[Pair],
) -> Result<(), Fail> {
    let list = list_of(alloc, sections)?;
    assert!(rt; are_short(&list));
    let fan = Fan::gather(alloc, &list)?;
    assert_eq!(rt; fan.rays(), rays.len());
    assert_eq!(rt; fan.sectors(), sectors.len());
    for (i, ray) in rays.iter().enumerate() {
        assert!(rt; i < fan.rays());
        assert_eq!(rt; label_ray(&fan, at_a, at_b, i), *ray, "ray {i}");
    }
    for (i, sector) in sectors.iter().enumerate() {
        assert!(rt; i < fan.sectors());
        assert_eq!(rt; label_sector(&fan, at_a, at_b, i), *sector, "sector {i}");
    }
    Ok(())
}

#[test]
fn two_areas_share_an_edge(rt: HostRuntime) -> Result<(), Fail> {
    let sections = [
        of_area(Which::A, 0, NORTH, Hand::Left),
        of_area(Which::A, 0, WEST, Hand::Right),
        of_area(Which::A, 1, NORTH, Hand::Right),
        of_area(Which::A, 1, EAST, Hand::Left),
    ];
    assert_labels(
        &rt,
        rt.alloc(),
        &sections,
        DimLoc::AreaBoundary,
        DimLoc::Exterior,
        &[BOUNDARY, INTERIOR, BOUNDARY],
        &[INTERIOR, INTERIOR, EXTERIOR],
    )
}

#[test]
fn a_hole_touches_its_shell(rt: HostRuntime) -> Result<(), Fail> {
    let sections = [
        of_area(Which::A, 0, NORTH, Hand::Right),
        of_area(Which::A, 0, SOUTH, Hand::Left),
        of_area(Which::A, 0, NORTHEAST, Hand::Left),
        of_area(Which::A, 0, SOUTHEAST, Hand::Right),
    ];
    assert_labels(
        &rt,
        rt.alloc(),
        &sections,
        DimLoc::AreaBoundary,
        DimLoc::Exterior,
        &[BOUNDARY, BOUNDARY, BOUNDARY, BOUNDARY],
        &[INTERIOR, EXTERIOR, INTERIOR, EXTERIOR],
    )
}

#[test]
fn a_line_along_an_edge_of_an_area(rt: HostRuntime) -> Result<(), Fail> {
    let sections = [
        of_area(Which::A, 0, EAST, Hand::Left),
        of_area(Which::A, 0, WEST, Hand::Right),
        of_line(Which::A, EAST),
        of_line(Which::A, SOUTH),
        of_line(Which::B, EAST),
    ];
    let above = Pair {
        a: Loc::Boundary,
        b: Loc::Interior,
    };
    assert_labels(
        &rt,
        rt.alloc(),
        &sections,
        DimLoc::AreaBoundary,
        DimLoc::LineBoundary,
        &[above, BOUNDARY, INTERIOR],
        &[INTERIOR, EXTERIOR, EXTERIOR],
    )
}

/// Whatever the rule says of the position at which a closed line starts, so under all four.
#[test]
fn a_closed_line_starts(rt: HostRuntime) -> Result<(), Fail> {
    for kind in [DimLoc::LineInterior, DimLoc::LineBoundary] {
        assert_labels(
            &rt,
            rt.alloc(),
            &[of_line(Which::A, EAST), of_line(Which::A, NORTH)],
            kind,
            DimLoc::Exterior,
            &[INTERIOR, INTERIOR],
            &[EXTERIOR, EXTERIOR],
        )?;
    }
    Ok(())
}

#[test]
fn a_still_line_and_a_point_within_an_area(rt: HostRuntime) -> Result<(), Fail> {
    assert_labels(
        &rt,
        rt.alloc(),
        &[],
        DimLoc::PointInterior,
        DimLoc::AreaInterior,
        &[],
        &[IN_B],
    )
}

#[test]
fn four_areas_surround_a_corner(rt: HostRuntime) -> Result<(), Fail> {
    let sections = [
        of_area(Which::B, 0, EAST, Hand::Left),
        of_area(Which::B, 0, NORTH, Hand::Right),
        of_area(Which::B, 1, NORTH, Hand::Left),
        of_area(Which::B, 1, WEST, Hand::Right),
        of_area(Which::B, 2, WEST, Hand::Left),
        of_area(Which::B, 2, SOUTH, Hand::Right),
        of_area(Which::B, 3, SOUTH, Hand::Left),
        of_area(Which::B, 3, EAST, Hand::Right),
    ];
    assert_labels(
        &rt,
        rt.alloc(),
        &sections,
        DimLoc::Exterior,
        DimLoc::AreaInterior,
        &[IN_B, IN_B, IN_B, IN_B],
        &[IN_B, IN_B, IN_B, IN_B],
    )
}

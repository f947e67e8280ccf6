ghost use Rattle.std.specs.Prelude.{◌≡◌, ◌<◌};
ghost use Rattle.plane_exact.specs.Directions.{IsWay};

use super::{Fan, Section, SectionList, are_short};
use im_matrix::Which;
use plane_exact::Dir;
use point_set::Hand;
use std::alloc::Global;
use std::process::Abort;
use std::test::Fail;

fn toward(dx: i64, dy: i64) -> Section
    requires way { IsWay dx dy }
    ensures dir_x { result.dir.dx ≡ dx }
    ensures dir_y { result.dir.dy ≡ dy }
{
    Section {
        dir: Dir { dx, dy },
        hand: Hand::Line,
        which: Which::B,
        area: None,
    }
}

fn assert_rays(rt: &impl Abort, fan: &Fan, rays: &[(i64, i64)]) {
    for (i, (dx, dy)) in rays.iter().enumerate() {
        assert!(rt; i < fan.rays());
        let ray = fan.ray(i);
        assert_eq!(rt; (ray.dx, ray.dy), (*dx, *dy), "ray {i}");
    }
}

fn assert_middles(rt: &impl Abort, fan: &Fan, middles: &[(i64, i64)]) {
    for (i, (dx, dy)) in middles.iter().enumerate() {
        assert!(rt; i < fan.sectors());
        let middle = fan.middle(i);
        assert_eq!(rt; (middle.dx, middle.dy), (*dx, *dy), "middle {i}");
    }
}

/// The rays of a fan, each with the middle of the sector after it.
fn assert_fan(
    rt: &impl Abort,
    sections: SectionList,
    alloc: Global,
    rays: &[(i64, i64)],
    middles: &[(i64, i64)],
) -> Result<(), Fail> {
    assert!(rt; are_short(&sections));
    let fan = Fan::gather(alloc, &sections).ok().ok_or("no memory")?;
    assert_eq!(rt; fan.rays(), rays.len());
    assert_eq!(rt; fan.sectors(), middles.len());
    assert_eq!(rt; fan.sections().len(), sections.len());
    assert_rays(rt, &fan, rays);
    assert_middles(rt, &fan, middles);
    Ok(())
}

#[test]
fn fans_have_their_rays_and_middles(rt: HostRuntime) -> Result<(), Fail> {
    let mut two = SectionList::new(rt.alloc());
    two.push(toward(1, 0))?;
    two.push(toward(0, 1))?;
    two.push(toward(1, 0))?;
    assert_fan(&rt, two, rt.alloc(), &[(1, 0), (0, 1)], &[(1, 1), (-1, 0)])?;
    let none = SectionList::new(rt.alloc());
    assert_fan(&rt, none, rt.alloc(), &[], &[(1, 0)])?;
    let mut one = SectionList::new(rt.alloc());
    one.push(toward(-4, -6))?;
    assert_fan(&rt, one, rt.alloc(), &[(-2, -3)], &[(3, -2)])?;
    let mut opposite = SectionList::new(rt.alloc());
    opposite.push(toward(-3, 0))?;
    opposite.push(toward(7, 0))?;
    assert_fan(
        &rt,
        opposite,
        rt.alloc(),
        &[(1, 0), (-1, 0)],
        &[(0, 1), (0, -1)],
    )
}

#[test]
fn a_fan_of_many_sections(rt: HostRuntime) -> Result<(), Fail> {
    let mut sections = SectionList::new(rt.alloc());
    for _ in 0..3 {
        sections.push(toward(0, -2))?;
        sections.push(toward(2, -2))?;
        sections.push(toward(-1, 1))?;
        sections.push(toward(3, 1))?;
    }
    assert_fan(
        &rt,
        sections,
        rt.alloc(),
        &[(3, 1), (-1, 1), (0, -1), (1, -1)],
        &[(2, 2), (-1, 0), (1, -2), (4, 0)],
    )
}

/// An edge of a ring of an area, along a ray.
fn beside(dx: i64, dy: i64, hand: Hand, which: Which, area: u32) -> Section
    requires way { IsWay dx dy }
    ensures dir_x { result.dir.dx ≡ dx }
    ensures dir_y { result.dir.dy ≡ dy }
{
    Section {
        dir: Dir { dx, dy },
        hand,
        which,
        area: Some(area),
    }
}

/// Which sectors are inside an area of a figure.
fn assert_inside(rt: &impl Abort, fan: &Fan, which: Which, inside: &[bool]) {
    assert_eq!(rt; fan.sectors(), inside.len());
    for (i, inside) in inside.iter().enumerate() {
        assert!(rt; i < fan.sectors());
        assert_eq!(rt; fan.is_inside(which, i), *inside, "sector {i} of {which:?}");
    }
}

/// Along which rays a line of a figure runs.
fn assert_lines(rt: &impl Abort, fan: &Fan, which: Which, lines: &[bool]) {
    assert_eq!(rt; fan.rays(), lines.len());
    for (i, line) in lines.iter().enumerate() {
        assert!(rt; i < fan.rays());
        assert_eq!(rt; fan.has_line(which, i), *line, "ray {i} of {which:?}");
    }
}

/// Two corners of areas of the first figure side by side, one of the second below them, and a line of each figure. Each section
/// stands there twice.
#[test]
fn sectors_of_two_figures(rt: HostRuntime) -> Result<(), Fail> {
    let mut sections = SectionList::new(rt.alloc());
    for _ in 0..2 {
        sections.push(beside(0, 5, Hand::Right, Which::A, 0))?;
        sections.push(beside(3, 0, Hand::Left, Which::A, 0))?;
        sections.push(beside(0, 1, Hand::Left, Which::A, 1))?;
        sections.push(beside(-2, 0, Hand::Right, Which::A, 1))?;
        sections.push(beside(7, 0, Hand::Right, Which::B, 0))?;
        sections.push(beside(-1, 0, Hand::Left, Which::B, 0))?;
        sections.push(Section {
            which: Which::A,
            ..toward(2, 2)
        })?;
        sections.push(toward(0, -1))?;
    }
    assert!(rt; are_short(&sections));
    let fan = Fan::gather(rt.alloc(), &sections).ok().ok_or("no memory")?;
    assert_rays(&rt, &fan, &[(1, 0), (1, 1), (0, 1), (-1, 0), (0, -1)]);
    assert_inside(&rt, &fan, Which::A, &[true, true, true, false, false]);
    assert_inside(&rt, &fan, Which::B, &[false, false, false, true, true]);
    assert_lines(&rt, &fan, Which::A, &[false, true, false, false, false]);
    assert_lines(&rt, &fan, Which::B, &[false, false, false, false, true]);
    Ok(())
}

/// An area round all but one quarter, over the positive x direction.
#[test]
fn an_area_over_the_first_ray(rt: HostRuntime) -> Result<(), Fail> {
    let mut sections = SectionList::new(rt.alloc());
    sections.push(beside(0, 4, Hand::Right, Which::B, 3))?;
    sections.push(beside(-4, 0, Hand::Left, Which::B, 3))?;
    sections.push(toward(9, 0))?;
    assert!(rt; are_short(&sections));
    let fan = Fan::gather(rt.alloc(), &sections).ok().ok_or("no memory")?;
    assert_rays(&rt, &fan, &[(1, 0), (0, 1), (-1, 0)]);
    assert_inside(&rt, &fan, Which::B, &[true, false, true]);
    assert_inside(&rt, &fan, Which::A, &[false, false, false]);
    assert_lines(&rt, &fan, Which::B, &[true, false, false]);
    Ok(())
}

/// The edges along a ray where one of twelve narrow areas begins and the one before it ends: those with even numbers are of the
/// first figure.
fn add_border(sections: &mut SectionList, dx: i64, dy: i64, area: u32) -> Result<(), Fail>
    requires way { IsWay dx dy }
    requires area { area < 12 }
{
    let (which, other) = if area % 2 == 0 {
        (Which::A, Which::B)
    } else {
        (Which::B, Which::A)
    };
    sections.push(beside(dx, dy, Hand::Left, which, area))?;
    sections.push(beside(dx, dy, Hand::Right, other, (area + 11) % 12))?;
    Ok(())
}

#[test]
fn many_areas_round_a_node(rt: HostRuntime) -> Result<(), Fail> {
    let mut sections = SectionList::new(rt.alloc());
    add_border(&mut sections, 1, 0, 0)?;
    add_border(&mut sections, 2, 1, 1)?;
    add_border(&mut sections, 1, 2, 2)?;
    add_border(&mut sections, 0, 1, 3)?;
    add_border(&mut sections, -1, 2, 4)?;
    add_border(&mut sections, -2, 1, 5)?;
    add_border(&mut sections, -1, 0, 6)?;
    add_border(&mut sections, -2, -1, 7)?;
    add_border(&mut sections, -1, -2, 8)?;
    add_border(&mut sections, 0, -1, 9)?;
    add_border(&mut sections, 1, -2, 10)?;
    add_border(&mut sections, 2, -1, 11)?;
    assert!(rt; are_short(&sections));
    let fan = Fan::gather(rt.alloc(), &sections).ok().ok_or("no memory")?;
    let even = [
        true, false, true, false, true, false, true, false, true, false, true, false,
    ];
    let odd = [
        false, true, false, true, false, true, false, true, false, true, false, true,
    ];
    assert_inside(&rt, &fan, Which::A, &even);
    assert_inside(&rt, &fan, Which::B, &odd);
    Ok(())
}

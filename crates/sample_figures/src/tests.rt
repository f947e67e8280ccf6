//! The samples with one and with two teeth, position by position.
use crate::{SamplePair, sample};
use plane_exact::Path;
use point_set::Figure;
use std::test::Fail;

fn is_way(way: &Path, positions: &[(i64, i64)]) -> bool {
    way.len() == positions.len()
        && way
            .as_slice()
            .iter()
            .zip(positions)
            .all(|(p, (x, y))| p.x == *x && p.y == *y)
}

fn has_area(figure: &Figure, place: usize, shell: &[(i64, i64)], group: u32) -> bool {
    match figure.areas.as_slice().get(place) {
        Some(area) => is_way(&area.shell, shell) && area.holes.len() == 0 && area.group == group,
        None => false,
    }
}

fn is_of_ring(figure: &Figure, ring: &[(i64, i64)]) -> bool {
    figure.points.len() == 0
        && figure.lines.len() == 0
        && figure.areas.len() == 1
        && has_area(figure, 0, ring, 0)
}

fn is_of_points(figure: &Figure, points: &[(i64, i64)]) -> bool {
    is_way(&figure.points, points) && figure.lines.len() == 0 && figure.areas.len() == 0
}

fn has_line_and_areas(figure: &Figure, line: &[(i64, i64)], areas: usize) -> bool {
    figure.points.len() == 0
        && figure.areas.len() == areas
        && match figure.lines.as_slice() {
            [only] => is_way(only, line),
            _ => false,
        }
}

#[test]
fn one_tooth(rt: HostRuntime) -> Result<(), Fail> {
    let SamplePair { a, b } = sample(rt.alloc(), 1)?;
    assert_eq!(rt; a.len(), 2);
    assert_eq!(rt; b.len(), 3);
    assert!(rt; is_of_ring(a.at(0), &[(0, 0), (1, 0), (1, 3), (0, 3), (0, 0)]));
    assert!(rt; has_line_and_areas(a.at(1), &[(0, 0), (2, 0)], 1));
    assert!(rt; has_area(a.at(1), 0, &[(0, 0), (1, 0), (1, 1), (0, 1), (0, 0)], 0));
    assert!(rt; is_of_ring(b.at(0), &[(0, 0), (0, 1), (3, 1), (3, 0), (0, 0)]));
    assert!(rt; is_of_ring(b.at(1), &[(0, 0), (1, 0), (1, 1), (0, 1), (0, 0)]));
    assert!(rt; is_of_points(b.at(2), &[(0, 0), (1, 0), (2, 0)]));
    Ok(())
}

#[test]
fn two_teeth(rt: HostRuntime) -> Result<(), Fail> {
    let SamplePair { a, b } = sample(rt.alloc(), 2)?;
    assert_eq!(rt; a.len(), 2);
    assert_eq!(rt; b.len(), 3);
    assert!(rt;
        is_of_ring(
            a.at(0),
            &[
                (0, 0),
                (3, 0),
                (3, 5),
                (2, 5),
                (2, 1),
                (1, 1),
                (1, 5),
                (0, 5),
                (0, 0)
            ]
        )
    );
    assert!(rt; has_line_and_areas(a.at(1), &[(0, 0), (4, 0)], 2));
    assert!(rt; has_area(a.at(1), 0, &[(0, 0), (1, 0), (1, 1), (0, 1), (0, 0)], 0));
    assert!(rt; has_area(a.at(1), 1, &[(1, 0), (2, 0), (2, 1), (1, 1), (1, 0)], 1));
    assert!(rt;
        is_of_ring(
            b.at(0),
            &[
                (0, 0),
                (0, 3),
                (5, 3),
                (5, 2),
                (1, 2),
                (1, 1),
                (5, 1),
                (5, 0),
                (0, 0)
            ]
        )
    );
    assert!(rt; is_of_ring(b.at(1), &[(0, 0), (2, 0), (2, 1), (0, 1), (0, 0)]));
    assert!(rt; is_of_points(b.at(2), &[(0, 0), (1, 0), (2, 0), (3, 0), (4, 0)]));
    Ok(())
}

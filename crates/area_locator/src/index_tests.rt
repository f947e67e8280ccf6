//! Locations by an index over heights, beside those that were worked out by hand.
use crate::area_index::{AreaIndex, are_edges, edges_in, first_difference, spans_of};
use crate::indexed::locate_by;
use im_matrix::Loc;
use plane_exact::{Count, NoMemory, Node, Path, Pt, Seg, SegList};
use point_set::{Area, Paths};
use std::alloc::Global;
use std::process::Abort;
use std::test::Fail;
use y_index::{YIndex, are_spans};

const SHELL: &[(i64, i64)] = &[(0, 0), (9, 0), (9, 9), (0, 9), (0, 0)];

const HOLE: &[(i64, i64)] = &[(3, 3), (6, 3), (6, 6), (3, 6), (3, 3)];

/// How many teeth the comb has.
const TEETH: u8 = 50;

fn ring_of(alloc: Global, positions: &[(i64, i64)]) -> Result<Path, NoMemory> {
    let mut ring = Path::new(alloc);
    for (x, y) in positions {
        ring.push(Pt { x: *x, y: *y })?;
    }
    Ok(ring)
}

/// An area of one shell and one hole.
fn area_of(alloc: Global) -> Result<Area, NoMemory> {
    let mut holes = Paths::new(alloc);
    holes.push(ring_of(alloc, HOLE)?)?;
    Ok(Area {
        shell: ring_of(alloc, SHELL)?,
        holes,
        group: 0,
    })
}

/// Adds the edges from each position of a ring to the next.
fn add_edges(edges: &mut SegList, ring: &Path) -> Result<(), NoMemory> {
    let positions = ring.as_slice();
    for (start, end) in positions.iter().zip(positions.iter().skip(1)) {
        edges.push(Seg { a: *start, b: *end })?;
    }
    Ok(())
}

/// A comb: teeth of width 1 on a base, with gaps of width 1 between them down to the height 1.
fn comb(alloc: Global) -> Result<Path, NoMemory> {
    let height = 2 * i64::from(TEETH) + 1;
    let mut ring = ring_of(alloc, &[(0, 0), (2 * i64::from(TEETH) - 1, 0)])?;
    for tooth in (0..TEETH).rev() {
        let left = 2 * i64::from(tooth);
        ring.push(Pt {
            x: left + 1,
            y: height,
        })?;
        ring.push(Pt { x: left, y: height })?;
        if tooth > 0 {
            ring.push(Pt { x: left, y: 1 })?;
            ring.push(Pt { x: left - 1, y: 1 })?;
        }
    }
    ring.push(Pt { x: 0, y: 0 })?;
    Ok(ring)
}

/// Where the position (x, y) lies by the edges alone that have its height, and how many rows were looked at.
fn located(
    rt: &impl Abort,
    alloc: Global,
    edges: &SegList,
    n: &Node,
) -> Result<(Loc, u64), NoMemory> {
    let mut meter = Count::new();
    assert!(rt; edges.len() <= 1_048_576);
    assert!(rt; are_edges(edges.as_slice()));
    let spans = spans_of(alloc, edges.as_slice())?;
    assert!(rt; are_spans(spans.as_slice()));
    let rows = YIndex::build(alloc, &spans)?;
    let loc = locate_by(&rows, edges, n, &mut meter);
    Ok((loc, meter.ticks()))
}

#[test]
fn a_square_with_a_hole(rt: HostRuntime) -> Result<(), Fail> {
    let mut edges = SegList::new(rt.alloc());
    add_edges(&mut edges, &ring_of(rt.alloc(), SHELL)?)?;
    add_edges(&mut edges, &ring_of(rt.alloc(), HOLE)?)?;
    let in_hole = Node::at_point(Pt { x: 4, y: 4 });
    let on_hole = Node::at_point(Pt { x: 3, y: 4 });
    let within = Node::at_point(Pt { x: 1, y: 1 });
    let at_corner = Node::at_point(Pt { x: 9, y: 9 });
    let beside = Node::reduce(-1, 9, 2);
    assert_eq!(rt;
        located(&rt, rt.alloc(), &edges, &in_hole)?.0,
        Loc::Exterior
    );
    assert_eq!(rt;
        located(&rt, rt.alloc(), &edges, &on_hole)?.0,
        Loc::Boundary
    );
    assert_eq!(rt; located(&rt, rt.alloc(), &edges, &within)?.0, Loc::Interior);
    assert_eq!(rt;
        located(&rt, rt.alloc(), &edges, &at_corner)?.0,
        Loc::Boundary
    );
    assert_eq!(rt; located(&rt, rt.alloc(), &edges, &beside)?.0, Loc::Exterior);
    Ok(())
}

#[test]
fn a_comb(rt: HostRuntime) -> Result<(), Fail> {
    let mut edges = SegList::new(rt.alloc());
    add_edges(&mut edges, &comb(rt.alloc())?)?;
    assert_eq!(rt; edges.len(), 200);
    let (loc, looks) = located(&rt, rt.alloc(), &edges, &Node::at_point(Pt { x: 1, y: 50 }))?;
    assert_eq!(rt; loc, Loc::Boundary);
    assert!(rt; looks >= 100);
    assert!(rt; looks <= 2_020);
    Ok(())
}

#[test]
fn an_index_of_an_area(rt: HostRuntime) -> Result<(), Fail> {
    let area = area_of(rt.alloc())?;
    let edges = edges_in(rt.alloc(), &area)?;
    assert!(rt; edges.len() <= 1_048_576);
    assert!(rt; are_edges(edges.as_slice()));
    assert_eq!(rt; first_difference(&edges, &area), None);
    let index = AreaIndex::over(rt.alloc(), edges)?;
    let mut meter = Count::new();
    assert_eq!(rt;
        index.locate(&Node::at_point(Pt { x: 4, y: 4 }), &mut meter),
        Loc::Exterior
    );
    assert!(rt; meter.ticks() <= 60);
    Ok(())
}

#[test]
fn the_first_difference(rt: HostRuntime) -> Result<(), Fail> {
    let area = area_of(rt.alloc())?;
    let mut edges = edges_in(rt.alloc(), &area)?;
    let last = edges.pop();
    assert_eq!(rt; edges.len(), 7);
    assert_eq!(rt; first_difference(&edges, &area), Some(7));
    edges.push(last.ok_or("no edge")?)?;
    assert_eq!(rt; edges.len(), 8);
    assert_eq!(rt; first_difference(&edges, &area), None);
    let mut shell = SegList::new(rt.alloc());
    add_edges(&mut shell, &ring_of(rt.alloc(), SHELL)?)?;
    add_edges(&mut shell, &ring_of(rt.alloc(), SHELL)?)?;
    assert!(rt; shell.len() <= 1_048_576);
    assert_eq!(rt; first_difference(&shell, &area), Some(4));
    Ok(())
}

fn can_be_shared<T: Send + Sync>() -> bool {
    true
}

#[test]
fn an_index_can_be_shared_by_threads(rt: HostRuntime) {
    assert!(rt; can_be_shared::<AreaIndex>());
}

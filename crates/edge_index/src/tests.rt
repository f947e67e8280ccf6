use crate::{BoxRow, EdgeIndex, walk};
use plane_exact::{Count, NoMemory, PlaceList, Pt, Seg, SegList, Window};
use std::alloc::Global;
use std::test::*;

/// The corners of a square in order, and the first one again.
const SQUARE: [Pt; 5] = [
    Pt { x: 0, y: 0 },
    Pt { x: 4, y: 0 },
    Pt { x: 4, y: 4 },
    Pt { x: 0, y: 4 },
    Pt { x: 0, y: 0 },
];

/// The segments of the way through the positions, in order.
fn list_of(alloc: Global, way: &[Pt]) -> Result<SegList, NoMemory> {
    let mut list = SegList::new(alloc);
    for i in 1..way.len() {
        list.push(Seg {
            a: way[i - 1],
            b: way[i],
        })?;
    }
    Ok(list)
}

/// The segments from (2i, 0) to (2i + 1, 0) for i from 0 to 4,095.
fn dashes(alloc: Global) -> Result<SegList, NoMemory> {
    let mut list = SegList::new(alloc);
    for i in 0..4096_u32 {
        let x = i64::from(2 * i);
        list.push(Seg {
            a: Pt { x, y: 0 },
            b: Pt { x: x + 1, y: 0 },
        })?;
    }
    Ok(list)
}

#[test]
fn a_window_meets_one_edge_of_the_square(rt: HostRuntime) -> Result<(), Fail> {
    let segs = list_of(rt.alloc(), &SQUARE)?;
    assert_eq!(rt; segs.len(), 4);
    let index = EdgeIndex::build(rt.alloc(), segs)?;
    let mut out = PlaceList::new(rt.alloc());
    let window = Window {
        low_x: 1,
        low_y: 0,
        high_x: 2,
        high_y: 1,
    };
    index.query(window, &mut out)?;
    assert_eq!(rt; out.as_slice(), [0].as_slice());
    Ok(())
}

#[test]
fn lists_differ_where_the_shorter_ends(rt: HostRuntime) -> Result<(), Fail> {
    let segs = list_of(rt.alloc(), &SQUARE)?;
    assert_eq!(rt; segs.len(), 4);
    let index = EdgeIndex::build(rt.alloc(), segs)?;
    let same = list_of(rt.alloc(), &SQUARE)?;
    let shorter = list_of(rt.alloc(), &SQUARE[..4])?;
    assert_eq!(rt; index.differs_at(&same), None);
    assert_eq!(rt; index.differs_at(&shorter), Some(3));
    Ok(())
}

#[test]
fn few_boxes_are_looked_at(rt: HostRuntime) -> Result<(), Fail> {
    let segs = dashes(rt.alloc())?;
    assert_eq!(rt; segs.len(), 4096);
    let index = EdgeIndex::build(rt.alloc(), segs)?;
    let window = Window {
        low_x: 100,
        low_y: 0,
        high_x: 100,
        high_y: 0,
    };
    let mut out = PlaceList::new(rt.alloc());
    let mut looks = Count::new();
    index.query_with(window, &mut out, &mut looks)?;
    let ticks = looks.ticks();
    assert_eq!(rt; out.as_slice(), [50].as_slice());
    assert!(rt; 1 <= ticks && ticks <= 200, "{ticks} looks of a query");
    let mut looks = Count::new();
    walk(&index, window, &mut out, &mut looks)?;
    let ticks = looks.ticks();
    assert_eq!(rt; out.as_slice(), [50].as_slice());
    assert!(rt; 1 <= ticks && ticks <= 200, "{ticks} looks of a walk");
    Ok(())
}

#[test]
fn an_index_of_nothing_finds_nothing(rt: HostRuntime) -> Result<(), Fail> {
    let index = EdgeIndex::build(rt.alloc(), SegList::new(rt.alloc()))?;
    let window = Window {
        low_x: 0,
        low_y: 0,
        high_x: 4,
        high_y: 4,
    };
    let mut out = PlaceList::new(rt.alloc());
    out.push(7)?;
    index.query(window, &mut out)?;
    assert_eq!(rt; out.len(), 0);
    Ok(())
}

fn can_be_shared<T: Send + Sync>() -> bool {
    true
}

#[test]
fn an_index_can_be_shared_by_threads(rt: HostRuntime) {
    assert!(rt; can_be_shared::<EdgeIndex>());
    assert!(rt; can_be_shared::<BoxRow>());
}

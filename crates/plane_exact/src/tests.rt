use crate::node::Node;
use crate::orders::{cmp_along, cmp_height, cmp_nodes, cmp_turn, is_before};
use crate::point::{Pt, Seg};
use crate::sides::{on_segment, side_of};
use crate::sign::Sign;
use crate::turns::{orient, turn_of};
use crate::window::Window;
use crate::{Count, Dir, Meter, NoMemory, Path, PlaceList, SegList};
use std::cmp::Ordering;
use std::test::Fail;

#[test]
fn turns_and_sides(rt: HostRuntime) {
    let a = Pt { x: 0, y: 0 };
    let b = Pt { x: 4, y: 0 };
    assert_eq!(rt; orient(a, b, Pt { x: 2, y: 1 }), Sign::Plus);
    assert_eq!(rt; turn_of(a, b, Pt { x: 2, y: -1 }), -4);
    let middle = Node::reduce(2, 4, 8);
    assert_eq!(rt; middle.parts(), (1, 2, 4));
    assert_eq!(rt; middle.position(), None);
    assert_eq!(rt; Node::at_point(b).position(), Some(b));
    assert_eq!(rt; side_of(b, a, &middle), Sign::Minus);
    let s = Seg {
        a,
        b: Pt { x: 2, y: 4 },
    };
    assert_eq!(rt; on_segment(s, &middle), true);
    assert_eq!(rt; Window::of(s).meets(&Window::round(&middle)), true);
}

#[test]
fn orders(rt: HostRuntime) {
    let third = Node::reduce(1, 1, 3);
    let half = Node::reduce(1, 1, 2);
    let s = Seg {
        a: Pt { x: 1, y: 1 },
        b: Pt { x: 0, y: 0 },
    };
    assert_eq!(rt; cmp_nodes(&third, &half), Ordering::Less);
    assert_eq!(rt; cmp_height(&half, 1), Ordering::Less);
    assert_eq!(rt; is_before(s.a, s.b), false);
    assert!(rt; on_segment(s, &third));
    assert!(rt; on_segment(s, &half));
    assert_eq!(rt; cmp_along(s, &third, &half), Ordering::Greater);
    let right = Dir { dx: 1, dy: 0 };
    let down = Dir { dx: 0, dy: -2 };
    assert_eq!(rt; cmp_turn(right, down), Ordering::Less);
    let mut steps = Count::new();
    steps.tick();
    assert_eq!(rt; steps.ticks(), 1);
}

#[test]
fn lists(rt: HostRuntime) -> Result<(), Fail> {
    let mut path = Path::new(rt.alloc());
    path.push(Pt { x: 1, y: 2 })?;
    path.push(Pt { x: 3, y: 4 })?;
    assert_eq!(rt; path.pop(), Some(Pt { x: 3, y: 4 }));
    assert_eq!(rt; path.len(), 1);
    path.clear();
    assert_eq!(rt; path.len(), 0);
    assert_eq!(rt; path.pop(), None);
    Ok(())
}

fn can_be_shared<T: Send + Sync>() -> bool {
    true
}

#[test]
fn lists_can_be_shared_by_threads(rt: HostRuntime) {
    assert!(rt; can_be_shared::<NoMemory>());
    assert!(rt; can_be_shared::<Path>());
    assert!(rt; can_be_shared::<SegList>());
    assert!(rt; can_be_shared::<PlaceList>());
}

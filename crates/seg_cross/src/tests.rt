use crate::answer::Meet;
use crate::meeting::meet;
use plane_exact::{Pt, Seg, in_limit};

/// What `meet` answers, or None where the ends aren't such as it takes.
fn met(s: Seg, t: Seg) -> Option<Meet> {
    let taken = in_limit(s.a) && in_limit(s.b) && in_limit(t.a) && in_limit(t.b);
    if taken && s.a != s.b && t.a != t.b {
        Some(meet(s, t))
    } else {
        None
    }
}

fn seg(ax: i64, ay: i64, bx: i64, by: i64) -> Seg {
    Seg {
        a: Pt { x: ax, y: ay },
        b: Pt { x: bx, y: by },
    }
}

/// The parts of the one common point, or None where there are none or more.
fn parts(s: Seg, t: Seg) -> Option<(i128, i128, i128)> {
    match met(s, t) {
        Some(Meet::At(n)) => Some(n.parts()),
        _ => None,
    }
}

fn along(ax: i64, ay: i64, bx: i64, by: i64) -> Option<Meet> {
    Some(Meet::Along(Pt { x: ax, y: ay }, Pt { x: bx, y: by }))
}

#[test]
fn rows(rt: HostRuntime) {
    assert_eq!(rt; parts(seg(0, 0, 1, 1), seg(0, 1, 1, 0)), Some((1, 1, 2)));
    assert_eq!(rt; met(seg(0, 0, 4, 0), seg(2, 0, 6, 0)), along(2, 0, 4, 0));
    assert_eq!(rt; parts(seg(0, 0, 2, 0), seg(2, 0, 4, 0)), Some((2, 0, 1)));
    assert_eq!(rt; met(seg(0, 0, 1, 0), seg(0, 1, 1, 1)), Some(Meet::Apart));
    let long = seg(-1048575, -1048575, 1048575, 1048574);
    assert_eq!(rt;
        parts(long, seg(-1048575, -1048574, 1048575, 1048573)),
        Some((0, -1, 2))
    );
    assert_eq!(rt;
        met(long, seg(-1048575, -1048574, 1048575, 1048575)),
        Some(Meet::Apart)
    );
}

#[test]
fn neighbours(rt: HostRuntime) {
    assert_eq!(rt; met(seg(0, 0, 1, 1), seg(2, 2, 3, 3)), Some(Meet::Apart));
    assert_eq!(rt; met(seg(9, 9, 0, 0), seg(3, 3, 6, 6)), along(3, 3, 6, 6));
    assert_eq!(rt; met(seg(0, 3, 4, 1), seg(4, 1, 0, 3)), along(0, 3, 4, 1));
    assert_eq!(rt; parts(seg(0, 0, 4, 2), seg(2, 1, 5, 5)), Some((2, 1, 1)));
    assert_eq!(rt; parts(seg(0, 0, 4, 2), seg(4, 2, 7, 0)), Some((4, 2, 1)));
}

/// The cross product of two ways, worked apart from the crates.
fn cross(ux: i64, uy: i64, vx: i64, vy: i64) -> i64 {
    ux.wrapping_mul(vy).wrapping_sub(uy.wrapping_mul(vx))
}

/// The cross product of the ways of two segments.
fn slant(s: Seg, t: Seg) -> i64 {
    cross(
        s.b.x.wrapping_sub(s.a.x),
        s.b.y.wrapping_sub(s.a.y),
        t.b.x.wrapping_sub(t.a.x),
        t.b.y.wrapping_sub(t.a.y),
    )
}

/// The point that is i of n steps along the segment, times n.
fn step(s: Seg, i: i64, n: i64) -> Pt {
    Pt {
        x: s.a
            .x
            .wrapping_mul(n.wrapping_sub(i))
            .wrapping_add(s.b.x.wrapping_mul(i)),
        y: s.a
            .y
            .wrapping_mul(n.wrapping_sub(i))
            .wrapping_add(s.b.y.wrapping_mul(i)),
    }
}

/// Whether the point p/n is on the segment, by its line and its box.
fn is_on(s: Seg, p: Pt, n: i64) -> bool {
    let a = step(s, 0, n);
    let b = step(s, n, n);
    let line = seg(a.x, a.y, p.x, p.y);
    let across = a.x.min(b.x) <= p.x && p.x <= a.x.max(b.x);
    slant(s, line) == 0 && across && a.y.min(b.y) <= p.y && p.y <= a.y.max(b.y)
}

/// How many of the n steps along s are on t, with the first and the last of them, times n.
fn counted(s: Seg, t: Seg, n: i64) -> (u32, Pt, Pt) {
    let mut count: u32 = 0;
    let mut first = s.a;
    let mut last = s.a;
    for i in 0..19 {
        let p = step(s, i, n);
        if i <= n && is_on(t, p, n) {
            count = count.wrapping_add(1);
            last = p;
            if count == 1 {
                first = p;
            }
        }
    }
    (count, first, last)
}

/// Whether the answer is what counting finds. Steps of the size of the slant hit each crossing, and sixths the ends of each
/// overlap.
fn agrees(s: Seg, t: Seg, answer: Meet) -> bool {
    let slanted = slant(s, t);
    let n = if slanted == 0 {
        6
    } else {
        slanted.max(0i64.wrapping_sub(slanted))
    };
    let (count, first, last) = counted(s, t, n);
    match answer {
        Meet::Apart => count == 0,
        Meet::At(node) => {
            let (x, y, w) = node.parts();
            let wide = i128::from(n);
            count == 1
                && x.wrapping_mul(wide) == i128::from(first.x).wrapping_mul(w)
                && y.wrapping_mul(wide) == i128::from(first.y).wrapping_mul(w)
        }
        Meet::Along(p, q) => {
            let overlap = seg(p.x, p.y, q.x, q.y);
            let low = step(overlap, 0, n);
            let high = step(overlap, n, n);
            let sorted = p.x < q.x || p.x == q.x && p.y < q.y;
            count > 1 && sorted && (low == first && high == last || low == last && high == first)
        }
    }
}

/// The places of a grid of 4 by 4.
fn place(i: i64) -> Pt {
    Pt {
        x: i % 4,
        y: i / 4 % 4,
    }
}

/// How many pairs of segments with ends in the grid were tried, and how many answers were right.
fn table() -> (u32, u32) {
    let mut tried: u32 = 0;
    let mut right: u32 = 0;
    for k in 0i64..65536 {
        let s = Seg {
            a: place(k),
            b: place(k / 16),
        };
        let t = Seg {
            a: place(k / 256),
            b: place(k / 4096),
        };
        if let Some(answer) = met(s, t) {
            tried = tried.wrapping_add(1);
            if agrees(s, t, answer) {
                right = right.wrapping_add(1);
            }
        }
    }
    (tried, right)
}

/// All pairs of the 120 segments of the grid, each segment both ways round.
#[test]
fn grid(rt: HostRuntime) {
    assert_eq!(rt; table(), (57600, 57600));
}

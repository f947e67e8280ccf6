ghost use Rattle.std.specs.Prelude.{◌≡◌, ◌<◌, length, IfOk};

use crate::{AnswerList, Gate, answers};
use im_matrix::Name;
use plane_exact::{NoMemory, Path, Pt};
use point_set::{Areas, Figure, Paths, Rule, Valid, Valids, well_shaped};
use relate_prep::Prepared;
use std::alloc::Global;
use std::sync::atomic::Ordering::SeqCst;
use std::sync::atomic::{AtomicBool, AtomicU64};
use std::test::*;
use std::thread::Threads;
use topo_pred::{Answer, Query};

/// How often a worker looks for the other.
const LOOKS: u64 = 500_000_000;

/// Of one of two workers: whether it has come, and whether it has met the other.
#[derive(Drop)]
struct Flags {
    raised: AtomicBool,
    met: AtomicBool,
}

impl Flags {
    fn new() -> Flags {
        Flags {
            raised: AtomicBool::new(false),
            met: AtomicBool::new(false),
        }
    }

    /// Raises the worker's flag and looks for the other's.
    fn meet(&self, other: &Flags) {
        self.raised.store(true, SeqCst);
        for _ in 0..LOOKS {
            if other.raised.load(SeqCst) {
                self.met.store(true, SeqCst);
                return;
            }
        }
    }
}

/// A gate at which two workers wait for each other, for a while.
#[derive(Drop)]
struct Meeting {
    first: Flags,
    second: Flags,
    passes: AtomicU64,
}

impl Meeting {
    fn new() -> Meeting {
        Meeting {
            first: Flags::new(),
            second: Flags::new(),
            passes: AtomicU64::new(0),
        }
    }
}

impl Gate for Meeting {
    fn pass(&self, worker: u32) {
        self.passes.fetch_add(1, SeqCst);
        if worker == 0 {
            self.first.meet(&self.second);
        } else {
            self.second.meet(&self.first);
        }
    }
}

/// The figure of one point.
fn point(alloc: Global, x: i64) -> Result<Valid, Fail> {
    let mut points = Path::new(alloc);
    points.push(Pt { x, y: 0 })?;
    let figure = Figure {
        points,
        lines: Paths::new(alloc),
        areas: Areas::new(alloc),
    };
    if well_shaped(&figure) {
        Ok(Valid::seal(figure))
    } else {
        Err(Fail::new("not well shaped"))
    }
}

/// The figures of two points.
fn two_points(alloc: Global) -> Result<Valids, Fail>
    ensures two { IfOk result (λ list. length list ≡ 2) }
{
    let mut list = Valids::new(alloc);
    list.push(point(alloc, 1)?)?;
    list.push(point(alloc, 2)?)?;
    Ok(list)
}

/// Whether each of some figures equals a prepared one, by two workers.
fn equal_by_two<R: Threads + Sync>(
    rt: &R,
    alloc: Global,
    prepared: &Prepared,
    list: &[Valid],
    gate: &Meeting,
) -> Result<AnswerList, NoMemory>
    requires few { length list.now < 4294967296 }
{
    let equals = Query::Named(Name::Equals);
    answers(rt, alloc, prepared, list, Rule::Mod2, equals, 2, gate)
}

/// Whether two points equal the first of them, by two workers.
fn equal_to_the_first<R: Threads + Sync>(
    rt: &R,
    alloc: Global,
    gate: &Meeting,
) -> Result<AnswerList, Fail> {
    let prepared = Prepared::new(alloc, point(alloc, 1)?)?;
    let list = two_points(alloc)?;
    Ok(equal_by_two(rt, alloc, &prepared, list.as_slice(), gate)?)
}

#[test]
fn two_workers_meet_at_the_gate(rt: HostRuntime) -> Result<(), Fail> {
    let gate = Meeting::new();
    let made = equal_to_the_first(&rt, rt.alloc(), &gate)?;
    assert_eq!(rt; made.len(), 2);
    assert_eq!(rt; *made.at(0), Answer::Truth(true));
    assert_eq!(rt; *made.at(1), Answer::Truth(false));
    assert!(rt; gate.first.met.load(SeqCst));
    assert!(rt; gate.second.met.load(SeqCst));
    assert_eq!(rt; gate.passes.load(SeqCst), 2);
    Ok(())
}

fn can_be_shared<T: Send + Sync>() -> bool {
    true
}

#[test]
fn answers_can_be_shared_by_threads(rt: HostRuntime) {
    assert!(rt; can_be_shared::<Answer>());
    assert!(rt; can_be_shared::<AnswerList>());
}

use geosop_run::Status;
use memory_runs::{FIVE, MEET, THREE, ample, no_files, run_on};
use pair_batch::Gate;
use plane_exact::NoMemory;
use std::sync::atomic::AtomicU64;
use std::sync::atomic::Ordering::SeqCst;
use std::test::*;
use std::thread::Threads;

// A gate that counts who passes.
#[derive(Drop)]
struct Counting {
    passes: AtomicU64,
}

impl Gate for Counting {
    fn pass(&self, _worker: u32) {
        self.passes.fetch_add(1, SeqCst);
    }
}

// How often the gate is passed in a run of these words, where it ends well and writes this text.
fn passes_in<R: Threads + Sync + AllocGlobal>(
    rt: &R,
    list: &[&str],
    text: &str,
) -> Result<Option<u64>, NoMemory> {
    let alloc = rt.alloc();
    let gate = Counting {
        passes: AtomicU64::new(0),
    };
    let outcome = run_on(
        rt,
        alloc,
        list,
        no_files(alloc),
        ample(alloc)?,
        ample(alloc)?,
        &gate,
    )?;
    if outcome.is(Status::Ok, text, "") {
        Ok(Some(gate.passes.load(SeqCst)))
    } else {
        Ok(None)
    }
}

#[test]
fn one_pass_for_each_prepared_figure(rt: HostRuntime) -> Result<(), Fail> {
    let words = [
        "geosop",
        "-a",
        THREE,
        "-b",
        FIVE,
        "--prepared",
        "intersects",
    ];
    assert_eq!(rt; passes_in(&rt, &words, MEET)?, Some(3));
    Ok(())
}

#[test]
fn one_pass_for_each_prepared_figure_of_a_quiet_run(rt: HostRuntime) -> Result<(), Fail> {
    let words = [
        "geosop",
        "-q",
        "-a",
        THREE,
        "-b",
        FIVE,
        "--prepared",
        "intersects",
    ];
    assert_eq!(rt; passes_in(&rt, &words, "")?, Some(3));
    Ok(())
}

#[test]
fn no_pass_where_nothing_is_prepared(rt: HostRuntime) -> Result<(), Fail> {
    let words = ["geosop", "-a", THREE, "-b", FIVE, "intersects"];
    assert_eq!(rt; passes_in(&rt, &words, MEET)?, Some(0));
    Ok(())
}

//! A run on memory.
ghost use Rattle.std.specs.Prelude.{◌≡◌, None};

use geosop_io::{MemInputs, MemSink};
use geosop_run::{Status, run};
use im_matrix::Which;
use pair_batch::Gate;
use plane_exact::NoMemory;
use std::alloc::{AllocError, Global};
use std::thread::Threads;

/// What came of a run: its status, how many calls its inputs had, whether B was started, and the two sinks.
#[derive(Drop)]
pub struct Outcome {
    pub status: Status,
    pub calls: u64,
    pub has_started_b: bool,
    pub out: MemSink,
    pub err: MemSink,
}

impl Outcome {
    /// Whether the run ended so, with these texts in its sinks.
    pub fn is(&self, status: Status, out: &str, err: &str) -> bool {
        self.status == status
            && self.out.bytes() == out.as_bytes()
            && self.err.bytes() == err.as_bytes()
    }
}

fn words_of(alloc: Global, list: &[&str]) -> Result<Vec<String>, AllocError> {
    let mut words = Vec::new(alloc);
    for word in list {
        words.push((*word).to_string(alloc)?)?;
    }
    Ok(words)
}

/// Runs the words on these sources and sinks, with this gate.
///
/// # Errors
/// `NoMemory` before the run.
pub fn run_on<R: Threads + Sync, G: Gate>(
    rt: &R,
    alloc: Global,
    list: &[&str],
    mut inputs: MemInputs,
    mut out: MemSink,
    mut err: MemSink,
    gate: &G,
) -> Result<Outcome, NoMemory>
    requires a_new { inputs.asked.a ≡ None }
    requires b_new { inputs.asked.b ≡ None }
{
    let words = words_of(alloc, list)?;
    let status = run(
        rt,
        alloc,
        words.as_slice(),
        &mut inputs,
        &mut out,
        &mut err,
        gate,
    );
    Ok(Outcome {
        status,
        calls: inputs.calls(),
        has_started_b: inputs.was_started(Which::B),
        out,
        err,
    })
}

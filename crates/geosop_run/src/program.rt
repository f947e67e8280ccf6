ghost use Rattle.std.specs.Prelude.{◌≡◌, None, map, string_bytes};
ghost use Rattle.im_matrix.specs.declared.Which.TheVariants.{A, B};
ghost use Rattle.geosop_io.specs.Sink.{IsTried};
ghost use Rattle.geosop_run.specs.Statuses.{fault_line, status_of as status_of_result};
ghost use Rattle.geosop_run.specs.Run.{IsRun};

use crate::means::{Means, Way};
use crate::output::offer_fault_line;
use crate::pairs::{PairFault, Question};
use crate::sides::admit_side;
use crate::sources::SideFault;
use crate::status::Status;
use crate::told::{Task, offer_told};
use geosop_io::{Inputs, Sink};
use geosop_line::{LineFault, law_a_line_has_one_answer, read_line};
use im_matrix::Which;
use pair_batch::Gate;
use std::alloc::Global;
use std::thread::Threads;

impl From<LineFault> for Status {
    ghost use Rattle.std.specs.Prelude.{◌≡◌};
    ghost use Rattle.geosop_run.specs.Statuses.{status_of_words};

    ghost from_gives = { λ fault status. status ≡ status_of_words fault };

    fn from(value: LineFault) -> Self {
        match value {
            LineFault::Usage(fault) => Status::Usage(fault),
            LineFault::NoMemory => Status::NoMemory,
        }
    }
}

impl From<SideFault> for Status {
    ghost use Rattle.std.specs.Prelude.{◌≡◌};
    ghost use Rattle.geosop_run.specs.Statuses.{status_of_side};

    ghost from_gives = { λ fault status. status ≡ status_of_side fault };

    fn from(value: SideFault) -> Self {
        match value {
            SideFault::Refused(refusal) => Status::Refused(refusal),
            SideFault::ReadFault => Status::ReadFault,
            SideFault::NoMemory => Status::NoMemory,
        }
    }
}

impl From<PairFault> for Status {
    ghost use Rattle.std.specs.Prelude.{◌≡◌};
    ghost use Rattle.geosop_run.specs.Statuses.{status_of_pairs};

    ghost from_gives = { λ fault status. status ≡ status_of_pairs fault };

    fn from(value: PairFault) -> Self {
        match value {
            PairFault::WriteFault => Status::WriteFault,
            PairFault::NoMemory => Status::NoMemory,
        }
    }
}

/// The status of a run: Ok, or the one that ended it.
fn status_of(outcome: Result<(), Status>) -> Status
    ensures status { result ≡ status_of_result outcome }
{
    match outcome {
        Ok(()) => Status::Ok,
        Err(status) => status,
    }
}

/// Does all of a run but the fault line: reads the words, then side A whole, then side B, and offers the lines of all pairs.
///
/// # Errors
/// The status that ends the run, where it isn't Ok.
fn relate_sources<R: Threads + Sync, I: Inputs, O: Sink, G: Gate>(
    rt: &R,
    alloc: Global,
    words: &[String],
    inputs: &mut I,
    out: &mut O,
    gate: &G,
) -> Result<(), Status>
    requires a_new { (I.seen inputs.old).asked A ≡ None }
    requires b_new { (I.seen inputs.old).asked B ≡ None }
    ensures ran { IsRun (record {
      words = map string_bytes words.now;
      inputs_before = I.seen inputs.old;
      inputs_after = I.seen inputs.new;
      output_before = O.seen out.old;
      output_after = O.seen out.new;
    }) (status_of_result result) }
{
    law_a_line_has_one_answer();
    let config = read_line(alloc, words)?;
    let in_a = admit_side(alloc, inputs, Which::A, config.a, config.scale)?;
    let in_b = admit_side(alloc, inputs, Which::B, config.b, config.scale)?;
    let way = Way::of(config.prepared, config.threads);
    let means = Means {
        rt,
        alloc,
        gate,
        way,
    };
    let task = Task {
        asked: Question {
            rule: config.rule,
            query: config.query,
        },
        sample: config.sample,
        quiet: config.quiet,
    };
    offer_told(&means, out, in_a, in_b.as_slice(), task)?;
    Ok(())
}

/// Runs the program on its words: reads the command line, then source A and its figures, then source B and its figures,
/// and writes for each A in order and each B in order the line of the pair. Under a sample its figures take the place of both
/// sources', and the summary of the lines is written. The first word is the program's name.
///
/// With `--prepared`, or with two or more threads, each A is prepared and `answers` makes its answers: its workers are as many as
/// the threads, and pass the gate. What is written is the same.
///
/// Where the status isn't Ok, the fault line is tried on `err`; a failure there changes nothing.
pub fn run<R: Threads + Sync, I: Inputs, O: Sink, E: Sink, G: Gate>(
    rt: &R,
    alloc: Global,
    words: &[String],
    inputs: &mut I,
    out: &mut O,
    err: &mut E,
    gate: &G,
) -> Status
    requires a_new { (I.seen inputs.old).asked A ≡ None }
    requires b_new { (I.seen inputs.old).asked B ≡ None }
    ensures ran { IsRun (record {
      words = map string_bytes words.now;
      inputs_before = I.seen inputs.old;
      inputs_after = I.seen inputs.new;
      output_before = O.seen out.old;
      output_after = O.seen out.new;
    }) result }
    ensures tried { IsTried (E.seen err.old) (E.seen err.new) (fault_line result) }
    ensures quiet { result ≡ Status.Ok → E.seen err.new ≡ E.seen err.old }
{
    let status = status_of(relate_sources(rt, alloc, words, inputs, out, gate));
    let _ = offer_fault_line(err, status);
    status
}

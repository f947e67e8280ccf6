//! Reads and writes that fail in turn.
ghost use Rattle.std.specs.Prelude.{◌≡◌, None, IfOk};

use geom_valid::InvalidKind;
use geosop_io::{MemInputs, MemSink, NamedBytes};
use geosop_run::{Refusal, Status};
use im_matrix::Which;
use memory_runs::{FIVE, MEET, Outcome, ROOM, THREE, ample, no_files, places_of, run_on};
use pair_batch::Free;
use plane_exact::NoMemory;
use std::alloc::Global;
use std::test::*;
use std::thread::Threads;

/// How many bytes the text of which meet has.
const BYTES: u32 = 81;

const WORDS: [&str; 7] = [
    "geosop",
    "-a",
    "a.wkt",
    "-b",
    "b.wkt",
    "--prepared",
    "intersects",
];

/// A is started, and read in four whole pieces, the six bytes that are left, and its end.
const CALLS_OF_A: u32 = 7;

/// B is started, and read in five whole pieces, the fourteen bytes that are left, and its end.
const CALLS_OF_B: u32 = 8;

/// The two files, read sixteen bytes at a time. The calls with these numbers fail.
fn three_and_five(alloc: Global, failing: &[u32]) -> Result<MemInputs, NoMemory>
    ensures a_new { IfOk result (λ inputs. inputs.asked.a ≡ None) }
    ensures b_new { IfOk result (λ inputs. inputs.asked.b ≡ None) }
{
    let mut files = NamedBytes::new(alloc);
    files.add("a.wkt", THREE.as_bytes())?;
    files.add("b.wkt", FIVE.as_bytes())?;
    let fails = places_of(alloc, failing)?;
    Ok(MemInputs::new(files, fails, 16))
}

/// The run in which these calls of the inputs fail.
fn reading<R: Threads + Sync + AllocGlobal>(rt: &R, failing: &[u32]) -> Result<Outcome, NoMemory> {
    let alloc = rt.alloc();
    let inputs = three_and_five(alloc, failing)?;
    run_on(
        rt,
        alloc,
        &WORDS,
        inputs,
        ample(alloc)?,
        ample(alloc)?,
        &Free,
    )
}

/// The run whose output takes one byte a write, and in which these writes fail.
fn writing<R: Threads + Sync + AllocGlobal>(rt: &R, failing: &[u32]) -> Result<Outcome, NoMemory> {
    let alloc = rt.alloc();
    let inputs = three_and_five(alloc, &[])?;
    let out = MemSink::cut(alloc, 1, ROOM, places_of(alloc, failing)?)?;
    run_on(rt, alloc, &WORDS, inputs, out, ample(alloc)?, &Free)
}

#[test]
fn each_call_of_the_inputs_fails(rt: HostRuntime) -> Result<(), Fail> {
    let whole = reading(&rt, &[])?;
    assert!(rt; whole.is(Status::Ok, MEET, ""));
    assert_eq!(rt; whole.calls, u64::from(CALLS_OF_A + CALLS_OF_B));
    for number in 1..=CALLS_OF_A + CALLS_OF_B {
        let unread = reading(&rt, &[number])?;
        assert!(rt;
            unread.is(Status::ReadFault, "", "geosop: read fault\n"),
            "call {number}"
        );
        assert_eq!(rt; unread.calls, u64::from(number));
        assert_eq!(rt;
            unread.has_started_b,
            number > CALLS_OF_A + 1,
            "call {number}"
        );
    }
    Ok(())
}

#[test]
fn each_write_of_one_byte_fails(rt: HostRuntime) -> Result<(), Fail> {
    for taken in 0..BYTES {
        let cut = writing(&rt, &[taken + 1])?;
        let front = cut.out.bytes();
        assert!(rt; cut.status == Status::WriteFault, "behind {taken} bytes");
        assert!(rt; cut.err.bytes() == b"geosop: write fault\n".as_slice());
        assert!(rt; MEET.as_bytes().starts_with(front), "behind {taken} bytes");
        assert_eq!(rt; front.len(), taken as usize);
    }
    Ok(())
}

#[test]
fn a_sink_that_takes_one_byte_a_write_gets_all(rt: HostRuntime) -> Result<(), Fail> {
    assert!(rt; writing(&rt, &[])?.is(Status::Ok, MEET, ""));
    Ok(())
}

#[test]
fn a_failing_error_sink_changes_no_status(rt: HostRuntime) -> Result<(), Fail> {
    let alloc = rt.alloc();
    let crossed = "POLYGON ((0 0, 4 4, 4 0, 0 4, 0 0))";
    let list = ["geosop", "-a", crossed, "-b", "POINT (0 0)", "relate"];
    let err = MemSink::new(alloc, ROOM, places_of(alloc, &[1])?)?;
    let outcome = run_on(
        &rt,
        alloc,
        &list,
        no_files(alloc),
        ample(alloc)?,
        err,
        &Free,
    )?;
    let refused = Status::Refused(Refusal::Shape(Which::A, 1, InvalidKind::RingCross, 1));
    assert!(rt; outcome.is(refused, "", ""));
    Ok(())
}

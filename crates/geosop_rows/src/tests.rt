ghost use Rattle.std.specs.Prelude.{◌≡◌, None};

use geosop_io::{MemInputs, MemSink, NamedBytes};
use geosop_run::{Refusal, Status};
use im_matrix::Which;
use memory_runs::{FIVE, MEET, Outcome, ROOM, THREE, ample, places_of, run_on};
use pair_batch::{Free, Gate};
use plane_exact::{NoMemory, PlaceList};
use std::alloc::Global;
use std::test::*;
use std::thread::Threads;
use wkt_text::WktKind;

fn files_of(alloc: Global) -> Result<NamedBytes, NoMemory> {
    let mut files = NamedBytes::new(alloc);
    files.add("two.wkt", b"POINT (0 0)\nPOINT (1 1)\n")?;
    files.add("empty.wkt", b"")?;
    files.add("stdin", b"POINT (1 1)")?;
    files.add("three.wkt", THREE.as_bytes())?;
    files.add("five.wkt", FIVE.as_bytes())?;
    Ok(files)
}

// Runs the words on these sources. The writes with these numbers fail.
fn writing<R: Threads + Sync + AllocGlobal>(
    rt: &R,
    list: &[&str],
    inputs: MemInputs,
    failing_writes: &[u32],
) -> Result<Outcome, NoMemory>
    requires a_new { inputs.asked.a ≡ None }
    requires b_new { inputs.asked.b ≡ None }
{
    let alloc = rt.alloc();
    let out = MemSink::new(alloc, ROOM, places_of(alloc, failing_writes)?)?;
    run_on(rt, alloc, list, inputs, out, ample(alloc)?, &Free)
}

// Runs the words on the files, of which a read gives at most seven bytes.
fn run_words<R: Threads + Sync + AllocGlobal>(rt: &R, list: &[&str]) -> Result<Outcome, NoMemory> {
    let alloc = rt.alloc();
    let inputs = MemInputs::new(files_of(alloc)?, PlaceList::new(alloc), 7);
    writing(rt, list, inputs, &[])
}

fn relate<R: Threads + Sync + AllocGlobal>(rt: &R, a: &str, b: &str) -> Result<Outcome, NoMemory> {
    run_words(rt, &["geosop", "-a", a, "-b", b, "relate"])
}

fn relates<R: Threads + Sync + AllocGlobal>(
    rt: &R,
    a: &str,
    b: &str,
    lines: &str,
) -> Result<bool, NoMemory> {
    Ok(relate(rt, a, b)?.is(Status::Ok, lines, ""))
}

fn refuses<R: Threads + Sync + AllocGlobal>(
    rt: &R,
    a: &str,
    b: &str,
    refusal: Refusal,
    line: &str,
) -> Result<bool, NoMemory> {
    Ok(relate(rt, a, b)?.is(Status::Refused(refusal), "", line))
}

#[test]
fn pairs_of_points(rt: HostRuntime) -> Result<(), Fail> {
    assert!(rt; relates(&rt, "POINT (0 0)", "POINT (1 1)", "FF0FFF0F2\n")?);
    assert!(rt;
        relates(
            &rt,
            "POINT (0 0)",
            "MULTIPOINT ((0 0), (0 0))",
            "0FFFFFFF2\n"
        )?
    );
    assert!(rt; relates(&rt, "POINT EMPTY", "MULTIPOINT EMPTY", "FFFFFFFF2\n")?);
    assert!(rt; relates(&rt, "MULTIPOINT (0 0, (1 1))", "POINT (1 1)", "0F0FFFFF2\n")?);
    assert!(rt;
        relates(
            &rt,
            "POINT (1048575.0 0)",
            "POINT (1.048575e6 -0)",
            "0FFFFFFF2\n"
        )?
    );
    assert!(rt;
        relates(
            &rt,
            "POINT Z (1 2 3)",
            "multipoint (1 2, (1 2 NaN), EMPTY)",
            "0FFFFFFF2\n"
        )?
    );
    Ok(())
}

#[test]
fn sources_by_name(rt: HostRuntime) -> Result<(), Fail> {
    assert!(rt; relates(&rt, "two.wkt", "POINT (1 1)", "FF0FFF0F2\n0FFFFFFF2\n")?);
    assert!(rt; relates(&rt, "two.wkt", "stdin", "FF0FFF0F2\n0FFFFFFF2\n")?);
    assert!(rt; relates(&rt, "empty.wkt", "POINT (0 0)", "")?);
    assert!(rt;
        relate(&rt, "missing.wkt", "POINT (0 0)")?.is(Status::ReadFault, "", "geosop: read fault\n")
    );
    Ok(())
}

#[test]
fn refused_numbers(rt: HostRuntime) -> Result<(), Fail> {
    let wide = Refusal::Text(Which::A, 1, WktKind::TooWide, 7);
    assert!(rt;
        refuses(
            &rt,
            "POINT (1048576 0)",
            "POINT (0 0)",
            wide,
            "geosop: A 1: TooWide at 7\n"
        )?
    );
    let fraction = Refusal::Text(Which::A, 1, WktKind::NotWhole, 7);
    assert!(rt;
        refuses(
            &rt,
            "POINT (1.5 0)",
            "POINT (0 0)",
            fraction,
            "geosop: A 1: NotWhole at 7\n"
        )?
    );
    Ok(())
}

// A run whose A is a file of so many spaces.
fn relate_spaces<R: Threads + Sync + AllocGlobal>(
    rt: &R,
    count: usize,
) -> Result<Outcome, NoMemory> {
    let alloc = rt.alloc();
    let spaces = vec![in alloc; b' '; count]?;
    let mut files = NamedBytes::new(alloc);
    files.add("spaces.wkt", spaces.as_slice())?;
    let list = ["geosop", "-a", "spaces.wkt", "-b", "POINT (0 0)", "relate"];
    writing(
        rt,
        &list,
        MemInputs::new(files, PlaceList::new(alloc), 65_536),
        &[],
    )
}

#[test]
fn one_byte_too_many(rt: HostRuntime) -> Result<(), Fail> {
    assert!(rt; relate_spaces(&rt, 33_554_432)?.is(Status::Ok, "", ""));
    let too_long = Status::Refused(Refusal::TooLong(Which::A));
    assert!(rt; relate_spaces(&rt, 33_554_433)?.is(too_long, "", "geosop: A: TooLong\n"));
    Ok(())
}

#[test]
fn a_refusal_of_a_needs_nothing_of_b(rt: HostRuntime) -> Result<(), Fail> {
    let syntax = Refusal::Text(Which::A, 1, WktKind::Syntax, 10);
    let outcome = relate(&rt, "POINT (0 0", "missing.wkt")?;
    assert!(rt; outcome.is(Status::Refused(syntax), "", "geosop: A 1: Syntax at 10\n"));
    assert_eq!(rt; outcome.calls, 0);
    Ok(())
}

#[test]
fn a_call_that_fails_ends_the_run(rt: HostRuntime) -> Result<(), Fail> {
    let alloc = rt.alloc();
    let list = ["geosop", "-a", "two.wkt", "-b", "POINT (1 1)", "relate"];
    let second_read = MemInputs::new(files_of(alloc)?, places_of(alloc, &[3])?, 7);
    let unread = writing(&rt, &list, second_read, &[])?;
    assert!(rt; unread.is(Status::ReadFault, "", "geosop: read fault\n"));
    assert_eq!(rt; unread.calls, 3);
    let inputs = MemInputs::new(files_of(alloc)?, PlaceList::new(alloc), 7);
    let cut = writing(&rt, &list, inputs, &[2])?;
    assert!(rt; cut.is(Status::WriteFault, "FF0FFF0F2\n", "geosop: write fault\n"));
    Ok(())
}

#[test]
fn fifteen_pairs(rt: HostRuntime) -> Result<(), Fail> {
    let alloc = rt.alloc();
    let list = ["geosop", "-a", "three.wkt", "-b", "five.wkt", "intersects"];
    assert!(rt; run_words(&rt, &list)?.is(Status::Ok, MEET, ""));
    let inputs = MemInputs::new(files_of(alloc)?, PlaceList::new(alloc), 7);
    let cut = writing(&rt, &list, inputs, &[3])?;
    assert!(rt; cut.is(Status::WriteFault, "true\nfalse\n", "geosop: write fault\n"));
    let second_call = MemInputs::new(files_of(alloc)?, places_of(alloc, &[2])?, 7);
    let unread = writing(&rt, &list, second_call, &[])?;
    assert!(rt; unread.is(Status::ReadFault, "", "geosop: read fault\n"));
    Ok(())
}

#[test]
fn the_free_gate_lets_workers_pass() {
    Free.pass(0);
}

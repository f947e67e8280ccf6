//! Texts that end early, and collections that are nested too deep.
use geosop_run::{Refusal, Status};
use im_matrix::Which;
use memory_runs::{ample, no_files, run_on};
use pair_batch::Free;
use std::test::*;
use wkt_text::{Scale, WktFault, WktKind, read_next};

const COLLECTION: &[u8] =
    b"GEOMETRYCOLLECTION (POLYGON ((0 0, 4 0, 4 4, 0 4, 0 0)), LINESTRING (1 1, 2 2))";

/// The fault of the collection's first bytes, where they are this many: of the type word that ends too early, or of their end.
fn fault_of_cut(length: usize) -> WktFault {
    match length {
        1..=17 => WktFault::Bad(WktKind::UnknownType, 0),
        21..=26 => WktFault::Bad(WktKind::UnknownType, 20),
        58..=66 => WktFault::Bad(WktKind::UnknownType, 57),
        _ => WktFault::Bad(WktKind::Syntax, length),
    }
}

#[test]
fn a_text_cut_at_each_length(rt: HostRuntime) {
    for length in 1..COLLECTION.len() {
        let read = read_next(rt.alloc(), &COLLECTION[..length], 0, Scale { digits: 0 });
        assert!(rt; read.err() == Some(fault_of_cut(length)), "cut at {length}");
    }
}

#[test]
fn collections_nested_too_deep(rt: HostRuntime) -> Result<(), Fail> {
    let alloc = rt.alloc();
    let rows = [
        (33, WktKind::Deep, "geosop: A 1: Deep at 640\n"),
        (32, WktKind::Syntax, "geosop: A 1: Syntax at 640\n"),
    ];
    for (openings, kind, line) in rows {
        let text = "GEOMETRYCOLLECTION (".repeat(alloc, openings)?;
        let list = ["geosop", "-a", text.as_str(), "-b", "POINT (0 0)", "relate"];
        let outcome = run_on(
            &rt,
            alloc,
            &list,
            no_files(alloc),
            ample(alloc)?,
            ample(alloc)?,
            &Free,
        )?;
        let refused = Status::Refused(Refusal::Text(Which::A, 1, kind, 640));
        assert!(rt; outcome.is(refused, "", line), "{openings} openings");
    }
    Ok(())
}

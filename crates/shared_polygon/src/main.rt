//! One polygon that several threads share. It is prepared once; each thread makes a session of its own and answers its share of the
//! points by it; and the answers are printed in the order of the points.
#![tactic(auto)]

mod places;

use crate::places::{SHARE, kinds_by_share};
use geom_valid::{AdmitFault, admit};
use im_matrix::Loc;
use plane_exact::{NoMemory, Pt};
use point_set::{DimLoc, Valid};
use relate_prep::Prepared;
use std::alloc::Global;
use std::process::ExitCode;
use std::rt::Runtime;
use std::thread::Threads;
use wkt_text::{Scale, WktFault, read_next};

/// A square court round a square pond.
const COURT: &str = "POLYGON ((0 0, 9 0, 9 9, 0 9, 0 0), (3 3, 6 3, 6 6, 3 6, 3 3))";

const POINTS: &str =
    "MULTIPOINT ((1 1), (0 4), (4 5), (10 4), (9 9), (3 3), (6 5), (8 4), (1 3), (5 7), (4 9), (-1 9))";

/// Why the program ends early.
#[derive(Clone, Copy)]
enum Stop {
    /// A text isn't that of a valid geometry: status 2.
    Refused,
    /// Standard output took less than it was given: status 4.
    NotWritten,
    /// Memory is wanting: status 5.
    NoMemory,
}

impl From<NoMemory> for Stop {
    fn from(_: NoMemory) -> Stop {
        Stop::NoMemory
    }
}

impl From<WktFault> for Stop {
    fn from(fault: WktFault) -> Stop {
        match fault {
            WktFault::Bad(..) => Stop::Refused,
            WktFault::NoMemory => Stop::NoMemory,
        }
    }
}

impl From<AdmitFault> for Stop {
    fn from(fault: AdmitFault) -> Stop {
        match fault {
            AdmitFault::Bad(..) => Stop::Refused,
            AdmitFault::NoMemory => Stop::NoMemory,
        }
    }
}

fn main(rt: HostRuntime) -> ExitCode {
    match answer(&rt) {
        Ok(()) => ExitCode::from(0),
        Err(Stop::Refused) => ExitCode::from(2),
        Err(Stop::NotWritten) => ExitCode::from(4),
        Err(Stop::NoMemory) => ExitCode::from(5),
    }
}

/// Prints where each point lies in the court.
fn answer<R: Runtime + Threads + Sync + AllocGlobal>(rt: &R) -> Result<(), Stop> {
    let alloc = rt.alloc();
    let court = Prepared::new(alloc, figure_of(alloc, COURT)?)?;
    let asked = figure_of(alloc, POINTS)?;
    let points = asked.figure().points.as_slice();
    let shares = kinds_by_share(rt, alloc, &court, points)?;
    for (share, kinds) in points.chunks(SHARE).zip(shares) {
        print_share(rt, share, kinds?.as_slice())?;
    }
    Ok(())
}

/// Prints where each point of a share lies.
fn print_share<R: Runtime>(rt: &R, share: &[Pt], kinds: &[DimLoc]) -> Result<(), Stop> {
    for (p, kind) in share.iter().zip(kinds) {
        println!(rt; "POINT ({} {}) {}", p.x, p.y, name_of(kind.loc())).map_err(
            |_| Stop::NotWritten,
        )?;
    }
    Ok(())
}

/// The valid figure that a text says.
fn figure_of(alloc: Global, text: &str) -> Result<Valid, Stop> {
    match read_next(alloc, text.as_bytes(), 0, Scale { digits: 0 })? {
        Some(parsed) => Ok(admit(alloc, parsed.figure)?),
        None => Err(Stop::Refused),
    }
}

fn name_of(part: Loc) -> &'static str {
    match part {
        Loc::Interior => "interior",
        Loc::Boundary => "boundary",
        Loc::Exterior => "exterior",
    }
}

//! Does one piece of the indexes' work, for `bench/indexes` to time: `index_times WORK` prints how many questions it asked and
//! how many answers it found.
#![tactic(auto)]

mod heights;
mod random;
mod segments;

use heights::{locations, locations_by_scan, ring};
use plane_exact::NoMemory;
use segments::{segments, windows, windows_by_scan};
use std::alloc::Global;
use std::process::ExitCode;
use std::rt::{Env, Runtime};
use std::{env, io};

/// How often the indexes are asked.
const OFTEN: u32 = 100_000;

/// How often the scans are asked.
const SELDOM: u32 = 200;

/// What was asked and found.
#[derive(Clone, Copy)]
struct Asked {
    questions: u32,
    answers: u64,
}

/// Why the program ends early.
#[derive(Clone, Copy)]
enum Stop {
    NoMemory,
    Stream,
    UnknownWork,
}

impl From<NoMemory> for Stop {
    fn from(_: NoMemory) -> Stop {
        Stop::NoMemory
    }
}

impl From<io::Error> for Stop {
    fn from(_: io::Error) -> Stop {
        Stop::Stream
    }
}

/// Does the work of a name.
fn work(alloc: Global, name: &str) -> Result<Asked, Stop> {
    let (questions, answers) = match name {
        "segments" => (0, segments(alloc)?.len() as u64),
        "tree" => (0, windows(alloc, 0)?),
        "windows" => (OFTEN, windows(alloc, OFTEN)?),
        "windows-by-scan" => (SELDOM, windows_by_scan(alloc, SELDOM)?),
        "ring" => (0, ring(alloc)?.len() as u64),
        "heights" => (0, locations(alloc, 0)?),
        "locations" => (OFTEN, locations(alloc, OFTEN)?),
        "locations-by-scan" => (SELDOM, locations_by_scan(alloc, SELDOM)?),
        _ => return Err(Stop::UnknownWork),
    };
    Ok(Asked { questions, answers })
}

/// Does the work that the first word names, and prints what was asked and found.
fn answer<R: Runtime + Env + AllocGlobal>(rt: &R) -> Result<(), Stop> {
    match env::args(rt)?.nth(1) {
        Some(name) => {
            let asked = work(rt.alloc(), name.as_str())?;
            println!(rt; "{} {}", asked.questions, asked.answers)?;
            Ok(())
        }
        None => Err(Stop::UnknownWork),
    }
}

fn main(rt: HostRuntime) -> ExitCode {
    match answer(&rt) {
        Ok(()) => ExitCode::from(0),
        Err(Stop::NoMemory) => ExitCode::from(1),
        Err(Stop::Stream) => ExitCode::from(2),
        Err(Stop::UnknownWork) => ExitCode::from(3),
    }
}

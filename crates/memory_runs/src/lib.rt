//! Whole runs on memory, and what comes of them, for the crates of tests.
#![tactic(auto)]

mod outcome;
mod sources;

pub use outcome::{Outcome, run_on};
pub use sources::{FIVE, MEET, ROOM, THREE, ample, no_files, places_of};

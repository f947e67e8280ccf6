//! A run of the program: the command line, the two sources, and the lines of the answers.
#![tactic(auto)]

mod batches;
mod discard;
mod figures;
mod gathered;
mod means;
mod output;
mod pairs;
mod program;
mod samples;
mod sides;
mod sources;
mod status;
mod told;

pub use geosop_line::{Config, LineFault, Source, UsageFault, read_line};
pub use program::run;
pub use sample_figures::{SamplePair, sample};
pub use status::{Refusal, Status};

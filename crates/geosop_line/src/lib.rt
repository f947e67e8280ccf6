//! The command line of the program, read with clap.
#![tactic(auto)]

mod arguments;
mod config;
mod figures;
mod laws;
mod line;
mod number;
mod operation;
mod settings;
#[cfg(test)]
mod tests;

pub use config::{Config, LineFault, Source, UsageFault};
pub use laws::law_a_line_has_one_answer;
pub use line::read_line;

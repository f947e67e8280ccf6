//! Figures for tests: those that texts say, those of samples, and the texts of two with thousands of edges at one node.
#![tactic(auto)]

mod admitted;
mod crowded;

pub use admitted::{SQUARE, comb_of_sample, figure_of, turned_comb_of_sample};
pub use crowded::{chain, star};

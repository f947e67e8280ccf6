//! The figures of the samples: combs, squares, lines and points that meet at more nodes the greater the sample's number is. All of
//! them are well shaped and valid.
#![tactic(auto)]

mod law;
mod parts;
mod rings;
mod samples;
#[cfg(test)]
mod tests;

pub use law::law_samples_are_valid;
pub use samples::{MOST_TEETH, SamplePair, sample};

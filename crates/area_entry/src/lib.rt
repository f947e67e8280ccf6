//! Whether a ring enters a part of an area, by the hands of the edges where the two meet.
#![tactic(auto)]

mod entering;
#[cfg(test)]
mod entering_tests;
mod germ;
mod near_rows;
mod sections;

pub use entering::enters;
pub use near_rows::{NearRows, are_sound};
pub use sections::sections_at;

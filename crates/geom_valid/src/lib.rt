//! Whether a figure is valid, with its first fault where it isn't.
#![tactic(auto)]

mod admission;
mod boxes;
mod clauses;
mod disc;
mod elements;
mod fault;
mod heights;
mod kinds;
pub mod law;
mod near_boxes;
mod ring_set;
mod rows;
mod sharing;
mod sound_area;
#[cfg(test)]
mod tests;

pub use admission::admit;
pub use kinds::{AdmitFault, InvalidKind};

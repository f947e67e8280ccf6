//! Geometries as text: the well-known text of OGC 06-103r4 in this project's profile, read in one pass from left to right.
#![tactic(auto)]

mod build;
mod control;
mod number;
mod read;
mod runs;
mod scale;
mod state;
#[cfg(test)]
mod tests;
mod text;
mod token;
mod word;

pub use control::WktKind;
pub use read::{Parsed, WktFault, read_next};
pub use scale::Scale;
pub use text::is_text;
pub use word::{TypeWord, type_word};

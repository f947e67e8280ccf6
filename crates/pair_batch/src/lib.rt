//! Batches: the answers to one query on a prepared figure and each figure of a list, worked out by threads. Each thread has a share
//! of the list, and the answers come in the list's order.
#![tactic(auto)]

mod batch;
mod gate;
mod joining;
mod share;
#[cfg(test)]
mod tests;

pub use batch::{AnswerList, answers};
pub use gate::{Free, Gate};

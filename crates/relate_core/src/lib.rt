//! The relation of two figures: what their envelopes tell of what is far, their few nodes near both with the sections of both
//! figures' edges at them, and the samples there, which decide the answer to a query.
#![tactic(auto)]

mod edges;
mod evaluation;
mod far;
mod filling;
pub mod laws;
mod node_sections;
mod nodes;
mod samples;

pub use evaluation::evaluate;

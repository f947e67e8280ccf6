//! Nodes with the sections of edges at them: each node once, the least taken out first.
#![tactic(auto)]

mod entry;
mod place;
mod table;
#[cfg(test)]
mod tests;

pub use entry::Entry;
pub use table::NodeTable;

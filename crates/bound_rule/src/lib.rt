//! The ends of a figure's lines, the boundary node rules on their number at a point, and the spots of a figure: its points and
//! its lines whose positions are all equal.
#![tactic(auto)]

mod ends;
mod position;
mod rules;
mod spots;
mod table;
#[cfg(test)]
mod tests;

pub use ends::two_ends;
pub use rules::in_boundary;
pub use table::EndTable;

//! The faults of rings among themselves: too few positions, edges that cross, common segments, touches in a cycle.
#![tactic(auto)]

mod clash;
mod classes;
mod cycle;
mod forest;
mod link;
mod near;
mod part;
#[cfg(test)]
mod ring_tests;
mod rings;
mod sharing;
mod touch;

pub use cycle::has_cycle;
pub use rings::{crosses_itself, has_too_few, rings_share};
pub use sharing::share_segment;

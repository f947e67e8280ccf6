//! Prepared figures: what many relations of one figure share. Its edges, line ends and envelopes are made at once. The indexes are
//! made by the session that first asks for them, and stand in cells that are set once, so that threads share them without a lock.
#![tactic(auto)]

mod areas;
mod asked;
mod basis;
mod edges;
mod origin;
mod prepared;
mod session;
mod sources;
mod target;
#[cfg(test)]
mod tests;

pub use origin::Origin;
pub use prepared::Prepared;
pub use session::Session;

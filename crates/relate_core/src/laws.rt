//! The parts of an evaluation that have a contract of their own.

pub use crate::filling::{fill, fill_in};
pub use crate::node_sections::sections_at;
pub use crate::samples::take_in_all;

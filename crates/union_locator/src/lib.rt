//! Where a node lies in a figure: first among the areas, one by one and where they meet by the edges round the node, then on
//! the lines, then at the points.
#![tactic(auto)]

mod areas;
mod locate;
mod nearby;
mod places;
mod plain;
mod shells;

pub use areas::AreaLocs;
pub use locate::locate_with;
pub use places::{scan_rows, segs_of};
pub use plain::Plain;
pub use shells::IndexedShells;

//! Exact points of the plane: positions, segments, and the lists that hold them.
#![tactic(auto)]

mod dir;
mod divisors;
mod items;
mod law;
mod lists;
mod meter;
mod node;
mod orders;
mod point;
mod rounding;
mod sides;
mod sign;
mod turns;
mod window;

pub use dir::Dir;
pub use divisors::greatest_divisor;
pub use items::{ItemList, NoMemory};
pub use law::law_node_is_one_value;
pub use lists::{BoxList, Path, PlaceList, SegList};
pub use meter::{Count, Meter};
pub use node::Node;
pub use orders::{cmp_along, cmp_height, cmp_nodes, cmp_turn, is_before};
pub use point::{LIMIT, MOST_POSITIONS, Pt, Seg, in_limit};
pub use sides::{on_segment, side_of};
pub use sign::Sign;
pub use turns::{orient, turn_of};
pub use window::{Window, diagonals_of};

#[cfg(test)]
mod tests;

use crate::items::ItemList;
use crate::point::{Pt, Seg};
use crate::window::Window;

/// Positions in order: the way of a line, a ring, or loose points.
pub type Path = ItemList<Pt>;

/// Segments in order.
pub type SegList = ItemList<Seg>;

/// Places in another list, in order.
pub type PlaceList = ItemList<u32>;

/// Boxes in order.
pub type BoxList = ItemList<Window>;

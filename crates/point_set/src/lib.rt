//! Figures of points, lines and areas, and what is meant by a point lying in one: the definitions that everything above
//! rests on.
#![tactic(auto)]

mod dim_loc;
mod dimension;
mod edge;
mod extent;
mod figure;
mod rule;
mod shape;
mod target;
#[cfg(test)]
mod tests;
mod valid;

pub use dim_loc::DimLoc;
pub use edge::{Edge, EdgeId, EdgeRows, Hand, Owner};
pub use extent::Extent;
pub use figure::{Area, Areas, Figure, FigureList, Paths};
pub use rule::Rule;
pub use shape::well_shaped;
pub use target::Target;
pub use valid::{Valid, Valids};

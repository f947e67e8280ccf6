//! Rows that cross crates: whole runs on memory, and the layers below them on figures that are read from texts and admitted.
//! Expected values are worked by hand from the definitions.
#![tactic(auto)]

#[cfg(test)]
mod answer_rows;
#[cfg(test)]
mod counting;
#[cfg(test)]
mod edge_rows;
#[cfg(test)]
mod figures;
#[cfg(test)]
mod index_rows;
#[cfg(test)]
mod label_rows;
#[cfg(test)]
mod location_rows;
#[cfg(test)]
mod look_rows;
#[cfg(test)]
mod tests;

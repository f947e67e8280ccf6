//! Rows on the sections at a node with many edges: one for each edge and each end of it that isn't the node, and none twice. Expected
//! values are worked by hand from the definitions.
#![tactic(auto)]

#[cfg(test)]
mod tests;

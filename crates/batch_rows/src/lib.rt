//! Rows on batches: the answers for a prepared square by few and by many threads, and what a session finds after them. Expected values
//! are worked by hand from the definitions.
#![tactic(auto)]

#[cfg(test)]
mod tests;

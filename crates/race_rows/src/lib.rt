//! Rows on sessions that race for the indexes of one prepared figure. Expected values are worked by hand from the definitions.
#![tactic(auto)]

#[cfg(test)]
mod tests;

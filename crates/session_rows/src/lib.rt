//! Rows on sessions of one prepared figure: what each finds of the others' indexes, and at how many boxes a query looks. Expected values
//! are worked by hand from the definitions.
#![tactic(auto)]

#[cfg(test)]
mod sharing_rows;

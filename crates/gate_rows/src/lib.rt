//! How often whole runs pass the gate: by prepared figures once for each figure of A, and else never. Expected values are worked by hand
//! from the definitions.
#![tactic(auto)]

#[cfg(test)]
mod tests;

// The static library: each call of the crate howrekano that C and Rust make, under its name there, with its clauses.
#![tactic(auto)]

pub mod free;
pub mod polynomial;
pub mod priority;
pub mod queue;

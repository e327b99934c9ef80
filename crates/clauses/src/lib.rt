// The clauses that say what a network of m cells is like: variables, clauses, and the steps that name one.
#![tactic(auto)]

pub mod fields;
pub mod given;
pub mod numbers;
pub mod shapes;
pub mod swaps;
pub mod task;
pub mod variables;

// The best split of a gate's table, found without trying what a few bits rule out: alone, and over the inputs that
// count.
#![tactic(auto)]

pub mod counted;
mod dead;
mod owning;
pub mod search;

// The values of a formula, 256 assignments at a time.
#![tactic(auto)]

pub mod stretches;

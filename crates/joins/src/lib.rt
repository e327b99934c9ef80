// Whether a gate is a tree of two-input nodes: while one input can stand for two, the other is fixed.
#![tactic(auto)]

pub mod deciding;
mod pairs;

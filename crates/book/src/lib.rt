// The book of three-input cells: of each table the least that it can be turned into.
#![tactic(auto)]

pub mod look_up;

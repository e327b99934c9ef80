// Three-input tables turned: which differ only by swapped inputs, flipped inputs or a flipped output.
#![tactic(auto)]

pub mod turn;
pub mod ways;

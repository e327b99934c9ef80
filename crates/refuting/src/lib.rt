// Showing that m cells are too few.
#![tactic(auto)]

mod header;
mod steps;
pub mod too_few;

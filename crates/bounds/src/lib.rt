// How good a sheet is: a number of cells below which no network carries the table.
#![tactic(auto)]

pub mod bound_cells;
mod least;

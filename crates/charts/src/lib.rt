// The chart of a split's columns, and what is read off it: the tables of the first cells, and the last cell's.
#![tactic(auto)]

pub mod pair;

// The columns of a split, read by words: the column test, and where a split breaks.
#![tactic(auto)]

pub mod columns;
pub mod split;

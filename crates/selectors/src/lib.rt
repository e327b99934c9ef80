// The sheet of cofactors as the code holds it: its cofactors, the cells that select, and the sheet for a gate that make
// has none for.
#![tactic(auto)]

mod cofactor;
mod levels;
mod select;
pub mod several;

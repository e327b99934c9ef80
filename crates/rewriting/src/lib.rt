// A sheet of one edition written in another: its records held as cells, and these written again.
#![tactic(auto)]

mod cells;
pub mod rewrite;

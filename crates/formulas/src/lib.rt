// Gates written as formulas. A call has one file, as on the bench; the four readers and what they give stand beside it.
#![tactic(auto)]

pub mod read_formula;
mod reading;

// A sheet for any gate: with several first cells at a step, where one is too few.
#![tactic(auto)]

pub mod make_any;

// A desk of a card run, whatever its bytes are.
#![tactic(auto)]

pub mod run_desk;

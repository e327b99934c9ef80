// Of two sheets that anyone made, the shorter.
#![tactic(auto)]

pub mod shorter;

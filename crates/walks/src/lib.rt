// The walks over own and shared masks that leave out what is known to be ruled out.
#![tactic(auto)]

pub mod walk;

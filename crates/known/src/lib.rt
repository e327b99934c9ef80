// What is known of a table from bits that rule out splits: of each two inputs, and what was learned on the way.
#![tactic(auto)]

pub mod needed;
pub mod notes;
pub mod pairs;

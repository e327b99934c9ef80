// The bench program and the inspecting program but for their reading and writing: they ask for the lengths of
// their rooms.
#![tactic(auto)]

pub mod bench_program;
pub mod inspect_program;

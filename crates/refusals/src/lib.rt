// When a call says no: the numbers, what looking at a call's lines comes to, and the looks that several calls share.
// Anybody may make any call with anything: none asks for anything, and each ends with an answer or one refusal. A call
// has one file, in the crate of its idea: its answer, the code that looks at its lines, and the call itself, which
// hands down the edition, the first or the one that is told, and the desk, a sheet's own where one is read, to a
// function that takes both.
#![tactic(auto)]

pub mod form;
pub mod verdicts;

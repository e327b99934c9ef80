// Sheets made with cells of two inputs: theorems alone. Nothing here runs.
#![tactic(auto)]

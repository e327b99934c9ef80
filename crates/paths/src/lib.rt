// Paths through a sheet: theorems alone. Nothing here runs.
#![tactic(auto)]

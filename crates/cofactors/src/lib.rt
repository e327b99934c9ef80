// The sheet of cofactors, and the sheet for any gate. Theorems alone: nothing runs.
#![tactic(auto)]

// Where a sheet has the fewest cells: theorems alone. Nothing here runs.
#![tactic(auto)]

// The claims: theorems alone, for an inspector. Nothing here runs.
#![tactic(auto)]

// Trees of two-input nodes: a theorem alone. Nothing here runs.
#![tactic(auto)]

// Networks of m cells that carry a table, brought into order: theorems alone. Nothing here runs.
#![tactic(auto)]

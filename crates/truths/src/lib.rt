// That a certificate which is accepted shows what it says: theorems alone. Nothing here runs.
#![tactic(auto)]

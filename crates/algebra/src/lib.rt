// Definitions and laws that the other crates share; there is no function here. See specs/ for the definitions and proofs/ for the laws.
#![tactic(auto)]

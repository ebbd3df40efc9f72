// The requirements' starred samples. No function: definitions in specs/, proofs in proofs/.
#![tactic(auto)]

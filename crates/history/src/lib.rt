// What holds for every list of calls on a block. No function: definitions in specs/, proofs in proofs/.
#![tactic(auto)]

// What holds across the crates: theorems only, in proofs/.
#![tactic(auto)]

// Parts with altered bytes: samples, computed on the receiver's definition, and theorems on the claim's conditions; no code.
// They stand in proofs/.
#![tactic(auto)]

// The laws of the definitions of texts: theorems only, no code. They stand in proofs/.
#![tactic(auto)]

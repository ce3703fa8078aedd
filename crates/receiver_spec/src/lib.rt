// Layer 2, the receiver as 01 defines it, and demand 3 proved about that definition: no code. See specs/ and proofs/.
#![tactic(auto)]

// Layer 2, the writer as 01 defines it, and demand 2 proved about that definition: no code. See specs/ and proofs/.
#![tactic(auto)]

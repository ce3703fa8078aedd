// Layer 2, demand 3 of the code: every list of calls from fresh, in which each call gets what the last one
// returned and left, is a list of the claim. See specs/ and proofs/; the code here is for the prover alone.
#![tactic(auto)]

mod contracts; // that the relation's contracts are those of the functions

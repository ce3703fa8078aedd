// Layer 3, the order of overlaying, of the code: every tree of overlay calls, in which each call gets what
// the calls beneath it left, comes to what the claim says. See specs/ and proofs/, which has samples of the
// definition too; the code here is for the prover alone.
#![tactic(auto)]

mod contracts; // that the claim's contract is that of the function

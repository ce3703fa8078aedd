// Layer 3, overlay as 01 defines it, and the order of overlaying (Request 110) proved about that definition:
// no code. See specs/ and proofs/.
#![tactic(auto)]

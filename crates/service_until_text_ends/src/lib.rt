// Layer 3, how long until this text ends, of the code: after every list of calls from fresh, in which each
// call gets what the last one returned and left, bytes_left tells what the claim says. See specs/ and
// proofs/; the code here is for the prover alone.
#![tactic(auto)]

mod contracts; // that the claim's contract is that of the function

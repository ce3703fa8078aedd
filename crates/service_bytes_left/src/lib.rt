// Layer 3, bytes left in the text under way.
// The function answers for every state, by a definition of specs/; what the number means is a theorem
// about lists of receiving calls, specs/UntilTextEnds.
#![tactic(auto)]

pub mod left; // bytes left in the text under way

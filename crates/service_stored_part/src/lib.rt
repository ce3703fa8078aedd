// Layer 3, services on stored parts.
// Every function answers for every value of its parameters, by an equation with a definition.
#![tactic(auto)]

pub mod whole; // whether bytes are exactly one undamaged part
pub mod payload; // the payload of a data text of a stored part

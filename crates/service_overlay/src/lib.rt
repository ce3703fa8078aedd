// Layer 3, overlay: two intensity grids laid over each other.
// The public function answers for every value of its parameters, by an equation with a definition of
// service_overlay_spec.
#![tactic(auto)]

pub mod grids; // mesh by mesh the higher level

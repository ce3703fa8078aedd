// Layer 3, levels: levels of meshes, and how many are at or above a level.
// Every public function answers for every value of its parameters, by an equation with a definition of specs/.
#![tactic(auto)]

mod counts; // the search for level 15; how many meshes are at or above a level
pub mod meshes; // the level of a mesh; the count, with its refusals

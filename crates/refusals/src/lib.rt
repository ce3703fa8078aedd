// Below layer 1: why a call was refused. Each refusal is a row of the terminal's table, under one name for
// receiver, writer and services.
#![tactic(auto)]

pub mod refusal; // the refusals, their rows, and their words

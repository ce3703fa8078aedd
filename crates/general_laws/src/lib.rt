// Below layer 1: a few words on lists of bytes, in specs/, and general laws on lists, tests and bits that any
// layer may use, in proofs/. No code.
#![tactic(auto)]

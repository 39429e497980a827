// The three demands are stated and proved in proofs/Promises.antt. This crate has no code.
#![tactic(auto)]

// Laws of truth values and of lists that every crate may cite: see specs/ and proofs/Promises.antt. This crate has no
// code.
#![tactic(auto)]

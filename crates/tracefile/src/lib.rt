// The frames of a trace buffer as a trace file for GDB, piece by piece. Each function appends to the bytes in a text buffer.
#![tactic(auto)]

pub mod body;
pub mod head;

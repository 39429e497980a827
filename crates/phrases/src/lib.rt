// Pieces of text that several lines of the tool share. Each function appends to a text buffer.
#![tactic(auto)]

pub mod numbers;
pub mod refused;

// Frames and records as lines of text. Each function appends to a text buffer.
#![tactic(auto)]

pub mod dump;
pub mod lines;

// What verify answers, as lines of text. Each function appends to a text buffer.
#![tactic(auto)]

pub mod bytes;
pub mod listed;
pub mod verdict_line;

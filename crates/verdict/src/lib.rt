// Document 01's verifier is a definition: see specs/. The crates above follow it; here is only the form of its answer.
#![tactic(auto)]

// What is said of an expression that is accepted; one that is not is answered by its refusal.
#[derive(Clone, Copy, Debug, PartialEq, Eq)]
pub struct Accepted {
    // How many instructions it has.
    pub count: usize,
    // The greatest height.
    pub greatest: u8,
    // The longest walk to an end.
    pub longest: usize,
}

// Marks in a table of heights: nothing comes to this offset; heights that differ come to it. They are numbers, since no
// height is above 64 and speed rests on a table of a byte an offset, which a memset fills.
pub const UNREACHED: u8 = 255;

pub const DIFFERING: u8 = 254;

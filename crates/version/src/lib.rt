// The version of tool and archives.
#![tactic(auto)]

// As one number, by which versions are compared: major * 10000 + minor * 100 + patch.
pub const NUMBER: u32 = 300;
// As a person reads it.
pub const TEXT: [u8; 5] = *b"0.3.0";

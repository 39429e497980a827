// Listings of expressions, read back: lines as GDB's `maint agent` prints them.
#![tactic(auto)]

mod numbers;
pub mod parts;
pub mod reading;
pub mod whole;

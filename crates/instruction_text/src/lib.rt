// An instruction as GDB's `maint agent` prints it, and the names of all of them.
#![tactic(auto)]

pub mod names;
pub mod writing;

// The command `verify` of the tool: expressions checked, listed, and read from listings of GDB.
#![tactic(auto)]

mod answer;
mod from_gdb;
mod input;
mod source;
pub mod verify;
mod words;

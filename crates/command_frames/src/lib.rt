// The command `frames` of the tool: a saved trace buffer, shown, or written as a trace file for GDB.
#![tactic(auto)]

pub mod command;
mod gdb;
mod places;
pub mod show;

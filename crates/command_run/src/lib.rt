// The command `run` of the tool: a scenario is read, its expressions are run, and what comes of them is printed.
#![tactic(auto)]

mod asked;
mod files_read;
mod items;
mod outcome;
pub mod run;
mod sources;
mod wrong;

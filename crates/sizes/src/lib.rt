// Document 01's sizes.
#![tactic(auto)]

// An expression's bytes, at most.
pub const EXPRESSION_MOST: usize = 1024;
// The cells of the stack.
pub const STACK_CELLS: usize = 64;
// The trace state variables.
pub const VARIABLE_COUNT: usize = 64;
// The registers lent, at most.
pub const REGISTERS_MOST: usize = 256;
// A trace buffer's bytes, at most.
pub const BUFFER_MOST: usize = 65536;
// A memory record's bytes, at most.
pub const RECORD_MOST: usize = 65535;

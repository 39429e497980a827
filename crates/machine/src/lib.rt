// Document 01's machine is a definition: see specs/. The crates above follow it; here is only what its code is given, and
// what makes known that its inputs are what their types say.
#![tactic(auto)]

ghost use Rattle.std.specs.Prelude.{List, ℕ};
ghost use Rattle.memory.specs.Spans.{target_of};
ghost use Rattle.machine.specs.Given.{given};
ghost use Rattle.machine.specs.Recorded.{Typed};

use isa::Rows;
use memory::{Memory, Target};

// What an instruction reads and none changes. It is passed by value: the compiler takes it apart.
#[derive(Clone, Copy)]
pub struct Fixed<'a> {
    pub rows: &'a Rows,
    pub code: &'a [u8],
    pub registers: &'a [u64],
    pub memory: Memory<'a>,
}

// What a run is given beside its variables, its buffer and its allowance.
#[derive(Clone, Copy)]
pub struct Inputs<'a> {
    pub code: &'a [u8],
    pub registers: &'a [u64],
    pub target: Target<'a>,
    pub used: usize,
    pub tracepoint: u16,
}

// The inputs of any run are typed. The compiler removes the call.
pub fn typed(inputs: Inputs, variables: &[u64; sizes::VARIABLE_COUNT])
    ensures { (buffer : List ℕ) (used allowance : ℕ) → Typed (given inputs.entry.code.now inputs.entry.registers.now variables.now (target_of inputs.entry.target) inputs.entry.tracepoint buffer used allowance) }
{
    encoding::bytes_known(inputs.code);
    encoding::words_known(inputs.registers);
    encoding::bytes_known(inputs.target.image.bytes);
    encoding::bytes_known(inputs.target.work.bytes);
    encoding::words_known(&variables[..]);
}

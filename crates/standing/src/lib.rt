// Where a run stands after so many steps, for listings: offset, stack, variables and the records made so far.
#![tactic(auto)]

ghost use Rattle.std.specs.Prelude.{ℕ};
ghost use Rattle.memory.specs.Spans.{target_of};
ghost use Rattle.machine.specs.Given.{given};
ghost use Rattle.standing.specs.Seen.{Stands};

use isa::{Cells, Rows, Stack};
use machine::{Fixed, Inputs};
use runner::Went;

// Where a run stands: the offset, and the height of the stack, whose cells the caller's array holds, the bottom first.
#[derive(Clone, Copy)]
pub struct Stood {
    pub at: usize,
    pub height: usize,
}

// Where the run of these inputs stands after so many steps; nowhere, if it has completed or was refused before they
// were done. Cells, variables and buffer are the caller's to lend for this: where the run still stands they are the
// machine's then, with the records made so far behind the used length.
pub fn stand(
    inputs: Inputs,
    cells: &mut Cells,
    variables: &mut [u64; sizes::VARIABLE_COUNT],
    buffer: &mut [u8],
    steps: u64,
) -> Option<Stood>
    ensures { (tracepoint : ℕ) → Stands (given inputs.entry.code.now inputs.entry.registers.now variables.old (target_of inputs.entry.target) tracepoint buffer.old inputs.entry.used steps) result cells.new variables.new buffer.new }
{
    *cells = [0u64; Stack::DEPTH];
    verifier::verify(inputs.code).ok()?;
    let memory = runner::inputs_refusal(inputs, buffer).ok()?;
    let rows = Rows::new();
    let fixed = Fixed {
        rows: &rows,
        code: inputs.code,
        registers: inputs.registers,
        memory,
    };
    match runner::go(fixed, cells, variables, buffer, inputs.used, steps) {
        Went::On(place) => Some(Stood {
            at: place.at,
            height: place.height,
        }),
        Went::Ended(_, _) => None,
        Went::Refused(_) => None,
    }
}

// Runs: the loop that follows document 01's machine, and the public entries.
#![tactic(auto)]

ghost use Rattle.std.specs.Prelude.{false, ◌≡◌, ℕ, ◌+◌, ◌-◌, ◌≤◌, ◌<◌, length, IfOk};
ghost use Rattle.encoding.specs.Written.{written_at};
ghost use Rattle.isa.specs.Joining.Held.{held};
ghost use Rattle.refusals.specs.Numbers.{number_or_0};
ghost use Rattle.refusals.specs.Tried.{tried};
ghost use Rattle.memory.specs.Spans.{target_of};
ghost use Rattle.verdict.specs.Verdict.{SetsNothing};
ghost use Rattle.frames.specs.Trailer.{trailer_size, tag_of, encode_trailer};
ghost use Rattle.machine.specs.Given.{given_by};
ghost use Rattle.machine.specs.Machine.{answer};
ghost use Rattle.machine.specs.Run.{input_tests, default_allowance};
ghost use Rattle.runner.specs.Returned.{answer_of, Ran};
ghost use Rattle.runner.specs.Joining.Ends.{given_to, IsAccepted, RanInPlace, RanAccepted};
ghost use Rattle.runner.specs.Joining.Going.{Gone};

use isa::{Cells, Rows, Stack};
use machine::{Fixed, Inputs};
use memory::Memory;
use operations::Place;
use refusals::{Reason, Refusal};
use stepping::Stepped;

// What is on top of the stack at an end: no value, the top, or the top and the cell beneath.
#[derive(Clone, Copy)]
pub enum Value {
    Nothing,
    Top(u64),
    TopAndBeneath(u64, u64),
}

// What a completed run returns; one that is refused returns its refusal.
#[derive(Clone, Copy)]
pub struct Completed {
    pub value: Value,
    pub steps: u64,
    // The used length of the buffer.
    pub used: usize,
}

// Used by the entry that is given no allowance.
pub const DEFAULT_ALLOWANCE: u64 = 1024;

fn value_of(cells: &Cells, height: usize) -> Value
    requires { height ≤ 64 }
    ensures { answer_of result ≡ answer (held cells.now height) }
{
    if height == 0 {
        return Value::Nothing;
    }
    let top = cells[height - 1];
    if height == 1 {
        return Value::Top(top);
    }
    Value::TopAndBeneath(top, cells[height - 2])
}

// What a loop of steps came to.
#[derive(Clone, Copy)]
pub enum Went {
    // All the steps are done: the place of the next.
    On(Place),
    // An end: its place, and the steps with it.
    Ended(Place, u64),
    Refused(Refusal),
}

// At most `allowance` steps of an accepted expression, on inputs that 12 to 15 allow. What is left of the allowance is
// counted down, so that one machine instruction both counts and tests: with a range each step costs one more.
#[inline(always)]
pub fn go(
    fixed: Fixed,
    cells: &mut Cells,
    variables: &mut [u64; sizes::VARIABLE_COUNT],
    buffer: &mut [u8],
    used: usize,
    allowance: u64,
) -> Went
    requires { IsAccepted fixed.code.now × (used ≤ length buffer.old) × (length cells.old ≡ 64) }
    ensures { (tracepoint : ℕ) → Gone (given_to fixed.entry variables.old buffer.old tracepoint used allowance) result cells.new variables.new buffer.new }
{
    let mut place = Place {
        at: 0,
        height: 0,
        put: used,
    };
    let mut left = allowance;
    while 0 < left {
        match stepping::step(fixed, cells, variables, buffer, place) {
            Ok(Stepped::On(next)) => place = next,
            Ok(Stepped::End) => return Went::Ended(place, allowance - left + 1),
            Err(reason) => {
                return Went::Refused(Refusal::after(reason, place.at, allowance - left));
            }
        }
        left -= 1;
    }
    Went::On(place)
}

// Closes the frame whose records end at `put`. The caller has seen that there is room.
fn close_frame(buffer: &mut [u8], put: usize, tracepoint: u16, size: usize)
    requires room { put + trailer_size ≤ length buffer.old }
    requires size { size < 65537 }
    ensures { buffer.new ≡ written_at buffer.old put (encode_trailer (tag_of tracepoint) size) }
{
    let tag = frames::trailer::tag_of(tracepoint);
    frames::trailer::append_trailer(buffer, put, tag, size as u32);
}

// A run of an accepted expression on inputs that 12 to 15 allow, on the variables themselves.
fn follow(
    fixed: Fixed,
    cells: &mut Cells,
    variables: &mut [u64; sizes::VARIABLE_COUNT],
    buffer: &mut [u8],
    used: usize,
    tracepoint: u16,
    allowance: u64,
) -> Result<Completed, Refusal>
    requires { IsAccepted fixed.code.now × (used ≤ length buffer.old) × (length buffer.old ≤ 65536) × (length cells.old ≡ 64) }
    ensures { RanInPlace (given_to fixed.entry variables.old buffer.old tracepoint used allowance) result variables.new buffer.new }
{
    match go(fixed, cells, variables, buffer, used, allowance) {
        Went::On(place) => Err(Refusal::after(Reason::AllowanceSpent, place.at, allowance)),
        Went::Refused(refusal) => Err(refusal),
        Went::Ended(place, steps) => {
            close_frame(buffer, place.put, tracepoint, place.put - used);
            Ok(Completed {
                value: value_of(cells, place.height),
                steps,
                used: place.put + frames::trailer::TRAILER_SIZE,
            })
        }
    }
}

// What a run has of its own: its stack, and a copy of the variables where it may set some. One value, so that both are
// cleared at once.
#[derive(Drop)]
pub struct Own {
    pub stack: Stack,
    pub kept: [u64; sizes::VARIABLE_COUNT],
}

// The same, which leaves the variables as given where it is refused. Where no variable is set, they are as given: so
// they are neither copied nor put back.
fn run_accepted(
    fixed: Fixed,
    variables: &mut [u64; sizes::VARIABLE_COUNT],
    buffer: &mut [u8],
    used: usize,
    tracepoint: u16,
    allowance: u64,
    sets: bool,
) -> Result<Completed, Refusal>
    requires { IsAccepted fixed.code.now × (used ≤ length buffer.old) × (length buffer.old ≤ 65536) × (sets ≡ false → SetsNothing fixed.code.now) }
    ensures { RanAccepted (given_to fixed.entry variables.old buffer.old tracepoint used allowance) result variables.new buffer.new }
{
    let mut own = Own {
        stack: Stack::empty(),
        kept: [0u64; sizes::VARIABLE_COUNT],
    };
    if sets {
        own.kept = *variables;
    }
    let returned = follow(
        fixed,
        &mut own.stack.cells,
        variables,
        buffer,
        used,
        tracepoint,
        allowance,
    );
    if sets && returned.is_err() {
        *variables = own.kept;
    }
    returned
}

// 12 to 15, tried in that order, or the memory that the run may read.
pub fn inputs_refusal<'a>(inputs: Inputs<'a>, buffer: &[u8]) -> Result<Memory<'a>, Reason>
    ensures number { number_or_0 result ≡ tried (input_tests inputs.entry.registers.now (target_of inputs.entry.target) buffer.now inputs.entry.used) }
    ensures same { IfOk result (λ memory. memory.target ≡ inputs.entry.target) }
{
    let allowed = memory::spans_refusal(inputs.target)?;
    if sizes::REGISTERS_MOST < inputs.registers.len() {
        return Err(Reason::RegistersMany);
    }
    if frames::is_unfit(buffer, inputs.used) {
        return Err(Reason::BufferBad);
    }
    Ok(allowed)
}

// Verifies the expression, checks the inputs, and runs it: at most `allowance` instructions. The loop has a table of
// its own, which no opcode that varies is looked up in: so the compiler knows each row that an arm reads.
pub fn run(
    inputs: Inputs,
    variables: &mut [u64; sizes::VARIABLE_COUNT],
    buffer: &mut [u8],
    allowance: u64,
) -> Result<Completed, Refusal>
    ensures { Ran (given_by inputs.entry variables.old buffer.old allowance) result variables.new buffer.new }
{
    machine::typed(inputs, variables);
    let noted = verifier::verify_noting(inputs.code);
    noted.answer?;
    let memory = match inputs_refusal(inputs, buffer) {
        Ok(memory) => memory,
        Err(reason) => return Err(Refusal::at(reason, 0)),
    };
    let rows = Rows::new();
    let fixed = Fixed {
        rows: &rows,
        code: inputs.code,
        registers: inputs.registers,
        memory,
    };
    run_accepted(
        fixed,
        variables,
        buffer,
        inputs.used,
        inputs.tracepoint,
        allowance,
        noted.sets,
    )
}

// The same without an allowance given.
pub fn run_default(
    inputs: Inputs,
    variables: &mut [u64; sizes::VARIABLE_COUNT],
    buffer: &mut [u8],
) -> Result<Completed, Refusal>
    ensures { Ran (given_by inputs.entry variables.old buffer.old default_allowance) result variables.new buffer.new }
{
    run(inputs, variables, buffer, DEFAULT_ALLOWANCE)
}

// Runs of expressions.
ghost use Rattle.std.specs.Prelude.{◌≡◌};
ghost use Rattle.memory.specs.Spans.{target};
ghost use Rattle.machine.specs.Given.{Given, given};
ghost use Rattle.machine.specs.Machine.{Ended};
ghost use Rattle.machine.specs.Run.{default_allowance};
ghost use Rattle.runner.specs.Returned.{returned, returned_by};
ghost use Rattle.lilivrez_agent.specs.RunValues.{EndNumbers, RunNumbers};

use machine::Inputs;
use memory::{Span, Target};
use refusals::Refusal;
use runner::{Completed, Value};

// What a run returned, as numbers: returned and stored. `used` is the used length given: a refusal leaves it as it is.
fn store(outcome: Result<Completed, Refusal>, used: usize, out: &mut [u64; 6]) -> u32
    ensures { (g : Given) (o : Ended) → g.used ≡ used → returned_by outcome ≡ returned g o → EndNumbers g o result out.new }
{
    match outcome {
        Err(refusal) => {
            *out = [refusal.offset as u64, refusal.steps, used as u64, 0, 0, 0];
            u32::from(refusal.reason.number())
        }
        Ok(Completed { value, steps, used }) => {
            match value {
                Value::Nothing => *out = [0, steps, used as u64, 0, 0, 0],
                Value::Top(top) => *out = [0, steps, used as u64, 1, top, 0],
                Value::TopAndBeneath(top, beneath) => {
                    *out = [0, steps, used as u64, 2, top, beneath]
                }
            }
            0
        }
    }
}

// Verifies the expression, checks the inputs, and runs it: at most `allowance` instructions. Returns the number of the
// refusal, or 0 where the run completed. Stores the offset of the refusal, the steps, the used length, how many cells
// the answer tells, the top and the cell beneath. The parameters and `out` are flat, as C has them.
pub fn lilivrez_run<'a>(
    expression: &[u8],
    registers: &[u64],
    image_first: u64,
    image: &'a [u8],
    work_first: u64,
    work: &'a [u8],
    variables: &mut [u64; sizes::VARIABLE_COUNT],
    buffer: &mut [u8],
    used: usize,
    tracepoint: u16,
    allowance: u64,
    out: &mut [u64; 6],
) -> u32
    ensures { RunNumbers (given expression.now registers.now variables.old (target image_first image.now work_first work.now) tracepoint buffer.old used allowance) result out.new variables.new buffer.new }
{
    let inputs = Inputs {
        code: expression,
        registers,
        target: Target {
            image: Span {
                first: image_first,
                bytes: image,
            },
            work: Span {
                first: work_first,
                bytes: work,
            },
        },
        used,
        tracepoint,
    };
    store(runner::run(inputs, variables, buffer, allowance), used, out)
}

// The same without an allowance given: at most 1,024 instructions.
pub fn lilivrez_run_default<'a>(
    expression: &[u8],
    registers: &[u64],
    image_first: u64,
    image: &'a [u8],
    work_first: u64,
    work: &'a [u8],
    variables: &mut [u64; sizes::VARIABLE_COUNT],
    buffer: &mut [u8],
    used: usize,
    tracepoint: u16,
    out: &mut [u64; 6],
) -> u32
    ensures { RunNumbers (given expression.now registers.now variables.old (target image_first image.now work_first work.now) tracepoint buffer.old used default_allowance) result out.new variables.new buffer.new }
{
    lilivrez_run(
        expression,
        registers,
        image_first,
        image,
        work_first,
        work,
        variables,
        buffer,
        used,
        tracepoint,
        runner::DEFAULT_ALLOWANCE,
        out,
    )
}

// A run with what the lines of a scenario have set.
#![tactic(auto)]

ghost use Rattle.std.specs.Prelude.{◌≡◌, List, ℕ, take};
ghost use Rattle.machine.specs.Given.{given_by as given_by_inputs};
ghost use Rattle.runner.specs.Returned.{Ran};
ghost use Rattle.scenario_run.specs.Runs.{allowance_of, given_by};

use machine::Inputs;
use memory::{Span, Target};
use refusals::Refusal;
use runner::Completed;
use scenario_setting::{Setting, SpanSetting, first_of};

fn span_of<'a>(setting: SpanSetting, bytes: &'a [u8]) -> Span<'a>
    ensures first { result.first ≡ setting.first }
    ensures bytes { result.bytes.now ≡ take setting.len bytes.now }
{
    Span {
        first: setting.first,
        bytes: first_of(bytes, setting.len),
    }
}

// What a run of the expression is given beside variables, buffer and allowance.
pub fn inputs_of<'a>(
    code: &'a [u8],
    setting: Setting,
    registers: &'a [u64],
    image: &'a [u8],
    memory: &'a [u8],
) -> Inputs<'a>
    ensures { (variables buffer : List ℕ) → given_by_inputs result variables buffer (allowance_of setting) ≡ given_by setting code.now registers.now variables image.now memory.now buffer }
{
    Inputs {
        code,
        registers: first_of(registers, setting.registers),
        target: Target {
            image: span_of(setting.image, image),
            work: span_of(setting.memory, memory),
        },
        used: setting.buffer.used,
        tracepoint: (setting.tracepoint % 65536) as u16,
    }
}

// Runs the expression.
pub fn run_with(
    code: &[u8],
    setting: Setting,
    registers: &[u64],
    image: &[u8],
    memory: &[u8],
    variables: &mut [u64; sizes::VARIABLE_COUNT],
    buffer: &mut [u8],
) -> Result<Completed, Refusal>
    ensures { Ran (given_by setting code.now registers.now variables.old image.now memory.now buffer.old) result variables.new buffer.new }
{
    let inputs = inputs_of(code, setting, registers, image, memory);
    match setting.allowance {
        None => runner::run_default(inputs, variables, buffer),
        Some(steps) => runner::run(inputs, variables, buffer, steps),
    }
}

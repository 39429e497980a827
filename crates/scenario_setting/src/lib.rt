// What the lines of a scenario have set so far, and the values of its registers and variables.
#![tactic(auto)]

ghost use Rattle.std.specs.Prelude.{◌≡◌, set, take};
ghost use Rattle.scenario_setting.specs.Settings.{begun, with_default, with_used, with_span, lent_with, with_number};
ghost use Rattle.scenario_setting.specs.Settings.{registers_after, variable_set, variables_set};

use scenario::Keyword;

// The first address of a span, and its length.
#[derive(Clone, Copy)]
pub struct SpanSetting {
    pub first: u64,
    pub len: usize,
}

// The size of the trace buffer, and how much of it is used.
#[derive(Clone, Copy)]
pub struct Buffer {
    pub size: usize,
    pub used: usize,
}

// As many registers are lent as `registers` says. Without an allowance of its own a run has the default one.
#[derive(Clone, Copy)]
pub struct Setting {
    pub registers: usize,
    pub image: SpanSetting,
    pub memory: SpanSetting,
    pub tracepoint: u64,
    pub buffer: Buffer,
    pub allowance: Option<u64>,
}

pub fn start() -> Setting
    ensures { result ≡ begun }
{
    Setting {
        registers: 0,
        image: SpanSetting { first: 0, len: 0 },
        memory: SpanSetting { first: 0, len: 0 },
        tracepoint: 0,
        buffer: Buffer {
            size: sizes::BUFFER_MOST,
            used: 0,
        },
        allowance: None,
    }
}

pub fn with_default_allowance(before: Setting) -> Setting
    ensures { result ≡ with_default before }
{
    Setting {
        allowance: None,
        ..before
    }
}

pub fn with_used(before: Setting, used: usize) -> Setting
    ensures { result ≡ with_used before used }
{
    let size = before.buffer.size;
    Setting {
        buffer: Buffer { size, used },
        ..before
    }
}

#[tactic(auto, unfolding(crate::specs::Settings::with_span))]
pub fn with_span(before: Setting, keyword: Keyword, first: u64, len: usize) -> Setting
    ensures { result ≡ with_span before keyword first len }
{
    let span = SpanSetting { first, len };
    match keyword {
        Keyword::Image => Setting {
            image: span,
            ..before
        },
        _ => Setting {
            memory: span,
            ..before
        },
    }
}

// As many registers are lent as the highest number set, and one more.
#[tactic(auto, unfolding(crate::specs::Settings::lent_with))]
fn lent_with(number: u64, lent: usize) -> usize
    ensures { result ≡ lent_with number lent }
{
    let n = number as usize;
    if sizes::REGISTERS_MOST <= n {
        return lent;
    }
    lent.max(n + 1)
}

// The words that set one number, and `register`, whose value `store` sets.
#[tactic(auto, unfolding(crate::specs::Settings::with_number))]
pub fn with_number(before: Setting, keyword: Keyword, number: u64, value: u64) -> Setting
    ensures { result ≡ with_number before keyword number value }
{
    let mut s = before;
    match keyword {
        Keyword::Register => s.registers = lent_with(number, before.registers),
        Keyword::Registers => s.registers = value as usize,
        Keyword::Tracepoint => s.tracepoint = value,
        Keyword::Buffer => {
            s.buffer = Buffer {
                size: value as usize,
                used: 0,
            }
        }
        Keyword::Allowance => s.allowance = Some(value),
        _ => {}
    }
    s
}

// Numbers beyond the end are not set; the scenario's limits leave none.
fn set_register(registers: &mut [u64], number: usize, value: u64)
    ensures { registers.new ≡ set registers.old number value }
{
    if number < registers.len() {
        registers[number] = value;
    }
}

#[tactic(auto, unfolding(crate::specs::Settings::variable_set))]
fn set_variable(variables: &mut [u64; sizes::VARIABLE_COUNT], number: usize, value: u64)
    ensures { variables.new ≡ variable_set number value variables.old }
{
    if number < sizes::VARIABLE_COUNT {
        variables[number] = value;
    }
}

// The value of a register or variable.
#[tactic(auto, unfolding(crate::specs::Settings::registers_after, crate::specs::Settings::variables_set))]
pub fn store(
    keyword: Keyword,
    number: u64,
    value: u64,
    registers: &mut [u64],
    variables: &mut [u64; sizes::VARIABLE_COUNT],
)
    ensures registers { registers.new ≡ registers_after keyword number value registers.old }
    ensures variables { variables.new ≡ variables_set keyword number value variables.old }
{
    match keyword {
        Keyword::Register => set_register(registers, number as usize, value),
        Keyword::Variable => set_variable(variables, number as usize, value),
        _ => {}
    }
}

// ---- what is lent to a run: the first so many, which are never fewer
pub fn first_of<'a, T>(items: &'a [T], count: usize) -> &'a [T]
    ensures { result.now ≡ take count items.now }
{
    &items[..items.len().min(count)]
}

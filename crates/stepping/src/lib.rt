// One step of the machine: the instruction at an offset, by one arm for each opcode. The arm names the opcode, so that
// its row is known when this is compiled.
#![tactic(auto)]

mod key;

ghost use Rattle.std.specs.Prelude.{◌≡◌, ◌+◌, ◌-◌, ◌≤◌, ◌<◌, length, get_or};
ghost use Rattle.isa.specs.Joining.Held.{held};
ghost use Rattle.machine.specs.Given.{fixed_by};
ghost use Rattle.operations.specs.Joining.Here.{StepReady};
ghost use Rattle.stepping.specs.Joining.Effect.{effect, DidStep, DidEnd, on_of};

use isa::{Cells, opcode};
use machine::Fixed;
use operations::{
    Place, do_binary, do_constant, do_dup, do_ext, do_getv, do_goto, do_if_goto, do_pick, do_pop,
    do_ref, do_reg, do_rot, do_setv, do_swap, do_unary, do_zero_ext,
};
use recording::{do_trace, do_trace_quick, do_tracenz, do_tracev};
use refusals::Reason;

// What comes of an instruction that is not refused: it goes on, or it is an end.
#[derive(Clone, Copy)]
pub enum Stepped {
    On(Place),
    End,
}

// An end: there has to be room for the trailer.
fn do_end(buffer: &[u8], place: Place) -> Result<Stepped, Reason>
    requires { place.put ≤ length buffer.now }
    ensures { DidEnd (length buffer.now - place.put) result }
{
    if buffer.len() - place.put < frames::trailer::TRAILER_SIZE {
        return Err(Reason::BufferFull);
    }
    Ok(Stepped::End)
}

// What an instruction that is no end did.
fn on(done: Result<Place, Reason>) -> Result<Stepped, Reason>
    ensures { result ≡ on_of done }
{
    Ok(Stepped::On(done?))
}

// The key of an instruction's arm: its opcode with the two top bits set, which no opcode of an accepted expression has.
// The sum tells the compiler that there are 64 keys, and `step` has an arm for each: so a step needs no test whether
// the jump table has an entry. Without it a step costs a machine instruction more.
fn key_at(code: &[u8], at: usize) -> u8
    requires { (at < length code.now) × (get_or code.now at 0 < 64) }
    ensures { result ≡ get_or code.now at 0 + 0xc0 }
{
    code[at] + 0xc0
}

pub fn step(
    fixed: Fixed,
    cells: &mut Cells,
    variables: &mut [u64; sizes::VARIABLE_COUNT],
    buffer: &mut [u8],
    place: Place,
) -> Result<Stepped, Reason>
    requires ready { StepReady fixed.code.now cells.old place.at place.height }
    requires room { place.put ≤ length buffer.old }
    ensures { DidStep place (held cells.old place.height) variables.old buffer.old (effect (fixed_by fixed.entry) place.at (held cells.old place.height) variables.old (length buffer.old - place.put)) result cells.new variables.new buffer.new }
{
    let key = key_at(fixed.code, place.at);
    match key {
        key::ADD => on(do_binary(fixed, cells, opcode::ADD, place)),
        key::SUB => on(do_binary(fixed, cells, opcode::SUB, place)),
        key::MUL => on(do_binary(fixed, cells, opcode::MUL, place)),
        key::DIV_SIGNED => on(do_binary(fixed, cells, opcode::DIV_SIGNED, place)),
        key::DIV_UNSIGNED => on(do_binary(fixed, cells, opcode::DIV_UNSIGNED, place)),
        key::REM_SIGNED => on(do_binary(fixed, cells, opcode::REM_SIGNED, place)),
        key::REM_UNSIGNED => on(do_binary(fixed, cells, opcode::REM_UNSIGNED, place)),
        key::LSH => on(do_binary(fixed, cells, opcode::LSH, place)),
        key::RSH_SIGNED => on(do_binary(fixed, cells, opcode::RSH_SIGNED, place)),
        key::RSH_UNSIGNED => on(do_binary(fixed, cells, opcode::RSH_UNSIGNED, place)),
        key::BIT_AND => on(do_binary(fixed, cells, opcode::BIT_AND, place)),
        key::BIT_OR => on(do_binary(fixed, cells, opcode::BIT_OR, place)),
        key::BIT_XOR => on(do_binary(fixed, cells, opcode::BIT_XOR, place)),
        key::EQUAL => on(do_binary(fixed, cells, opcode::EQUAL, place)),
        key::LESS_SIGNED => on(do_binary(fixed, cells, opcode::LESS_SIGNED, place)),
        key::LESS_UNSIGNED => on(do_binary(fixed, cells, opcode::LESS_UNSIGNED, place)),
        key::TRACE => on(do_trace(fixed, cells, buffer, place)),
        key::TRACENZ => on(do_tracenz(fixed, cells, buffer, place)),
        key::LOG_NOT => Ok(Stepped::On(do_unary(fixed, cells, opcode::LOG_NOT, place))),
        key::BIT_NOT => Ok(Stepped::On(do_unary(fixed, cells, opcode::BIT_NOT, place))),
        key::REF8 => on(do_ref(fixed, cells, opcode::REF8, 1, place)),
        key::REF16 => on(do_ref(fixed, cells, opcode::REF16, 2, place)),
        key::REF32 => on(do_ref(fixed, cells, opcode::REF32, 4, place)),
        key::REF64 => on(do_ref(fixed, cells, opcode::REF64, 8, place)),
        key::TRACE_QUICK => on(do_trace_quick(fixed, cells, buffer, opcode::TRACE_QUICK, 1, place)),
        key::TRACE16 => on(do_trace_quick(fixed, cells, buffer, opcode::TRACE16, 2, place)),
        key::EXT => Ok(Stepped::On(do_ext(fixed, cells, place))),
        key::ZERO_EXT => Ok(Stepped::On(do_zero_ext(fixed, cells, place))),
        key::SETV => Ok(Stepped::On(do_setv(fixed, cells, variables, place))),
        key::IF_GOTO => Ok(Stepped::On(do_if_goto(fixed, cells, place))),
        key::GOTO => Ok(Stepped::On(do_goto(fixed, cells, place))),
        key::CONST8 => Ok(Stepped::On(do_constant(fixed, cells, opcode::CONST8, 1, place))),
        key::CONST16 => Ok(Stepped::On(do_constant(fixed, cells, opcode::CONST16, 2, place))),
        key::CONST32 => Ok(Stepped::On(do_constant(fixed, cells, opcode::CONST32, 4, place))),
        key::CONST64 => Ok(Stepped::On(do_constant(fixed, cells, opcode::CONST64, 8, place))),
        key::REG => on(do_reg(fixed, cells, place)),
        key::GETV => Ok(Stepped::On(do_getv(fixed, cells, variables, place))),
        key::TRACEV => on(do_tracev(fixed, cells, variables, buffer, place)),
        key::END => do_end(buffer, place),
        key::DUP => Ok(Stepped::On(do_dup(fixed, cells, place))),
        key::POP => Ok(Stepped::On(do_pop(fixed, cells, place))),
        key::SWAP => Ok(Stepped::On(do_swap(fixed, cells, place))),
        key::PICK => Ok(Stepped::On(do_pick(fixed, cells, place))),
        key::ROT => Ok(Stepped::On(do_rot(fixed, cells, place))),
        // No accepted expression has the opcodes of these keys.
        0xc0 | 0xdb | 0xdd | 0xdf | 0xf4 | 0xf6 | 0xf8 | 0xfa | 0xfc | 0xfe => unreachable!(),
        0xc1 | 0xdc | 0xde | 0xf1 | 0xf5 | 0xf7 | 0xf9 | 0xfb | 0xfd | 0xff => unreachable!(),
        _ => unreachable!(),
    }
}

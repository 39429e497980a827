// The instructions that neither record nor set a variable by themselves, one function for each class. Each is lent the
// cells and told the place; it says nothing of steps, allowance or records so far.
#![tactic(auto)]

ghost use Rattle.std.specs.Prelude.{Ok, false, ◌∷◌, ◌≡◌, ◌+◌, ◌-◌, ◌≤◌, ◌<◌, length, get_or, set};
ghost use Rattle.sizes.specs.Sizes.{expression_most, stack_cells};
ghost use Rattle.isa.specs.Classes.{binary, unary, ref, ext, zero_ext_of, setv, if_goto, goto, constant, reg, getv, dup, pop, swap, pick, rot, class_of, row};
ghost use Rattle.isa.specs.Decode.{operand};
ghost use Rattle.isa.specs.Joining.Held.{held};
ghost use Rattle.memory.specs.Spans.{target_of};
ghost use Rattle.machine.specs.Words.{binary_word, zero_divisor, unary_word};
ghost use Rattle.machine.specs.Meaning.{binary_done, unary_done, ext_done, zero_ext_done, ref_done, constant_done, reg_done, getv_done, setv_done, nothing_left, dup_done, swap_done, pick_done, rot_done};
ghost use Rattle.operations.specs.Joining.Here.{Here};
ghost use Rattle.operations.specs.Joining.Did.{DidCells, PutWord};

use isa::{Cells, Rows, Stack, opcode};
use machine::Fixed;
use refusals::Reason;

// Where a run is: the offset, the height, and the end of what is written. The cells are apart from it: in a struct with
// them the compiler would keep the height in memory.
#[derive(Clone, Copy)]
pub struct Place {
    pub at: usize,
    pub height: usize,
    pub put: usize,
}

// The next start, by the row of the opcode. A caller names the opcode by a literal, so that the row is known when this
// is compiled. The sum is one of 32 bits: of 64, the compiler would keep offset and height as one vector, at up to two
// machine instructions more a step.
pub fn next_of(rows: &Rows, opcode: u8, at: usize) -> usize
    requires opcode { opcode < 53 }
    requires at { at < expression_most }
    ensures { result ≡ at + 1 + get_or (row (class_of opcode)) 0 0 }
{
    (at as u32 + 1 + u32::from(rows.known(opcode).operands)) as usize
}

// The height after the instruction, by the row of the opcode: cells needed are taken, cells left come in their place.
pub fn height_of(rows: &Rows, opcode: u8, height: usize) -> usize
    requires opcode { opcode < 53 }
    requires cells { get_or (row (class_of opcode)) 1 0 ≤ height }
    requires height { height ≤ stack_cells }
    ensures { result ≡ height - get_or (row (class_of opcode)) 1 0 + get_or (row (class_of opcode)) 2 0 }
{
    let row = rows.known(opcode);
    height - row.needed as usize + row.left as usize
}

// The place behind the instruction, by the row of the opcode.
pub fn next_place(rows: &Rows, opcode: u8, place: Place) -> Place
    requires opcode { opcode < 53 }
    requires at { place.at < expression_most }
    requires cells { get_or (row (class_of opcode)) 1 0 ≤ place.height }
    requires height { place.height ≤ stack_cells }
    ensures at { result.at ≡ place.at + 1 + get_or (row (class_of opcode)) 0 0 }
    ensures height { result.height ≡ place.height - get_or (row (class_of opcode)) 1 0 + get_or (row (class_of opcode)) 2 0 }
    ensures put { result.put ≡ place.put }
{
    Place {
        at: next_of(rows, opcode, place.at),
        height: height_of(rows, opcode, place.height),
        put: place.put,
    }
}

// Puts the word in the place of the cells that the opcode's row needs, and goes on to the next start.
pub fn put_word(rows: &Rows, cells: &mut Cells, opcode: u8, word: u64, place: Place) -> Place
    requires opcode { opcode < 53 }
    requires at { place.at < expression_most }
    requires cells { get_or (row (class_of opcode)) 1 0 ≤ place.height }
    requires room { place.height - get_or (row (class_of opcode)) 1 0 < stack_cells }
    requires long { length cells.old ≡ stack_cells }
    ensures { PutWord opcode word place (held cells.old place.height) result cells.new }
{
    let needed = rows.known(opcode).needed as usize;
    Place {
        at: next_of(rows, opcode, place.at),
        height: Stack::replace(cells, place.height, needed, word),
        put: place.put,
    }
}

// Whether the divisor of the operator is zero.
fn is_zero_divisor(opcode: u8, b: u64) -> bool
    ensures { result ≡ zero_divisor opcode b }
{
    b == 0 && opcode::DIV_SIGNED <= opcode && opcode <= opcode::REM_UNSIGNED
}

fn binary_word(opcode: u8, a: u64, b: u64) -> u64
    requires { zero_divisor opcode b ≡ false }
    ensures { result ≡ binary_word opcode a b }
{
    match opcode {
        opcode::ADD => arithmetic::add(a, b),
        opcode::SUB => arithmetic::sub(a, b),
        opcode::MUL => arithmetic::mul(a, b),
        opcode::DIV_SIGNED => arithmetic::div_signed(a, b),
        opcode::DIV_UNSIGNED => arithmetic::div_unsigned(a, b),
        opcode::REM_SIGNED => arithmetic::rem_signed(a, b),
        opcode::REM_UNSIGNED => arithmetic::rem_unsigned(a, b),
        opcode::LSH => arithmetic::lsh(a, b),
        opcode::RSH_SIGNED => arithmetic::rsh_signed(a, b),
        opcode::RSH_UNSIGNED => arithmetic::rsh_unsigned(a, b),
        opcode::BIT_AND => arithmetic::bit_and(a, b),
        opcode::BIT_OR => arithmetic::bit_or(a, b),
        opcode::BIT_XOR => arithmetic::bit_xor(a, b),
        opcode::EQUAL => arithmetic::equal(a, b),
        opcode::LESS_SIGNED => arithmetic::less_signed(a, b),
        _ => arithmetic::less_unsigned(a, b),
    }
}

fn unary_word(opcode: u8, a: u64) -> u64
    ensures { result ≡ unary_word opcode a }
{
    if opcode == opcode::LOG_NOT {
        return arithmetic::log_not(a);
    }
    arithmetic::bit_not(a)
}

// The 16 binary operators.
pub fn do_binary(fixed: Fixed, cells: &mut Cells, opcode: u8, place: Place) -> Result<Place, Reason>
    requires { Here fixed.code.now cells.old binary opcode place.at place.height }
    ensures { DidCells fixed.entry.code.now place (held cells.old place.height) (binary_done opcode (held cells.old place.height)) result cells.new }
{
    let b = Stack::below(cells, place.height, 0);
    let a = Stack::below(cells, place.height, 1);
    if is_zero_divisor(opcode, b) {
        return Err(Reason::DivisorZero);
    }
    let word = binary_word(opcode, a, b);
    Ok(put_word(fixed.rows, cells, opcode, word, place))
}

// log_not, bit_not.
pub fn do_unary(fixed: Fixed, cells: &mut Cells, opcode: u8, place: Place) -> Place
    requires { Here fixed.code.now cells.old unary opcode place.at place.height }
    ensures { DidCells fixed.entry.code.now place (held cells.old place.height) (unary_done opcode (held cells.old place.height)) (Ok result) cells.new }
{
    let word = unary_word(opcode, Stack::below(cells, place.height, 0));
    put_word(fixed.rows, cells, opcode, word, place)
}

// ext N.
pub fn do_ext(fixed: Fixed, cells: &mut Cells, place: Place) -> Place
    requires { Here fixed.code.now cells.old ext 0x16 place.at place.height }
    ensures { DidCells fixed.entry.code.now place (held cells.old place.height) (ext_done (operand fixed.entry.code.now place.at) (held cells.old place.height)) (Ok result) cells.new }
{
    let bits = isa::operand_at(fixed.code, place.at, 1);
    let word = arithmetic::ext(Stack::below(cells, place.height, 0), bits);
    put_word(fixed.rows, cells, opcode::EXT, word, place)
}

// zero_ext N.
pub fn do_zero_ext(fixed: Fixed, cells: &mut Cells, place: Place) -> Place
    requires { Here fixed.code.now cells.old zero_ext_of 0x2a place.at place.height }
    ensures { DidCells fixed.entry.code.now place (held cells.old place.height) (zero_ext_done (operand fixed.entry.code.now place.at) (held cells.old place.height)) (Ok result) cells.new }
{
    let bits = isa::operand_at(fixed.code, place.at, 1);
    let word = arithmetic::zero_ext(Stack::below(cells, place.height, 0), bits);
    put_word(fixed.rows, cells, opcode::ZERO_EXT, word, place)
}

// ref8 to ref64: `count` bytes at the address on top. The bytes from there to the end of the span decide.
pub fn do_ref(
    fixed: Fixed,
    cells: &mut Cells,
    opcode: u8,
    count: usize,
    place: Place,
) -> Result<Place, Reason>
    requires here { Here fixed.code.now cells.old (ref count) opcode place.at place.height }
    requires count { (1 ≤ count) × (count ≤ 8) }
    ensures { DidCells fixed.entry.code.now place (held cells.old place.height) (ref_done (target_of fixed.entry.memory.target) count (held cells.old place.height)) result cells.new }
{
    let rest = fixed.memory.rest(Stack::below(cells, place.height, 0));
    if rest.len() < count {
        return Err(Reason::RangeNotReadable);
    }
    let word = encoding::little_endian(&rest[..count]);
    Ok(put_word(fixed.rows, cells, opcode, word, place))
}

// const8 to const64.
pub fn do_constant(fixed: Fixed, cells: &mut Cells, opcode: u8, count: usize, place: Place) -> Place
    requires { Here fixed.code.now cells.old (constant count) opcode place.at place.height }
    ensures { DidCells fixed.entry.code.now place (held cells.old place.height) (constant_done (operand fixed.entry.code.now place.at)) (Ok result) cells.new }
{
    let word = isa::operand_at(fixed.code, place.at, count);
    put_word(fixed.rows, cells, opcode, word, place)
}

// reg N.
pub fn do_reg(fixed: Fixed, cells: &mut Cells, place: Place) -> Result<Place, Reason>
    requires { Here fixed.code.now cells.old reg 0x26 place.at place.height }
    ensures { DidCells fixed.entry.code.now place (held cells.old place.height) (reg_done fixed.entry.registers.now (operand fixed.entry.code.now place.at)) result cells.new }
{
    let number = isa::operand_at(fixed.code, place.at, 2) as usize;
    if fixed.registers.len() <= number {
        return Err(Reason::RegisterNotLent);
    }
    let word = fixed.registers[number];
    Ok(put_word(fixed.rows, cells, opcode::REG, word, place))
}

// getv N.
pub fn do_getv(
    fixed: Fixed,
    cells: &mut Cells,
    variables: &[u64; sizes::VARIABLE_COUNT],
    place: Place,
) -> Place
    requires { Here fixed.code.now cells.old getv 0x2c place.at place.height }
    ensures { DidCells fixed.entry.code.now place (held cells.old place.height) (getv_done variables.now (operand fixed.entry.code.now place.at)) (Ok result) cells.new }
{
    let number = isa::operand_at(fixed.code, place.at, 2) as usize;
    let word = variables[number];
    put_word(fixed.rows, cells, opcode::GETV, word, place)
}

// setv N: the cell stays.
pub fn do_setv(
    fixed: Fixed,
    cells: &Cells,
    variables: &mut [u64; sizes::VARIABLE_COUNT],
    place: Place,
) -> Place
    requires { Here fixed.code.now cells.now setv 0x2d place.at place.height }
    ensures moved { DidCells fixed.entry.code.now place (held cells.now place.height) (setv_done (held cells.now place.height)) (Ok result) cells.now }
    ensures set { variables.new ≡ set variables.old (operand fixed.entry.code.now place.at) (get_or (held cells.now place.height) 0 0) }
{
    let number = isa::operand_at(fixed.code, place.at, 2) as usize;
    variables[number] = Stack::below(cells, place.height, 0);
    next_place(fixed.rows, opcode::SETV, place)
}

// goto.
pub fn do_goto(fixed: Fixed, cells: &Cells, place: Place) -> Place
    requires { Here fixed.code.now cells.now goto 0x21 place.at place.height }
    ensures { DidCells fixed.entry.code.now place (held cells.now place.height) nothing_left (Ok result) cells.now }
{
    let at = isa::operand_at(fixed.code, place.at, 2) as usize;
    let height = height_of(fixed.rows, opcode::GOTO, place.height);
    Place {
        at,
        height,
        ..place
    }
}

// if_goto.
pub fn do_if_goto(fixed: Fixed, cells: &Cells, place: Place) -> Place
    requires { Here fixed.code.now cells.now if_goto 0x20 place.at place.height }
    ensures { DidCells fixed.entry.code.now place (held cells.now place.height) nothing_left (Ok result) cells.now }
{
    let cell = Stack::below(cells, place.height, 0);
    let height = height_of(fixed.rows, opcode::IF_GOTO, place.height);
    if cell == 0 {
        let at = next_of(fixed.rows, opcode::IF_GOTO, place.at);
        return Place {
            at,
            height,
            ..place
        };
    }
    let at = isa::operand_at(fixed.code, place.at, 2) as usize;
    Place {
        at,
        height,
        ..place
    }
}

// dup.
pub fn do_dup(fixed: Fixed, cells: &mut Cells, place: Place) -> Place
    requires { Here fixed.code.now cells.old dup 0x28 place.at place.height }
    ensures { DidCells fixed.entry.code.now place (held cells.old place.height) (dup_done (held cells.old place.height)) (Ok result) cells.new }
{
    let a = Stack::below(cells, place.height, 0);
    let lower = put_word(fixed.rows, cells, opcode::DUP, a, place);
    let height = Stack::replace(cells, lower.height, 0, a);
    Place { height, ..lower }
}

// pop.
pub fn do_pop(fixed: Fixed, cells: &Cells, place: Place) -> Place
    requires { Here fixed.code.now cells.now pop 0x29 place.at place.height }
    ensures { DidCells fixed.entry.code.now place (held cells.now place.height) nothing_left (Ok result) cells.now }
{
    next_place(fixed.rows, opcode::POP, place)
}

// swap.
pub fn do_swap(fixed: Fixed, cells: &mut Cells, place: Place) -> Place
    requires { Here fixed.code.now cells.old swap 0x2b place.at place.height }
    ensures { DidCells fixed.entry.code.now place (held cells.old place.height) (swap_done (held cells.old place.height)) (Ok result) cells.new }
{
    let b = Stack::below(cells, place.height, 0);
    let a = Stack::below(cells, place.height, 1);
    let lower = put_word(fixed.rows, cells, opcode::SWAP, b, place);
    let height = Stack::replace(cells, lower.height, 0, a);
    Place { height, ..lower }
}

// pick N: N more cells than in its row are needed and left. They stay where they are, and only the copy is put.
pub fn do_pick(fixed: Fixed, cells: &mut Cells, place: Place) -> Place
    requires { Here fixed.code.now cells.old pick 0x32 place.at place.height }
    ensures { DidCells fixed.entry.code.now place (held cells.old place.height) (pick_done (operand fixed.entry.code.now place.at) (held cells.old place.height)) (Ok result) cells.new }
{
    let depth = isa::operand_at(fixed.code, place.at, 1) as usize;
    let a = Stack::below(cells, place.height, depth);
    Place {
        at: next_of(fixed.rows, opcode::PICK, place.at),
        height: Stack::replace(cells, place.height, 0, a),
        put: place.put,
    }
}

// rot: a b c to c a b, with b on top.
pub fn do_rot(fixed: Fixed, cells: &mut Cells, place: Place) -> Place
    requires { Here fixed.code.now cells.old rot 0x33 place.at place.height }
    ensures { DidCells fixed.entry.code.now place (held cells.old place.height) (rot_done (held cells.old place.height)) (Ok result) cells.new }
{
    let c = Stack::below(cells, place.height, 0);
    let b = Stack::below(cells, place.height, 1);
    let a = Stack::below(cells, place.height, 2);
    let first = put_word(fixed.rows, cells, opcode::ROT, c, place);
    let second = Stack::replace(cells, first.height, 0, a);
    let height = Stack::replace(cells, second, 0, b);
    Place { height, ..first }
}

// The instruction table, decoding, and the stack's limits.
#![tactic(auto)]

pub mod opcode;

ghost use Rattle.std.specs.Prelude.{◌∷◌, ◌≡◌, ◌+◌, ◌≤◌, ◌<◌, ◌^◌, ◌-◌, length, get_or, map, replicate, drop};
ghost use Rattle.sizes.specs.Sizes.{stack_cells};
ghost use Rattle.logic.specs.Tests.{Decides};
ghost use Rattle.isa.specs.Joining.Held.{held};
ghost use Rattle.isa.specs.Joining.Rows.{kind_of, table, line_of, IsRow};
ghost use Rattle.isa.specs.Decode.{operand_bytes, operand, next, picked, is_jump, goes_on};

// Which rule of the verifier singles an instruction out. Those before `Plain` have a rule in pass 1, those after it in
// passes 2 and 3; `Plain` is every other supported instruction.
#[derive(Clone, Copy, PartialEq, Eq, PartialOrd, Ord)]
pub enum Kind {
    Unknown,
    Unsupported,
    Ext,
    Variable,
    Plain,
    Pick,
    Goto,
    IfGoto,
    End,
}

impl Kind {
    // Whether it is a jump.
    pub fn is_jump(self) -> bool
        ensures { result ≡ is_jump (kind_of self) }
    {
        matches!(self, Kind::Goto | Kind::IfGoto)
    }

    // Whether the next start may follow.
    pub fn goes_on(self) -> bool
        ensures { result ≡ goes_on (kind_of self) }
    {
        !matches!(self, Kind::Goto | Kind::End)
    }
}

// What the table says of an opcode: operand bytes, cells needed, cells left in their place, kind. The row of pick is
// for N = 0.
#[derive(Clone, Copy)]
pub struct Row {
    pub operands: u8,
    pub needed: u8,
    pub left: u8,
    pub kind: Kind,
}

// The row of an opcode that has none.
const UNKNOWN: Row = Row {
    operands: 0,
    needed: 0,
    left: 0,
    kind: Kind::Unknown,
};

macro_rules! row {
    ($operands:literal, $needed:literal, $left:literal, $kind:ident) => {
        Row {
            operands: $operands,
            needed: $needed,
            left: $left,
            kind: Kind::$kind,
        }
    };
}

// The table by opcode, up to the last one that has a row. As a constant it would be built anew wherever it is named.
static TABLE: [Row; 53] = [
    row!(0, 0, 0, Unknown), // 00 unknown
    row!(0, 0, 0, Unsupported), // 01 unsupported
    row!(0, 2, 1, Plain), // 02 add
    row!(0, 2, 1, Plain), // 03 sub
    row!(0, 2, 1, Plain), // 04 mul
    row!(0, 2, 1, Plain), // 05 div_signed
    row!(0, 2, 1, Plain), // 06 div_unsigned
    row!(0, 2, 1, Plain), // 07 rem_signed
    row!(0, 2, 1, Plain), // 08 rem_unsigned
    row!(0, 2, 1, Plain), // 09 lsh
    row!(0, 2, 1, Plain), // 0a rsh_signed
    row!(0, 2, 1, Plain), // 0b rsh_unsigned
    row!(0, 2, 0, Plain), // 0c trace
    row!(1, 1, 1, Plain), // 0d trace_quick
    row!(0, 1, 1, Plain), // 0e log_not
    row!(0, 2, 1, Plain), // 0f bit_and
    row!(0, 2, 1, Plain), // 10 bit_or
    row!(0, 2, 1, Plain), // 11 bit_xor
    row!(0, 1, 1, Plain), // 12 bit_not
    row!(0, 2, 1, Plain), // 13 equal
    row!(0, 2, 1, Plain), // 14 less_signed
    row!(0, 2, 1, Plain), // 15 less_unsigned
    row!(1, 1, 1, Ext), // 16 ext
    row!(0, 1, 1, Plain), // 17 ref8
    row!(0, 1, 1, Plain), // 18 ref16
    row!(0, 1, 1, Plain), // 19 ref32
    row!(0, 1, 1, Plain), // 1a ref64
    row!(0, 0, 0, Unsupported), // 1b unsupported
    row!(0, 0, 0, Unsupported), // 1c unsupported
    row!(0, 0, 0, Unsupported), // 1d unsupported
    row!(0, 0, 0, Unsupported), // 1e unsupported
    row!(0, 0, 0, Unsupported), // 1f unsupported
    row!(2, 1, 0, IfGoto), // 20 if_goto
    row!(2, 0, 0, Goto), // 21 goto
    row!(1, 0, 1, Plain), // 22 const8
    row!(2, 0, 1, Plain), // 23 const16
    row!(4, 0, 1, Plain), // 24 const32
    row!(8, 0, 1, Plain), // 25 const64
    row!(2, 0, 1, Plain), // 26 reg
    row!(0, 0, 0, End), // 27 end
    row!(0, 1, 2, Plain), // 28 dup
    row!(0, 1, 0, Plain), // 29 pop
    row!(1, 1, 1, Plain), // 2a zero_ext
    row!(0, 2, 2, Plain), // 2b swap
    row!(2, 0, 1, Variable), // 2c getv
    row!(2, 1, 1, Variable), // 2d setv
    row!(2, 0, 1, Variable), // 2e tracev
    row!(0, 2, 0, Plain), // 2f tracenz
    row!(2, 1, 1, Plain), // 30 trace16
    row!(0, 0, 0, Unknown), // 31 unknown
    row!(1, 1, 2, Pick), // 32 pick
    row!(0, 3, 3, Plain), // 33 rot
    row!(0, 0, 0, Unsupported), // 34 unsupported
];

// The rows that the code keeps: they are the table.
#[derive(Clone, Copy)]
pub struct Rows {
    rows: &'static [Row; 53],
    ghost are_table: { map line_of rows.now ≡ table },
}

impl Rows {
    pub fn new() -> Rows {
        Rows { rows: &TABLE }
    }

    // The row of an opcode that has one.
    pub fn known(&self, opcode: u8) -> Row
        requires opcode { opcode < 53 }
        ensures { IsRow opcode result }
    {
        self.rows[opcode as usize]
    }

    // The row of any opcode.
    pub fn of(&self, opcode: u8) -> Row
        ensures { IsRow opcode result }
    {
        if opcode < 53 {
            return self.known(opcode);
        }
        UNKNOWN
    }
}

// The row of any opcode, for a caller that holds no rows.
pub fn look_up(opcode: u8) -> Row
    ensures { IsRow opcode result }
{
    Rows::new().of(opcode)
}

// The operand of the instruction at `at`, all of whose `count` operand bytes are there.
pub fn operand_at(e: &[u8], at: usize, count: usize) -> u64
    requires count { count ≡ operand_bytes e.now at }
    requires within { next e.now at ≤ length e.now }
    ensures { (result ≡ operand e.now at) × (result < 256 ^ count) }
{
    encoding::big_endian(e, at + 1, count)
}

// The N of pick N, which comes on top of its row, or 0.
pub fn picked_at(row: Row, e: &[u8], at: usize) -> usize
    requires within { next e.now at ≤ length e.now }
    requires row { IsRow (get_or e.now at 0) row }
    ensures { (result ≡ picked e.now at) × (result < 256) }
{
    if row.kind == Kind::Pick {
        return operand_at(e, at, 1) as usize;
    }
    0
}

// The cells of a run.
pub type Cells = [u64; Stack::DEPTH];

// The cells of a run, and their height. The verifier uses its limits, the runner its cells too. The functions take the
// height beside the cells: it stays in a register, where a field behind a reference is stored at each step.
#[derive(Drop)]
pub struct Stack {
    pub cells: Cells,
    pub height: usize,
}

impl Stack {
    pub const DEPTH: usize = sizes::STACK_CELLS;

    pub fn empty() -> Stack
        ensures { (result.height ≡ 0) × (result.cells ≡ replicate stack_cells 0) }
    {
        Stack {
            cells: [0u64; Stack::DEPTH],
            height: 0,
        }
    }

    // Whether so many cells fit.
    pub fn fits(height: usize) -> bool
        ensures { Decides result height stack_cells }
    {
        height <= Stack::DEPTH
    }

    // Whether a stack of that height has the cells needed.
    pub fn has(height: usize, needed: usize) -> bool
        ensures { Decides result needed height }
    {
        needed <= height
    }

    // The cell `depth` below the top.
    pub fn below(cells: &Cells, height: usize, depth: usize) -> u64
        requires depth { depth < height }
        requires height { height ≤ stack_cells }
        ensures { result ≡ get_or (held cells.now height) depth 0 }
    {
        cells[height - 1 - depth]
    }

    // Puts `cell` in the place of the `count` topmost ones. The answer is the new height.
    pub fn replace(cells: &mut Cells, height: usize, count: usize, cell: u64) -> usize
        requires count { count ≤ height }
        requires room { height - count < stack_cells }
        requires cells { length cells.old ≡ stack_cells }
        ensures { (result ≡ height - count + 1) × (held cells.new result ≡ cell ∷ drop count (held cells.old height)) × (length cells.new ≡ stack_cells) }
    {
        cells[height - count] = cell;
        height - count + 1
    }
}

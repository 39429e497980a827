// The keys of `step`'s arms, by GDB's names: opcode and 0xc0.
use isa::opcode;

pub const ADD: u8 = opcode::ADD + 0xc0;

pub const SUB: u8 = opcode::SUB + 0xc0;

pub const MUL: u8 = opcode::MUL + 0xc0;

pub const DIV_SIGNED: u8 = opcode::DIV_SIGNED + 0xc0;

pub const DIV_UNSIGNED: u8 = opcode::DIV_UNSIGNED + 0xc0;

pub const REM_SIGNED: u8 = opcode::REM_SIGNED + 0xc0;

pub const REM_UNSIGNED: u8 = opcode::REM_UNSIGNED + 0xc0;

pub const LSH: u8 = opcode::LSH + 0xc0;

pub const RSH_SIGNED: u8 = opcode::RSH_SIGNED + 0xc0;

pub const RSH_UNSIGNED: u8 = opcode::RSH_UNSIGNED + 0xc0;

pub const TRACE: u8 = opcode::TRACE + 0xc0;

pub const TRACE_QUICK: u8 = opcode::TRACE_QUICK + 0xc0;

pub const LOG_NOT: u8 = opcode::LOG_NOT + 0xc0;

pub const BIT_AND: u8 = opcode::BIT_AND + 0xc0;

pub const BIT_OR: u8 = opcode::BIT_OR + 0xc0;

pub const BIT_XOR: u8 = opcode::BIT_XOR + 0xc0;

pub const BIT_NOT: u8 = opcode::BIT_NOT + 0xc0;

pub const EQUAL: u8 = opcode::EQUAL + 0xc0;

pub const LESS_SIGNED: u8 = opcode::LESS_SIGNED + 0xc0;

pub const LESS_UNSIGNED: u8 = opcode::LESS_UNSIGNED + 0xc0;

pub const EXT: u8 = opcode::EXT + 0xc0;

pub const REF8: u8 = opcode::REF8 + 0xc0;

pub const REF16: u8 = opcode::REF16 + 0xc0;

pub const REF32: u8 = opcode::REF32 + 0xc0;

pub const REF64: u8 = opcode::REF64 + 0xc0;

pub const IF_GOTO: u8 = opcode::IF_GOTO + 0xc0;

pub const GOTO: u8 = opcode::GOTO + 0xc0;

pub const CONST8: u8 = opcode::CONST8 + 0xc0;

pub const CONST16: u8 = opcode::CONST16 + 0xc0;

pub const CONST32: u8 = opcode::CONST32 + 0xc0;

pub const CONST64: u8 = opcode::CONST64 + 0xc0;

pub const REG: u8 = opcode::REG + 0xc0;

pub const END: u8 = opcode::END + 0xc0;

pub const DUP: u8 = opcode::DUP + 0xc0;

pub const POP: u8 = opcode::POP + 0xc0;

pub const ZERO_EXT: u8 = opcode::ZERO_EXT + 0xc0;

pub const SWAP: u8 = opcode::SWAP + 0xc0;

pub const GETV: u8 = opcode::GETV + 0xc0;

pub const SETV: u8 = opcode::SETV + 0xc0;

pub const TRACEV: u8 = opcode::TRACEV + 0xc0;

pub const TRACENZ: u8 = opcode::TRACENZ + 0xc0;

pub const TRACE16: u8 = opcode::TRACE16 + 0xc0;

pub const PICK: u8 = opcode::PICK + 0xc0;

pub const ROT: u8 = opcode::ROT + 0xc0;

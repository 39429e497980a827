// A line of a listing, read: an offset, which may be left out, a name, and an operand if the instruction has one.
ghost use Rattle.std.specs.Prelude.{◌≡◌, ◌≤◌, T, length, drop, Some, Ok};
ghost use Rattle.listing.specs.Numbers.{is_width};
ghost use Rattle.listing.specs.Line.{wrong, line_ended, from_operand, from_name, read_line, read_answer, read_left, taken, read_end};

use crate::numbers::{fits, signed};
use encoding::put_big;
use instruction_text::names::opcode_of;
use isa::Kind;
use line_words::next_word;
use line_words::numbers::{Base, NumberError, is_digit, unsigned};
use text_buffer::TextBuffer;

// Why a line is refused.
#[derive(Clone, Copy)]
pub enum LineFault {
    WrongOffset,
    NoName,
    UnknownName,
    NoOperand,
    NotNumber,
    TooLarge,
    Trailing,
}

// A fault, at a column counted from 0.
#[derive(Clone, Copy)]
pub struct Fault {
    pub reason: LineFault,
    pub column: usize,
}

// An opcode with its number of operand bytes and its operand.
#[derive(Clone, Copy)]
pub struct Instruction {
    pub opcode: u8,
    pub count: usize,
    pub operand: u64,
}

// Why no bytes of a line were written: the buffer has no room for them; or the line has a fault.
#[derive(Clone, Copy)]
pub enum Unread {
    NoRoom,
    Wrong(Fault),
}

fn wrong(reason: LineFault, column: usize) -> Result<Option<Instruction>, Fault>
    ensures { result ≡ wrong reason column }
{
    Err(Fault { reason, column })
}

// The instruction, if nothing follows from column `at` on.
fn ends(
    line: &[u8],
    at: usize,
    opcode: u8,
    count: usize,
    operand: u64,
) -> Result<Option<Instruction>, Fault>
    requires { at ≤ length line.now }
    ensures { result ≡ line_ended opcode count operand at (drop at line.now) }
{
    let word = next_word(line, at);
    let start = word.start;
    if start == word.end {
        return Ok(Some(Instruction {
            opcode,
            count,
            operand,
        }));
    }
    wrong(LineFault::Trailing, start)
}

fn read_operand(
    line: &[u8],
    at: usize,
    opcode: u8,
    count: usize,
) -> Result<Option<Instruction>, Fault>
    requires at { at ≤ length line.now }
    requires width { T (is_width count) }
    ensures { result ≡ from_operand opcode count at (drop at line.now) }
{
    let word = next_word(line, at);
    let start = word.start;
    let end = word.end;
    if start == end {
        return wrong(LineFault::NoOperand, start);
    }
    match signed(&line[start..end]) {
        Err(NumberError::Not) => wrong(LineFault::NotNumber, start),
        Err(NumberError::Large) => wrong(LineFault::TooLarge, start),
        Ok(v) => {
            if fits(v, count) {
                return ends(line, end, opcode, count, v);
            }
            wrong(LineFault::TooLarge, start)
        }
    }
}

fn read_name(line: &[u8], at: usize) -> Result<Option<Instruction>, Fault>
    requires { at ≤ length line.now }
    ensures { result ≡ from_name at (drop at line.now) }
{
    let word = next_word(line, at);
    let start = word.start;
    let end = word.end;
    if start == end {
        return wrong(LineFault::NoName, start);
    }
    let Some(opcode) = opcode_of(&line[start..end]) else {
        return wrong(LineFault::UnknownName, start);
    };
    let row = isa::look_up(opcode);
    let count = row.operands as usize;
    match row.kind {
        Kind::Unknown | Kind::Unsupported => wrong(LineFault::UnknownName, start),
        _ => {
            if count == 0 {
                return ends(line, end, opcode, 0, 0);
            }
            read_operand(line, end, opcode, count)
        }
    }
}

// What the line of the instruction at offset `at` says.
pub fn read_line(line: &[u8], at: usize) -> Result<Option<Instruction>, Fault>
    ensures { result ≡ read_line at line.now }
{
    let word = next_word(line, 0);
    let start = word.start;
    let end = word.end;
    if start == end {
        return Ok(None);
    }
    if !is_digit(line[start], Base::Decimal) {
        return read_name(line, 0);
    }
    match unsigned(&line[start..end], Base::Decimal) {
        Err(_) => wrong(LineFault::WrongOffset, start),
        Ok(v) => {
            if v == at as u64 {
                return read_name(line, end);
            }
            wrong(LineFault::WrongOffset, start)
        }
    }
}

// Appends the bytes of an instruction. They stay in the buffer that was lent (`lent`), where its lender finds them.
fn store(code: &mut TextBuffer, instruction: Instruction) -> Result<(), Unread>
    ensures answer { result ≡ taken (read_answer (Ok (Some instruction)) code.old.end code.old.bytes.now) }
    ensures end { code.new.end ≡ read_end (Ok (Some instruction)) code.old.end code.old.bytes.now }
    ensures bytes { code.new.bytes.now ≡ read_left (Ok (Some instruction)) code.old.end code.old.bytes.now }
    ensures within { code.old.end ≤ length code.old.bytes.now → code.new.end ≤ length code.new.bytes.now }
    ensures lent { code.new.bytes.ghost_name ≡ code.old.bytes.ghost_name }
{
    let at = code.end;
    let count = instruction.count;
    if code.bytes.len() < at {
        return Err(Unread::NoRoom);
    }
    if code.bytes.len() - at <= count {
        return Err(Unread::NoRoom);
    }
    code.bytes[at] = instruction.opcode;
    put_big(code.bytes, at + 1, instruction.operand, count);
    code.end = at + 1 + count;
    Ok(())
}

// Appends the bytes of the line of the instruction whose offset is the end of the bytes so far.
pub fn read_instruction(line: &[u8], code: &mut TextBuffer) -> Result<(), Unread>
    ensures answer { result ≡ taken (read_answer (read_line code.old.end line.now) code.old.end code.old.bytes.now) }
    ensures end { code.new.end ≡ read_end (read_line code.old.end line.now) code.old.end code.old.bytes.now }
    ensures bytes { code.new.bytes.now ≡ read_left (read_line code.old.end line.now) code.old.end code.old.bytes.now }
    ensures within { code.old.end ≤ length code.old.bytes.now → code.new.end ≤ length code.new.bytes.now }
    ensures lent { code.new.bytes.ghost_name ≡ code.old.bytes.ghost_name }
{
    match read_line(line, code.end) {
        Ok(Some(instruction)) => store(code, instruction),
        Ok(None) => Ok(()),
        Err(fault) => Err(Unread::Wrong(fault)),
    }
}

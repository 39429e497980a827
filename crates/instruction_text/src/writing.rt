// An instruction, written as GDB's `maint agent` prints it.
ghost use Rattle.std.specs.Prelude.{true, ◌≡◌, ◌<◌, ◌≤◌, length, IfOk};
ghost use Rattle.text_buffer.specs.Text.{Appends};
ghost use Rattle.text_buffer.specs.Decimal.{decimal};
ghost use Rattle.instruction_text.specs.Text.{aligned, operand_text, named_at, text_at, is_instruction, plain_at, written_answer, written_left};

use crate::names::append_name;
use isa::Kind;
use phrases::numbers::append_signed;
use text_buffer::TextBuffer;

// Why no text is written: there is no instruction; or the buffer has no room for its text.
#[derive(Clone, Copy)]
pub enum Unwritten {
    NoInstruction,
    NoRoom,
}

// Appends an offset in three columns, or as many as it needs.
fn append_offset(text: &mut TextBuffer, offset: u64)
    ensures text { Appends text.old.bytes.now text.old.end (aligned (decimal offset)) text.new.bytes.now text.new.end }
    ensures lent { text.new.bytes.ghost_name ≡ text.old.bytes.ghost_name }
{
    if offset < 10 {
        text.append(b"  ");
        text.append_number(offset);
        return;
    }
    if offset < 100 {
        text.append(b" ");
        text.append_number(offset);
        return;
    }
    text.append_number(offset);
}

fn append_operand(text: &mut TextBuffer, count: usize, value: u64)
    ensures text { Appends text.old.bytes.now text.old.end (operand_text count value) text.new.bytes.now text.new.end }
    ensures lent { text.new.bytes.ghost_name ≡ text.old.bytes.ghost_name }
{
    if count == 0 {
        text.append(b"");
        return;
    }
    text.append(b" ");
    append_signed(text, value);
}

// Whether a supported instruction starts at an offset, with all its bytes.
pub fn is_instruction(code: &[u8], at: usize) -> bool
    ensures { result ≡ is_instruction code.now at }
{
    if code.len() <= at {
        return false;
    }
    let row = isa::look_up(code[at]);
    match row.kind {
        Kind::Unknown | Kind::Unsupported => false,
        _ => usize::from(row.operands) < code.len() - at,
    }
}

// The instruction at an offset without the offset: `const8 5`.
fn append_named(text: &mut TextBuffer, code: &[u8], offset: usize)
    requires { is_instruction code.now offset ≡ true }
    ensures text { Appends text.old.bytes.now text.old.end (named_at code.now offset) text.new.bytes.now text.new.end }
    ensures lent { text.new.bytes.ghost_name ≡ text.old.bytes.ghost_name }
{
    let opcode = code[offset];
    let count = usize::from(isa::look_up(opcode).operands);
    let operand = isa::operand_at(code, offset, count);
    append_name(text, opcode);
    append_operand(text, count, operand);
}

// The same for any offset: nothing where no instruction starts.
pub fn append_plain(text: &mut TextBuffer, code: &[u8], offset: usize)
    ensures text { Appends text.old.bytes.now text.old.end (plain_at code.now offset) text.new.bytes.now text.new.end }
    ensures lent { text.new.bytes.ghost_name ≡ text.old.bytes.ghost_name }
{
    if !is_instruction(code, offset) {
        text.append(b"");
        return;
    }
    append_named(text, code, offset);
}

fn append_instruction(text: &mut TextBuffer, code: &[u8], at: usize)
    requires { is_instruction code.now at ≡ true }
    ensures text { Appends text.old.bytes.now text.old.end (text_at code.now at) text.new.bytes.now text.new.end }
    ensures lent { text.new.bytes.ghost_name ≡ text.old.bytes.ghost_name }
    ensures short { length (text_at code.now at) < 64 }
{
    append_offset(text, at as u64);
    text.append(b"  ");
    append_named(text, code, at);
    text.append(b"\n");
}

// Puts the text of the instruction at offset `at` at the start of `out`, and answers its length.
pub fn write_instruction(code: &[u8], at: usize, out: &mut [u8]) -> Result<usize, Unwritten>
    ensures answer { result ≡ written_answer code.now at out.old }
    ensures text { out.new ≡ written_left code.now at out.old }
    ensures within { IfOk result (λ n. n ≤ length out.new) }
{
    if !is_instruction(code, at) {
        return Err(Unwritten::NoInstruction);
    }
    let mut line = [0u8; 64];
    let mut text = TextBuffer::new(&mut line);
    append_instruction(&mut text, code, at);
    let n = text.end;
    if out.len() < n {
        return Err(Unwritten::NoRoom);
    }
    encoding::put_bytes(out, 0, text.written());
    Ok(n)
}

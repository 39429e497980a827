// The verdict on an expression.
ghost use Rattle.std.specs.Prelude.{◌≡◌};
ghost use Rattle.io.specs.Counts.{IsPrefixLen};
ghost use Rattle.text_buffer.specs.Text.{Appends};
ghost use Rattle.refusals.specs.Refusal.{told};
ghost use Rattle.verdict.specs.Verdict.{verdict_of};
ghost use Rattle.heights.specs.Arrivals.{height_or_mark};
ghost use Rattle.verify_lines.specs.Verdict.{accepted_text, opcode_text, there_text, instruction_of, refused_line, verdict_text, height_text};

use instruction_text::names::append_name;
use instruction_text::writing::{append_plain, is_instruction};
use isa::Kind;
use phrases::numbers::append_count;
use phrases::refused::{append_refusal, append_refused_at};
use refusals::{Reason, Refusal};
use text_buffer::TextBuffer;
use verdict::Accepted;

fn append_accepted(text: &mut TextBuffer, accepted: Accepted)
    ensures count { IsPrefixLen text.new.end text.new.bytes.now }
    ensures text { Appends text.old.bytes.now text.old.end (accepted_text accepted.count accepted.greatest accepted.longest) text.new.bytes.now text.new.end }
    ensures lent { text.new.bytes.ghost_name ≡ text.old.bytes.ghost_name }
{
    text.append(b"accepted: ");
    append_count(text, accepted.count as u64, b"instruction");
    text.append(b", greatest height ");
    text.append_number(u64::from(accepted.greatest));
    text.append(b", longest walk ");
    text.append_number(accepted.longest as u64);
    text.append(b"\n");
}

fn append_opcode(text: &mut TextBuffer, opcode: u8)
    ensures count { IsPrefixLen text.new.end text.new.bytes.now }
    ensures text { Appends text.old.bytes.now text.old.end (opcode_text opcode) text.new.bytes.now text.new.end }
    ensures lent { text.new.bytes.ghost_name ≡ text.old.bytes.ghost_name }
{
    if isa::look_up(opcode).kind == Kind::Unknown {
        text.append(b" (opcode ");
        hexadecimal::append_byte(text, opcode);
        text.append(b")");
        return;
    }
    text.append(b" (");
    append_name(text, opcode);
    text.append(b")");
}

// What stands at an offset: the instruction, or the opcode where no whole supported instruction does.
fn append_there(text: &mut TextBuffer, code: &[u8], offset: usize)
    ensures count { IsPrefixLen text.new.end text.new.bytes.now }
    ensures text { Appends text.old.bytes.now text.old.end (there_text code.now offset) text.new.bytes.now text.new.end }
    ensures lent { text.new.bytes.ghost_name ≡ text.old.bytes.ghost_name }
{
    if code.len() <= offset {
        text.append(b"");
        return;
    }
    if !is_instruction(code, offset) {
        append_opcode(text, code[offset]);
        return;
    }
    text.append(b" (");
    append_plain(text, code, offset);
    text.append(b")");
}

// Refusal 1 is of no instruction.
fn append_instruction(text: &mut TextBuffer, code: &[u8], refusal: Refusal)
    ensures count { IsPrefixLen text.new.end text.new.bytes.now }
    ensures text { Appends text.old.bytes.now text.old.end (instruction_of code.now (told refusal)) text.new.bytes.now text.new.end }
    ensures lent { text.new.bytes.ghost_name ≡ text.old.bytes.ghost_name }
{
    match refusal.reason {
        Reason::ExpressionSize => text.append(b""),
        _ => append_there(text, code, refusal.offset),
    }
}

fn append_refused(text: &mut TextBuffer, code: &[u8], refusal: Refusal)
    ensures count { IsPrefixLen text.new.end text.new.bytes.now }
    ensures text { Appends text.old.bytes.now text.old.end (refused_line code.now (told refusal)) text.new.bytes.now text.new.end }
    ensures lent { text.new.bytes.ghost_name ≡ text.old.bytes.ghost_name }
{
    let number = refusal.reason.number();
    append_refused_at(text, number, refusal.offset);
    append_instruction(text, code, refusal);
    text.append(b": ");
    append_refusal(text, number);
    text.append(b"\n");
}

// Appends what the verifier answers on an expression.
pub fn append_verdict(text: &mut TextBuffer, code: &[u8], answer: Result<Accepted, Refusal>)
    ensures count { IsPrefixLen text.new.end text.new.bytes.now }
    ensures text { Appends text.old.bytes.now text.old.end (verdict_text code.now (verdict_of answer)) text.new.bytes.now text.new.end }
    ensures lent { text.new.bytes.ghost_name ≡ text.old.bytes.ghost_name }
{
    match answer {
        Ok(accepted) => append_accepted(text, accepted),
        Err(refusal) => append_refused(text, code, refusal),
    }
}

// Appends the height beside an instruction of a listing, where it is reached. The mark of the tables says that it is not.
pub fn append_height(text: &mut TextBuffer, height: Option<u8>)
    ensures count { IsPrefixLen text.new.end text.new.bytes.now }
    ensures text { Appends text.old.bytes.now text.old.end (height_text (height_or_mark height)) text.new.bytes.now text.new.end }
    ensures lent { text.new.bytes.ghost_name ≡ text.old.bytes.ghost_name }
{
    match height {
        Some(height) if height != verdict::UNREACHED => {
            text.append(b"# height ");
            text.append_number(u64::from(height));
            text.append(b"\n");
        }
        _ => text.append(b"# not reached\n"),
    }
}

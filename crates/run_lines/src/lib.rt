// What came of a run, as lines of text.
#![tactic(auto)]

ghost use Rattle.std.specs.Prelude.{◌≡◌};
ghost use Rattle.io.specs.Counts.{IsPrefixLen};
ghost use Rattle.text_buffer.specs.Text.{Appends, bytes_of};
ghost use Rattle.refusals.specs.Numbers.{number_of};
ghost use Rattle.refusals.specs.Refusal.{told};
ghost use Rattle.runner.specs.Returned.{answer_of, returned_by};
ghost use Rattle.run_lines.specs.Outcome.{steps_text, cells_text, completed_by, fits_line, is_narrow, completed_text, is_of_instruction, instruction_line, refused_text, outcome_text, change_by, change_text, buffer_text};

pub mod notes;

use instruction_text::writing::{append_plain, is_instruction};
use phrases::numbers::{append_count, append_value};
use phrases::refused::{append_refusal, append_refused_at};
use refusals::{Reason, Refusal};
use runner::{Completed, Value};
use text_buffer::TextBuffer;

fn append_steps(text: &mut TextBuffer, steps: u64)
    ensures count { IsPrefixLen text.new.end text.new.bytes.now }
    ensures text { Appends text.old.bytes.now text.old.end (steps_text steps) text.new.bytes.now text.new.end }
    ensures lent { text.new.bytes.ghost_name ≡ text.old.bytes.ghost_name }
{
    text.append(b" after ");
    append_count(text, steps, b"step");
    text.append(b": ");
}

// The top, and the cell beneath behind what separates them.
fn append_cells(text: &mut TextBuffer, value: Value, between: &[u8])
    ensures count { IsPrefixLen text.new.end text.new.bytes.now }
    ensures text { Appends text.old.bytes.now text.old.end (cells_text (answer_of value) between.now) text.new.bytes.now text.new.end }
    ensures lent { text.new.bytes.ghost_name ≡ text.old.bytes.ghost_name }
{
    match value {
        Value::Nothing => text.append(b"no value"),
        Value::Top(top) => {
            text.append(b"top ");
            append_value(text, top);
        }
        Value::TopAndBeneath(top, beneath) => {
            text.append(b"top ");
            append_value(text, top);
            text.append(between);
            append_value(text, beneath);
        }
    }
}

fn append_completed_by(text: &mut TextBuffer, between: &[u8], value: Value, steps: u64)
    ensures count { IsPrefixLen text.new.end text.new.bytes.now }
    ensures text { Appends text.old.bytes.now text.old.end (completed_by between.now (answer_of value) steps) text.new.bytes.now text.new.end }
    ensures lent { text.new.bytes.ghost_name ≡ text.old.bytes.ghost_name }
{
    text.append(b"completed");
    append_steps(text, steps);
    append_cells(text, value, between);
    text.append(b"\n");
}

// Whether the answer fits one line of 100 columns, found by writing it.
fn is_narrow(value: Value, steps: u64) -> bool
    ensures { result ≡ is_narrow (answer_of value) steps }
{
    let mut room = [0u8; 160];
    let mut line = TextBuffer::new(&mut room);
    append_completed_by(&mut line, b", beneath ", value, steps);
    line.end <= 101
}

fn append_completed(text: &mut TextBuffer, value: Value, steps: u64)
    ensures count { IsPrefixLen text.new.end text.new.bytes.now }
    ensures text { Appends text.old.bytes.now text.old.end (completed_text (answer_of value) steps) text.new.bytes.now text.new.end }
    ensures lent { text.new.bytes.ghost_name ≡ text.old.bytes.ghost_name }
{
    if is_narrow(value, steps) {
        append_completed_by(text, b", beneath ", value, steps);
        return;
    }
    append_completed_by(text, b",\n  beneath ", value, steps);
}

// Every other reason is of the expression as a whole, or of spans, registers and buffer.
#[tactic(auto, unfolding(crate::specs::Outcome::is_of_instruction))]
fn is_of_instruction(reason: Reason) -> bool
    ensures { result ≡ is_of_instruction (number_of reason) }
{
    !matches!(
        reason,
        Reason::ExpressionSize
            | Reason::SpanPastEnd
            | Reason::SpansShare
            | Reason::RegistersMany
            | Reason::BufferBad
    )
}

// The instruction that is refused, in a line of its own: with the refusal it would not always fit one line.
fn append_instruction(text: &mut TextBuffer, code: &[u8], refusal: Refusal)
    ensures count { IsPrefixLen text.new.end text.new.bytes.now }
    ensures text { Appends text.old.bytes.now text.old.end (instruction_line code.now (told refusal)) text.new.bytes.now text.new.end }
    ensures lent { text.new.bytes.ghost_name ≡ text.old.bytes.ghost_name }
{
    if !is_of_instruction(refusal.reason) {
        text.append(b"");
        return;
    }
    if !is_instruction(code, refusal.offset) {
        text.append(b"");
        return;
    }
    text.append(b"  instruction: ");
    append_plain(text, code, refusal.offset);
    text.append(b"\n");
}

fn append_refused(text: &mut TextBuffer, code: &[u8], refusal: Refusal)
    ensures count { IsPrefixLen text.new.end text.new.bytes.now }
    ensures text { Appends text.old.bytes.now text.old.end (refused_text code.now (told refusal)) text.new.bytes.now text.new.end }
    ensures lent { text.new.bytes.ghost_name ≡ text.old.bytes.ghost_name }
{
    let number = refusal.reason.number();
    append_refused_at(text, number, refusal.offset);
    append_steps(text, refusal.steps);
    append_refusal(text, number);
    text.append(b"\n");
    append_instruction(text, code, refusal);
}

// Appends what a run of the expression returns.
pub fn append_outcome(text: &mut TextBuffer, code: &[u8], outcome: Result<Completed, Refusal>)
    ensures count { IsPrefixLen text.new.end text.new.bytes.now }
    ensures text { Appends text.old.bytes.now text.old.end (outcome_text code.now (returned_by outcome)) text.new.bytes.now text.new.end }
    ensures lent { text.new.bytes.ghost_name ≡ text.old.bytes.ghost_name }
{
    match outcome {
        Ok(completed) => append_completed(text, completed.value, completed.steps),
        Err(refusal) => append_refused(text, code, refusal),
    }
}

// The value before, and that after behind what separates them.
fn append_change_by(text: &mut TextBuffer, between: &[u8], number: usize, before: u64, after: u64)
    ensures count { IsPrefixLen text.new.end text.new.bytes.now }
    ensures text { Appends text.old.bytes.now text.old.end (change_by between.now number before after) text.new.bytes.now text.new.end }
    ensures lent { text.new.bytes.ghost_name ≡ text.old.bytes.ghost_name }
{
    text.append(b"  variable ");
    text.append_number(number as u64);
    text.append(b": ");
    append_value(text, before);
    text.append(between);
    append_value(text, after);
    text.append(b"\n");
}

// Whether a change fits one line of 100 columns, found by writing it.
fn is_change_narrow(number: usize, before: u64, after: u64) -> bool
    ensures { result ≡ fits_line (change_by (bytes_of " -> ") number before after) }
{
    let mut room = [0u8; 160];
    let mut line = TextBuffer::new(&mut room);
    append_change_by(&mut line, b" -> ", number, before, after);
    line.end <= 101
}

// Appends a variable that a run has changed: `  variable 3: 0 (0x0) -> 42 (0x2a)`.
pub fn append_change(text: &mut TextBuffer, number: usize, before: u64, after: u64)
    ensures count { IsPrefixLen text.new.end text.new.bytes.now }
    ensures text { Appends text.old.bytes.now text.old.end (change_text number before after) text.new.bytes.now text.new.end }
    ensures lent { text.new.bytes.ghost_name ≡ text.old.bytes.ghost_name }
{
    if is_change_narrow(number, before, after) {
        append_change_by(text, b" -> ", number, before, after);
        return;
    }
    append_change_by(text, b"\n    -> ", number, before, after);
}

// Appends how much of the buffer is used: `buffer: 21 of 65536 bytes used`.
pub fn append_buffer(text: &mut TextBuffer, used: usize, size: usize)
    ensures count { IsPrefixLen text.new.end text.new.bytes.now }
    ensures text { Appends text.old.bytes.now text.old.end (buffer_text used size) text.new.bytes.now text.new.end }
    ensures lent { text.new.bytes.ghost_name ≡ text.old.bytes.ghost_name }
{
    text.append(b"buffer: ");
    text.append_number(used as u64);
    text.append(b" of ");
    append_count(text, size as u64, b"byte");
    text.append(b" used\n");
}

// A step of a run as a line of text.
#![tactic(auto)]

ghost use Rattle.std.specs.Prelude.{◌≡◌, ◌≤◌, length};
ghost use Rattle.io.specs.Counts.{IsPrefixLen};
ghost use Rattle.text_buffer.specs.Text.{Appends};
ghost use Rattle.step_lines.specs.Step.{reading_text, cell_text, cells_text, more_text, stack_text};
ghost use Rattle.step_lines.specs.Step.{place_text, step_line, is_narrow, hidden_of, step_text};

use instruction_text::writing::append_plain;
use phrases::numbers::append_signed;
use text_buffer::TextBuffer;

// The signed reading, where it differs: `(-1)`.
fn append_reading(text: &mut TextBuffer, cell: u64)
    ensures count { IsPrefixLen text.new.end text.new.bytes.now }
    ensures text { Appends text.old.bytes.now text.old.end (reading_text cell) text.new.bytes.now text.new.end }
    ensures lent { text.new.bytes.ghost_name ≡ text.old.bytes.ghost_name }
{
    if cell < 9223372036854775808 {
        text.append(b"");
        return;
    }
    text.append(b"(");
    append_signed(text, cell);
    text.append(b")");
}

fn append_cell(text: &mut TextBuffer, cell: u64)
    ensures count { IsPrefixLen text.new.end text.new.bytes.now }
    ensures text { Appends text.old.bytes.now text.old.end (cell_text cell) text.new.bytes.now text.new.end }
    ensures lent { text.new.bytes.ghost_name ≡ text.old.bytes.ghost_name }
{
    text.append(b" ");
    text.append_number(cell);
    append_reading(text, cell);
}

fn append_cells(text: &mut TextBuffer, cells: &[u64])
    ensures count { IsPrefixLen text.new.end text.new.bytes.now }
    ensures text { Appends text.old.bytes.now text.old.end (cells_text cells.now) text.new.bytes.now text.new.end }
    ensures lent { text.new.bytes.ghost_name ≡ text.old.bytes.ghost_name }
{
    text.append(b"");
    for cell in cells {
        append_cell(text, *cell);
    }
}

fn append_more(text: &mut TextBuffer, hidden: usize)
    ensures count { IsPrefixLen text.new.end text.new.bytes.now }
    ensures text { Appends text.old.bytes.now text.old.end (more_text hidden) text.new.bytes.now text.new.end }
    ensures lent { text.new.bytes.ghost_name ≡ text.old.bytes.ghost_name }
{
    if hidden == 0 {
        text.append(b"");
        return;
    }
    text.append(b" (");
    text.append_number(hidden as u64);
    text.append(b" more)");
}

// The cells but for the lowest, of which it is told how many they are.
fn append_stack(text: &mut TextBuffer, cells: &[u64], hidden: usize)
    requires { hidden ≤ length cells.now }
    ensures count { IsPrefixLen text.new.end text.new.bytes.now }
    ensures text { Appends text.old.bytes.now text.old.end (stack_text cells.now hidden) text.new.bytes.now text.new.end }
    ensures lent { text.new.bytes.ghost_name ≡ text.old.bytes.ghost_name }
{
    if cells.is_empty() {
        text.append(b" empty");
        return;
    }
    append_more(text, hidden);
    append_cells(text, &cells[hidden..]);
}

fn append_place(text: &mut TextBuffer, step: u64, offset: usize)
    ensures count { IsPrefixLen text.new.end text.new.bytes.now }
    ensures text { Appends text.old.bytes.now text.old.end (place_text step offset) text.new.bytes.now text.new.end }
    ensures lent { text.new.bytes.ghost_name ≡ text.old.bytes.ghost_name }
{
    text.append(b"  step ");
    text.append_number(step);
    text.append(b": offset ");
    text.append_number(offset as u64);
    text.append(b", ");
}

fn append_line(
    text: &mut TextBuffer,
    step: u64,
    code: &[u8],
    offset: usize,
    cells: &[u64],
    hidden: usize,
)
    requires { hidden ≤ length cells.now }
    ensures count { IsPrefixLen text.new.end text.new.bytes.now }
    ensures text { Appends text.old.bytes.now text.old.end (step_line step code.now offset cells.now hidden) text.new.bytes.now text.new.end }
    ensures lent { text.new.bytes.ghost_name ≡ text.old.bytes.ghost_name }
{
    append_place(text, step, offset);
    append_plain(text, code, offset);
    text.append(b", stack");
    append_stack(text, cells, hidden);
    text.append(b"\n");
}

// Whether the line has at most 100 columns, found by writing it.
fn is_narrow(step: u64, code: &[u8], offset: usize, cells: &[u64], hidden: usize) -> bool
    requires { hidden ≤ length cells.now }
    ensures { result ≡ is_narrow step code.now offset cells.now hidden }
{
    let mut room = [0u8; 128];
    let mut line = TextBuffer::new(&mut room);
    append_line(&mut line, step, code, offset, cells, hidden);
    line.end <= 101
}

// How many of the lowest cells are not shown, so that the line has at most 100 columns.
fn hidden_cells(step: u64, code: &[u8], offset: usize, cells: &[u64]) -> usize
    ensures { (result ≡ hidden_of step code.now offset cells.now (length cells.now)) × (result ≤ length cells.now) }
{
    for hidden in 0..cells.len() {
        if is_narrow(step, code, offset, cells, hidden) {
            return hidden;
        }
    }
    cells.len()
}

// Appends where a run stands: after so many steps, before the instruction at the offset, with these cells on its
// stack, the top last. As many of them are shown as a line of 100 columns has room for.
pub fn append_step(text: &mut TextBuffer, step: u64, code: &[u8], offset: usize, cells: &[u64])
    ensures count { IsPrefixLen text.new.end text.new.bytes.now }
    ensures text { Appends text.old.bytes.now text.old.end (step_text step code.now offset cells.now) text.new.bytes.now text.new.end }
    ensures lent { text.new.bytes.ghost_name ≡ text.old.bytes.ghost_name }
{
    let hidden = hidden_cells(step, code, offset, cells);
    append_line(text, step, code, offset, cells, hidden);
}

// The whole answer of `verify`: the verdict, and a listing with the height beside each instruction.
ghost use Rattle.std.specs.Prelude.{true, List, Some, ◌≡◌, ℕ, ◌<◌, length, get_or, is_some, IfSome};
ghost use Rattle.std.specs.Option.{option_copied};
ghost use Rattle.io.specs.Counts.{IsPrefixLen};
ghost use Rattle.text_buffer.specs.Text.{Appends};
ghost use Rattle.sizes.specs.Sizes.{expression_most};
ghost use Rattle.verdict.specs.Verdict.{verdict};
ghost use Rattle.instruction_text.specs.Text.{is_instruction};
ghost use Rattle.heights.specs.Arrivals.{height_or_mark, IsNoMark, ArrivalsBy};
ghost use Rattle.verify_lines.specs.Listed.{cell_of, cells_of, HasCells, gap_text, beside_text, row_text, is_listed_of, listed_text, answer_text};

use crate::verdict_line::{append_height, append_verdict};
use heights::HeightTable;
use instruction_text::writing::{is_instruction, write_instruction};
use text_buffer::TextBuffer;

// Blanks up to the column of the heights, behind a text of `n` characters.
fn append_gap(text: &mut TextBuffer, n: usize)
    ensures count { IsPrefixLen text.new.end text.new.bytes.now }
    ensures text { Appends text.old.bytes.now text.old.end (gap_text n) text.new.bytes.now text.new.end }
    ensures lent { text.new.bytes.ghost_name ≡ text.old.bytes.ghost_name }
{
    let blanks = [b' '; 36];
    text.append(&blanks[n.min(35)..]);
}

// A line without its line feed, and the height beside it.
fn append_beside(text: &mut TextBuffer, line: &[u8], height: Option<u8>)
    requires { 0 < length line.now }
    ensures count { IsPrefixLen text.new.end text.new.bytes.now }
    ensures text { Appends text.old.bytes.now text.old.end (beside_text line.now (height_or_mark height)) text.new.bytes.now text.new.end }
    ensures lent { text.new.bytes.ghost_name ≡ text.old.bytes.ghost_name }
{
    let end = line.len() - 1;
    text.append(&line[..end]);
    append_gap(text, end);
    append_height(text, height);
}

// A row goes through a buffer of its own, which tells how long the text of the instruction is. The cell of its height is
// there where the expression was accepted.
fn append_row(text: &mut TextBuffer, code: &[u8], offset: usize, cell: Option<Option<u8>>)
    requires { is_instruction code.now offset ≡ true }
    ensures count { IsPrefixLen text.new.end text.new.bytes.now }
    ensures text { Appends text.old.bytes.now text.old.end (row_text code.now (is_some cell) (cell_of cell) offset) text.new.bytes.now text.new.end }
    ensures lent { text.new.bytes.ghost_name ≡ text.old.bytes.ghost_name }
{
    let mut line = [0u8; 64];
    let Ok(n) = write_instruction(code, offset, &mut line) else {
        text.append(b"");
        return;
    };
    match cell {
        Some(height) => append_beside(text, &line[..n], height),
        None => text.append(&line[..n]),
    }
}

fn is_row(code: &[u8], offset: usize) -> bool
    ensures { result ≡ is_listed_of code.now offset }
{
    offset < sizes::EXPRESSION_MOST && is_instruction(code, offset)
}

// What stands beside the row of an offset.
fn cell_at(heights: Option<&HeightTable>, offset: usize) -> Option<Option<u8>>
    requires offset { offset < expression_most }
    requires cells { IfSome (option_copied heights) HasCells }
    ensures { (is_some result ≡ is_some heights.entry) × (cell_of result ≡ get_or (cells_of (option_copied heights.entry)) offset 0) }
{
    Some(heights?[offset])
}

// The instructions up to the end, or to the first bytes that are none. The heights are those of an accepted expression.
// The next row's offset lies behind the operands of this one, so that no range has them.
fn append_listing(text: &mut TextBuffer, code: &[u8], heights: Option<&HeightTable>)
    requires at { IsPrefixLen text.old.end text.old.bytes.now }
    requires cells { IfSome (option_copied heights) HasCells }
    ensures count { IsPrefixLen text.new.end text.new.bytes.now }
    ensures text { Appends text.old.bytes.now text.old.end (listed_text code.now (cells_of (option_copied heights.entry)) (is_some heights.entry)) text.new.bytes.now text.new.end }
    ensures lent { text.new.bytes.ghost_name ≡ text.old.bytes.ghost_name }
{
    let mut k = 0;
    while is_row(code, k) {
        append_row(text, code, k, cell_at(heights, k));
        k += 1 + usize::from(isa::look_up(code[k]).operands);
    }
}

// Appends the whole answer on an expression. The cells of the heights are those of `heights`.
pub fn append_answer(text: &mut TextBuffer, code: &[u8], is_listed: bool)
    ensures count { IsPrefixLen text.new.end text.new.bytes.now }
    ensures text { (hs : List ℕ) × ArrivalsBy code.now (verdict code.now) hs × Appends text.old.bytes.now text.old.end (answer_text code.now (verdict code.now) hs is_listed) text.new.bytes.now text.new.end }
    ensures lent { text.new.bytes.ghost_name ≡ text.old.bytes.ghost_name }
{
    let mut heights = [None; sizes::EXPRESSION_MOST];
    let answer = heights::heights(code, &mut heights);
    append_verdict(text, code, answer);
    if !is_listed {
        return;
    }
    match answer {
        Ok(_) => append_listing(text, code, Some(&heights)),
        Err(_) => append_listing(text, code, None),
    }
}

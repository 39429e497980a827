// What GDB prints, divided into the listings of the places that an expression was compiled for.
ghost use Rattle.std.specs.Prelude.{◌≤◌, length, ◌≡◌};
ghost use Rattle.listing.specs.Parts.{is_scope, IsScopeFrom, IsPart};

use crate::whole::{begins_with, line_end};

// Where a part of a text is. The two are equal where there is none.
#[derive(Clone, Copy)]
pub struct Part {
    pub start: usize,
    pub end: usize,
}

fn is_scope(line: &[u8]) -> bool
    ensures { result ≡ is_scope line.now }
{
    begins_with(line, b"Scope:")
}

// Where the first line `Scope:` begins, of the lines from `at` on; the end of the text where there is none.
fn scope_from(text: &[u8], at: usize) -> usize
    requires { at ≤ length text.now }
    ensures { IsScopeFrom text.now at result }
{
    let mut start = at;
    // A place is counted by hand: it moves by a whole line, and is the answer.
    while start < text.len() {
        let end = line_end(text, start);
        if is_scope(&text[start..end]) {
            return start;
        }
        start = end;
    }
    start
}

// The first part from `at` on, which is the start of a line.
pub fn next_part(text: &[u8], at: usize) -> Part
    requires { at ≤ length text.now }
    ensures { IsPart text.now at result }
{
    let start = scope_from(text, at);
    if start == text.len() {
        return Part { start, end: start };
    }
    let end = scope_from(text, line_end(text, start));
    Part { start, end }
}

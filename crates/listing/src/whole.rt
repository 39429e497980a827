// A whole listing, read: lines with an instruction, headings, and comments.
ghost use Rattle.std.specs.Prelude.{◌≡◌, ◌<◌, ◌≤◌, length, take, take_while, IfOk};
ghost use Rattle.listing.specs.Line.{read_answer, read_left, taken, read_end};
ghost use Rattle.listing.specs.Meant.{is_not, begins, is_heading, before_comment, meant};
ghost use Rattle.listing.specs.Listing.{IsLine};
ghost use Rattle.listing.specs.Whole.{outcome};

use crate::reading::{Unread, read_instruction};
use text_buffer::TextBuffer;

// The first line that cannot be read, counted from 1, and why.
#[derive(Clone, Copy)]
pub struct ListingFault {
    pub line: usize,
    pub why: Unread,
}

// How many characters stand before the first `c`.
fn before(text: &[u8], c: u8) -> usize
    ensures { result ≡ length (take_while (is_not c) text.now) }
{
    text.iter().take_while(|x| **x != c).count()
}

pub(crate) fn begins_with(line: &[u8], word: &[u8]) -> bool
    ensures { result ≡ begins word.now line.now }
{
    line.starts_with(word)
}

// GDB prints two lines before the instructions, and `verify` an answer before them, and notes and the bytes behind.
#[tactic(auto, unfolding(crate::specs::Meant::is_heading, crate::specs::Meant::headings))]
fn is_heading(line: &[u8]) -> bool
    ensures { result ≡ is_heading line.now }
{
    begins_with(line, b"Scope:")
        || begins_with(line, b"Reg mask:")
        || begins_with(line, b"accepted: ")
        || begins_with(line, b"refused ")
        || begins_with(line, b"note: ")
        || begins_with(line, b"bytes ")
}

// The length of a line without its line feed and its comment.
fn before_comment(line: &[u8]) -> usize
    ensures { (take result line.now ≡ before_comment line.now) × (result ≤ length line.now) }
{
    let n = before(line, b'\n');
    before(&line[0..n], b'#')
}

// Appends the bytes of a line of the instruction whose offset is the end of the bytes so far.
fn take_line(line: &[u8], code: &mut TextBuffer) -> Result<(), Unread>
    ensures answer { result ≡ taken (read_answer (meant code.old.end line.now) code.old.end code.old.bytes.now) }
    ensures end { code.new.end ≡ read_end (meant code.old.end line.now) code.old.end code.old.bytes.now }
    ensures bytes { code.new.bytes.now ≡ read_left (meant code.old.end line.now) code.old.end code.old.bytes.now }
    ensures within { code.old.end ≤ length code.old.bytes.now → code.new.end ≤ length code.new.bytes.now }
    ensures lent { code.new.bytes.ghost_name ≡ code.old.bytes.ghost_name }
{
    if is_heading(line) {
        return Ok(());
    }
    let n = before_comment(line);
    read_instruction(&line[0..n], code)
}

// Where the line that starts at `start` ends, behind its line feed.
pub fn line_end(text: &[u8], start: usize) -> usize
    requires { start < length text.now }
    ensures { IsLine text.now start result }
{
    let end = start + before(&text[start..], b'\n');
    if end == text.len() {
        return end;
    }
    end + 1
}

// Puts the bytes of a listing at the start of `out`, up to the first line that cannot be read.
pub fn read_listing(text: &[u8], out: &mut [u8]) -> Result<usize, ListingFault>
    ensures answer { result ≡ (outcome text.now out.old).answer }
    ensures bytes { out.new ≡ (outcome text.now out.old).left }
    ensures within { IfOk result (λ n. n ≤ length out.new) }
{
    let mut code = TextBuffer::new(out);
    let mut start = 0;
    let mut line = 1;
    // Places are counted by hand: they move by a whole line; `next_part` divides a text by the same ends.
    while start < text.len() {
        let end = line_end(text, start);
        if let Err(why) = take_line(&text[start..end], &mut code) {
            return Err(ListingFault { line, why });
        }
        start = end;
        line += 1;
    }
    Ok(code.end)
}

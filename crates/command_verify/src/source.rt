// The text of one expression, and the bytes that it spells.
ghost use Rattle.std.specs.Prelude.{◌≤◌, length, IfSome};

use crate::words::{line_feeds, line_start, word_at};
use console_output::{Console, ErrorPlace, print_error_at};
use hexadecimal::HexError;
use listing::whole::line_end;

// It begins in a line of standard input; with no line it is the command line's.
#[derive(Clone, Copy)]
pub struct Source<'a> {
    pub console: &'a Console,
    pub text: &'a [u8],
    pub line: Option<u64>,
}

impl Source<'_> {
    fn print_at(self, feeds: usize, column: Option<u64>, word: &[u8], why: &[u8]) {
        let place = ErrorPlace {
            name: if self.line.is_some() { b"-" } else { b"HEX" },
            line: self.line.map(|line| line.wrapping_add(feeds as u64)),
            column,
            word,
        };
        print_error_at(self.console, place, why);
    }

    // A text of several lines has its faults in the line where they are; the command line counts as one.
    fn print_wrong(self, position: usize, why: &[u8]) {
        let mut feeds = 0;
        let mut start = 0;
        if self.line.is_some() {
            feeds = line_feeds(self.text.get(..position).unwrap_or(&[]));
            start = line_start(self.text, feeds.wrapping_add(1));
        }
        let column = position.wrapping_sub(start).wrapping_add(1) as u64;
        self.print_at(feeds, Some(column), word_at(self.text, position), why);
    }

    // Puts the bytes of the line from `at` to `end` at the start of a buffer; nothing where it is wrong, which is told.
    pub fn take_line(self, at: usize, end: usize, bytes: &mut [u8]) -> Option<usize>
        requires { (at ≤ end) × (end ≤ length self.text.now) }
        ensures { IfSome result (λ n. n ≤ length bytes.new) }
    {
        let read = expression_bytes::read(&self.text[at..end], bytes);
        if !read.fitting {
            let why = b"the length before the comma is not that of the bytes behind it";
            self.print_wrong(at, why);
            return None;
        }
        match read.answer {
            Ok(count) => return Some(count),
            Err(HexError::NotHex(position)) => self.print_wrong(
                at.wrapping_add(read.start).wrapping_add(position),
                b"not hexadecimal: write two digits, 0-9 or a-f, for each byte",
            ),
            Err(HexError::Odd) => self.print_wrong(
                end.wrapping_sub(1),
                b"a digit is left over: write two digits for each byte",
            ),
            Err(HexError::TooLong) => self.print_at(0, None, b"", b"more than 65536 bytes"),
        }
        None
    }

    // Puts the bytes of all lines, one expression, at the start of a buffer.
    pub fn take_lines(self, bytes: &mut [u8]) -> Option<usize>
        ensures { IfSome result (λ n. n ≤ length bytes.new) }
    {
        let mut n = 0;
        let mut at = 0;
        // A place is counted by hand: it moves by a whole line, and an error tells the place in the text.
        while at < self.text.len() {
            let end = line_end(self.text, at);
            n += self.take_line(at, end, &mut bytes[n..])?;
            at = end;
        }
        Some(n)
    }
}

// Listings as GDB's `maint agent` and `maint agent-eval` print them, from standard input, turned into bytes: one for each
// line `Scope:`, or one in all where there is no such line.
ghost use Rattle.std.specs.Prelude.{◌≤◌, length};

use crate::answer::Command;
use crate::input::load;
use crate::words::{line_feeds, line_start, word_at};
use console_output::{ErrorPlace, print, print_error_at};
use listing::parts::{Part, next_part};
use listing::reading::{Fault, LineFault, Unread};
use listing::whole::{ListingFault, read_listing};
use text_buffer::TextBuffer;

fn why(fault: LineFault) -> &'static [u8] {
    match fault {
        LineFault::WrongOffset => b"this is not the offset of the next instruction",
        LineFault::NoName => b"the name of an instruction is missing",
        LineFault::UnknownName => b"no supported instruction has this name",
        LineFault::NoOperand => b"the operand is missing",
        LineFault::NotNumber => b"the operand is not a decimal number",
        LineFault::TooLarge => b"the operand is too large",
        LineFault::Trailing => b"something follows the instruction",
    }
}

// What a line of a part says behind the word that it begins with; nothing where it begins with another. Lines are counted
// from 0.
fn behind<'a>(part: &'a [u8], line: usize, word: &[u8]) -> &'a [u8] {
    match part.split(|c| *c == b'\n').nth(line) {
        Some(text) => text.strip_prefix(word).unwrap_or(&[]),
        None => &[],
    }
}

impl Command<'_> {
    fn print_wrong(self, line: usize, column: Option<u64>, word: &[u8], why: &[u8]) {
        let place = ErrorPlace {
            name: b"-",
            line: Some(line as u64),
            column,
            word,
        };
        print_error_at(self.console, place, why);
    }

    // Room for the lines of 8,000 bytes, 200 of 87 characters (`bytes_length`, on the page of `verify_lines`).
    fn print_some(self, code: &[u8]) {
        let mut room = [0u8; 20480];
        let mut text = TextBuffer::new(&mut room);
        verify_lines::bytes::append_bytes(&mut text, code);
        print(self.console, text.written());
    }

    // By parts of whole lines, for a smaller stack.
    fn print_bytes(self, code: &[u8]) {
        for some in code.chunks(8000) {
            self.print_some(some);
        }
    }

    fn print_scope(self, part: &[u8]) {
        match line_words::numbers::number_of(word_at(behind(part, 0, b"Scope:"), 0)) {
            Ok(address) => {
                let mut room = [0u8; 64];
                let mut text = TextBuffer::new(&mut room);
                collection_notes::append_scope(&mut text, address);
                print(self.console, text.written());
            }
            _ => print(self.console, b"Scope:\n"),
        }
    }

    fn answer_bytes(self, code: &[u8], mask: &[u8]) {
        self.answer(code, mask);
        self.print_bytes(code);
    }

    // GDB prints the mask of registers behind the line `Scope:`. `line` lines stand before the part.
    fn answer_part(self, part: &[u8], code: &[u8], line: usize) -> bool {
        let mut mask = [0u8; 256];
        match hexadecimal::decode(behind(part, 1, b"Reg mask:"), &mut mask) {
            Ok(n) => {
                self.answer_bytes(code, &mask[..n]);
                true
            }
            _ => {
                let why = b"the mask of registers is not hexadecimal, or has more than 256 bytes";
                self.print_wrong(line.wrapping_add(2), None, b"", why);
                false
            }
        }
    }

    fn print_unread(self, part: &[u8], line: usize, fault: ListingFault) {
        let place = line.wrapping_add(fault.line);
        match fault.why {
            Unread::NoRoom => self.print_wrong(place, None, b"", b"more than 65536 bytes"),
            Unread::Wrong(Fault { reason, column }) => {
                let word = word_at(part, line_start(part, fault.line).wrapping_add(column));
                let column = (column as u64).wrapping_add(1);
                self.print_wrong(place, Some(column), word, why(reason));
            }
        }
    }

    // Whether the listing of a part could be read. `line` lines stand before it.
    fn read_part(self, part: &[u8], line: usize, is_named: bool) -> bool {
        let mut bytes = io::large_buffer();
        match read_listing(part, &mut bytes) {
            Ok(n) => {
                if is_named {
                    self.print_scope(part);
                }
                self.answer_part(part, &bytes[..n], line)
            }
            Err(fault) => {
                self.print_unread(part, line, fault);
                false
            }
        }
    }

    // Each part from `at` on, up to the first that cannot be read. The lines before it are counted along.
    fn read_parts(self, text: &[u8], is_named: bool) {
        let mut at = 0;
        let mut line: usize = 0;
        // A place is counted by hand: it moves by a whole part, whose ends `next_part` answers.
        while at < text.len() {
            let Part { start, end } = next_part(text, at);
            if start == end {
                return;
            }
            line = line.wrapping_add(line_feeds(&text[at..start]));
            let part = &text[start..end];
            if !self.read_part(part, line, is_named) {
                return;
            }
            line = line.wrapping_add(line_feeds(part));
            at = end;
        }
    }

    // Where there is more than one part, the line `Scope:` stands before each answer.
    fn read_text(self, text: &[u8]) {
        let first = next_part(text, 0);
        if first.start == first.end {
            self.read_part(text, 0, false);
            return;
        }
        self.read_parts(text, first.end < text.len());
    }

    // Its arrays lie in a frame of their own, and in that of no other command.
    #[inline(never)]
    pub fn read_listings(self) {
        let mut text = files::mebibyte_buffer();
        if let Some(n) = load(
            self.console,
            &mut text,
            None,
            b"more than 1048576 characters",
        ) {
            self.read_text(&text[..n]);
        }
    }
}

// The answer to one expression: the verdict in a line, where it is asked for a listing, and notes on what is collected.
ghost use Rattle.std.specs.Prelude.{◌≡◌, length};
ghost use Rattle.io.specs.Counts.{IsPrefixLen};

use collection_notes::{Collection, append_nothing, collects};
use console_output::{Console, print, print_answer};
use files::zeros;
use text_buffer::TextBuffer;

// What is asked for beside the verdict: a listing; and whether the expression is meant to collect.
#[derive(Clone, Copy)]
pub struct Asked {
    pub is_listed: bool,
    pub is_collecting: bool,
}

// The command: where it prints, and what is asked for of each expression.
#[derive(Clone, Copy)]
pub struct Command<'a> {
    pub console: &'a Console,
    pub asked: Asked,
}

// Room for the longest answer (`answer_length`, on the page of `verify_lines`).
fn answer_room() -> [u8; 98304]
    ensures { 98304 ≡ length result }
{
    zeros()
}

// That nothing is collected is said where a collection was asked for, and where GDB wanted a register collected.
fn append_rest(text: &mut TextBuffer, code: &[u8], is_collecting: bool)
    ensures { IsPrefixLen text.new.end text.new.bytes.now }
{
    if !collects(code) && (is_collecting || text.end != 0) {
        append_nothing(text);
        return;
    }
    text.append(b"");
}

impl Command<'_> {
    // Whether the expression was accepted.
    fn print_verdict(self, code: &[u8]) -> bool {
        let mut room = answer_room();
        let mut text = TextBuffer::new(&mut room);
        verify_lines::listed::append_answer(&mut text, code, self.asked.is_listed);
        print_answer(self.console, text.written());
        text.written().starts_with(b"a")
    }

    fn print_notes(self, code: &[u8], mask: &[u8]) {
        let mut room = io::large_buffer();
        let mut text = TextBuffer::new(&mut room);
        let is_all = self.asked.is_collecting;
        Collection { code, mask, is_all }.append_registers(&mut text);
        append_rest(&mut text, code, is_all);
        print(self.console, text.written());
    }

    // The mask is GDB's, of the registers that it wants; empty where there is none.
    pub fn answer(self, code: &[u8], mask: &[u8]) {
        if self.print_verdict(code) {
            self.print_notes(code, mask);
        }
    }
}

// The command `verify`: expressions in hexadecimal, or as GDB lists them.
ghost use Rattle.std.specs.Prelude.{◌≤◌, length, IfSome};

use crate::answer::{Asked, Command};
use crate::input::load;
use crate::source::Source;
use crate::words::word_at;
use console_output::{
    Console, ErrorPlace, is_unread, print_error, print_error_at, print_error_of, print_failure,
};
use lines::{LineError, Lines};

impl Command<'_> {
    // Answers a text of one expression. Its bytes fit, since it has at most 65,536 characters: the verifier gets all of them.
    fn verify_text(self, text: &[u8], line: Option<u64>) {
        let mut bytes = [0u8; 32768];
        let source = Source {
            console: self.console,
            text,
            line,
        };
        if let Some(n) = source.take_lines(&mut bytes) {
            self.answer(&bytes[..n], b"");
        }
    }

    // ---- expressions from standard input, one a line
    // Answers the bytes that wait for a line that goes on with them, where any do.
    fn answer_waiting(self, bytes: &[u8]) {
        if !bytes.is_empty() {
            self.answer(bytes, b"");
        }
    }

    // How many bytes wait then; nothing where the line is wrong. The bytes of a line that begins with the word `bytes` go
    // behind those that wait; before another those that wait have no more. The tool itself prints 40 bytes a line: a line of
    // so many behind that word goes on in the next such line. A comment has no answer.
    fn verify_line(self, text: &[u8], line: u64, bytes: &mut [u8], waiting: usize) -> Option<usize>
        requires { waiting ≤ length bytes.old }
        ensures { IfSome result (λ n. n ≤ length bytes.new) }
    {
        let word = word_at(text, 0);
        let is_labelled = word == b"bytes".as_slice();
        let mut n = waiting;
        if !is_labelled {
            self.answer_waiting(&bytes[..n]);
            n = 0;
        }
        if word.starts_with(b"#") {
            return Some(0);
        }
        let source = Source {
            console: self.console,
            text,
            line: Some(line),
        };
        let count = source.take_line(0, text.len(), &mut bytes[n..])?;
        n += count;
        if is_labelled && count == 40 {
            return Some(n);
        }
        self.answer(&bytes[..n], b"");
        Some(0)
    }

    // A line that could not be read, or is too long.
    fn print_line_error(self, line: u64, error: LineError) {
        match error {
            LineError::Failed(error, _) => print_failure(self.console, b"-", error),
            LineError::TooLong => {
                let place = ErrorPlace {
                    name: b"-",
                    line: Some(line),
                    column: None,
                    word: b"",
                };
                print_error_at(self.console, place, b"longer than 65536 characters");
            }
        }
    }

    // Up to the first line that is wrong. The number of a line also bounds the loop, for its proof.
    fn verify_lines(self) {
        let mut input = io::large_buffer();
        let mut text = io::large_buffer();
        let mut bytes = io::large_buffer();
        let mut waiting = 0;
        let mut lines = Lines::new(self.console.rt.stdin(), &mut input);
        for number in 1..u64::MAX {
            match lines.next(&mut text) {
                Ok(Some(line)) => match self.verify_line(line, number, &mut bytes, waiting) {
                    Some(count) => waiting = count,
                    None => return,
                },
                Ok(None) => break,
                Err(error) => {
                    self.print_line_error(number, error);
                    return;
                }
            }
            if is_unread(self.console) {
                return;
            }
        }
        self.answer_waiting(&bytes[..waiting]);
    }

    // One expression over all lines of standard input.
    fn verify_one(self) {
        let mut text = io::large_buffer();
        if let Some(n) = load(
            self.console,
            &mut text,
            Some(1),
            b"more than 65536 characters",
        ) {
            self.verify_text(&text[..n], Some(1));
        }
    }

    fn verify_word(self, word: &[u8], is_one: bool) {
        if word != b"-".as_slice() {
            self.verify_text(word, None);
        } else if is_one {
            self.verify_one();
        } else {
            self.verify_lines();
        }
    }

    fn verify_argument(self, index: usize, is_one: bool) {
        let mut text = io::large_buffer();
        match arguments::whole(&self.console.rt, index, &mut text) {
            Some(n) => self.verify_word(&text[..n], is_one),
            None => print_error(self.console, b"HEX is longer than 65536 characters"),
        }
    }
}

// What the words after the command ask for. `hex` is the place of HEX among the arguments.
#[derive(Clone, Copy)]
struct Request {
    asked: Asked,
    is_from_gdb: bool,
    is_one: bool,
    hex: Option<usize>,
}

// An error is told where there is no request.
impl Request {
    fn with_option(mut self, console: &Console, word: &[u8]) -> Option<Request> {
        match word {
            b"--list" => self.asked.is_listed = true,
            b"--collect" => self.asked.is_collecting = true,
            b"--from-gdb" => self.is_from_gdb = true,
            b"--one" => self.is_one = true,
            _ => {
                let why = b"unknown option: lilivrez help lists what there is";
                print_error_of(console, word, why);
                return None;
            }
        }
        Some(self)
    }

    fn with_hex(mut self, console: &Console, index: usize) -> Option<Request> {
        if self.hex.is_some() {
            print_error(console, b"more than one expression: put HEX in quotes");
            return None;
        }
        self.hex = Some(index);
        Some(self)
    }

    // A word longer than any option is HEX, and so is one behind --.
    fn with_argument(self, console: &Console, index: usize) -> Option<Request> {
        let mut word = io::buffer();
        let n = arguments::get(&console.rt, index, &mut word);
        match &word[..n] {
            [b'-', _, ..] if !arguments::is_operand(&console.rt, index) => {
                self.with_option(console, &word[..n])
            }
            _ => self.with_hex(console, index),
        }
    }
}

fn requested(console: &Console) -> Option<Request> {
    let mut request = Request {
        asked: Asked {
            is_listed: false,
            is_collecting: false,
        },
        is_from_gdb: false,
        is_one: false,
        hex: None,
    };
    for index in 2..arguments::count(&console.rt) {
        request = request.with_argument(console, index)?;
    }
    Some(request)
}

// Its arrays lie in a frame of their own, and in that of no other command.
#[inline(never)]
pub fn run(console: &Console) {
    let Some(request) = requested(console) else {
        return;
    };
    let command = Command {
        console,
        asked: request.asked,
    };
    match (request.is_from_gdb, request.hex) {
        (false, Some(index)) => command.verify_argument(index, request.is_one),
        (false, None) => {
            let why = b"HEX is missing: write lilivrez verify HEX, or lilivrez help";
            print_error(console, why);
        }
        (true, Some(_)) => {
            let why = b"--from-gdb reads standard input: no HEX beside it";
            print_error(console, why);
        }
        (true, None) => command.read_listings(),
    }
}

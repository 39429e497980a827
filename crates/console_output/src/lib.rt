// What the commands print: answers on standard output; an error on standard error, in one line. Where the status is
// asked for, each refused answer and each error is told on descriptor 3 too, by one character.
#![tactic(auto)]

mod failure;

ghost use Rattle.std.specs.Prelude.{◌≡◌};
ghost use Rattle.io.specs.Counts.{IsPrefixLen};
ghost use Rattle.console_output.specs.Options.{is_option};

pub use failure::{print_failure, print_failure_at, print_write_failure};
use std::cell::Cell;
use std::io::ErrorKind;

// The system; whether nothing more is to be printed on standard error; and whether nobody reads what is printed any more.
#[derive(Drop)]
pub struct Console {
    pub rt: HostRuntime,
    is_silent: Cell<bool>,
    is_unread: Cell<bool>,
}

impl Console {
    pub fn new(rt: HostRuntime) -> Console {
        Console {
            rt,
            is_silent: Cell::new(false),
            is_unread: Cell::new(false),
        }
    }
}

// Whether nobody reads what is printed any more, so that the tool is to end.
pub fn is_unread(console: &Console) -> bool {
    console.is_unread.get()
}

// Nothing is printed any more.
fn leave(console: &Console) {
    console.is_silent.set(true);
    console.is_unread.set(true);
}

// ---- the status
const STATUS_FILENO: i32 = 3;

fn tell(console: &Console, event: &[u8]) {
    if arguments::asks_status(&console.rt) {
        io::write_all(STATUS_FILENO, event);
    }
}

fn tell_error(console: &Console) {
    tell(console, b"2");
}

fn is_refused(text: &[u8]) -> bool {
    text.starts_with(b"refused")
}

// ---- errors
fn print_aside(console: &Console, text: &[u8]) {
    if console.is_silent.get() {
        return;
    }
    if let Err(error) = console.rt.stderr().write_all(text) {
        if error.kind() == ErrorKind::BrokenPipe {
            leave(console);
        }
    }
}

fn print_aside_number(console: &Console, number: u64) {
    let mut figures = [0u8; 20];
    let n = io::decimal(number, &mut figures);
    print_aside(console, &figures[..n]);
}

// error: WHY
pub fn print_error(console: &Console, why: &[u8]) {
    tell_error(console);
    print_aside(console, b"error: ");
    print_aside(console, why);
    print_aside(console, b"\n");
}

// error: NAME: WHY
pub fn print_error_of(console: &Console, name: &[u8], why: &[u8]) {
    tell_error(console);
    print_aside(console, b"error: ");
    print_aside(console, name);
    print_aside(console, b": ");
    print_aside(console, why);
    print_aside(console, b"\n");
}

fn print_place(console: &Console, word: &[u8], number: u64) {
    print_aside(console, word);
    print_aside_number(console, number);
}

// The name of a file that is read: - is standard input.
fn print_name(console: &Console, name: &[u8]) {
    match name {
        b"-" => print_aside(console, b"standard input"),
        _ => print_aside(console, name),
    }
}

fn visible(c: u8) -> u8 {
    match c {
        b' '..=b'~' => c,
        _ => b'?',
    }
}

// The start of a word, with ? for what is not printable ASCII.
fn show(word: &[u8], shown: &mut [u8]) -> usize
    ensures { IsPrefixLen result shown.new }
{
    for (to, c) in shown.iter_mut().zip(word) {
        *to = visible(*c);
    }
    shown.len().min(word.len())
}

// : 'WORD', at most 40 characters of it; .. stands behind where there are more.
fn print_quoted(console: &Console, word: &[u8]) {
    let mut shown = [0u8; 40];
    let n = show(word, &mut shown);
    print_aside(console, b": '");
    print_aside(console, &shown[..n]);
    print_aside(console, b"'");
    if n < word.len() {
        print_aside(console, b"..");
    }
}

// Where something is wrong: the name of a file that is read, where - is standard input; line and column, counted from
// 1, where they are known; and what was not understood, which may be empty.
#[derive(Clone, Copy)]
pub struct ErrorPlace<'a> {
    pub name: &'a [u8],
    pub line: Option<u64>,
    pub column: Option<u64>,
    pub word: &'a [u8],
}

impl<'a> ErrorPlace<'a> {
    // No place in the file is meant, but the file.
    pub fn of_file(name: &'a [u8]) -> ErrorPlace<'a> {
        ErrorPlace {
            name,
            line: None,
            column: None,
            word: b"",
        }
    }
}

// error: NAME, line N, column M: 'WORD': without what follows, which the caller prints. What is not known is left out,
// and so is an empty word.
fn print_start(console: &Console, place: ErrorPlace) {
    tell_error(console);
    print_aside(console, b"error: ");
    print_name(console, place.name);
    if let Some(line) = place.line {
        print_place(console, b", line ", line);
    }
    if let Some(column) = place.column {
        print_place(console, b", column ", column);
    }
    if !place.word.is_empty() {
        print_quoted(console, place.word);
    }
    print_aside(console, b": ");
}

// error: NAME, line N, column M: 'WORD': WHY
pub fn print_error_at(console: &Console, place: ErrorPlace, why: &[u8]) {
    print_start(console, place);
    print_aside(console, why);
    print_aside(console, b"\n");
}

// ---- answers
// Where standard output takes no more (a full disk), one error says so, and nothing is written to standard error behind
// it: else every later line would bring the same error. Where nobody reads it any more, nothing is said.
pub fn print(console: &Console, text: &[u8]) {
    if console.is_unread.get() {
        return;
    }
    if let Err(error) = console.rt.write_all(text) {
        if error.kind() == ErrorKind::BrokenPipe {
            leave(console);
            return;
        }
        print_error(console, b"standard output cannot be written");
        console.is_silent.set(true);
    }
}

// An answer. One that begins with refused is told for the status.
pub fn print_answer(console: &Console, text: &[u8]) {
    print(console, text);
    if is_refused(text) {
        tell(console, b"1");
    }
}

// An answer on standard error, where standard output has a file.
pub fn print_answer_aside(console: &Console, text: &[u8]) {
    print_aside(console, text);
    if is_refused(text) {
        tell(console, b"1");
    }
}

// ---- options
// Whether a word is an option, where there is none; then the error is printed.
#[tactic(auto, unfolding(crate::specs::Options::is_option))]
pub fn refuse_option(console: &Console, word: &[u8]) -> bool
    ensures { result ≡ is_option word.now }
{
    if !matches!(word, [b'-', b'-', ..]) {
        return false;
    }
    print_error_of(
        console,
        word,
        b"unknown option: lilivrez help lists what there is",
    );
    true
}

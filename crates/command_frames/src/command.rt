// The command `frames`: lilivrez frames FILE [FRAME [RECORD]], and lilivrez frames FILE --gdb OUT. The file is the used
// part of a trace buffer.
use crate::gdb;
use crate::show::Shown;
use console_output::{
    Console, ErrorPlace, print_error, print_error_at, print_error_of, print_failure, refuse_option,
};
use files::LoadError;
use line_words::numbers::{Base, NumberError};

// ---- the words of the command
// What is to be shown: all frames, a frame, or a record of a frame. Or all frames are to be written for GDB.
#[derive(Drop)]
enum Asked {
    All,
    Export,
    Frame(u64),
    Record { frame: u64, index: u64 },
}

// The number that a word of the command is; where it is none, the error is printed. Behind -- no word is an option.
fn read_number(console: &Console, word: &[u8], is_operand: bool) -> Option<u64> {
    match line_words::numbers::unsigned(word, Base::Decimal) {
        Ok(number) => return Some(number),
        Err(NumberError::Large) => print_error_of(console, word, b"the number is too large"),
        Err(NumberError::Not) => {
            if is_operand || !refuse_option(console, word) {
                print_error_of(console, word, b"not a number from 0 on, in decimal digits");
            }
        }
    }
    None
}

fn number_at(console: &Console, i: usize) -> Option<u64> {
    let mut word = io::buffer();
    let n = arguments::get(&console.rt, i, &mut word);
    read_number(console, &word[..n], arguments::is_operand(&console.rt, i))
}

// ---- the file
fn export(console: &Console, buffer: &[u8]) {
    let mut name = io::buffer();
    match arguments::whole(&console.rt, 4, &mut name) {
        Some(n) => gdb::export(console, &name[..n], buffer),
        None => print_error(console, b"the name of OUT is too long"),
    }
}

fn show(console: &Console, buffer: &[u8], asked: Asked) {
    let shown = Shown { console, buffer };
    match asked {
        Asked::All => shown.print_frames(),
        Asked::Export => export(console, buffer),
        Asked::Frame(number) => shown.print_one_frame(number),
        Asked::Record { frame, index } => shown.print_one_record(frame, index),
    }
}

fn show_file(console: &Console, name: &[u8], asked: Asked) {
    let mut bytes = io::large_buffer();
    match files::load(&console.rt, name, &mut bytes) {
        Ok(n) => show(console, &bytes[..n], asked),
        Err(LoadError::Failed(error)) => print_failure(console, name, error),
        Err(LoadError::TooLong) => print_error_at(
            console,
            ErrorPlace::of_file(name),
            b"longer than 65536 bytes: a trace buffer is not",
        ),
    }
}

fn show_named(console: &Console, asked: Asked) {
    let mut name = io::buffer();
    match arguments::whole(&console.rt, 2, &mut name) {
        Some(n) => show_file(console, &name[..n], asked),
        None => print_error(console, b"the name of FILE is too long"),
    }
}

// The frame, or its record, whose numbers are words of the command; where one is none, the error is printed.
fn asked_by(console: &Console, count: usize) -> Option<Asked> {
    let frame = number_at(console, 3)?;
    if count == 4 {
        return Some(Asked::Frame(frame));
    }
    let index = number_at(console, 4)?;
    Some(Asked::Record { frame, index })
}

fn is_export(console: &Console) -> bool {
    if arguments::is_operand(&console.rt, 3) {
        return false;
    }
    let mut word = [0u8; 8];
    let n = arguments::get(&console.rt, 3, &mut word);
    check::same(&word[..n], b"--gdb")
}

// Whether OUT is the file that is read, under whatever name. Where OUT is -, nothing is written over.
fn is_same_file(console: &Console) -> bool {
    let mut out = io::buffer();
    let m = arguments::get(&console.rt, 4, &mut out);
    if files::is_standard(&out[..m]) {
        return false;
    }
    let mut name = io::buffer();
    let n = arguments::get(&console.rt, 2, &mut name);
    files::is_same(&console.rt, &name[..n], &out[..m])
}

fn show_export(console: &Console, count: usize) {
    if count == 4 {
        print_error(
            console,
            b"OUT is missing: write lilivrez frames FILE --gdb OUT",
        );
        return;
    }
    if is_same_file(console) {
        print_error(
            console,
            b"OUT is FILE: the saved trace buffer would be lost",
        );
        return;
    }
    show_named(console, Asked::Export);
}

fn refuse_word(console: &Console, i: usize) {
    let mut word = io::buffer();
    let n = arguments::get(&console.rt, i, &mut word);
    print_error_of(console, &word[..n], b"a word too many");
}

fn refuse_option_at(console: &Console, i: usize) -> bool {
    if arguments::is_operand(&console.rt, i) {
        return false;
    }
    let mut word = io::buffer();
    let n = arguments::get(&console.rt, i, &mut word);
    if check::same(&word[..n], b"--gdb") {
        print_error(
            console,
            b"FILE comes before --gdb: write lilivrez frames FILE --gdb OUT",
        );
        return true;
    }
    refuse_option(console, &word[..n])
}

// Its arrays lie in a frame of their own, and in that of no other command.
#[inline(never)]
pub fn run(console: &Console) {
    let count = arguments::count(&console.rt);
    if count < 3 {
        print_error(
            console,
            b"FILE is missing: write lilivrez frames FILE, or lilivrez help",
        );
        return;
    }
    if refuse_option_at(console, 2) {
        return;
    }
    if 5 < count {
        refuse_word(console, 5);
        return;
    }
    if count == 3 {
        show_named(console, Asked::All);
        return;
    }
    if is_export(console) {
        show_export(console, count);
        return;
    }
    if let Some(asked) = asked_by(console, count) {
        show_named(console, asked);
    }
}

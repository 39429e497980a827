// The lines of a scenario, one after the other, up to the first that is wrong.
ghost use Rattle.std.specs.Prelude.{◌≡◌, length};

use crate::asked::file_place;
use crate::files_read::{FilesRead, ReadBy};
use crate::items::Scenario;
use crate::outcome::{Tally, print_completed};
use crate::wrong::ScenarioLine;
use console_output::{
    Console, ErrorPlace, is_unread, print_error, print_error_at, print_failure, refuse_option,
};
use files::{Input, identity, open, zeros};
use lines::{LineError, Lines};
use scenario_setting::start;

// The image and the memory have so many bytes together: a program's arrays lie on its stack, and the manual says how
// much of it there must be.
fn spans_buffer() -> [u8; 1572864]
    ensures { 1572864 ≡ length result }
{
    zeros()
}

// The next line could not be read, or is too long.
fn print_line_error(console: &Console, name: &[u8], number: u64, error: LineError) {
    match error {
        LineError::Failed(error, _) => print_failure(console, name, error),
        LineError::TooLong => {
            let place = ErrorPlace {
                name,
                line: Some(number),
                column: None,
                word: b"",
            };
            print_error_at(console, place, b"longer than 65536 characters");
        }
    }
}

// The number of a line also bounds the loop, for its proof.
fn run_lines(console: &Console, input: Input, name: &[u8]) {
    let mut room = io::large_buffer();
    let mut text = io::large_buffer();
    let mut files_read = FilesRead {
        entries: [None; 1024],
    };
    files_read.keep(identity(&console.rt, name), ReadBy::Scenario);
    let mut scenario = Scenario {
        setting: start(),
        registers: &mut [0; 257],
        spans: &mut spans_buffer(),
        variables: &mut [0; sizes::VARIABLE_COUNT],
        buffer: &mut io::large_buffer(),
        files_read: &mut files_read,
        tally: Tally {
            runs: 0,
            refused: 0,
        },
    };
    let mut lines = Lines::new(input, &mut room);
    for number in 1..u64::MAX {
        let text = match lines.next(&mut text) {
            Ok(Some(text)) => text,
            Ok(None) => break,
            Err(error) => {
                print_line_error(console, name, number, error);
                return;
            }
        };
        let line = ScenarioLine {
            console,
            name,
            number,
            text,
        };
        if scenario.take(line).is_err() || is_unread(console) {
            return;
        }
    }
    print_completed(console, scenario.tally);
}

fn run_file(console: &Console, name: &[u8]) {
    match open(&console.rt, name) {
        Ok(input) => run_lines(console, input, name),
        Err(error) => print_failure(console, name, error),
    }
}

// Behind -- no word is an option.
fn run_named(console: &Console, name: &[u8], place: usize) {
    if !arguments::is_operand(&console.rt, place) {
        if refuse_option(console, name) {
            return;
        }
    }
    run_file(console, name);
}

// Its arrays lie in a frame of their own, and in that of no other command.
#[inline(never)]
pub fn run(console: &Console) {
    let place = file_place(console);
    if arguments::count(&console.rt) <= place {
        print_error(
            console,
            b"FILE is missing: write lilivrez run FILE, or lilivrez help",
        );
        return;
    }
    if place + 1 < arguments::count(&console.rt) {
        print_error(
            console,
            b"more than one word after run: write lilivrez run FILE",
        );
        return;
    }
    let mut name = io::buffer();
    match arguments::whole(&console.rt, place, &mut name) {
        Some(n) => run_named(console, &name[..n], place),
        None => print_error(console, b"the name of the file is too long"),
    }
}

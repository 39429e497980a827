// A line of the scenario, its parts, and what is wrong with it, told on standard error. Columns count from 0 here.
use console_output::{Console, ErrorPlace, print_error_at, print_failure_at};
use hexadecimal::HexError;
use line_words::{Place, next_word, word_length};
use scenario::{ItemError, ItemFault};
use std::io::Error;

// An error was told: it ends the scenario.
#[derive(Clone, Copy)]
pub struct Stopped;

// Where what is printed goes, the name of the scenario's file, and the line, its number counted from 1.
#[derive(Clone, Copy)]
pub struct ScenarioLine<'a> {
    pub console: &'a Console,
    pub name: &'a [u8],
    pub number: u64,
    pub text: &'a [u8],
}

impl<'a> ScenarioLine<'a> {
    // A part of the line; nothing where it has no such columns.
    pub fn part(self, place: Place) -> &'a [u8] {
        self.text.get(place.start..place.end).unwrap_or(b"")
    }

    // Where the first word from a column on begins.
    pub fn word_from(self, column: usize) -> usize {
        if self.text.len() < column {
            return column;
        }
        next_word(self.text, column).start
    }

    // The word that begins at a column.
    fn word_at(self, column: usize) -> &'a [u8] {
        let rest = self.text.get(column..).unwrap_or(b"");
        &rest[..word_length(rest)]
    }

    fn place_at(self, column: usize, word: &'a [u8]) -> ErrorPlace<'a> {
        ErrorPlace {
            name: self.name,
            line: Some(self.number),
            column: Some((column as u64).wrapping_add(1)),
            word,
        }
    }

    pub fn print_wrong(self, column: usize, why: &[u8]) -> Stopped {
        print_error_at(
            self.console,
            self.place_at(column, self.word_at(column)),
            why,
        );
        Stopped
    }

    // What is wrong is no word.
    fn print_wrong_at(self, column: usize, why: &[u8]) -> Stopped {
        print_error_at(self.console, self.place_at(column, b""), why);
        Stopped
    }

    // The file whose name stands at a column could not be read or written.
    pub fn print_failed(self, column: usize, error: Error) -> Stopped {
        print_failure_at(
            self.console,
            self.place_at(column, self.word_at(column)),
            error,
        );
        Stopped
    }

    pub fn print_fault(self, error: ItemError) -> Stopped {
        let column = error.column;
        match error.fault {
            ItemFault::UnknownWord => self.print_wrong(
                column,
                b"unknown word: lilivrez help lists the lines of a scenario",
            ),
            ItemFault::MissingWord => self.print_wrong_at(column, b"a word is missing"),
            ItemFault::NotNumber => self.print_wrong(column, b"not a number"),
            ItemFault::TooLarge => self.print_wrong(column, b"the number is too large"),
            ItemFault::LeftOver => self.print_wrong(column, b"something is left over"),
        }
    }

    // The text from `start` to `end` spells no bytes, or too many.
    pub fn print_hex(self, start: usize, end: usize, error: HexError) -> Stopped {
        match error {
            HexError::NotHex(position) => self.print_wrong(
                start.wrapping_add(position),
                b"not hexadecimal: write two digits, 0-9 or a-f, for each byte",
            ),
            HexError::Odd => self.print_wrong_at(
                end.wrapping_sub(1),
                b"a digit is left over: write two digits for each byte",
            ),
            HexError::TooLong => self.print_wrong(start, b"more bytes than there is room for"),
        }
    }
}

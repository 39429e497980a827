// Where bytes come from: the line itself, or a file that it names.
use crate::files_read::{FilesRead, ReadBy};
use crate::wrong::{ScenarioLine, Stopped};
use console_output::Console;
use files::{LoadError, identity, is_standard, load};
use line_words::Place;

// Where bytes are: a place in the line, or a file whose name stands there.
#[derive(Clone, Copy)]
pub enum Source {
    Line(Place),
    File(Place),
}

impl Source {
    // Puts the bytes at the start of `bytes`, and answers how many they are.
    pub fn take(
        self,
        line: ScenarioLine,
        bytes: &mut [u8],
        files_read: &mut FilesRead,
    ) -> Result<usize, Stopped> {
        match self {
            Source::Line(place) => take_hex(line, place, bytes),
            Source::File(place) => take_file(line, place, bytes, files_read),
        }
    }
}

// The bytes that a part of a line spells, put at the start of `bytes`.
pub fn take_hex(line: ScenarioLine, place: Place, bytes: &mut [u8]) -> Result<usize, Stopped> {
    let read = expression_bytes::read(line.part(place), bytes);
    if !read.fitting {
        return Err(line.print_wrong(
            line.word_from(place.start),
            b"the length before the comma is not that of the bytes behind it",
        ));
    }
    match read.answer {
        Ok(n) => Ok(n),
        Err(error) => {
            Err(line.print_hex(place.start.wrapping_add(read.start), place.end, error))
        }
    }
}

// Standard input is read once: what has read it leaves nothing for another.
fn is_used_up(console: &Console, file: &[u8], files_read: &FilesRead) -> bool {
    is_standard(file) && files_read.read_by(identity(&console.rt, file)).is_some()
}

// Whether a file may be read; it is kept as one that was.
fn may_read(line: ScenarioLine, place: Place, files_read: &mut FilesRead) -> Result<(), Stopped> {
    let file = line.part(place);
    if is_used_up(line.console, file, files_read) {
        return Err(line.print_wrong(place.start, b"standard input was read before"));
    }
    if !files_read.keep(identity(&line.console.rt, file), ReadBy::Line(line.number)) {
        return Err(line.print_wrong(place.start, b"a scenario reads at most 1024 files"));
    }
    Ok(())
}

// The bytes of a file whose name is a part of a line, put at the start of `bytes`.
pub fn take_file(
    line: ScenarioLine,
    place: Place,
    bytes: &mut [u8],
    files_read: &mut FilesRead,
) -> Result<usize, Stopped> {
    may_read(line, place, files_read)?;
    match load(&line.console.rt, line.part(place), bytes) {
        Ok(n) => Ok(n),
        Err(LoadError::Failed(error)) => Err(line.print_failed(place.start, error)),
        Err(LoadError::TooLong) => Err(line.print_wrong(
            place.start,
            b"the file has more bytes than there is room for",
        )),
    }
}

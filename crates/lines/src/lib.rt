// Lines of standard input, or of an open file, one at a time.
#![tactic(auto)]

ghost use Rattle.std.specs.Prelude.{◌≡◌, ◌≤◌, length, IfSome};

use std::io::{Error, Read};

// Why there is no next line: a read failed, when so many bytes of the line had come (none given: more than its buffer
// holds); or the line is longer than its buffer.
#[derive(Drop)]
pub enum LineError {
    Failed(Error, Option<usize>),
    TooLong,
}

// What is read into the lent buffer and not yet taken lies there from `from` to `to`.
#[derive(Drop)]
pub struct Lines<'a, R> {
    pub reader: R,
    pub input: &'a mut [u8],
    pub from: usize,
    pub to: usize,
}

// Puts a part of a line behind its first bytes, and answers how many there are then; nothing where it is longer than
// its buffer.
fn put(text: &mut [u8], at: Option<usize>, part: &[u8]) -> Option<usize> {
    let at = at?;
    let end = at.checked_add(part.len())?;
    text.get_mut(at..end)?.copy_from_slice(part);
    Some(end)
}

// The first bytes are the line.
fn line_of<'t>(text: &'t [u8], length: Option<usize>) -> Result<Option<&'t [u8]>, LineError> {
    match length.and_then(|n| text.get(..n)) {
        Some(line) => Ok(Some(line)),
        None => Err(LineError::TooLong),
    }
}

impl<'a, R: Read> Lines<'a, R> {
    // Before the first line of an open file nothing is read.
    pub fn new(reader: R, input: &'a mut [u8]) -> Lines<'a, R>
        ensures { (result.reader ≡ reader) × (result.from ≡ 0) × (result.to ≡ 0) }
    {
        Lines {
            reader,
            input,
            from: 0,
            to: 0,
        }
    }

    // The next line, put at the start of `text`; a last one with no line end counts too. Nothing at the input's end. A
    // line that is too long is passed over. Where a read fails, `text` begins with what had come of the line, and the
    // next call begins behind that. The count of turns is there for the proof that the loop ends; no input uses it up.
    pub fn next<'t>(&mut self, text: &'t mut [u8]) -> Result<Option<&'t [u8]>, LineError> {
        let mut length = Some(0);
        for _ in 0..u64::MAX {
            let from = self.from;
            let to = self.to;
            let unread = self.input.get(from..to).unwrap_or(&[]);
            if let Some(n) = unread.iter().position(|&c| c == b'\n') {
                length = put(text, length, &unread[..n]);
                self.from = from + n + 1;
                return line_of(text, length);
            }
            length = put(text, length, unread);
            self.from = 0;
            self.to = 0;
            match self.reader.read(self.input) {
                Ok(n) => self.to = n,
                Err(error) => return Err(LineError::Failed(error, length)),
            }
            if self.to == 0 {
                break;
            }
        }
        if length == Some(0) {
            return Ok(None);
        }
        line_of(text, length)
    }
}

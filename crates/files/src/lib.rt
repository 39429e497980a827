// Files that a command names: read whole, and written. The name - is standard input, and standard output.
#![tactic(auto)]

mod identities;
mod status;
mod writing;

ghost use Rattle.std.specs.Prelude.{◌≡◌, ◌≤◌, length, IfOk};

pub use identities::{FileIdentity, identity, is_same};
use status::text_of;
use std::fs::File;
use std::io;
use std::io::{Error, Read, Stdin};
pub use writing::{Draft, abandon, begin, finish, save};

// Why a file is not read whole: it cannot be opened or read; or it has more bytes than there is room for.
#[derive(Drop)]
pub enum LoadError {
    Failed(Error),
    TooLong,
}

impl From<Error> for LoadError {
    fn from(error: Error) -> LoadError {
        LoadError::Failed(error)
    }
}

// What is read: standard input, or a file that is open.
#[derive(Drop)]
pub enum Input {
    Standard(Stdin),
    Opened(File),
}

impl Read for Input {
    fn read(&mut self, buf: &mut [u8]) -> io::Result<usize> {
        match self {
            Input::Standard(stdin) => stdin.read(buf),
            Input::Opened(file) => file.read(buf),
        }
    }
}

// Whether the file goes on: one byte more can be read.
fn goes_on<R: Read>(reader: &mut R) -> bool {
    let mut more = [0u8; 1];
    reader.read(&mut more).is_ok_and(|got| 0 < got)
}

// So many zeros. They come from a function of their own: where a proof sees a long array that is made, it goes through
// each of its elements.
pub fn zeros<const N: usize>() -> [u8; N]
    ensures { length result ≡ N }
{
    [0; N]
}

// Room for a text of at most 1,048,576 characters.
pub fn mebibyte_buffer() -> [u8; 1048576]
    ensures { 1048576 ≡ length result }
{
    zeros()
}

// Whether the name stands for standard input or standard output.
pub fn is_standard(name: &[u8]) -> bool {
    matches!(name, b"-")
}

// Opens a file for reading.
pub fn open(rt: &HostRuntime, name: &[u8]) -> io::Result<Input> {
    if is_standard(name) {
        return Ok(Input::Standard(rt.stdin()));
    }
    let file = File::open(rt, text_of(name)?)?;
    Ok(Input::Opened(file))
}

// Puts what is left of an open file at the start of `bytes`, and answers how many bytes that is.
pub fn load_rest<R: Read>(reader: &mut R, bytes: &mut [u8]) -> Result<usize, LoadError>
    ensures { IfOk result (λ n. n ≤ length bytes.new) }
{
    // The count is kept by hand: each read says how many bytes it brought.
    let mut n = 0;
    while n < bytes.len() {
        match reader.read(&mut bytes[n..])? {
            0 => return Ok(n),
            more => n += more,
        }
    }
    if goes_on(reader) {
        return Err(LoadError::TooLong);
    }
    Ok(n)
}

// Puts the file's bytes at the start of `bytes`, and answers how many they are.
pub fn load(rt: &HostRuntime, name: &[u8], bytes: &mut [u8]) -> Result<usize, LoadError>
    ensures { IfOk result (λ n. n ≤ length bytes.new) }
{
    let mut input = open(rt, name)?;
    load_rest(&mut input, bytes)
}

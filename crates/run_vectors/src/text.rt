// The text of an answer, appended to a buffer as `text_buffer` does.
ghost use Rattle.io.specs.Counts.{IsPrefixLen};

use refusals::Refusal;
use runner::{Completed, Value};
use text_buffer::TextBuffer;

fn append_digits(text: &mut TextBuffer, number: u64, width: usize)
    ensures { IsPrefixLen text.new.end text.new.bytes.now }
{
    let mut figures = [0u8; 16];
    let k = io::hex(number, width, &mut figures);
    text.append(&figures[..k]);
}

fn append_mark(text: &mut TextBuffer, mark: u8)
    ensures { IsPrefixLen text.new.end text.new.bytes.now }
{
    let marks = [mark];
    text.append(&marks);
}

// A number with a mark before it.
fn append_number(text: &mut TextBuffer, mark: u8, number: u64)
    ensures { IsPrefixLen text.new.end text.new.bytes.now }
{
    append_mark(text, mark);
    append_digits(text, number, 1);
}

fn append_pairs(text: &mut TextBuffer, bytes: &[u8])
    ensures { IsPrefixLen text.new.end text.new.bytes.now }
{
    append_mark(text, b' ');
    for byte in bytes {
        append_digits(text, u64::from(*byte), 2);
    }
}

fn append_bytes(text: &mut TextBuffer, bytes: &[u8])
    ensures { IsPrefixLen text.new.end text.new.bytes.now }
{
    if bytes.is_empty() {
        text.append(b" -");
        return;
    }
    append_pairs(text, bytes);
}

pub fn append_broken(text: &mut TextBuffer)
    ensures { IsPrefixLen text.new.end text.new.bytes.now }
{
    text.append(b"bad line");
}

fn append_two(text: &mut TextBuffer, top: u64, beneath: u64)
    ensures { IsPrefixLen text.new.end text.new.bytes.now }
{
    append_number(text, b' ', top);
    append_number(text, b',', beneath);
}

fn append_value(text: &mut TextBuffer, value: Value)
    ensures { IsPrefixLen text.new.end text.new.bytes.now }
{
    match value {
        Value::Nothing => text.append(b" none"),
        Value::Top(top) => append_number(text, b' ', top),
        Value::TopAndBeneath(top, beneath) => append_two(text, top, beneath),
    }
}

fn append_completed(text: &mut TextBuffer, completed: Completed)
    ensures { IsPrefixLen text.new.end text.new.bytes.now }
{
    text.append(b"completed");
    append_number(text, b' ', completed.steps);
    append_value(text, completed.value);
    append_number(text, b' ', completed.used as u64);
}

fn append_refused(text: &mut TextBuffer, refusal: Refusal, used: usize)
    ensures { IsPrefixLen text.new.end text.new.bytes.now }
{
    text.append(b"refused");
    append_number(text, b' ', u64::from(refusal.reason.number()));
    append_number(text, b' ', refusal.offset as u64);
    append_number(text, b' ', refusal.steps);
    append_number(text, b' ', used as u64);
}

// `used` is the used length given: a refusal leaves it.
pub fn append_outcome(text: &mut TextBuffer, outcome: Result<Completed, Refusal>, used: usize)
    ensures { IsPrefixLen text.new.end text.new.bytes.now }
{
    match outcome {
        Ok(completed) => append_completed(text, completed),
        Err(refusal) => append_refused(text, refusal, used),
    }
}

fn append_setting(text: &mut TextBuffer, mark: u8, number: usize, value: u64)
    ensures { IsPrefixLen text.new.end text.new.bytes.now }
{
    append_number(text, mark, number as u64);
    append_number(text, b'=', value);
}

// The variables that are not 0. The first has a space before it, and the others a comma.
pub fn append_variables(text: &mut TextBuffer, variables: &[u64; sizes::VARIABLE_COUNT])
    ensures { IsPrefixLen text.new.end text.new.bytes.now }
{
    text.append(b"");
    let mut mark = b' ';
    for (i, value) in variables.iter().enumerate() {
        if *value != 0 {
            append_setting(text, mark, i, *value);
            mark = b',';
        }
    }
    if mark == b' ' {
        text.append(b" -");
    }
}

// The 64-bit FNV-1a hash.
fn sum(bytes: &[u8]) -> u64 {
    bytes.iter().fold(0xcbf2_9ce4_8422_2325, |hash: u64, byte| {
        (hash ^ u64::from(*byte)).wrapping_mul(0x0000_0100_0000_01b3)
    })
}

// So many bytes of the buffer are shown.
const HEAD: usize = 32;

fn head_of<'a>(buffer: &'a [u8], used: usize) -> &'a [u8] {
    let free = buffer.get(used..).unwrap_or(&[]);
    &free[..free.len().min(HEAD)]
}

pub fn append_buffer(text: &mut TextBuffer, buffer: &[u8], used: usize)
    ensures { IsPrefixLen text.new.end text.new.bytes.now }
{
    append_number(text, b' ', sum(buffer));
    append_bytes(text, head_of(buffer, used));
}

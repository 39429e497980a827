// The bytes of an expression, read from a text: hexadecimal; with the word `bytes` in front, as lines that the tool prints
// have it; or with the length in front, as GDB's packets have it (`3,220527`).
#![tactic(auto)]

ghost use Rattle.std.specs.Prelude.{◌≡◌, ◌≤◌, ◌==◌, length, position};
ghost use Rattle.std.specs.Option.{IfSome};
ghost use Rattle.expression_bytes.specs.Expression.{bytes_start, is_list, length_of, is_fitting, read_front, read_start, ReadAt};

use hexadecimal::HexError;
use line_words::numbers::{Base, is_digit, unsigned};
use line_words::{is_same, next_word};

// What was read: from a column on, with what answer; positions in the answer are counted from that column. `fitting`: the
// number of bytes is the length in front of them, where there is one.
#[derive(Clone, Copy)]
pub struct ExpressionRead {
    pub start: usize,
    pub answer: Result<usize, HexError>,
    pub fitting: bool,
}

// The length in front of the bytes, and how many characters it has with its comma.
#[derive(Clone, Copy)]
pub struct Front {
    pub value: u64,
    pub characters: usize,
}

// Behind the word `bytes`, if the text begins with it.
fn bytes_start(text: &[u8]) -> usize
    ensures { (result ≡ bytes_start text.now) × (result ≤ length text.now) }
{
    let word = next_word(text, 0);
    let start = word.start;
    let end = word.end;
    if is_same(b"bytes", &text[start..end]) {
        return end;
    }
    0
}

fn first_comma(word: &[u8]) -> Option<usize>
    ensures { result ≡ position (λ c. c == 44) word.now }
{
    word.iter().position(|c| *c == b',')
}

// Bytes with commas between them: two digits before the first comma, and no third behind it.
fn is_list(word: &[u8], comma: usize) -> bool
    ensures { result ≡ is_list word.now comma }
{
    comma == 2 && (word.len() <= 5 || !is_digit(word[5], Base::Hexadecimal))
}

fn length_of(word: &[u8]) -> Option<Front>
    ensures front { result ≡ length_of word.now }
    ensures within { IfSome result (λ f. f.characters ≤ length word.now) }
{
    let comma = first_comma(word)?;
    if is_list(word, comma) {
        return None;
    }
    let value = unsigned(&word[..comma], Base::Hexadecimal).ok()?;
    Some(Front {
        value,
        characters: comma + 1,
    })
}

fn is_fitting(front: Option<Front>, answer: Result<usize, HexError>) -> bool
    ensures { result ≡ is_fitting front answer }
{
    match front {
        Some(length) => match answer {
            Ok(count) => count as u64 == length.value,
            Err(_) => true,
        },
        None => true,
    }
}

fn read_from(text: &[u8], start: usize, front: Option<Front>, out: &mut [u8]) -> ExpressionRead
    requires { start ≤ length text.now }
    ensures { ReadAt text.now start front out.old result out.new }
{
    let answer = hexadecimal::decode(&text[start..], out);
    let fitting = is_fitting(front, answer);
    ExpressionRead {
        start,
        answer,
        fitting,
    }
}

// Puts the bytes that a text spells at the start of `out`.
pub fn read(text: &[u8], out: &mut [u8]) -> ExpressionRead
    ensures { ReadAt text.now (read_start text.now) (read_front text.now) out.old result out.new }
{
    let from = bytes_start(text);
    let word = next_word(text, from);
    let start = word.start;
    let end = word.end;
    match length_of(&text[start..end]) {
        Some(front) => read_from(text, start + front.characters, Some(front), out),
        None => read_from(text, from, None, out),
    }
}

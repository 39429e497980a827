// Bytes written as hexadecimal text: two digits to a byte, upper or lower case, with or without 0x in front of a byte;
// blanks, commas, colons and braces between the bytes; comments from # to the end of the line.
#![tactic(auto)]

ghost use Rattle.std.specs.Prelude.{◌≡◌, ℕ, ◌+◌, ◌<◌, ◌≤◌, ◌==◌, not, length, drop, take_while, Ok};
ghost use Rattle.io.specs.Counts.{IsPrefixLen};
ghost use Rattle.io.specs.Digits.{hex_digit_ascii};
ghost use Rattle.hexadecimal.specs.Hex.{is_blank, is_separator, is_prefixed, digits_of, prefixed_of, token_of};
ghost use Rattle.hexadecimal.specs.Hex.{reading_of, written_over, pair_of, hex_of};
ghost use Rattle.hexadecimal.specs.Told.{digit_told, first_digit, byte_told, token_told, hex_answer_of};
ghost use Rattle.text_buffer.specs.Text.{Appends};

use text_buffer::TextBuffer;

// Why a text spells no bytes: a character, at a position counted from 0, is not hexadecimal; a digit is left over at the
// end; or there are more bytes than the buffer has room for.
#[derive(Clone, Copy)]
pub enum HexError {
    NotHex(usize),
    Odd,
    TooLong,
}

// What begins at a position of a text: so many characters that are passed over; or a byte, with its number of
// characters.
#[derive(Drop)]
enum Token {
    Skip(usize),
    Byte(u8, usize),
}

// Line ends are blanks too, so that a text can come from a file.
#[tactic(auto, unfolding(crate::specs::Hex::is_blank))]
pub fn is_blank(c: u8) -> bool
    ensures { result ≡ is_blank c }
{
    matches!(c, b' ' | b'\t' | b'\n' | b'\r')
}

// The value of a digit.
#[tactic(auto, unfolding(crate::specs::Hex::digit_of))]
pub fn digit(c: u8) -> Option<u8>
    ensures { result ≡ digit_told c }
{
    match c {
        b'0'..=b'9' => Some(c - b'0'),
        b'A'..=b'F' => Some(c - b'A' + 10),
        b'a'..=b'f' => Some(c - b'a' + 10),
        _ => None,
    }
}

#[tactic(auto, unfolding(crate::specs::Hex::is_separator))]
fn is_separator(c: u8) -> bool
    ensures { result ≡ is_separator c }
{
    is_blank(c) || matches!(c, b',' | b':' | b'{' | b'}')
}

// The number of characters up to the end of the line.
fn line_length(text: &[u8]) -> usize
    ensures { result ≡ length (take_while (λ c. not (c == 10)) text.now) }
{
    text.iter().take_while(|c| **c != b'\n').count()
}

// The digit at `at`; a character that is none is told at `place`.
fn digit_at(text: &[u8], at: usize, place: usize) -> Result<u8, HexError>
    ensures { result ≡ first_digit place (drop at text.now) }
{
    match text.get(at) {
        Some(c) => digit(*c).ok_or(HexError::NotHex(place)),
        None => Err(HexError::Odd),
    }
}

// The byte that two digits spell.
fn digits_at(text: &[u8], at: usize) -> Result<u8, HexError>
    requires { at ≤ length text.now }
    ensures { result ≡ byte_told (digits_of at (drop at text.now)) }
{
    let high = digit_at(text, at, at)?;
    let low = digit_at(text, at + 1, at + 1)?;
    Ok(high * 16 + low)
}

fn is_prefixed(text: &[u8]) -> bool
    ensures { result ≡ is_prefixed text.now }
{
    text.starts_with(b"0x")
}

// The byte with 0x in front.
fn prefixed_at(text: &[u8], at: usize) -> Result<u8, HexError>
    requires { at + 2 ≤ length text.now }
    ensures { result ≡ byte_told (prefixed_of at (drop at text.now)) }
{
    let byte = digits_at(text, at + 2)?;
    if digit_at(text, at + 4, at + 4).is_ok() {
        return Err(HexError::NotHex(at + 4));
    }
    Ok(byte)
}

fn token_at(text: &[u8], at: usize) -> Result<Token, HexError>
    requires { at < length text.now }
    ensures { result ≡ token_told (token_of at (drop at text.now)) }
{
    let c = text[at];
    let rest = &text[at..];
    if is_separator(c) {
        return Ok(Token::Skip(1));
    }
    if c == b'#' {
        return Ok(Token::Skip(line_length(rest)));
    }
    if is_prefixed(rest) {
        return Ok(Token::Byte(prefixed_at(text, at)?, 4));
    }
    Ok(Token::Byte(digits_at(text, at)?, 2))
}

// Puts the bytes that `text` spells at the start of `out`, up to the first fault if there is one.
pub fn decode(text: &[u8], out: &mut [u8]) -> Result<usize, HexError>
    ensures answer { result ≡ hex_answer_of (reading_of text.now (length out.old)) }
    ensures bytes { out.new ≡ written_over out.old (reading_of text.now (length out.old)) }
    ensures within { (n : ℕ) → result ≡ Ok n → n ≤ length out.new }
{
    // Both places are counted by hand: a token tells how many characters it has, and not each is a byte.
    let mut n = 0;
    let mut i = 0;
    while i < text.len() {
        match token_at(text, i)? {
            Token::Skip(length) => i += length,
            Token::Byte(byte, length) => {
                if out.len() <= n {
                    return Err(HexError::TooLong);
                }
                out[n] = byte;
                n += 1;
                i += length;
            }
        }
    }
    Ok(n)
}

// The character of a digit, in lower case.
fn character(digit: u8) -> u8
    requires { digit < 16 }
    ensures { result ≡ hex_digit_ascii digit }
{
    if digit < 10 {
        return b'0' + digit;
    }
    b'a' - 10 + digit
}

// Appends a byte as two digits.
pub fn append_byte(text: &mut TextBuffer, byte: u8)
    ensures count { IsPrefixLen text.new.end text.new.bytes.now }
    ensures text { Appends text.old.bytes.now text.old.end (pair_of byte) text.new.bytes.now text.new.end }
    ensures lent { text.new.bytes.ghost_name ≡ text.old.bytes.ghost_name }
{
    text.append(&[character(byte / 16), character(byte % 16)]);
}

// Appends bytes, two digits each and nothing between them. Where there are none, the text still ends within its buffer
// then.
pub fn encode(text: &mut TextBuffer, bytes: &[u8])
    ensures count { IsPrefixLen text.new.end text.new.bytes.now }
    ensures text { Appends text.old.bytes.now text.old.end (hex_of bytes.now) text.new.bytes.now text.new.end }
    ensures lent { text.new.bytes.ghost_name ≡ text.old.bytes.ghost_name }
{
    text.append(b"");
    for byte in bytes {
        append_byte(text, *byte);
    }
}

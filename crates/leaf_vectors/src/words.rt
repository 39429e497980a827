// The operators on words, by opcode.
ghost use Rattle.std.specs.Prelude.{◌<◌};
ghost use Rattle.io.specs.Counts.{IsPrefixLen};

use crate::text::{append_broken, append_number, append_refused};
use refusals::Reason;
use text_buffer::TextBuffer;

// Why there is no word.
#[derive(Clone, Copy)]
enum WordError {
    DividedByZero,
    Unknown,
}

fn quotient(opcode: u64, a: u64, b: u64) -> u64
    requires { 0 < b }
{
    match opcode {
        0x05 => arithmetic::div_signed(a, b),
        0x06 => arithmetic::div_unsigned(a, b),
        0x07 => arithmetic::rem_signed(a, b),
        _ => arithmetic::rem_unsigned(a, b),
    }
}

fn divided(opcode: u64, a: u64, b: u64) -> Result<u64, WordError> {
    if b == 0 {
        return Err(WordError::DividedByZero);
    }
    Ok(quotient(opcode, a, b))
}

fn extended(a: u64, n: u64) -> Result<u64, WordError> {
    if n == 0 {
        return Err(WordError::Unknown);
    }
    Ok(arithmetic::ext(a, n))
}

fn computed(opcode: u64, a: u64, b: u64) -> Result<u64, WordError> {
    match opcode {
        0x02 => Ok(arithmetic::add(a, b)),
        0x03 => Ok(arithmetic::sub(a, b)),
        0x04 => Ok(arithmetic::mul(a, b)),
        0x05..=0x08 => divided(opcode, a, b),
        0x09 => Ok(arithmetic::lsh(a, b)),
        0x0a => Ok(arithmetic::rsh_signed(a, b)),
        0x0b => Ok(arithmetic::rsh_unsigned(a, b)),
        0x0e => Ok(arithmetic::log_not(a)),
        0x0f => Ok(arithmetic::bit_and(a, b)),
        0x10 => Ok(arithmetic::bit_or(a, b)),
        0x11 => Ok(arithmetic::bit_xor(a, b)),
        0x12 => Ok(arithmetic::bit_not(a)),
        0x13 => Ok(arithmetic::equal(a, b)),
        0x14 => Ok(arithmetic::less_signed(a, b)),
        0x15 => Ok(arithmetic::less_unsigned(a, b)),
        0x16 => extended(a, b),
        0x2a => Ok(arithmetic::zero_ext(a, b)),
        _ => Err(WordError::Unknown),
    }
}

pub fn append_word(text: &mut TextBuffer, opcode: u64, a: u64, b: u64)
    ensures { IsPrefixLen text.new.end text.new.bytes.now }
{
    match computed(opcode, a, b) {
        Ok(word) => append_number(text, word),
        Err(WordError::DividedByZero) => append_refused(text, Reason::DivisorZero),
        Err(WordError::Unknown) => append_broken(text),
    }
}

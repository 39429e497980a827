// Signed numbers, read, and what operands can hold.
ghost use Rattle.std.specs.Prelude.{◌≡◌, ◌<◌, ◌^◌, T, ltb, length, Ok};
ghost use Rattle.listing.specs.Numbers.{negated, signed_number, is_width};

use line_words::numbers::{Base, NumberError, unsigned};

// The word of 64 bits for the negative of a number.
fn negative(number: u64) -> Result<u64, NumberError>
    ensures { result ≡ negated (Ok number) }
{
    if number == 0 {
        return Err(NumberError::Large);
    }
    if number <= 9223372036854775808 {
        return Ok(u64::MAX - number + 1);
    }
    Err(NumberError::Large)
}

// A word that is digits, with or without a minus in front.
pub(crate) fn signed(word: &[u8]) -> Result<u64, NumberError>
    requires { 0 < length word.now }
    ensures { result ≡ signed_number word.now }
{
    if word[0] == b'-' {
        return negative(unsigned(&word[1..], Base::Decimal)?);
    }
    unsigned(word, Base::Decimal)
}

// Whether so many bytes can hold the value.
pub(crate) fn fits(value: u64, count: usize) -> bool
    requires { T (is_width count) }
    ensures { result ≡ ltb value (256 ^ count) }
{
    match count {
        1 => value < 256,
        2 => value < 65536,
        4 => value < 4294967296,
        _ => true,
    }
}

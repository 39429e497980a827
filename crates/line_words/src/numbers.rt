// Numbers as words: decimal, or hexadecimal with 0x in front.
ghost use Rattle.std.specs.Prelude.{◌≡◌, true};
ghost use Rattle.std.specs.List.{list_all};
ghost use Rattle.line_words.specs.Numbers.{base_of, is_digit, value_from, limited, number_in, word_number};

use hexadecimal::digit;

// Why a word is no number of 64 bits: it is more than they can hold, or no number.
#[derive(Clone, Copy)]
pub enum NumberError {
    Large,
    Not,
}

#[derive(Clone, Copy)]
pub enum Base {
    Decimal,
    Hexadecimal,
}

impl Base {
    fn number(self) -> u64
        ensures { result ≡ base_of self }
    {
        match self {
            Base::Decimal => 10,
            Base::Hexadecimal => 16,
        }
    }
}

pub fn is_digit(c: u8, base: Base) -> bool
    ensures { result ≡ is_digit (base_of base) c }
{
    match digit(c) {
        Some(digit) => u64::from(digit) < base.number(),
        None => false,
    }
}

// A word of which every character is a digit.
fn is_whole(word: &[u8], base: Base) -> bool
    ensures { result ≡ list_all (is_digit (base_of base)) word.now }
{
    word.iter().all(|c| is_digit(*c, base))
}

fn value(word: &[u8], base: Base) -> Result<u64, NumberError>
    requires { list_all (is_digit (base_of base)) word.now ≡ true }
    ensures { result ≡ limited (value_from (base_of base) 0 word.now) }
{
    let mut value: u64 = 0;
    for c in word {
        let last = digit(*c).ok_or(NumberError::Not)?;
        let higher = value.checked_mul(base.number()).ok_or(NumberError::Large)?;
        value = higher
            .checked_add(u64::from(last))
            .ok_or(NumberError::Large)?;
    }
    Ok(value)
}

// A word that is digits only.
pub fn unsigned(word: &[u8], base: Base) -> Result<u64, NumberError>
    ensures { result ≡ number_in (base_of base) word.now }
{
    if word.is_empty() || !is_whole(word, base) {
        return Err(NumberError::Not);
    }
    value(word, base)
}

// A word that is a decimal number, or a hexadecimal one with 0x in front.
pub fn number_of(word: &[u8]) -> Result<u64, NumberError>
    ensures { result ≡ word_number word.now }
{
    match word.strip_prefix(b"0x") {
        Some(digits) => unsigned(digits, Base::Hexadecimal),
        None => unsigned(word, Base::Decimal),
    }
}

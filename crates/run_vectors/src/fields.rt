// The parts of a field, and the numbers in them.
ghost use Rattle.std.specs.Prelude.{◌<◌, IfSome};

// What stands before the first mark, and what stands after it.
pub fn cut<'a>(text: &'a [u8], mark: u8) -> (&'a [u8], Option<&'a [u8]>) {
    let mut parts = text.splitn(2, |c| *c == mark);
    let first = parts.next().unwrap_or(text);
    (first, parts.next())
}

// The value of a digit. Letters are lower case.
fn digit(c: u8) -> Option<u8>
    ensures { IfSome result (λ digit. digit < 16) }
{
    match c {
        b'0'..=b'9' => Some(c - b'0'),
        b'a'..=b'f' => Some(c - b'a' + 10),
        _ => None,
    }
}

// A number of 64 bits in hexadecimal, with no zeros in front.
pub fn number_of(text: &[u8]) -> Option<u64> {
    if let [] | [b'0', _, ..] = text {
        return None;
    }
    let mut value: u64 = 0;
    for c in text {
        value = value.checked_mul(16)?.checked_add(u64::from(digit(*c)?))?;
    }
    Some(value)
}

// A number of 64 bits as a size.
pub fn size_of(text: &[u8]) -> Option<usize> {
    Some(number_of(text)? as usize)
}

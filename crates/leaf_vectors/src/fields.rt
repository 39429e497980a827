// The fields of a line: single spaces between them, and each a number or a string of bytes.
ghost use Rattle.std.specs.Prelude.{◌<◌, ◌≤◌, length, IfSome};

// What a field is: a number that fits two, four or eight bytes, or a string of bytes.
#[derive(Clone, Copy)]
pub enum Field {
    Two,
    Four,
    Eight,
    Bytes,
}

// Where the first field of a text ends.
fn first_end(text: &[u8]) -> usize
    ensures { result ≤ length text.now }
{
    for (i, c) in text.iter().enumerate() {
        if *c == b' ' {
            return i;
        }
    }
    text.len()
}

// What stands behind the first field and its space.
fn behind_first<'a>(text: &'a [u8]) -> &'a [u8] {
    let end = first_end(text);
    if end < text.len() {
        &text[end + 1..]
    } else {
        &text[end..]
    }
}

// The field with a number, counted from 0; it is empty where there is none.
fn nth_field<'a>(text: &'a [u8], number: usize) -> &'a [u8] {
    let mut rest = text;
    for passed in 0..number {
        rest = behind_first(rest);
    }
    &rest[..first_end(rest)]
}

// The value of a digit. Letters are lower case.
fn digit(c: u8) -> Option<u8>
    ensures { IfSome result (λ digit. digit < 16) }
{
    match c {
        b'0'..=b'9' => Some(c - b'0'),
        b'a'..=b'f' => Some(c - b'a' + 10),
        _ => None,
    }
}

// A number of 64 bits in hexadecimal. Zeros in front are allowed, since opcodes have them.
fn read_number(text: &[u8]) -> Option<u64> {
    if text.is_empty() {
        return None;
    }
    let mut value: u64 = 0;
    for c in text {
        let digit = digit(*c)?;
        value = value.checked_mul(16)?.checked_add(u64::from(digit))?;
    }
    Some(value)
}

// `-` alone stands for no bytes.
fn is_bytes(text: &[u8]) -> bool {
    match text.len() {
        0 => false,
        1 => text[0] == b'-',
        _ => {
            let mut bytes = [0u8; 4096];
            hexadecimal::decode(text, &mut bytes).is_ok()
        }
    }
}

fn is_field(text: &[u8], field: Field) -> bool {
    match field {
        Field::Two => read_number(text).is_some_and(|value| value < 0x1_0000),
        Field::Four => read_number(text).is_some_and(|value| value < 0x1_0000_0000),
        Field::Eight => read_number(text).is_some(),
        Field::Bytes => is_bytes(text),
    }
}

// How many characters at the start of a text are a space and a field of this kind, if there is one.
fn field_size(text: &[u8], field: Field) -> Option<usize>
    ensures { IfSome result (λ n. n ≤ length text.now) }
{
    if text.is_empty() || text[0] != b' ' {
        return None;
    }
    let end = 1 + first_end(&text[1..]);
    if is_field(&text[1..end], field) {
        Some(end)
    } else {
        None
    }
}

// Whether a text is these fields, each after a space.
pub fn has_fields(text: &[u8], fields: &[Field]) -> bool {
    let mut rest = text;
    for field in fields {
        match field_size(rest, *field) {
            Some(n) => rest = &rest[n..],
            None => return false,
        }
    }
    rest.is_empty()
}

// The number in a field, and 0 where the field is not a number.
pub fn number_at(text: &[u8], place: usize) -> u64 {
    read_number(nth_field(text, place)).unwrap_or(0)
}

// Puts the bytes of a field at the start of `out`, and answers how many there are; none where the
// field is not a string of bytes.
pub fn bytes_at(text: &[u8], place: usize, out: &mut [u8]) -> usize
    ensures { result ≤ length out.new }
{
    match hexadecimal::decode(nth_field(text, place), out) {
        Ok(n) => n,
        _ => 0,
    }
}

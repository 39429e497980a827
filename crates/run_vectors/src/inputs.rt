// What a run is given, as the fields of a line say. A function that fills an array answers the part that it has filled,
// or none where the field is out of form.
ghost use Rattle.std.specs.Prelude.{◌≡◌, length};

use crate::fields::{cut, number_of, size_of};

// Room for the longest span, and for the longest buffer. They are made here alone, since the check of
// a long array is slow.
pub fn span_room() -> [u8; 131072]
    ensures { 131072 ≡ length result }
{
    [0; 131072]
}

pub fn buffer_room() -> [u8; 65537]
    ensures { 65537 ≡ length result }
{
    [0; 65537]
}

pub fn put_bytes<'a>(text: &[u8], out: &'a mut [u8]) -> Option<&'a [u8]> {
    match text {
        [] => None,
        b"-" => Some(&out[..0]),
        _ => {
            let count = hexadecimal::decode(text, out).ok()?;
            out.get(..count)
        }
    }
}

// (i * 13 + 1) mod 251 + 1
fn pattern_byte(i: usize) -> u8 {
    ((i % 251 * 13 + 1) % 251 + 1) as u8
}

// COUNT or COUNT,PLACE
fn put_pattern<'a>(text: &[u8], out: &'a mut [u8]) -> Option<&'a [u8]> {
    let (count, place) = cut(text, b',');
    let count = size_of(count)?;
    for (i, byte) in out.get_mut(..count)?.iter_mut().enumerate() {
        *byte = pattern_byte(i);
    }
    if let Some(place) = place {
        *out.get_mut(size_of(place)?)? = 0;
    }
    out.get(..count)
}

pub fn put_span<'a>(text: &[u8], out: &'a mut [u8]) -> Option<&'a [u8]> {
    match text {
        [b'+', ..] => put_pattern(&text[1..], out),
        _ => put_bytes(text, out),
    }
}

// (i * 7 + 3) mod 256
fn buffer_byte(i: usize) -> u8 {
    ((i % 256 * 7 + 3) % 256) as u8
}

pub fn put_buffer(out: &mut [u8]) {
    for (i, byte) in out.iter_mut().enumerate() {
        *byte = buffer_byte(i);
    }
}

fn put_counted(out: &mut [u64]) {
    let mut next: u64 = 0;
    for value in out.iter_mut() {
        *value = next;
        next = next.wrapping_add(0x0101_0101_0101_0101);
    }
}

fn put_listed<'a>(text: &[u8], out: &'a mut [u64]) -> Option<&'a [u64]> {
    let mut count = 0;
    for (i, part) in text.split(|c| *c == b',').enumerate() {
        *out.get_mut(i)? = number_of(part)?;
        count = i + 1;
    }
    out.get(..count)
}

pub fn put_registers<'a>(text: &[u8], out: &'a mut [u64]) -> Option<&'a [u64]> {
    match text {
        [] => None,
        b"-" => Some(&out[..0]),
        [b'*', ..] => {
            put_counted(out);
            out.get(..size_of(&text[1..])?)
        }
        _ => put_listed(text, out),
    }
}

// NUMBER=VALUE, divided by commas.
pub fn put_variables(text: &[u8], out: &mut [u64; sizes::VARIABLE_COUNT]) -> Option<()> {
    if text == b"-".as_slice() {
        return Some(());
    }
    for setting in text.split(|c| *c == b',') {
        let (number, value) = cut(setting, b'=');
        *out.get_mut(size_of(number)?)? = number_of(value?)?;
    }
    Some(())
}

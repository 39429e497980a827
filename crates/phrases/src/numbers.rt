// Counts, addresses and values.
ghost use Rattle.std.specs.Prelude.{◌≡◌, ◌≤◌, length, drop};
ghost use Rattle.io.specs.Counts.{IsPrefixLen};
ghost use Rattle.text_buffer.specs.Text.{Appends};
ghost use Rattle.phrases.specs.Numbers.{count_text, hex_text, significant, signed_text, other_reading, value_text};

use text_buffer::TextBuffer;

// Appends a number of things: `1 byte`, `2 bytes`.
pub fn append_count(text: &mut TextBuffer, number: u64, word: &[u8])
    ensures count { IsPrefixLen text.new.end text.new.bytes.now }
    ensures text { Appends text.old.bytes.now text.old.end (count_text number word.now) text.new.bytes.now text.new.end }
    ensures lent { text.new.bytes.ghost_name ≡ text.old.bytes.ghost_name }
{
    text.append_number(number);
    text.append(b" ");
    text.append(word);
    if number != 1 {
        text.append(b"s");
    }
}

// Appends an address, in 16 digits.
pub fn append_address(text: &mut TextBuffer, address: u64)
    ensures count { IsPrefixLen text.new.end text.new.bytes.now }
    ensures text { Appends text.old.bytes.now text.old.end (hex_text address) text.new.bytes.now text.new.end }
    ensures lent { text.new.bytes.ghost_name ≡ text.old.bytes.ghost_name }
{
    let mut figures = [0u8; 16];
    let k = io::hex(address, 16, &mut figures);
    text.append(&figures[..k]);
}

// How many zeros stand in front of the first digit that counts.
fn zeros(figures: &[u8]) -> usize
    ensures place { drop result figures.now ≡ significant figures.now }
    ensures within { result ≤ length figures.now }
{
    for (n, figure) in figures.iter().enumerate() {
        if figures.len() - n == 1 {
            return n;
        }
        if *figure != b'0' {
            return n;
        }
    }
    figures.len()
}

fn append_significant(text: &mut TextBuffer, figures: &[u8])
    ensures text { Appends text.old.bytes.now text.old.end (significant figures.now) text.new.bytes.now text.new.end }
    ensures lent { text.new.bytes.ghost_name ≡ text.old.bytes.ghost_name }
{
    let n = zeros(figures);
    text.append(&figures[n..]);
}

// Appends a number as a signed one: with a minus from 2^63 on.
pub fn append_signed(text: &mut TextBuffer, value: u64)
    ensures count { IsPrefixLen text.new.end text.new.bytes.now }
    ensures text { Appends text.old.bytes.now text.old.end (signed_text value) text.new.bytes.now text.new.end }
    ensures lent { text.new.bytes.ghost_name ≡ text.old.bytes.ghost_name }
{
    if value < 9223372036854775808 {
        text.append_number(value);
        return;
    }
    text.append(b"-");
    text.append_number(u64::MAX - value + 1);
}

// The signed reading, where it differs: `-1, `.
fn append_other_reading(text: &mut TextBuffer, value: u64)
    ensures text { Appends text.old.bytes.now text.old.end (other_reading value) text.new.bytes.now text.new.end }
    ensures lent { text.new.bytes.ghost_name ≡ text.old.bytes.ghost_name }
{
    if value < 9223372036854775808 {
        text.append(b"");
        return;
    }
    append_signed(text, value);
    text.append(b", ");
}

// Appends a value in decimal and in hexadecimal: `42 (0x2a)`; from 2^63 on with the signed reading between them.
pub fn append_value(text: &mut TextBuffer, value: u64)
    ensures count { IsPrefixLen text.new.end text.new.bytes.now }
    ensures text { Appends text.old.bytes.now text.old.end (value_text value) text.new.bytes.now text.new.end }
    ensures lent { text.new.bytes.ghost_name ≡ text.old.bytes.ghost_name }
{
    text.append_number(value);
    text.append(b" (");
    append_other_reading(text, value);
    text.append(b"0x");
    let mut figures = [0u8; 16];
    let k = io::hex(value, 16, &mut figures);
    append_significant(text, &figures[..k]);
    text.append(b")");
}

// Numbers in bytes.
#![tactic(auto)]

ghost use Rattle.std.specs.Prelude.{◌≡◌, ◌+◌, ◌<◌, ◌≤◌, ◌^◌, length, take, drop};
ghost use Rattle.encoding.specs.BigEndian.{big_endian, big_bytes};
ghost use Rattle.encoding.specs.LittleEndian.{little_endian, little_bytes};
ghost use Rattle.encoding.specs.Written.{written_at};
ghost use Rattle.encoding.specs.Ranges.{AllBytes, AllWords};

// ---- what a slice's type says of all its elements, for a caller to know it of any slice
pub fn bytes_known(bytes: &[u8])
    ensures { AllBytes bytes.now }
{}

pub fn words_known(words: &[u64])
    ensures { AllWords words.now }
{}

// ---- numbers

// A byte as a 64-bit number that the caller knows to be below 256: `u64::from` says only that it is the byte.
pub fn wide(byte: u8) -> u64
    ensures { (result ≡ byte) × (result < 256) }
{
    byte as u64
}

// The number in the `count` bytes from `at` on, most significant byte first.
pub fn big_endian(bytes: &[u8], at: usize, count: usize) -> u64
    requires count { count ≤ 8 }
    requires within { at + count ≤ length bytes.now }
    ensures { (result ≡ big_endian bytes.now at count) × (result < 256 ^ count) }
{
    let mut number: u64 = 0;
    for read in 0..count {
        number = number * 256 + u64::from(bytes[at + read]);
    }
    number
}

// The number whose bytes these are, least significant byte first.
pub fn little_endian(bytes: &[u8]) -> u64
    requires { length bytes.now ≤ 8 }
    ensures { (result ≡ little_endian bytes.now) × (result < 256 ^ length bytes.now) }
{
    let mut value: u64 = 0;
    for read in (0..bytes.len()).rev() {
        value = value * 256 + u64::from(bytes[read]);
    }
    value
}

// Writes the `count` bytes of `value` from `at` on, least significant byte first.
pub fn put_little(out: &mut [u8], at: usize, value: u64, count: usize)
    requires { at + count ≤ length out.old }
    ensures { out.new ≡ written_at out.old at (little_bytes count value) }
{
    let mut rest = value;
    for put in 0..count {
        out[at + put] = (rest % 256) as u8;
        rest = rest / 256;
    }
}

// Writes the `count` bytes of `value` from `at` on, most significant byte first.
pub fn put_big(out: &mut [u8], at: usize, value: u64, count: usize)
    requires { at + count ≤ length out.old }
    ensures { out.new ≡ written_at out.old at (big_bytes count value) }
{
    let mut rest = value;
    for put in (0..count).rev() {
        out[at + put] = (rest % 256) as u8;
        rest = rest / 256;
    }
}

// Writes a copy of `bytes` from `at` on, byte by byte: so few that the library's copy, a call, costs more.
fn put_each(out: &mut [u8], at: usize, bytes: &[u8])
    requires { at + length bytes.now ≤ length out.old }
    ensures { out.new ≡ written_at out.old at bytes.now }
{
    for copied in 0..bytes.len() {
        out[at + copied] = bytes[copied];
    }
}

// The same in one move.
fn put_whole(out: &mut [u8], at: usize, bytes: &[u8])
    requires { at + length bytes.now ≤ length out.old }
    ensures { out.new ≡ written_at out.old at bytes.now }
{
    out[at..at + bytes.len()].copy_from_slice(bytes);
}

// The same in two moves of `width` bytes, which may overlap: where `width` is a literal, a move is one or two machine
// words.
fn put_two(out: &mut [u8], at: usize, bytes: &[u8], width: usize)
    requires width { width ≤ 16 }
    requires one { width ≤ length bytes.now }
    requires two { length bytes.now ≤ width + width }
    requires room { at + length bytes.now ≤ length out.old }
    ensures { out.new ≡ written_at out.old at bytes.now }
{
    let last = bytes.len() - width;
    put_whole(out, at, &bytes[0..width]);
    put_whole(out, at + last, &bytes[last..]);
}

// Writes a copy of `bytes` from `at` on. A few bytes are moved in place, which costs less than a call.
pub fn put_bytes(out: &mut [u8], at: usize, bytes: &[u8])
    requires { at + length bytes.now ≤ length out.old }
    ensures { out.new ≡ written_at out.old at bytes.now }
{
    let count = bytes.len();
    if count <= 8 {
        if count < 4 {
            put_each(out, at, bytes);
        } else {
            put_two(out, at, bytes, 4);
        }
    } else if count <= 32 {
        if count <= 16 {
            put_two(out, at, bytes, 8);
        } else {
            put_two(out, at, bytes, 16);
        }
    } else {
        put_whole(out, at, bytes);
    }
}
